// `check [QUESTION] ANSWER RECORD..`: whether an answer shows what it says of machines' records.
#![tactic(auto)]

use answers::question::Question;
use checker::judging::judge;
use checker::verdict::Verdict;
use cli::refusals::Why;
use cli::stop::{FileError, Stop, help, status};
use cli::{beginnings, read_all, texts, words};
use std::io;
use std::process::ExitCode;

const USAGE: &str = "usage: check [QUESTION] ANSWER RECORD..
  QUESTION  may, must, least or most; whatever the answer is to, where none is named
  ANSWER    the file with the answer
  RECORD..  the machines' records, in order of machines from 0";

// The question that an answer is judged by, where that is judged so far: the one that is named, or else by the second byte.
fn question_of(named: Option<&str>, bytes: &[u8]) -> Option<Question> {
    match (named, bytes) {
        (None, [77, 2..=4, ..]) => None,
        (None | Some("may"), _) => Some(Question::May),
        (Some(_), _) => None,
    }
}

fn tell_verdict(rt: &HostRuntime, verdict: &Verdict, names: &[&str]) -> io::Result<ExitCode> {
    match verdict.number() {
        None => println!(rt; "shown")?,
        Some(number) => println!(rt; "{number}")?,
    }
    match verdict {
        Verdict::Shown => return Ok(ExitCode::SUCCESS),
        Verdict::Refused(refusal) => {
            let why = Why { refusal, names };
            print!(rt; "{why}")?;
        }
        Verdict::NotItsForm => println!(rt;
            "The file is no answer in form to that question on these records."
        )?,
        Verdict::NotShown => println!(rt; "The answer does not show what it says.")?,
    }
    Ok(ExitCode::FAILURE)
}

fn tell_undecided(rt: &HostRuntime) -> io::Result<ExitCode> {
    println!(rt; "undecided")?;
    println!(rt; "This version judges answers to may alone; it says nothing of this one.")?;
    Ok(ExitCode::FAILURE)
}

// What is refused is refused whatever the answer is to.
fn check<'a>(
    rt: &HostRuntime,
    named: Option<&str>,
    answer: &'a str,
    names: &[&'a str],
) -> Result<ExitCode, Stop<FileError<'a>>> {
    let bytes = read_all(rt, answer).map_err(|error| FileError::Unread(answer, error))?;
    let files = beginnings(rt, names)?;
    let question = question_of(named, &bytes);
    let verdict = judge(
        rt.alloc(),
        &files,
        question.unwrap_or(Question::May),
        &bytes,
    )?;
    if question.is_some() || matches!(verdict, Verdict::Refused(_)) {
        Ok(tell_verdict(rt, &verdict, names)?)
    } else {
        Ok(tell_undecided(rt)?)
    }
}

fn run<'a>(rt: &HostRuntime, words: &[&'a str]) -> Result<ExitCode, Stop<FileError<'a>>> {
    match words {
        ["--help"] => help(rt, USAGE),
        [] | ["may" | "must" | "least" | "most"] => Err(Stop::Usage),
        [
            question @ ("may" | "must" | "least" | "most"),
            answer,
            names @ ..,
        ] => check(rt, Some(question), answer, names),
        [answer, names @ ..] => check(rt, None, answer, names),
    }
}

fn main(rt: HostRuntime) -> anyhow::Result<ExitCode> {
    let words = words(&rt)?;
    let texts = texts(&rt, &words)?;
    status(&rt, "check", USAGE, run(&rt, &texts))
}
