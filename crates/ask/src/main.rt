// `ask QUESTION ANSWER RECORD..`: what can be known from machines' records.
#![tactic(auto)]

use cli::refusals::report_refusal;
use cli::stop::{FileError, Stop, help, status};
use cli::{beginnings, texts, words, write_whole};
use letters::matched::Matched;
use order::asked::order_files;
use std::io;
use std::process::ExitCode;

const USAGE: &str = "usage: ask QUESTION ANSWER RECORD..
  QUESTION  may, must, least or most
  ANSWER    the file that the answer, or the refusal, is written to
  RECORD..  the machines' records, in order of machines from 0";

fn tell_undecided(rt: &HostRuntime, question: &str, matched: &Matched) -> io::Result<()> {
    let machines = matched.records.list.len();
    let doings = matched.doings();
    let letters = matched.letters.len();
    println!(rt; "{question} undecided")?;
    println!(rt; "machines {machines} doings {doings} letters {letters}")?;
    println!(rt;
        "The records are in form, each letter that was got was sent, and no doing comes before itself. This version does not decide questions yet; no answer was written."
    )
}

// No answer is shown so far, so asking always ends as a failure does.
fn ask<'a>(
    rt: &HostRuntime,
    question: &str,
    answer: &'a str,
    names: &[&'a str],
) -> Result<ExitCode, Stop<FileError<'a>>> {
    let files = beginnings(rt, names)?;
    match order_files(rt.alloc(), &files) {
        Ok(asked) => tell_undecided(rt, question, &asked.matched)?,
        Err(failure) => {
            let refusal = failure.refused()?;
            let written = write_whole(rt, answer, &refusal.bytes(rt.alloc())?);
            written.map_err(|error| FileError::Unwritten(answer, error))?;
            report_refusal(rt, &refusal, names)?;
        }
    }
    Ok(ExitCode::FAILURE)
}

// The questions' words stand here and in `check`: one of the four has a type so far, and each program matches all its words at once.
fn run<'a>(rt: &HostRuntime, words: &[&'a str]) -> Result<ExitCode, Stop<FileError<'a>>> {
    match words {
        ["--help"] => help(rt, USAGE),
        [
            question @ ("may" | "must" | "least" | "most"),
            answer,
            names @ ..,
        ] => ask(rt, question, answer, names),
        _ => Err(Stop::Usage),
    }
}

fn main(rt: HostRuntime) -> anyhow::Result<ExitCode> {
    let words = words(&rt)?;
    let texts = texts(&rt, &words)?;
    status(&rt, "ask", USAGE, run(&rt, &texts))
}
