// `all RECORD..`: goes through all cuts of a small run and answers each question by looking at each.
#![tactic(auto)]

use cli::refusals::report_refusal;
use cli::stop::{FileError, Stop, help, status};
use cli::{beginnings, texts, words};
use exhaustive::extreme::Extreme;
use exhaustive::findings::Findings;
use exhaustive::looking::look_at_files;
use runs::counts::Counts;
use std::io;
use std::process::ExitCode;

const USAGE: &str = "usage: all RECORD..
  RECORD..  the machines' records, in order of machines from 0";

// A cut, as so many doings of each machine: the first so many of forty counts, where an answer has a list.
fn tell_cut(rt: &HostRuntime, machines: usize, cut: Counts) -> io::Result<()> {
    for count in cut.of.iter().take(machines) {
        print!(rt; " {count}")?;
    }
    println!(rt)
}

fn tell_extreme(
    rt: &HostRuntime,
    question: &str,
    machines: usize,
    extreme: Extreme,
) -> io::Result<()> {
    let sum = extreme.sum;
    print!(rt; "{question} {sum} at")?;
    tell_cut(rt, machines, extreme.at)
}

fn tell_findings(rt: &HostRuntime, machines: usize, found: Findings) -> io::Result<()> {
    let moments = found.moments;
    println!(rt; "moments {moments}")?;
    match found.first {
        Some(first) => {
            print!(rt; "may yes")?;
            tell_cut(rt, machines, first)?;
        }
        None => println!(rt; "may no")?,
    }
    let must = if found.must { "yes" } else { "no" };
    println!(rt; "must {must}")?;
    tell_extreme(rt, "least", machines, found.least)?;
    tell_extreme(rt, "most", machines, found.most)
}

fn tell_too_many(rt: &HostRuntime) -> io::Result<()> {
    println!(rt; "too many cuts")?;
    println!(rt; "The run has more than 1,000,000 cuts, and this program looks at each.")
}

fn all<'a>(rt: &HostRuntime, names: &[&'a str]) -> Result<ExitCode, Stop<FileError<'a>>> {
    let files = beginnings(rt, names)?;
    match look_at_files(rt.alloc(), &files) {
        Ok(Some(found)) => {
            tell_findings(rt, files.len(), found)?;
            return Ok(ExitCode::SUCCESS);
        }
        Ok(None) => tell_too_many(rt)?,
        Err(failure) => report_refusal(rt, &failure.refused()?, names)?,
    }
    Ok(ExitCode::FAILURE)
}

fn run<'a>(rt: &HostRuntime, words: &[&'a str]) -> Result<ExitCode, Stop<FileError<'a>>> {
    match words {
        [] => Err(Stop::Usage),
        ["--help"] => help(rt, USAGE),
        names => all(rt, names),
    }
}

fn main(rt: HostRuntime) -> anyhow::Result<ExitCode> {
    let words = words(&rt)?;
    let texts = texts(&rt, &words)?;
    status(&rt, "all", USAGE, run(&rt, &texts))
}
