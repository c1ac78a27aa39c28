// `encode MACHINE TEXT RECORD`: a machine's record from a text that people can write.
#![tactic(auto)]

use cli::stop::{FileError, Stop, help, status};
use cli::{texts, words, write_whole};
use records::doing::{Doing, Kind};
use records::record::Record;
use records::writing::{Beyond, write_record};
use std::alloc::Global;
use std::process::ExitCode;
use std::{fmt, fs};

const USAGE: &str = "usage: encode MACHINE TEXT RECORD
  MACHINE  the machine's number, 0 to 39
  TEXT     a file with a line for how things were at first, and one for each doing:
             SIGN AMOUNT                  neither sends nor gets a letter
             SIGN AMOUNT sends LETTER
             SIGN AMOUNT gets LETTER
           SIGN is yes or no, AMOUNT is up to 1000000, LETTER is the letter's number from 1.
           What follows # is passed over, and so are empty lines.
  RECORD   the file that the record is written to";

// Why no record is made.
#[derive(Drop)]
enum TextError<'a> {
    File(FileError<'a>),
    // the text has no line for how things were at first
    Empty(&'a str),
    // nothing known is in the line of this number
    Unclear(&'a str, usize),
    // so much of it is beyond the limits
    Beyond(Beyond),
}

impl<'a> From<FileError<'a>> for TextError<'a> {
    fn from(error: FileError<'a>) -> TextError<'a> {
        TextError::File(error)
    }
}

impl fmt::Display for TextError<'_> {
    fn fmt<W: fmt::Write>(&self, f: &mut fmt::Formatter<W>) -> fmt::Result {
        match self {
            TextError::File(error) => write!(f, "{error}"),
            TextError::Empty(text) => {
                write!(f, "{text} has no line for how things were at first")
            }
            TextError::Unclear(text, line) => {
                write!(f, "{text}, line {line}, is not as `encode --help` says")
            }
            TextError::Beyond(Beyond::Head) => write!(
                f,
                "the amount at first is beyond 1000000, or there are more than 500 doings"
            ),
            TextError::Beyond(Beyond::Doing(doing)) => write!(
                f,
                "doing {doing} is beyond the limits: an amount above 1000000, or letter 0"
            ),
        }
    }
}

// A number in digits alone.
fn number(word: &str) -> Option<u32> {
    if !word.bytes().all(|byte| byte.is_ascii_digit()) {
        return None;
    }
    word.parse().ok()
}

fn machine(word: &str) -> Option<u8> {
    let machine = u8::try_from(number(word)?).ok();
    machine.filter(|machine| *machine < 40)
}

// The state after a doing and what it did, in a line's words.
fn doing(line: &str) -> Option<Doing> {
    let mut words = line.split_whitespace();
    let sign = match words.next()? {
        "yes" => true,
        "no" => false,
        _ => return None,
    };
    let amount = number(words.next()?)?;
    let kind = match words.next() {
        None => Kind::Neither,
        Some("sends") => Kind::Sends(number(words.next()?)?),
        Some("gets") => Kind::Gets(number(words.next()?)?),
        Some(_) => return None,
    };
    match words.next() {
        None => Some(Doing { kind, sign, amount }),
        Some(_) => None,
    }
}

// A line up to its comment.
fn uncommented(line: &str) -> &str {
    line.split('#').next().unwrap_or("").trim()
}

// The record that the lines of the text say: the first is how things were at first, each other a doing.
fn record<'a>(heap: Global, name: &'a str, text: &str) -> Result<Record, Stop<TextError<'a>>> {
    let mut lines = text
        .lines()
        .map(uncommented)
        .zip(1usize..)
        .filter(|(line, _)| !line.is_empty());
    let Some((first, number)) = lines.next() else {
        return Err(Stop::Told(TextError::Empty(name)));
    };
    let Some(
        Doing {
            kind: Kind::Neither,
            sign,
            amount,
        },
    ) = doing(first)
    else {
        return Err(Stop::Told(TextError::Unclear(name, number)));
    };
    let mut doings = Vec::new(heap);
    for (line, number) in lines {
        let Some(doing) = doing(line) else {
            return Err(Stop::Told(TextError::Unclear(name, number)));
        };
        doings.push(doing)?;
    }
    Ok(Record {
        sign,
        amount,
        doings,
    })
}

fn encode<'a>(
    rt: &HostRuntime,
    machine: u8,
    text: &'a str,
    name: &'a str,
) -> Result<ExitCode, Stop<TextError<'a>>> {
    let lines = fs::read_to_string(rt, text).map_err(|error| FileError::Unread(text, error))?;
    let recorded = record(rt.alloc(), text, lines.as_str())?;
    let bytes = match write_record(rt.alloc(), &recorded, machine) {
        Ok(bytes) => bytes,
        Err(failure) => return Err(Stop::Told(TextError::Beyond(failure.refused()?))),
    };
    let written = write_whole(rt, name, &bytes);
    written.map_err(|error| FileError::Unwritten(name, error))?;
    Ok(ExitCode::SUCCESS)
}

fn run<'a>(rt: &HostRuntime, words: &[&'a str]) -> Result<ExitCode, Stop<TextError<'a>>> {
    match words {
        ["--help"] => help(rt, USAGE),
        [number, text, name] => {
            let Some(machine) = machine(number) else {
                return Err(Stop::Usage);
            };
            encode(rt, machine, text, name)
        }
        _ => Err(Stop::Usage),
    }
}

fn main(rt: HostRuntime) -> anyhow::Result<ExitCode> {
    let words = words(&rt)?;
    let texts = texts(&rt, &words)?;
    status(&rt, "encode", USAGE, run(&rt, &texts))
}
