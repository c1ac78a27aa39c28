// What programs take from outside and leave there: the words of the command line, files, and what is printed. No contract can
// speak of those.
#![tactic(auto)]

pub mod refusals;
pub mod stop;

use crate::stop::{FileError, Stop};
use records::reading::TELLING;
use std::fs::File;
use std::io::Read;
use std::{env, fs, io};

// The words of the command line after the program's name.
pub fn words(rt: &HostRuntime) -> anyhow::Result<Vec<String>> {
    Ok(env::args(rt)?.skip(1).collect(rt.alloc())?)
}

// Those words as `match` takes them.
pub fn texts<'a>(rt: &HostRuntime, words: &'a [String]) -> anyhow::Result<Vec<&'a str>> {
    Ok(words.iter().map(|word| word.as_str()).collect(rt.alloc())?)
}

// The first bytes of a file, at most so many: a larger file is never kept in memory whole.
pub fn read_beginning(rt: &HostRuntime, name: &str, most: u64) -> io::Result<Vec<u8>> {
    let file = File::open(rt, name)?;
    let mut bytes = Vec::new(rt.alloc());
    file.take(most).read_to_end(&mut bytes)?;
    Ok(bytes)
}

// All bytes of a file.
pub fn read_all(rt: &HostRuntime, name: &str) -> io::Result<Vec<u8>> {
    fs::read(rt, name)
}

// What the records' files begin with, as far as it tells.
pub fn beginnings<'a>(
    rt: &HostRuntime,
    names: &[&'a str],
) -> Result<Vec<Vec<u8>>, Stop<FileError<'a>>> {
    let mut files = Vec::new(rt.alloc());
    for name in names {
        let beginning = read_beginning(rt, name, TELLING);
        files.push(beginning.map_err(|error| FileError::Unread(name, error))?)?;
    }
    Ok(files)
}

// Writes a file beside the one that is named, which then takes its place, so that none is ever half written.
fn replace(rt: &HostRuntime, name: &str, bytes: &[u8]) -> io::Result<()> {
    let part = format!(in rt.alloc(); "{name}.part")?;
    if let Err(error) = fs::write(rt, part.as_str(), bytes) {
        let _ = fs::remove_file(rt, part.as_str());
        return Err(error);
    }
    fs::rename(rt, part.as_str(), name)
}

// Writes all the bytes, or leaves the file as it was. What is no ordinary file, as a device, is written to and not replaced.
pub fn write_whole(rt: &HostRuntime, name: &str, bytes: &[u8]) -> io::Result<()> {
    match fs::metadata(rt, name) {
        Ok(there) if !there.is_file() => fs::write(rt, name, bytes),
        _ => replace(rt, name, bytes),
    }
}
