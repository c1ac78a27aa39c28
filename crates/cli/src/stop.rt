// How programs end: with a status, or stopped by what they say of themselves.
use std::alloc::{AllocError, AllocFailed};
use std::fmt::Display;
use std::process::ExitCode;
use std::{fmt, io};

// A file that can't be read, or written, and why.
#[derive(Drop)]
pub enum FileError<'a> {
    Unread(&'a str, io::Error),
    Unwritten(&'a str, io::Error),
}

impl fmt::Display for FileError<'_> {
    fn fmt<W: fmt::Write>(&self, f: &mut fmt::Formatter<W>) -> fmt::Result {
        match self {
            FileError::Unread(name, error) => write!(f, "{name} can't be read: {error}"),
            FileError::Unwritten(name, error) => write!(f, "{name} can't be written: {error}"),
        }
    }
}

// Why a program stops before it has done what it was asked for.
#[derive(Drop)]
pub enum Stop<E> {
    // the words are not as the usage says, which is then told
    Usage,
    // told under the program's name
    Told(E),
    // no memory, or nowhere to print
    Other(anyhow::Error),
}

impl<'a, E: From<FileError<'a>>> From<FileError<'a>> for Stop<E> {
    fn from(error: FileError<'a>) -> Stop<E> {
        Stop::Told(E::from(error))
    }
}

impl<E> From<AllocError> for Stop<E> {
    fn from(error: AllocError) -> Stop<E> {
        Stop::Other(anyhow::Error::from(error))
    }
}

impl<E, T: Drop> From<AllocFailed<T>> for Stop<E> {
    fn from(error: AllocFailed<T>) -> Stop<E> {
        Stop::Other(anyhow::Error::from(AllocError::from(error)))
    }
}

impl<E> From<io::Error> for Stop<E> {
    fn from(error: io::Error) -> Stop<E> {
        Stop::Other(anyhow::Error::from(error))
    }
}

impl<E> From<anyhow::Error> for Stop<E> {
    fn from(error: anyhow::Error) -> Stop<E> {
        Stop::Other(error)
    }
}

// Prints the usage, as is asked for by `--help`.
pub fn help<E>(rt: &HostRuntime, usage: &str) -> Result<ExitCode, Stop<E>> {
    println!(rt; "{usage}")?;
    Ok(ExitCode::SUCCESS)
}

// The status of a program that came to this. Why it stopped is told on standard error.
pub fn status<E: Display + Drop>(
    rt: &HostRuntime,
    program: &str,
    usage: &str,
    end: Result<ExitCode, Stop<E>>,
) -> anyhow::Result<ExitCode> {
    match end {
        Ok(status) => return Ok(status),
        Err(Stop::Usage) => eprintln!(rt; "{usage}")?,
        Err(Stop::Told(error)) => eprintln!(rt; "{program}: {error}")?,
        Err(Stop::Other(error)) => return Err(error),
    }
    Ok(ExitCode::FAILURE)
}
