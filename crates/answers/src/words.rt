// Answers in words: a line that programs can read, and what it means.
use crate::answer::Answer;
use std::fmt;

// A count for each machine.
fn write_counts<W: fmt::Write>(f: &mut fmt::Formatter<W>, counts: &[u16]) -> fmt::Result {
    for count in counts {
        write!(f, " {count}")?;
    }
    writeln!(f)
}

// How far each machine has come, so that the doing can be found in its record.
fn write_places<W: fmt::Write>(f: &mut fmt::Formatter<W>, counts: &[u16]) -> fmt::Result {
    for (machine, count) in counts.iter().enumerate() {
        if *count == 0 {
            writeln!(f, "  machine {machine} before its first doing")?;
        } else {
            writeln!(f, "  machine {machine} after its doing {count}")?;
        }
    }
    Ok(())
}

impl fmt::Display for Answer {
    fn fmt<W: fmt::Write>(&self, f: &mut fmt::Formatter<W>) -> fmt::Result {
        match self {
            Answer::MayYes(cut) => {
                write!(f, "may yes")?;
                write_counts(f, cut)?;
                writeln!(
                    f,
                    "There may have been a moment at which all signs were yes. The first one that the records allow has"
                )?;
                write_places(f, cut)
            }
            Answer::MayNo => {
                writeln!(f, "may no")?;
                writeln!(
                    f,
                    "In no order that the records allow was there a moment at which all signs were yes."
                )
            }
        }
    }
}
