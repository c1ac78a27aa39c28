// Refusals in words.
use records::place::Place;
use records::refusal::Refusal;
use std::{fmt, io};

// What a refusal means. The files of the records are named.
#[derive(Clone, Copy)]
pub struct Why<'a> {
    pub refusal: &'a Refusal,
    pub names: &'a [&'a str],
}

// A refusal by form; the file, where there is one, is named.
fn write_form<W: fmt::Write>(
    f: &mut fmt::Formatter<W>,
    place: Place,
    names: &[&str],
) -> fmt::Result {
    let Some(name) = names.get(usize::from(place.machine)) else {
        return writeln!(f, "There is no record.");
    };
    match place {
        Place { machine: 40, .. } => writeln!(
            f,
            "There are more than 40 records; {name} is the first too many."
        ),
        Place { machine, doing: 0 } => writeln!(
            f,
            "{name} is no record of machine {machine}: what stands before its first doing is wrong or cut short, or more follows where there is none."
        ),
        Place { machine, doing } => writeln!(
            f,
            "{name} is no record of machine {machine}: its doing {doing} is wrong or cut short, or more follows after its last."
        ),
    }
}

// A ring, doing by doing.
fn write_ring<W: fmt::Write>(f: &mut fmt::Formatter<W>, ring: &[Place]) -> fmt::Result {
    writeln!(
        f,
        "No run can have made these records: each of these doings comes before the next, and the last before the first."
    )?;
    for Place { machine, doing } in ring {
        writeln!(f, "  doing {doing} of machine {machine}")?;
    }
    Ok(())
}

impl fmt::Display for Why<'_> {
    fn fmt<W: fmt::Write>(&self, f: &mut fmt::Formatter<W>) -> fmt::Result {
        match self.refusal {
            Refusal::Form(place) => write_form(f, *place, self.names),
            Refusal::Again(Place { machine, doing }) => writeln!(
                f,
                "Doing {doing} of machine {machine} sends a letter that was sent already, or gets one that was got already."
            ),
            Refusal::Unsent(Place { machine, doing }) => {
                writeln!(
                    f,
                    "Doing {doing} of machine {machine} gets a letter that nobody sent."
                )
            }
            Refusal::Ring(ring) => write_ring(f, ring),
        }
    }
}

// A refusal: a line that programs can read, then what it means. Each `?` makes the error that the function around it hands on; a
// function that is generic in the error would move each result once more.
macro_rules! tell {
    ($rt:ident, $refusal:ident, $names:ident) => {{
        let number = $refusal.number();
        print!($rt; "refused {number} at")?;
        for Place { machine, doing } in &$refusal.places($rt.alloc())? {
            print!($rt; " {machine} {doing}")?;
        }
        let why = Why { refusal: $refusal, names: $names };
        print!($rt; "\n{why}")?;
    }};
}

// Tells a refusal to a caller that asks of an error what kind it is: want of memory has a kind among those of `io::Error`.
pub fn tell_refusal(rt: &HostRuntime, refusal: &Refusal, names: &[&str]) -> io::Result<()> {
    tell!(rt, refusal, names);
    Ok(())
}

// Tells a refusal to a program that any error stops. Want of memory is then told in its own words; an `io::Error` has others for it.
pub fn report_refusal(rt: &HostRuntime, refusal: &Refusal, names: &[&str]) -> anyhow::Result<()> {
    tell!(rt, refusal, names);
    Ok(())
}

#[cfg(test)]
mod tests {
    use super::*;
    use std::test::Fail;

    #[test]
    fn a_refusal_is_told(rt: HostRuntime) -> Result<(), Fail> {
        let refusal = Refusal::Unsent(Place {
            machine: 1,
            doing: 1,
        });
        let told: io::Result<()> = tell_refusal(&rt, &refusal, &[]);
        told?;
        let reported: anyhow::Result<()> = report_refusal(&rt, &refusal, &[]);
        reported?;
        Ok(())
    }
}
