// Records written as bytes.
ghost use Rattle.std.specs.Prelude.{◌≡◌, ◌↔◌, ◌≤◌, IsTrue, length, IfOk, OnOk, ◌++◌};
ghost use Rattle.records.specs.Record.{record_of, DoingFits, DoingsFit, kind_code, letter_in, head_bytes, doing_bytes, doings_bytes};
ghost use Rattle.records.specs.Failure.{IfRefused};
ghost use Rattle.records.specs.Writing.{AtDoing, FirstBeyond, Form, IsBeyond};

use crate::bytes::Bytes;
use crate::doing::{Doing, Kind};
use crate::failure::Failure;
use crate::record::{Head, Record};
use std::alloc::{AllocError, Global};

// What of a record is the first that is beyond the limits: what stands before its doings, or the doing of this number.
#[derive(Clone, Copy)]
pub enum Beyond {
    Head,
    Doing(u16),
}

impl Kind {
    // The byte that says it: no cast, since a case with a letter has no number of its own.
    fn code(self) -> u8
        ensures { result ≡ kind_code self }
    {
        match self {
            Kind::Neither => 0,
            Kind::Sends(_) => 1,
            Kind::Gets(_) => 2,
        }
    }

    // The letter's number, 0 where there is none, as the bytes have it. By hand: two numbers say a kind, and no cast gives a case's value.
    fn letter(self) -> u32
        ensures { result ≡ letter_in self }
    {
        match self {
            Kind::Neither => 0,
            Kind::Sends(letter) | Kind::Gets(letter) => letter,
        }
    }
}

impl Doing {
    // Is it within the limits.
    fn fits(self) -> bool
        ensures { IsTrue result ↔ DoingFits self }
    {
        let numbered = match self.kind {
            Kind::Neither => true,
            Kind::Sends(letter) | Kind::Gets(letter) => letter > 0,
        };
        numbered && self.amount <= 1_000_000
    }
}

impl Bytes for Doing {
    ghost bytes = { doing_bytes };

    fn put(&self, out: &mut Vec<u8>) -> Result<(), AllocError> {
        out.push(self.kind.code())?;
        self.kind.letter().put(out)?;
        out.push(u8::from(self.sign))?;
        self.amount.put(out)
    }
}

impl Head {
    // Puts its bytes, as this machine's, behind what is there.
    fn put(self, machine: u8, out: &mut Vec<u8>) -> Result<(), AllocError>
        ensures { OnOk result (out.new.items ≡ out.old.items ++ head_bytes machine self.sign self.amount self.count) }
    {
        out.extend_from_slice(&[82, machine, u8::from(self.sign)])?;
        self.amount.put(out)?;
        self.count.put(out)
    }
}

// Puts the doings' bytes behind what is there, up to the first that is beyond the limits. That they are few is asked for, since a
// record may have more, and is refused for that before.
fn write_doings(doings: &[Doing], out: &mut Vec<u8>) -> Result<(), Failure<Beyond>>
    requires few { length doings.now ≤ 500 }
    ensures ok { OnOk result (DoingsFit doings.now × (out.new.items ≡ out.old.items ++ doings_bytes doings.now)) }
    ensures refused { IfRefused result (λ beyond. AtDoing beyond (FirstBeyond doings.now)) }
{
    for (before, doing) in doings.iter().enumerate() {
        if !doing.fits() {
            return Err(Failure::Refused(Beyond::Doing((before + 1) as u16)));
        }
        doing.put(out)?;
    }
    Ok(())
}

// The bytes of a record as this machine's.
pub fn write_record(
    heap: Global,
    recorded: &Record,
    machine: u8,
) -> Result<Vec<u8>, Failure<Beyond>>
    ensures ok { IfOk result (λ bytes. Form machine (record_of recorded.now) bytes.items) }
    ensures refused { IfRefused result (IsBeyond (record_of recorded.now)) }
{
    let doings = recorded.doings.as_slice();
    if recorded.amount > 1_000_000 || doings.len() > 500 {
        return Err(Failure::Refused(Beyond::Head));
    }
    let head = Head {
        sign: recorded.sign,
        amount: recorded.amount,
        count: doings.len() as u16,
    };
    let mut bytes = Vec::new(heap);
    head.put(machine, &mut bytes)?;
    write_doings(doings, &mut bytes)?;
    Ok(bytes)
}
