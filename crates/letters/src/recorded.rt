// From files to matched records, or a refusal.
ghost use Rattle.std.specs.Prelude.{◌≡◌, ℕ, List, IfOk};
ghost use Rattle.records.specs.Failure.{IfRefused};
ghost use Rattle.records.specs.Record.{records_of, doings_in};
ghost use Rattle.records.specs.Reading.{files_of, BeginAlike};
ghost use Rattle.letters.specs.Recorded.{RecordedAs, RefusedFor};

use crate::matched::Matched;
use crate::matching::match_letters;
use records::failure::Failure;
use records::reading::read_files;
use records::refusal::Refusal;
use std::alloc::Global;

impl Matched {
    // How many doings there are in all.
    pub fn doings(&self) -> usize
        ensures { result ≡ doings_in (records_of self.now.records.list.items) }
    {
        self.records
            .list
            .iter()
            .map(|recorded| recorded.doings.len())
            .sum()
    }
}

// What the files recorded, in order of machines, with their letters matched; or why not, by the lowest number. As in reading, the
// telling beginning of a long file is enough.
pub fn read_recorded(heap: Global, files: &[Vec<u8>]) -> Result<Matched, Failure<Refusal>>
    ensures ok { IfOk result (λ matched. (whole : List (List ℕ)) → BeginAlike whole (files_of files.now) → RecordedAs whole matched) }
    ensures refused { IfRefused result (λ why. (whole : List (List ℕ)) → BeginAlike whole (files_of files.now) → RefusedFor whole why) }
{
    let records = read_files(heap, files)?;
    let letters = match_letters(heap, &records)?;
    Ok(Matched { records, letters })
}

#[cfg(test)]
mod tests {
    use super::*;
    use records::doing::{Doing, Kind};
    use records::record::Record;
    use records::writing::write_record;
    use std::test::Fail;

    // The file of a machine that does one thing with a letter, its amount being so much after it.
    fn file(heap: Global, machine: u8, kind: Kind, amount: u32) -> Result<Vec<u8>, Fail> {
        let mut doings = Vec::new(heap);
        doings.push(Doing {
            kind,
            sign: true,
            amount,
        })?;
        let recorded = Record {
            sign: false,
            amount: 1_000_000,
            doings,
        };
        match write_record(heap, &recorded, machine) {
            Ok(bytes) => Ok(bytes),
            Err(_) => Err("beyond the limits, or no memory".into()),
        }
    }

    #[test]
    fn what_was_written_is_read(rt: HostRuntime) -> Result<(), Fail> {
        let heap = rt.alloc();
        let mut files = Vec::new(heap);
        files.push(file(heap, 0, Kind::Gets(7), 1_000_000)?)?;
        files.push(file(heap, 1, Kind::Sends(7), 0)?)?;
        let Ok(run) = read_recorded(heap, &files) else {
            return Err("refused".into());
        };
        assert_eq!(rt; run.doings(), 2);
        let Some(letter) = run.letters.first() else {
            return Err("no letter".into());
        };
        assert_eq!(rt; letter.from, 1);
        assert_eq!(rt; letter.to, 0);
        Ok(())
    }

    #[test]
    fn a_letter_that_nobody_sent(rt: HostRuntime) -> Result<(), Fail> {
        let heap = rt.alloc();
        let mut files = Vec::new(heap);
        files.push(file(heap, 0, Kind::Neither, 0)?)?;
        files.push(file(heap, 1, Kind::Gets(7), 0)?)?;
        let Err(Failure::Refused(refusal)) = read_recorded(heap, &files) else {
            return Err("not refused".into());
        };
        let bytes = refusal.bytes(heap)?;
        assert!(rt; bytes.as_slice() == [78, 3, 1, 0, 1].as_slice());
        Ok(())
    }
}
