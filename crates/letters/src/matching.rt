// Letters that were got, each with its sending.
ghost use Rattle.std.specs.Prelude.{◌≤◌, length, IfOk, OnOk};
ghost use Rattle.records.specs.Failure.{IfRefused};
ghost use Rattle.records.specs.Record.{records_of};
ghost use Rattle.letters.specs.Noting.{Noted, Wrong};
ghost use Rattle.letters.specs.Matching.{MachineMatched, Unmatched, LettersOf};

use crate::letter::Letter;
use crate::noting::note_all;
use crate::seen::Seen;
use records::doing::{Doing, Kind};
use records::failure::Failure;
use records::place::Place;
use records::records::Records;
use records::refusal::Refusal;
use std::alloc::Global;

// Puts the letters that one machine got behind those of the machines before it, up to the first that nobody sent. That its doings are
// few is asked for here too: it is in the type of all records, and not in that of one.
fn match_machine(
    letters: &mut Vec<Letter>,
    seen: &Seen,
    machine: u8,
    doings: &[Doing],
) -> Result<(), Failure<Refusal>>
    requires short { length doings.now ≤ 500 }
    ensures ok { OnOk result (MachineMatched machine doings.now seen.now letters.old.items letters.new.items) }
    ensures refused { IfRefused result (Unmatched machine doings.now seen.now letters.old.items) }
{
    for (before, doing) in doings.iter().enumerate() {
        let Kind::Gets(letter) = doing.kind else {
            continue;
        };
        let got = (before + 1) as u16;
        let Some(sender) = seen.sender(letter) else {
            return Err(Failure::Refused(Refusal::Unsent(Place {
                machine,
                doing: got,
            })));
        };
        letters.push(Letter {
            from: sender.machine,
            sent: sender.doing,
            to: machine,
            got,
        })?;
    }
    Ok(())
}

// The letters that were got, all doings being noted.
fn match_all(heap: Global, seen: &Seen, records: &Records) -> Result<Vec<Letter>, Failure<Refusal>>
    requires noted { Noted (records_of records.now.list.items) seen.now }
    ensures ok { IfOk result (λ letters. LettersOf (records_of records.now.list.items) letters.items) }
    ensures refused { IfRefused result (Wrong (records_of records.now.list.items)) }
{
    let mut letters = Vec::new(heap);
    for (machine, recorded) in records.list.iter().enumerate() {
        match_machine(&mut letters, seen, machine as u8, &recorded.doings)?;
    }
    Ok(letters)
}

// The letters that were got, each with its sending.
pub(crate) fn match_letters(
    heap: Global,
    records: &Records,
) -> Result<Vec<Letter>, Failure<Refusal>>
    ensures ok { IfOk result (λ letters. LettersOf (records_of records.now.list.items) letters.items) }
    ensures refused { IfRefused result (Wrong (records_of records.now.list.items)) }
{
    let seen = note_all(heap, records)?;
    match_all(heap, &seen, records)
}
