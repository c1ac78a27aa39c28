// Who sent and who got each letter, noted doing by doing.
ghost use Rattle.std.specs.Prelude.{◌≡◌, ◌<◌, ◌≤◌, length, IfOk, OnOk};
ghost use Rattle.records.specs.Failure.{IfRefused};
ghost use Rattle.records.specs.declared.doing.Kind.TheVariants.{Sends};
ghost use Rattle.records.specs.Record.{records_of};
ghost use Rattle.std.specs.BTreeMap.{get};
ghost use Rattle.letters.specs.Seen.{NotedIn, seen_at, Nothing, Put};
ghost use Rattle.letters.specs.Noting.{MachineNoted, NotedAgain, Noted, Wrong};
ghost use Rattle.std.specs.Ordering.{nat_cmp};

use crate::seen::Seen;
use records::doing::{Doing, Kind};
use records::failure::Failure;
use records::place::Place;
use records::records::Records;
use records::refusal::Refusal;
use std::alloc::{AllocError, Global};
use std::collections::BTreeMap;

// Notes the doing that did something with a letter, and says whether one was noted already.
fn note(map: &mut BTreeMap<u32, Place>, letter: u32, place: Place) -> Result<bool, AllocError>
    ensures notes { IfOk result (NotedIn map.old map.new letter place) }
{
    Ok(map.insert(letter, place)?.is_some())
}

// The doing that is noted for a letter.
fn noted(map: &BTreeMap<u32, Place>, letter: u32) -> Option<Place>
    ensures { result ≡ get nat_cmp map.now letter }
{
    map.get(&letter).copied()
}

impl Seen {
    fn new(heap: Global) -> Seen
        ensures { Nothing result }
    {
        Seen {
            sent: BTreeMap::new(heap),
            got: BTreeMap::new(heap),
        }
    }

    // Notes the doing at this place, and says whether an earlier one did the same with the letter.
    fn put(&mut self, kind: Kind, place: Place) -> Result<bool, AllocError>
        ensures { IfOk result (Put self.old self.new kind place) }
    {
        match kind {
            Kind::Neither => Ok(false),
            Kind::Sends(letter) => note(&mut self.sent, letter, place),
            Kind::Gets(letter) => note(&mut self.got, letter, place),
        }
    }

    // The doing that sent this letter.
    pub(crate) fn sender(&self, letter: u32) -> Option<Place>
        ensures { result ≡ seen_at self.now (Sends letter) }
    {
        noted(&self.sent, letter)
    }
}

// Notes one machine's doings, up to the first that does again what an earlier one did. The limit on them is in the type of all
// records; one machine's alone don't have it, so that it is asked for here and where they are matched.
fn note_machine(seen: &mut Seen, machine: u8, doings: &[Doing]) -> Result<(), Failure<Refusal>>
    requires short { length doings.now ≤ 500 }
    ensures ok { OnOk result (MachineNoted machine doings.now seen.old seen.new) }
    ensures refused { IfRefused result (NotedAgain machine doings.now seen.old) }
{
    for (before, doing) in doings.iter().enumerate() {
        let here = Place {
            machine,
            doing: (before + 1) as u16,
        };
        if seen.put(doing.kind, here)? {
            return Err(Failure::Refused(Refusal::Again(here)));
        }
    }
    Ok(())
}

// Notes all doings, by machine, then doing. What is wrong with records is said by three functions in the same words: it is what each
// promises, and no fact about a value that they share.
pub(crate) fn note_all(heap: Global, records: &Records) -> Result<Seen, Failure<Refusal>>
    ensures ok { IfOk result (Noted (records_of records.now.list.items)) }
    ensures refused { IfRefused result (Wrong (records_of records.now.list.items)) }
{
    let mut seen = Seen::new(heap);
    for (machine, recorded) in records.list.iter().enumerate() {
        note_machine(&mut seen, machine as u8, &recorded.doings)?;
    }
    Ok(seen)
}
