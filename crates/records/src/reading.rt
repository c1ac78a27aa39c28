// Records read from bytes.
ghost use Rattle.std.specs.Prelude.{◌≡◌, ℕ, List, IfOk, MatchOption, vec_len};
ghost use Rattle.records.specs.declared.failure.Failure.TheVariants.{Refused};
ghost use Rattle.records.specs.declared.refusal.Refusal.TheVariants.{Form};
ghost use Rattle.records.specs.Failure.{IfRefused};
ghost use Rattle.records.specs.Record.{record_of, records_of};
ghost use Rattle.records.specs.Refusal.{FileFault, IsForm};
ghost use Rattle.records.specs.Reading.{IsKind, NoKind, IsDoing, NoDoing, IsHead, NoHead, Begin, NoDoingAt, IsRecord, ReadAs, NoRecords, files_of, BeginAlike};

use crate::doing::{Doing, Kind};
use crate::failure::Failure;
use crate::place::Place;
use crate::record::{Head, Record};
use crate::records::Records;
use crate::refusal::Refusal;
use std::alloc::Global;

// How much of a file tells all about it: one byte more than the longest record has.
pub const TELLING: u64 = 5010;

// Refused, since the files are no records, which shows at this doing of this machine.
fn at_fault(machine: u8, doing: u16) -> Failure<Refusal>
    ensures { result ≡ Refused (Form (record { machine = machine; doing = doing })) }
{
    Failure::Refused(Refusal::Form(Place { machine, doing }))
}

// The kind that a byte and a letter's number say, if they do.
fn read_kind(code: u8, letter: u32) -> Option<Kind>
    ensures { MatchOption result (NoKind code letter) (IsKind code letter) }
{
    match (code, letter) {
        (0, 0) => Some(Kind::Neither),
        (1, n) if n > 0 => Some(Kind::Sends(n)),
        (2, n) if n > 0 => Some(Kind::Gets(n)),
        _ => None,
    }
}

// The doing that the first ten bytes are, if they are one.
fn read_doing(bytes: &[u8]) -> Option<Doing>
    ensures { MatchOption result (NoDoing bytes.now) (IsDoing bytes.now) }
{
    if bytes.len() < 10 || bytes[5] > 1 {
        return None;
    }
    let letter = u32::from_be_bytes([bytes[1], bytes[2], bytes[3], bytes[4]]);
    let amount = u32::from_be_bytes([bytes[6], bytes[7], bytes[8], bytes[9]]);
    if amount > 1_000_000 {
        return None;
    }
    Some(Doing {
        kind: read_kind(bytes[0], letter)?,
        sign: bytes[5] == 1,
        amount,
    })
}

// The head that the first nine bytes are, if they are that of this machine's record.
fn read_head(bytes: &[u8], machine: u8) -> Option<Head>
    ensures { MatchOption result (NoHead machine bytes.now) (IsHead machine bytes.now) }
{
    if bytes.len() < 9 || bytes[0] != 82 || bytes[1] != machine || bytes[2] > 1 {
        return None;
    }
    let amount = u32::from_be_bytes([bytes[3], bytes[4], bytes[5], bytes[6]]);
    let count = u16::from_be_bytes([bytes[7], bytes[8]]);
    if amount > 1_000_000 || count > 500 {
        return None;
    }
    Some(Head {
        sign: bytes[2] == 1,
        amount,
        count,
    })
}

// So many doings from the front of a machine's bytes behind its head.
fn read_doings(
    heap: Global,
    bytes: &[u8],
    machine: u8,
    count: u16,
) -> Result<Vec<Doing>, Failure<Refusal>>
    ensures ok { IfOk result (λ doings. (vec_len doings ≡ count) × Begin bytes.now doings.items) }
    ensures refused { IfRefused result (IsForm (λ place. (place.machine ≡ machine) × NoDoingAt bytes.now count place.doing)) }
{
    let mut doings = Vec::new(heap);
    // Counted, and not a loop over the bytes: they may end before so many doings do, and it is told at which.
    for before in 0..count {
        let Some(doing) = read_doing(&bytes[10 * usize::from(before)..]) else {
            return Err(at_fault(machine, before + 1));
        };
        doings.push(doing)?;
    }
    Ok(doings)
}

// The record of this machine that the bytes are, if they are one.
fn read_record(heap: Global, bytes: &[u8], machine: u8) -> Result<Record, Failure<Refusal>>
    ensures ok { IfOk result (λ recorded. IsRecord machine bytes.now (record_of recorded)) }
    ensures refused { IfRefused result (IsForm (λ place. (place.machine ≡ machine) × FileFault machine bytes.now place.doing)) }
{
    let Some(head) = read_head(bytes, machine) else {
        return Err(at_fault(machine, 0));
    };
    let doings = read_doings(heap, &bytes[9..], machine, head.count)?;
    if bytes.len() > 9 + 10 * usize::from(head.count) {
        return Err(at_fault(machine, head.count));
    }
    Ok(Record {
        sign: head.sign,
        amount: head.amount,
        doings,
    })
}

// The records that the files are, in order of machines from 0. Of a long file its telling beginning is enough: the promise
// is for all files that begin so.
pub fn read_files(heap: Global, files: &[Vec<u8>]) -> Result<Records, Failure<Refusal>>
    ensures ok { IfOk result (λ records. (whole : List (List ℕ)) → BeginAlike whole (files_of files.now) → ReadAs whole (records_of records.list.items)) }
    ensures refused { IfRefused result (IsForm (λ place. (whole : List (List ℕ)) → BeginAlike whole (files_of files.now) → NoRecords whole place)) }
{
    if files.is_empty() {
        return Err(at_fault(0, 0));
    }
    let mut list = Vec::new(heap);
    for (machine, file) in files.iter().enumerate() {
        if machine == 40 {
            return Err(at_fault(40, 0));
        }
        list.push(read_record(heap, file, machine as u8)?)?;
    }
    Ok(Records { list })
}
