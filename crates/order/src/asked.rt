// From files to an ordered run, or a refusal.
ghost use Rattle.std.specs.Prelude.{ℕ, List, IfOk};
ghost use Rattle.records.specs.Failure.{IfRefused};
ghost use Rattle.records.specs.Reading.{files_of, BeginAlike};
ghost use Rattle.order.specs.Asked.{OrderedAs, RefusedRightly};

use crate::ordered::Ordered;
use crate::ordering::order_run;
use letters::matched::Matched;
use letters::recorded::read_recorded;
use records::failure::Failure;
use records::refusal::Refusal;
use runs::making::make_run;
use std::alloc::Global;

// The run that files recorded, with what comes before what in it.
#[derive(Drop)]
pub struct Asked {
    pub matched: Matched,
    pub ordered: Ordered,
}

// The run that the files recorded, its doings ordered; or why not, by the lowest number. The telling beginning of a long file is
// enough.
pub fn order_files(heap: Global, files: &[Vec<u8>]) -> Result<Asked, Failure<Refusal>>
    ensures ok { IfOk result (λ asked. (whole : List (List ℕ)) → BeginAlike whole (files_of files.now) → OrderedAs whole asked) }
    ensures refused { IfRefused result (λ why. (whole : List (List ℕ)) → BeginAlike whole (files_of files.now) → RefusedRightly whole why) }
{
    let matched = read_recorded(heap, files)?;
    let run = make_run(heap, &matched)?;
    let ordered = order_run(heap, run)?;
    Ok(Asked { matched, ordered })
}
