// From files, or a run, to what looking at each of its cuts finds.
ghost use Rattle.std.specs.Prelude.{ℕ, List, IfOk};
ghost use Rattle.records.specs.Failure.{IfRefused};
ghost use Rattle.records.specs.Reading.{files_of, BeginAlike};
ghost use Rattle.runs.specs.Model.{run_of, signs_of, amounts_of};
ghost use Rattle.order.specs.Asked.{RefusedRightly};
ghost use Rattle.exhaustive.specs.Looked.{LookedAs, RepliedAs, Always};

use crate::cut::Cuts;
use crate::findings::Findings;
use order::asked::order_files;
use records::failure::Failure;
use records::refusal::Refusal;
use runs::run::Run;
use std::alloc::{AllocError, Global};

// Looks at each cut of a run, if they are few. That they are too many is told by no error: it is a result, which the program prints.
pub(crate) fn look_at_each(heap: Global, run: &Run) -> Result<Option<Findings>, AllocError>
    ensures { IfOk result (LookedAs (run_of run.now) (signs_of run.now) (amounts_of run.now)) }
{
    let Some(cuts) = Cuts::of(run) else {
        return Ok(None);
    };
    Ok(Some(cuts.survey(heap)?))
}

// Looks at each cut of the run that the files recorded, if they are few; too many are told by no error here either. The telling beginning of a long file is enough.
pub fn look_at_files(heap: Global, files: &[Vec<u8>]) -> Result<Option<Findings>, Failure<Refusal>>
    ensures replied { IfOk result (λ looked. (whole : List (List ℕ)) → BeginAlike whole (files_of files.now) → RepliedAs whole looked) }
    ensures refused { IfRefused result (λ why. (whole : List (List ℕ)) → BeginAlike whole (files_of files.now) → RefusedRightly whole why) }
    ensures always { Always }
{
    let asked = order_files(heap, files)?;
    let looked = look_at_each(heap, &asked.ordered.run)?;
    Ok(looked)
}
