// From a run to its vectors, or to a ring that shows that there are none.
ghost use Rattle.std.specs.Prelude.{◌≡◌, IfOk};
ghost use Rattle.records.specs.Failure.{IfRefused};
ghost use Rattle.records.specs.Refusal.{IsRing};
ghost use Rattle.runs.specs.Model.{run_of};
ghost use Rattle.rings.specs.Ring.{LowestRing};
ghost use Rattle.order.specs.Ordering.{InOrder, ComesBeforeItself};

use crate::ordered::Ordered;
use crate::vectors::fill;
use records::failure::Failure;
use records::refusal::Refusal;
use rings::ring::lowest_ring;
use runs::counts::Counts;
use runs::run::Run;
use std::alloc::Global;

// The vectors of a run.
pub(crate) fn order_run(heap: Global, run: Run) -> Result<Ordered, Failure<Refusal>>
    ensures ok { IfOk result (λ ordered. (ordered.run ≡ run) × InOrder ordered) }
    ensures refused { IfRefused result (IsRing (λ ring. ComesBeforeItself (run_of run) × LowestRing (run_of run) ring)) }
{
    let mut rows = vec![in heap; Counts::none(); run.states.len()]?;
    let mut turns = Vec::new(heap);
    let progress = fill(&run, &mut rows, &mut turns)?;
    match run.lowest_left(progress.cut) {
        Some(_) => {
            // Let go of first, so that they don't lie beside what the search for the ring needs.
            drop(rows);
            drop(turns);
            let ring = lowest_ring(heap, &run)?;
            Err(Failure::Refused(Refusal::Ring(ring.unwrap())))
        }
        None => Ok(Ordered {
            run,
            turns,
            rows,
            pairs: progress.pairs,
        }),
    }
}
