// A question decided for a run.
ghost use Rattle.std.specs.Prelude.{◌≡◌, ℕ, ◌<◌, ◌≤◌, IfOk, vec_len, slice_index};
ghost use Rattle.runs.specs.Model.{run_of, signs_of, counts_of};
ghost use Rattle.order.specs.Ordering.{InOrder};
ghost use Rattle.answers.specs.Model.{counted_of};
ghost use Rattle.asking.specs.Decided.{MayDecided};

use answers::answer::{Answer, Counted};
use may_must::may::first_moment;
use order::ordered::Ordered;
use runs::counts::Counts;
use std::alloc::{AllocError, Global};

// The counts of the first so many machines.
fn listed(heap: Global, machines: usize, counts: Counts) -> Result<Vec<u16>, AllocError>
    requires few { machines ≤ 40 }
    ensures { IfOk result (λ v. (vec_len v ≡ machines) × ((k : ℕ) → k < machines → slice_index v.items k ≡ counts_of counts k)) }
{
    counts.of[..machines].to_vec(heap)
}

pub(crate) fn decide_may(heap: Global, ordered: &Ordered) -> Result<Counted, AllocError>
    requires order { InOrder ordered.now }
    ensures { IfOk result (λ a. MayDecided (run_of ordered.now.run) (signs_of ordered.now.run) (counted_of a)) }
{
    let found = first_moment(ordered);
    let Some(first) = found.first else {
        return Ok(Counted {
            answer: Answer::MayNo,
            pairs: found.pairs,
            ways: 0,
        });
    };
    let cut = listed(heap, ordered.run.count, first)?;
    Ok(Counted {
        answer: Answer::MayYes(cut),
        pairs: found.pairs,
        ways: 0,
    })
}
