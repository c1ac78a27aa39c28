// The search for the first moment of all yes.
ghost use Rattle.std.specs.Prelude.{◌≡◌, ℕ, ◌+◌, ◌*◌, ◌^◌, ◌<◌, ◌≤◌, max};
ghost use Rattle.runs.specs.Model.{run_of, signs_of, counts_of};
ghost use Rattle.order.specs.Ordering.{vectors_of};
ghost use Rattle.moments.specs.Signs.{FirstOrNone};
ghost use Rattle.moments.specs.Amounts.{doings};
ghost use Rattle.may_must.specs.MaySearch.{Compared};

use moments::vector::vector;
use order::ordered::Ordered;
use order::progress::Progress;
use runs::counts::Counts;

// The first moment of all yes, if there is one, and how many pairs of counts were compared for that.
#[derive(Clone, Copy)]
pub struct Found {
    pub first: Option<Counts>,
    pub pairs: u64,
}

// A machine goes on to a doing, and all others by what comes before that.
fn join(search: Progress, ordered: &Ordered, machine: usize, doing: u16) -> Progress
    requires inside { machine < ordered.now.run.count }
    requires some { 1 ≤ doing }
    requires done { doing ≤ counts_of ordered.now.run.did machine }
    requires room { search.pairs + 40 < 2 ^ 64 }
    ensures cut { (k : ℕ) → k < ordered.now.run.count → counts_of result.cut k ≡ max (counts_of search.cut k) (vectors_of ordered.now machine doing k) }
    ensures pairs { result.pairs ≡ search.pairs + ordered.now.run.count }
{
    let (cut, pairs) = search
        .cut
        .joined(ordered.run.count, vector(ordered, machine, doing));
    Progress {
        cut,
        pairs: search.pairs + pairs,
    }
}

// Begins with nothing behind. While some machine's sign is no, it goes on by one doing, and all others by what comes before that; if it
// has no further doing, there is no such moment.
// A rule of the project keeps the labelled loop over machines, which is begun anew when one has gone on.
pub fn first_moment(ordered: &Ordered) -> Found
    ensures first { FirstOrNone (run_of ordered.now.run) (signs_of ordered.now.run) result.first }
    ensures few { result.pairs ≤ ordered.now.run.count * doings (run_of ordered.now.run) }
    ensures compared { Compared (run_of ordered.now.run) (signs_of ordered.now.run) (vectors_of ordered.now) result.first result.pairs }
{
    let run = &ordered.run;
    let mut search = Progress {
        cut: Counts::none(),
        pairs: 0,
    };
    'anew: loop {
        for machine in 0..run.count {
            let done = search.cut.of[machine];
            if run.sign(machine, done) {
                continue;
            }
            let Some(next) = run.next(machine, done) else {
                return Found {
                    first: None,
                    pairs: search.pairs,
                };
            };
            search = join(search, ordered, machine, next);
            continue 'anew;
        }
        return Found {
            first: Some(search.cut),
            pairs: search.pairs,
        };
    }
}
