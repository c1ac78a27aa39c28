// Cuts one after the other.
ghost use Rattle.std.specs.Prelude.{◌≡◌, ◌+◌, ◌<◌, IsSomeAnd, MatchOption};
ghost use Rattle.runs.specs.Model.{run_of, counts_of};
ghost use Rattle.moments.specs.Cuts.{Below};
ghost use Rattle.runs.specs.Moment.{LowestLeft};
ghost use Rattle.exhaustive.specs.Counter.{cuts_of, Numbering};

use crate::cut::{Cut, Cuts, CutsFrom};
use runs::counts::Counts;
use runs::run::Run;

// No run with more cuts is gone through.
pub(crate) const MOST: usize = 1_000_000;

impl<'a> Cuts<'a> {
    // All cuts of a run, if they are few.
    pub(crate) fn of(run: &'a Run) -> Option<Cuts<'a>>
        ensures { MatchOption result (1000000 < cuts_of (run_of run.now)) (λ cuts. cuts.run.now ≡ run.now) }
    {
        let mut count = 1;
        for &did in &run.did.of[..run.count] {
            count *= usize::from(did) + 1;
            if count > MOST {
                return None;
            }
        }
        Some(Cuts { run, count })
    }

    // The first has no doing behind it.
    pub(crate) fn first(&self) -> Cut<'a>
        ensures run { result.run.now ≡ self.now.run.now }
        ensures number { result.number ≡ 0 }
    {
        Cut {
            run: self.run,
            number: 0,
            counts: Counts::none(),
        }
    }

    // Each of them, in order of their numbers.
    pub(crate) fn iter(&self) -> CutsFrom<'a>
        ensures { IsSomeAnd result.next (λ cut. (cut.run.now ≡ self.now.run.now) × (cut.number ≡ 0)) }
    {
        CutsFrom {
            next: Some(self.first()),
        }
    }
}

impl<'a> Cut<'a> {
    // The cut after this one: that machine goes on, and those below begin anew.
    fn following(&self) -> Option<Cut<'a>>
        ensures after { MatchOption result (self.now.number + 1 ≡ cuts_of (run_of self.now.run.now)) (λ next. (next.run.now ≡ self.now.run.now) × (next.number ≡ self.now.number + 1)) }
        ensures numbering { Numbering (run_of self.now.run.now) }
    {
        let machine = self.run.lowest_left(self.counts)?;
        let mut of = self.counts.of;
        of[..machine].fill(0);
        of[machine] += 1;
        Some(Cut {
            run: self.run,
            number: self.number + 1,
            counts: Counts { of },
        })
    }
}

impl<'a> Iterator for CutsFrom<'a> {
    type Item = Cut<'a>;

    ghost use Rattle.std.specs.Iterator.{at_most};
    ghost use Rattle.exhaustive.specs.Turns.{Goes, left};

    ghost next_gives = { Goes };

    ghost remaining = { λ s. at_most (left s.next) };

    fn next(&mut self) -> Option<Cut<'a>> {
        let cut = self.next?;
        self.next = cut.following();
        Some(cut)
    }
}
