// A pass over all cuts: how many moments there are, the first of all yes, whether every way has one, the least and the most.
ghost use Rattle.std.specs.Prelude.{◌≡◌, ◌+◌, Bool, if◌then◌else◌, ◌↔◌, IsTrue, IfOk};
ghost use Rattle.runs.specs.Moment.{Moment};
ghost use Rattle.runs.specs.Model.{run_of, signs_of, counts_of};
ghost use Rattle.moments.specs.Signs.{Must};
ghost use Rattle.exhaustive.specs.Survey.{SurveyedOf};

use crate::cut::{Cut, Cuts};
use crate::extreme::Extreme;
use crate::findings::Findings;
use moments::moment::is_moment;
use std::alloc::{AllocError, Global};

impl Extreme {
    // The other if it is better, else the one that was there.
    fn or_better<F: Fn(u64, u64) -> bool>(self, other: Extreme, better: F) -> Extreme
        requires { F.IsAlwaysCallable better }
        ensures { (b : Bool) × F.post better other.sum self.sum b × (result ≡ (if b then other else self)) }
    {
        if better(other.sum, self.sum) {
            other
        } else {
            self
        }
    }
}

impl Findings {
    // One cut more, which is a moment.
    fn with(self, cut: &Cut) -> Findings
        requires seen { SurveyedOf cut.now.run.now cut.now.number self }
        requires moment { Moment (run_of cut.now.run.now) (counts_of cut.now.counts) }
        ensures { SurveyedOf cut.now.run.now (cut.now.number + 1) result }
    {
        let here = Extreme {
            sum: cut.sum(),
            at: cut.counts,
        };
        Findings {
            moments: self.moments + 1,
            first: self.first.or(cut.all_yes().then_some(cut.counts)),
            must: self.must,
            least: self.least.or_better(here, |new, old| new < old),
            most: self.most.or_better(here, |new, old| new > old),
        }
    }
}

impl Cuts<'_> {
    // Looks at each of them once, and asks each but once whether it is a moment, since that is the dearest test.
    pub(crate) fn survey(&self, heap: Global) -> Result<Findings, AllocError>
        ensures { IfOk result (λ found. SurveyedOf self.now.run.now self.now.count found × (IsTrue found.must ↔ Must (run_of self.now.run.now) (signs_of self.now.run.now))) }
    {
        let mut marks = vec![in heap; false; self.count]?;
        let first = self.first();
        let begin = Extreme {
            sum: first.sum(),
            at: first.counts,
        };
        let mut seen = Findings {
            moments: 0,
            first: None,
            // until the last mark tells
            must: true,
            least: begin,
            most: begin,
        };
        for cut in self.iter() {
            if is_moment(cut.run, cut.counts) {
                marks[cut.number] = cut.comes(&marks);
                seen = seen.with(&cut);
            }
        }
        let avoided = marks[self.count - 1];
        Ok(Findings {
            must: !avoided,
            ..seen
        })
    }
}
