// Marks on the cuts to which the run can have come with no moment of all yes so far.
ghost use Rattle.std.specs.Prelude.{◌≡◌, length, ◌↔◌, IsTrue};
ghost use Rattle.runs.specs.Model.{run_of, signs_of, counts_of};
ghost use Rattle.runs.specs.Moment.{Moment};
ghost use Rattle.moments.specs.Signs.{ComesTo};
ghost use Rattle.exhaustive.specs.Counter.{cuts_of};
ghost use Rattle.exhaustive.specs.Marks.{Marked, Came};

use crate::cut::Cut;

impl Cut<'_> {
    // Is the cut the first, or is some cut marked that has one doing less behind it. A doing of a machine makes as much of a cut's
    // number as the machines below have cuts between them.
    fn came(&self, marks: &[bool]) -> bool
        requires long { length marks.now ≡ cuts_of (run_of self.now.run.now) }
        ensures { IsTrue result ↔ Came (run_of self.now.run.now) marks.now (counts_of self.now.counts) self.now.number }
    {
        if self.number == 0 {
            return true;
        }
        let mut weight = 1;
        for (machine, &did) in self.run.did.of[..self.run.count].iter().enumerate() {
            if 0 < self.counts.of[machine] && marks[self.number - weight] {
                return true;
            }
            weight *= usize::from(did) + 1;
        }
        false
    }

    // Can the run have come so to the cut, which is a moment.
    pub(crate) fn comes(&self, marks: &[bool]) -> bool
        requires long { length marks.now ≡ cuts_of (run_of self.now.run.now) }
        requires marked { Marked (run_of self.now.run.now) (signs_of self.now.run.now) marks.now self.now.number }
        requires moment { Moment (run_of self.now.run.now) (counts_of self.now.counts) }
        ensures { IsTrue result ↔ ComesTo (run_of self.now.run.now) (signs_of self.now.run.now) (counts_of self.now.counts) }
    {
        self.came(marks) && !self.all_yes()
    }
}
