// All machines' signs and amounts at a cut.
ghost use Rattle.std.specs.Prelude.{◌≡◌, ◌↔◌, IsTrue};
ghost use Rattle.runs.specs.Model.{run_of, signs_of, amounts_of, counts_of};
ghost use Rattle.moments.specs.Signs.{AllSay};
ghost use Rattle.moments.specs.Amounts.{total};

use crate::cut::Cut;

impl Cut<'_> {
    // Do all machines say yes.
    pub(crate) fn all_yes(&self) -> bool
        ensures { IsTrue result ↔ AllSay (run_of self.now.run.now) (signs_of self.now.run.now) (counts_of self.now.counts) }
    {
        (0..self.run.count).all(|machine| self.run.sign(machine, self.counts.of[machine]))
    }

    // All amounts together.
    pub(crate) fn sum(&self) -> u64
        ensures { result ≡ total (run_of self.now.run.now) (amounts_of self.now.run.now) (counts_of self.now.counts) }
    {
        (0..self.run.count)
            .map(|machine| u64::from(self.run.amount(machine, self.counts.of[machine])))
            .sum()
    }
}
