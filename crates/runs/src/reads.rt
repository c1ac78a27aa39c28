// Looks at a run.
ghost use Rattle.std.specs.Prelude.{◌≡◌, ℕ, ◌+◌, ◌<◌, ◌≤◌, MatchOption, slice_index, vec_len};
ghost use Rattle.runs.specs.Shape.{index};
ghost use Rattle.runs.specs.Moment.{LowestLeft};
ghost use Rattle.runs.specs.Model.{state_of, sending_of, signs_of, amounts_of, counts_of, run_of};

use crate::counts::Counts;
use crate::run::Run;
use crate::state::State;
use records::place::Place;

// A machine and how many of its doings are behind it are two numbers beside the run: a struct of the three would bring a run of its
// own, and each function with a table of the run beside it would have to ask that the two are the same.
impl Run {
    // Where a machine's state after so many doings stands.
    pub fn index(&self, machine: usize, done: u16) -> usize
        requires inside { machine < self.now.count }
        requires done { done ≤ slice_index self.now.did.of machine }
        ensures here { result ≡ index self.now.starts machine done }
        ensures within { result < vec_len self.now.states }
    {
        self.starts.index(machine, done)
    }

    // The lowest machine that has a doing left behind a cut.
    pub fn lowest_left(&self, cut: Counts) -> Option<usize>
        ensures { MatchOption result ((k : ℕ) → k < self.now.count → counts_of self.now.did k ≤ counts_of cut k) (LowestLeft (run_of self.now) (counts_of cut)) }
    {
        cut.of
            .iter()
            .zip(&self.did.of)
            .take(self.count)
            .position(|(done, did)| done < did)
    }

    // A machine after so many doings.
    fn state(&self, machine: usize, done: u16) -> State
        requires inside { machine < self.now.count }
        requires done { done ≤ slice_index self.now.did.of machine }
        ensures { result ≡ state_of self.now machine done }
    {
        self.states[self.index(machine, done)]
    }

    // Where the letter was sent that a machine's doing got.
    pub fn sending(&self, machine: usize, doing: u16) -> Option<Place>
        requires inside { machine < self.now.count }
        requires done { doing ≤ slice_index self.now.did.of machine }
        ensures { result ≡ sending_of self.now machine doing }
    {
        self.state(machine, doing).sending
    }

    // A machine's sign after so many doings.
    pub fn sign(&self, machine: usize, done: u16) -> bool
        requires inside { machine < self.now.count }
        requires done { done ≤ slice_index self.now.did.of machine }
        ensures { result ≡ signs_of self.now machine done }
    {
        self.state(machine, done).sign
    }

    // A machine's amount after so many doings.
    pub fn amount(&self, machine: usize, done: u16) -> u32
        requires inside { machine < self.now.count }
        requires done { done ≤ slice_index self.now.did.of machine }
        ensures { result ≡ amounts_of self.now machine done }
    {
        self.state(machine, done).amount
    }

    // The machine's next doing, if it has one. No `then`: its closure is not told what was tested.
    pub fn next(&self, machine: usize, done: u16) -> Option<u16>
        requires inside { machine < self.now.count }
        ensures { MatchOption result (slice_index self.now.did.of machine ≤ done) (λ m. (m ≡ done + 1) × (m ≤ slice_index self.now.did.of machine)) }
    {
        if done < self.did.of[machine] {
            Some(done + 1)
        } else {
            None
        }
    }
}
