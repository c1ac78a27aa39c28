// Ways as the machine of each next doing.
ghost use Rattle.std.specs.Prelude.{◌≡◌, ℕ, ◌<◌, ◌↔◌, List, ◌++◌, IsTrue, MatchOption, OnOk};
ghost use Rattle.runs.specs.Run.{Sound};
ghost use Rattle.runs.specs.Moment.{Moment};
ghost use Rattle.runs.specs.Model.{run_of, counts_of};
ghost use Rattle.moments.specs.Cuts.{Alike, Below, nothing};
ghost use Rattle.moments.specs.Onward.{After, Stays, Steps};
ghost use Rattle.moments.specs.Ways.{go_on, cuts_along, Way, Leads, Toward, GoesOn, OnAWay};

use crate::moment::is_ready;
use crate::reached::{Reached, Step};
use runs::counts::Counts;
use runs::run::Run;
use std::alloc::AllocError;

impl<'a> Reached<'a> {
    // The moment at a cut that is one.
    fn at(run: &'a Run, cut: Counts) -> Reached<'a>
        requires { Moment (run_of run.now) (counts_of cut) }
        ensures run { result.run.now ≡ run.now }
        ensures cut { result.cut ≡ cut }
    {
        Reached { run, cut }
    }

    // Is all behind it.
    fn is_end(&self) -> bool
        ensures { IsTrue result ↔ Alike (run_of self.now.run.now) (counts_of self.now.cut) (counts_of self.now.run.now.did) }
    {
        self.cut.of[..self.run.count] == self.run.did.of[..self.run.count]
    }

    // The moment after a machine's next doing, if there is one. No `then_some`: it would make the moment before it is known to be one.
    fn go_on(&self, machine: usize) -> Option<Reached<'a>>
        requires { machine < self.now.run.now.count }
        ensures { MatchOption result (Moment (run_of self.now.run.now) (go_on (counts_of self.now.cut) machine) → ⊥) (After self.now machine) }
    {
        let doing = self.run.next(machine, self.cut.of[machine])?;
        let cut = self.cut.with(machine, doing);
        if is_ready(self.run, cut, machine, doing) {
            Some(Reached { run: self.run, cut })
        } else {
            None
        }
    }

    // The next doing of some machine on the way to a later moment.
    fn go_toward(&self, to: Counts) -> Option<Step<'a>>
        ensures { MatchOption result ((k : ℕ) → k < self.now.run.now.count → Stays self.now (counts_of to) k) (Steps self.now (counts_of to)) }
    {
        (0..self.run.count).find_map(|machine| {
            if self.cut.of[machine] < to.of[machine] {
                self.go_on(machine).map(|after| Step { machine, after })
            } else {
                None
            }
        })
    }
}

// Puts the machine of each next doing behind what is there, from one moment to a later one.
pub fn lead(run: &Run, from: Counts, to: Counts, turns: &mut Vec<u8>) -> Result<(), AllocError>
    requires sound { Sound (run_of run.now) }
    requires from { Moment (run_of run.now) (counts_of from) }
    requires to { Moment (run_of run.now) (counts_of to) }
    requires below { Below (run_of run.now) (counts_of from) (counts_of to) }
    ensures leads { OnOk result ((js : List ℕ) × (turns.new.items ≡ turns.old.items ++ js) × Leads (run_of run.now) (counts_of from) (counts_of to) js) }
    ensures toward { Toward }
    ensures onward { GoesOn }
    ensures way { OnAWay }
{
    let mut moment = Reached::at(run, from);
    while let Some(step) = moment.go_toward(to) {
        turns.push(step.machine as u8)?;
        moment = step.after;
    }
    Ok(())
}

// Is a list of machines a way of the run, each time with the machine's next doing.
pub fn is_way(run: &Run, turns: &[u8]) -> bool
    ensures { IsTrue result ↔ Way (run_of run.now) nothing (cuts_along nothing turns.now) }
{
    let mut moment = Reached::at(run, Counts::none());
    for turn in turns {
        let machine = *turn as usize;
        if run.count <= machine {
            return false;
        }
        let Some(next) = moment.go_on(machine) else {
            return false;
        };
        moment = next;
    }
    moment.is_end()
}
