// Whether a cut is a moment.
ghost use Rattle.std.specs.Prelude.{ℕ, ◌<◌, ◌≤◌, ◌↔◌, IsTrue};
ghost use Rattle.order.specs.Steps.{Ready};
ghost use Rattle.runs.specs.Model.{run_of, sending_of, counts_of};
ghost use Rattle.runs.specs.Moment.{Moment};
ghost use Rattle.moments.specs.Cuts.{Lattice, ByBefore};

use runs::counts::Counts;
use runs::run::Run;

// Is the sending behind the cut of what a machine's doing gets, if it gets anything.
pub(crate) fn is_ready(run: &Run, cut: Counts, machine: usize, doing: u16) -> bool
    requires inside { machine < run.now.count }
    requires done { doing ≤ counts_of run.now.did machine }
    ensures { IsTrue result ↔ Ready (sending_of run.now machine doing) (counts_of cut) }
{
    run.sending(machine, doing)
        .is_none_or(|sent| sent.doing <= cut.of[usize::from(sent.machine)])
}

// Is that so of all of a machine's doings that are behind the cut.
fn is_closed(run: &Run, cut: Counts, machine: usize) -> bool
    requires inside { machine < run.now.count }
    requires done { counts_of cut machine ≤ counts_of run.now.did machine }
    ensures { IsTrue result ↔ ((m : ℕ) → 1 ≤ m → m ≤ counts_of cut machine → Ready (sending_of run.now machine m) (counts_of cut)) }
{
    // Up from 0 and not from 1 to the last: an inclusive range asks at each doing whether it has ended, and `all` then took up to a third
    // more instructions.
    (0..cut.of[machine]).all(|before| is_ready(run, cut, machine, before + 1))
}

// Is a cut a moment.
pub fn is_moment(run: &Run, cut: Counts) -> bool
    ensures decides { IsTrue result ↔ Moment (run_of run.now) (counts_of cut) }
    ensures lattice { Lattice }
    ensures before { ByBefore }
{
    (0..run.count).all(|machine| {
        cut.of[machine] <= run.did.of[machine] && is_closed(run, cut, machine)
    })
}
