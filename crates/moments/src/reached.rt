// Moments that a run may come to. The structs are alone here, so that definitions of contracts can name them.
ghost use Rattle.runs.specs.Model.{run_of, counts_of};
ghost use Rattle.runs.specs.Moment.{Moment};

use runs::counts::Counts;
use runs::run::Run;

// A moment of a run.
#[derive(Clone, Copy)]
pub(crate) struct Reached<'a> {
    pub(crate) run: &'a Run,
    pub(crate) cut: Counts,
    ghost moment: { Moment (run_of run.now) (counts_of cut) },
}

// A doing of a machine, and the moment after it.
#[derive(Clone, Copy)]
pub(crate) struct Step<'a> {
    pub(crate) machine: usize,
    pub(crate) after: Reached<'a>,
}
