// The cuts of a run that has few, and each of them. The structs are alone here, so that definitions of contracts can name them.
ghost use Rattle.std.specs.Prelude.{◌≡◌, ◌≤◌};
ghost use Rattle.runs.specs.Model.{run_of, counts_of};
ghost use Rattle.moments.specs.Cuts.{Below};
ghost use Rattle.exhaustive.specs.Counter.{cuts_of, rank_of};

use runs::counts::Counts;
use runs::run::Run;

// All cuts of a run, so few that each can be looked at.
#[derive(Clone, Copy)]
pub(crate) struct Cuts<'a> {
    pub(crate) run: &'a Run,
    pub(crate) count: usize,
    ghost counted: { count ≡ cuts_of (run_of run.now) },
    ghost few: { count ≤ 1000000 },
}

// One of them, and its number.
#[derive(Clone, Copy)]
pub(crate) struct Cut<'a> {
    pub(crate) run: &'a Run,
    pub(crate) number: usize,
    pub(crate) counts: Counts,
    ghost few: { cuts_of (run_of run.now) ≤ 1000000 },
    ghost inside: { Below (run_of run.now) (counts_of counts) (counts_of run.now.did) },
    ghost numbered: { number ≡ rank_of (run_of run.now) (counts_of counts) },
}

// What is left of them, from one on.
#[derive(Clone, Copy)]
pub(crate) struct CutsFrom<'a> {
    pub(crate) next: Option<Cut<'a>>,
}
