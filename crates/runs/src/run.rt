// A run, flat. The struct is alone here, so that definitions of contracts can name it.
ghost use Rattle.std.specs.Prelude.{◌≤◌, vec_len};
ghost use Rattle.runs.specs.Shape.{Few, Inside, Apart, Sent};

use crate::counts::Counts;
use crate::state::State;

// The state of machine i after m doings, 0 too, stands at starts.of[i] + m. In one row, so that a row of vectors beside it is as long by
// one fact: a list for each machine would need one for each, and a list of lists of vectors.
#[derive(Drop)]
pub struct Run {
    // how many of the forty there are: a rule of the project has arrays of forty
    pub count: usize,
    pub did: Counts,
    pub starts: Counts,
    pub states: Vec<State>,
    ghost some: { 1 ≤ count },
    ghost most: { count ≤ 40 },
    ghost few: { Few count did },
    ghost inside: { Inside count did starts (vec_len states) },
    ghost apart: { Apart count did starts },
    ghost sent: { Sent count did (vec_len states) states.items },
}
