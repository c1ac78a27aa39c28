// A run whose doings are ordered. The struct is alone here, so that definitions of contracts can name it.
ghost use Rattle.std.specs.Prelude.{◌≡◌, vec_len};
ghost use Rattle.runs.specs.Model.{run_of};
ghost use Rattle.order.specs.Vectors.{VectorsOf};
ghost use Rattle.order.specs.Rows.{vectors_in};

use runs::counts::Counts;
use runs::run::Run;

// A run with a topological order of its doings, the vector of each of its states, where the state itself stands, and how many
// pairs of counts were joined for them. The vectors say what comes before what.
#[derive(Drop)]
pub struct Ordered {
    pub run: Run,
    // the machines in turn, each time with its next doing
    pub turns: Vec<u8>,
    // beside the states and not in them: a rule of the project has them written while the run is lent to be read
    pub rows: Vec<Counts>,
    pub pairs: u64,
    ghost long: { vec_len rows ≡ vec_len run.states },
    ghost vectors: { ∥ VectorsOf (run_of run) (vectors_in run rows.items) ∥₁ },
}
