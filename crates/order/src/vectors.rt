// Vectors of a run's doings, each after what comes before it.
ghost use Rattle.std.specs.Prelude.{◌≡◌, ℕ, ◌+◌, ◌<◌, ◌≤◌, [], length, IfOk, vec_len, MatchOption, slice_index};
ghost use Rattle.runs.specs.Model.{run_of, sending_of, counts_of};
ghost use Rattle.order.specs.Rows.{vectors_in, rows_in};
ghost use Rattle.order.specs.Steps.{Ready, Follows, Done, Waits, Stepped, Filled, joined_for, joined_behind};

use crate::progress::Progress;
use runs::counts::Counts;
use runs::run::Run;
use std::alloc::AllocError;

// The row of a machine after so many doings. Rows are lent beside the run, since a rule of the project has them written while it is
// read, so that each function asks that they are as many as its states.
fn row_at(run: &Run, rows: &[Counts], machine: usize, done: u16) -> Counts
    requires inside { machine < run.now.count }
    requires done { done ≤ slice_index run.now.did.of machine }
    requires long { length rows.now ≡ vec_len run.now.states }
    ensures { result ≡ rows_in run.now rows.now machine done }
{
    rows[run.index(machine, done)]
}

// The row of a machine's next doing, if what it gets has been sent, and the pairs joined for it.
fn row_of(
    run: &Run,
    rows: &[Counts],
    cut: Counts,
    machine: usize,
    next: u16,
) -> Option<(Counts, u64)>
    requires inside { machine < run.now.count }
    requires next { next ≡ slice_index cut.of machine + 1 }
    requires done { next ≤ slice_index run.now.did.of machine }
    requires long { length rows.now ≡ vec_len run.now.states }
    ensures { MatchOption result (Ready (sending_of run.now machine next) (counts_of cut) → ⊥) (λ w. Ready (sending_of run.now machine next) (counts_of cut) × Follows run.now.count (vectors_in run.now rows.now) (sending_of run.now machine next) machine (slice_index cut.of machine) next (counts_of w.0) × (w.1 ≡ joined_for run.now.count (sending_of run.now machine next))) }
{
    let before = row_at(run, rows, machine, cut.of[machine]);
    match run.sending(machine, next) {
        None => Some((before.with(machine, next), 0)),
        Some(sent) => {
            let from = usize::from(sent.machine);
            if cut.of[from] < sent.doing {
                return None;
            }
            let (row, pairs) = before.joined(run.count, row_at(run, rows, from, sent.doing));
            Some((row.with(machine, next), pairs))
        }
    }
}

// One doing more of a machine is ordered, if it has one more, and what that gets has been sent.
fn step(run: &Run, rows: &mut [Counts], so_far: Progress, machine: usize) -> Option<Progress>
    requires inside { machine < run.now.count }
    requires long { length rows.old ≡ vec_len run.now.states }
    requires done { Done (run_of run.now) (vectors_in run.now rows.old) (counts_of so_far.cut) }
    requires joined { so_far.pairs ≡ joined_behind run.now (counts_of so_far.cut) }
    ensures { MatchOption result ((rows.new ≡ rows.old) × Waits (run_of run.now) (sending_of run.now) (counts_of so_far.cut) machine) (Stepped run.now rows.new so_far.cut machine) }
{
    let done = so_far.cut.of[machine];
    let next = run.next(machine, done)?;
    let (row, pairs) = row_of(run, rows, so_far.cut, machine, next)?;
    rows[run.index(machine, next)] = row;
    Some(Progress {
        cut: so_far.cut.with(machine, next),
        pairs: so_far.pairs + pairs,
    })
}

// Orders doings one after the other, as far as it goes: no machine can go on from there.
pub(crate) fn fill(
    run: &Run,
    rows: &mut [Counts],
    turns: &mut Vec<u8>,
) -> Result<Progress, AllocError>
    requires long { length rows.old ≡ vec_len run.now.states }
    requires blank { (j i : ℕ) → j < run.now.count → vectors_in run.now rows.old j 0 i ≡ 0 }
    requires empty { turns.old.items ≡ [] }
    ensures { IfOk result (Filled run.now rows.new turns.new.items) }
{
    let mut so_far = Progress {
        cut: Counts::none(),
        pairs: 0,
    };
    'anew: loop {
        // A rule of the project keeps the labelled loop over machines, which is begun anew when one has gone on.
        for machine in 0..run.count {
            if let Some(further) = step(run, rows, so_far, machine) {
                turns.push(machine as u8)?;
                so_far = further;
                continue 'anew;
            }
        }
        return Ok(so_far);
    }
}
