// Looks at an answer to may beside the run.
ghost use Rattle.std.specs.Prelude.{◌≡◌, ℕ, ◌<◌, ◌≤◌, ◌↔◌, length, IfOk, IsTrue, slice_index};
ghost use Rattle.runs.specs.Model.{run_of, signs_of, counts_of};
ghost use Rattle.answers.specs.Model.{answer_of};
ghost use Rattle.checker.specs.Verdict.{CutFits};
ghost use Rattle.checker.specs.Looking.{MayFits, MayHolds, MayJudged};

use crate::verdict::Verdict;
use answers::answer::Answer;
use answers::reading::read_answer;
use may_must::may::first_moment;
use order::ordered::Ordered;
use runs::counts::Counts;
use runs::run::Run;
use std::alloc::{AllocError, Global};

// Has a cut a count for each machine, and no count more doings than there are.
fn cut_fits(run: &Run, cut: &[u16]) -> bool
    ensures { IsTrue result ↔ CutFits (run_of run.now) cut.now }
{
    cut.len() == run.count && cut.iter().zip(&run.did.of).all(|(done, did)| done <= did)
}

// Is a cut that of the counts.
fn is_cut(counts: Counts, cut: &[u16]) -> bool
    requires few { length cut.now ≤ 40 }
    ensures { IsTrue result ↔ ((k : ℕ) → k < length cut.now → counts_of counts k ≡ slice_index cut.now k) }
{
    &counts.of[..cut.len()] == cut
}

// Has an answer numbers that the run has.
fn fits(run: &Run, answer: &Answer) -> bool
    ensures { IsTrue result ↔ MayFits (run_of run.now) (answer_of answer.now) }
{
    match answer {
        Answer::MayYes(cut) => cut_fits(run, cut),
        Answer::MayNo => true,
    }
}

// Does an answer say what the search anew finds.
fn holds(ordered: &Ordered, answer: &Answer) -> bool
    requires { MayFits (run_of ordered.now.run) (answer_of answer.now) }
    ensures { IsTrue result ↔ MayHolds (run_of ordered.now.run) (signs_of ordered.now.run) (answer_of answer.now) }
{
    let first = first_moment(ordered).first;
    match answer {
        Answer::MayYes(cut) => {
            let Some(counts) = first else {
                return false;
            };
            is_cut(counts, cut)
        }
        Answer::MayNo => first.is_none(),
    }
}

// What bytes come to as an answer to may of the run.
pub(crate) fn look(heap: Global, ordered: &Ordered, bytes: &[u8]) -> Result<Verdict, AllocError>
    ensures { IfOk result (MayJudged (run_of ordered.now.run) (signs_of ordered.now.run) bytes.now) }
{
    let Some(counted) = read_answer(heap, bytes)? else {
        return Ok(Verdict::NotItsForm);
    };
    if !fits(&ordered.run, &counted.answer) {
        return Ok(Verdict::NotItsForm);
    }
    if holds(ordered, &counted.answer) {
        return Ok(Verdict::Shown);
    }
    Ok(Verdict::NotShown)
}
