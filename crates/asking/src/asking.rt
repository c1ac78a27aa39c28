// The call that answers.
ghost use Rattle.std.specs.Prelude.{ℕ, List, IfOk};
ghost use Rattle.records.specs.Failure.{IfRefused};
ghost use Rattle.records.specs.Reading.{files_of, BeginAlike};
ghost use Rattle.answers.specs.Answer.{answered, refused};
ghost use Rattle.answers.specs.Model.{question_of, counted_of};
ghost use Rattle.asking.specs.Promise.{Right};
ghost use Rattle.asking.specs.Steps.{StepsTaken};

use crate::deciding::decide_may;
use answers::answer::Counted;
use answers::question::Question;
use order::asked::order_files;
use records::failure::Failure;
use records::refusal::Refusal;
use std::alloc::Global;

// The answer to a question on files of records, or why they are refused. The telling beginning of a long file is enough.
#[tactic(auto, using(crate::proofs::SaidOfRecords::refused_right))]
pub fn answer_question(
    heap: Global,
    files: &[Vec<u8>],
    question: Question,
) -> Result<Counted, Failure<Refusal>>
    ensures right { IfOk result (λ counted. (whole : List (List ℕ)) → BeginAlike whole (files_of files.now) → Right whole (question_of question) (answered (counted_of counted))) }
    ensures steps { IfOk result (λ counted. (whole : List (List ℕ)) → BeginAlike whole (files_of files.now) → StepsTaken whole (counted_of counted)) }
    ensures refused { IfRefused result (λ why. (whole : List (List ℕ)) → BeginAlike whole (files_of files.now) → Right whole (question_of question) (refused why)) }
{
    let asked = order_files(heap, files)?;
    let counted = match question {
        Question::May => decide_may(heap, &asked.ordered)?,
    };
    Ok(counted)
}
