// The call that checks.
ghost use Rattle.std.specs.Prelude.{ℕ, List, IfOk};
ghost use Rattle.records.specs.Reading.{files_of, BeginAlike};
ghost use Rattle.answers.specs.Model.{question_of};
ghost use Rattle.checker.specs.Verdict.{Judged, OneVerdict};

use crate::looking::look;
use crate::verdict::Verdict;
use answers::question::Question;
use order::asked::order_files;
use std::alloc::{AllocError, Global};

// The verdict on an answer's bytes, to a question on files of records. The telling beginning of a long file is enough.
pub fn judge(
    heap: Global,
    files: &[Vec<u8>],
    question: Question,
    bytes: &[u8],
) -> Result<Verdict, AllocError>
    ensures judged { IfOk result (λ x. (whole : List (List ℕ)) → BeginAlike whole (files_of files.now) → Judged whole (question_of question) bytes.now x) }
    ensures one { OneVerdict }
{
    match order_files(heap, files) {
        Err(failure) => Ok(Verdict::Refused(failure.refused()?)),
        Ok(asked) => {
            let verdict = match question {
                Question::May => look(heap, &asked.ordered, bytes)?,
            };
            Ok(verdict)
        }
    }
}
