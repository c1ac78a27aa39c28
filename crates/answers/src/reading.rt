// Answers from bytes.
ghost use Rattle.std.specs.Prelude.{◌≡◌, ◌%◌, length, IfOk};
ghost use Rattle.answers.specs.Bytes.{each2};
ghost use Rattle.answers.specs.Model.{AnswerRead, FrontRead};

use crate::answer::{Answer, Counted};
use std::alloc::{AllocError, Global};

// The counts whose bytes these are, of which there is an even number.
fn counts_of(heap: Global, bytes: &[u8]) -> Result<Vec<u16>, AllocError>
    requires even { length bytes.now % 2 ≡ 0 }
    ensures { IfOk result (λ v. bytes.now ≡ each2 v.items) }
{
    let (pairs, _) = bytes.as_chunks::<2>();
    pairs
        .iter()
        .map(|pair| u16::from_be_bytes(*pair))
        .collect(heap)
}

// What stands before the counts of steps. That it is no such thing is told by no error, as in `read_answer`.
fn front_of(heap: Global, front: &[u8]) -> Result<Option<Answer>, AllocError>
    ensures { IfOk result (FrontRead front.now) }
{
    match front {
        [77, 1, 0] => Ok(Some(Answer::MayNo)),
        [77, 1, 1, cut @ ..] if cut.len() % 2 == 0 => {
            Ok(Some(Answer::MayYes(counts_of(heap, cut)?)))
        }
        _ => Ok(None),
    }
}

// The answer whose bytes these are, if they are an answer's. That they are none is told by no error: it is what was asked, and is judged
// as any answer is.
pub fn read_answer(heap: Global, bytes: &[u8]) -> Result<Option<Counted>, AllocError>
    ensures { IfOk result (AnswerRead bytes.now) }
{
    let Some((before, ways)) = bytes.split_last_chunk::<8>() else {
        return Ok(None);
    };
    let Some((front, pairs)) = before.split_last_chunk::<8>() else {
        return Ok(None);
    };
    let Some(answer) = front_of(heap, front)? else {
        return Ok(None);
    };
    Ok(Some(Counted {
        answer,
        pairs: u64::from_be_bytes(*pairs),
        ways: u64::from_be_bytes(*ways),
    }))
}
