// The bytes of an answer.
ghost use Rattle.std.specs.Prelude.{◌≡◌, IfOk};
ghost use Rattle.answers.specs.Bytes.{answer_bytes, counted_bytes};
ghost use Rattle.answers.specs.Model.{answer_of, counted_of};

use crate::answer::{Answer, Counted};
use records::bytes::{Bytes, put_each};
use std::alloc::{AllocError, Global};

impl Bytes for Answer {
    ghost bytes = { λ answer. answer_bytes (answer_of answer) };

    fn put(&self, out: &mut Vec<u8>) -> Result<(), AllocError> {
        match self {
            Answer::MayYes(cut) => {
                out.extend_from_slice(&[1, 1])?;
                put_each(cut, out)
            }
            Answer::MayNo => out.extend_from_slice(&[1, 0]),
        }
    }
}

impl Counted {
    // 77, the answer, and the counts of steps.
    pub fn bytes(&self, heap: Global) -> Result<Vec<u8>, AllocError>
        ensures { IfOk result (λ x. x.items ≡ counted_bytes (counted_of self.now)) }
    {
        let mut bytes = Vec::new(heap);
        bytes.push(77)?;
        self.answer.put(&mut bytes)?;
        bytes.extend_from_slice(&self.pairs.to_be_bytes())?;
        bytes.extend_from_slice(&self.ways.to_be_bytes())?;
        Ok(bytes)
    }
}
