// Verdicts' numbers.
ghost use Rattle.std.specs.Prelude.{◌≡◌};
ghost use Rattle.checker.specs.Verdict.{verdict_number};

use crate::verdict::Verdict;

impl Verdict {
    // None for what is shown. By hand, since a refusal has its own.
    pub fn number(&self) -> Option<u8>
        ensures { result ≡ verdict_number self.now }
    {
        match self {
            Verdict::Shown => None,
            Verdict::Refused(refusal) => Some(refusal.number()),
            Verdict::NotItsForm => Some(5),
            Verdict::NotShown => Some(6),
        }
    }
}
