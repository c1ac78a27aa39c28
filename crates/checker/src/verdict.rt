// Verdicts. The type is alone here, so that definitions of contracts can name it. It is no Result: that records are
// refused, or that an answer does not show what it says, is what was asked, and no failure of the check.
use records::refusal::Refusal;

#[derive(Drop)]
pub enum Verdict {
    Shown,
    // the records are
    Refused(Refusal),
    // the bytes are no answer in form to the question of this run
    NotItsForm,
    // they are one, but it does not show what it says
    NotShown,
}
