// Whether an answer shows what it says.
#![tactic(auto)]

pub mod judging;
pub(crate) mod looking;
pub mod verdict;
pub mod verdicts;
