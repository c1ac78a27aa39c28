// Moments and ways of a run: the laws that every answer rests on.
#![tactic(auto)]

pub mod moment;
pub(crate) mod reached;
pub mod vector;
pub mod ways;
