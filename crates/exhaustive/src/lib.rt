// All cuts of a small run, looked at one by one: slow and plain.
#![tactic(auto)]

pub(crate) mod at_cut;
pub(crate) mod counter;
pub(crate) mod cut;
pub mod extreme;
pub mod findings;
pub mod looking;
pub(crate) mod marks;
pub(crate) mod survey;
