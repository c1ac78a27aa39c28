// From the files' bytes and a question to an answer or a refusal: the main promise.
#![tactic(auto)]

pub mod asking;
pub(crate) mod deciding;
