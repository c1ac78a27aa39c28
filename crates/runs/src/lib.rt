// Runs: what the matched records of all machines come to, laid out flat.
#![tactic(auto)]

pub mod counts;
pub mod making;
pub mod reads;
pub mod run;
pub mod state;
