// What comes before what: vectors, or the ring that shows that no run can have made the records.
#![tactic(auto)]

pub mod asked;
pub mod ordered;
pub(crate) mod ordering;
pub mod progress;
pub(crate) mod vectors;
