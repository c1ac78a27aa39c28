// Rings of doings that come before themselves: the lowest of the shortest.
#![tactic(auto)]

pub(crate) mod distances;
pub(crate) mod finding;
pub(crate) mod links;
pub(crate) mod numbers;
pub mod ring;
pub(crate) mod way;
