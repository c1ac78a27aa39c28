// May there have been a moment of all yes, and must there have been one.
#![tactic(auto)]

pub mod may;
