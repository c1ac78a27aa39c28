// Letters (messages) matched by number: from files to records in which each letter that was got has its sending, or a refusal.
#![tactic(auto)]

pub mod letter;
pub mod matched;
pub(crate) mod matching;
pub(crate) mod noting;
pub mod recorded;
pub(crate) mod seen;
