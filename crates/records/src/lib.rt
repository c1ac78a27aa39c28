// What machines recorded: records, their bytes in and out, and why a list of files may be refused.
#![tactic(auto)]

pub mod bytes;
pub mod doing;
pub mod failure;
pub mod place;
pub mod reading;
pub mod record;
pub mod records;
pub mod refusal;
pub mod writing;
