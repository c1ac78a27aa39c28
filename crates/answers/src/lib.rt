// Questions and answers: the bytes that say them, out and in, and their words.
#![tactic(auto)]

pub mod answer;
pub mod question;
pub mod reading;
pub mod words;
pub mod writing;
