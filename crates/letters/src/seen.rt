// What the doings gone through so far did with letters. The struct is alone here, so that definitions of contracts can name it.
use records::place::Place;
use std::collections::BTreeMap;

// The doing that sent each letter, and the one that got it, by the letter's number.
#[derive(Drop)]
pub(crate) struct Seen {
    pub(crate) sent: BTreeMap<u32, Place>,
    pub(crate) got: BTreeMap<u32, Place>,
}
