// One machine's record.
use crate::doing::Doing;

// A machine's (a process's) sign and amount at first, and its doings in order.
#[derive(Drop)]
pub struct Record {
    pub sign: bool,
    pub amount: u32,
    pub doings: Vec<Doing>,
}

// What a record has before its doings: sign and amount at first, and how many doings there are.
#[derive(Clone, Copy)]
pub(crate) struct Head {
    pub(crate) sign: bool,
    pub(crate) amount: u32,
    pub(crate) count: u16,
}
