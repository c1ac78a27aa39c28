// All machines' records. The struct is alone here, so that definitions of contracts can name it.
ghost use Rattle.std.specs.Prelude.{ℕ, ◌≤◌, length};
ghost use Rattle.records.specs.Record.{records_of, did_of};

use crate::record::Record;

// What all machines recorded, by number: at most forty, none with more than 500 doings.
#[derive(Drop)]
pub struct Records {
    pub list: Vec<Record>,
    ghost few: { length (records_of list.items) ≤ 40 },
    ghost short: { (i : ℕ) → did_of (records_of list.items) i ≤ 500 },
}
