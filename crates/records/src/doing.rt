// Doings (events), and what each did with a letter (a message).

// What a doing did with a letter, by the letter's number.
#[derive(Clone, Copy)]
pub enum Kind {
    Neither,
    Sends(u32),
    Gets(u32),
}

// A doing, with its machine's sign (local predicate) and amount (local quantity) after it.
#[derive(Clone, Copy)]
pub struct Doing {
    pub kind: Kind,
    pub sign: bool,
    pub amount: u32,
}
