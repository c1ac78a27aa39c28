// Answers. The types are alone here, so that definitions of contracts can name them.

// What the answer is, and what shows it.
#[derive(Drop)]
pub enum Answer {
    // the first moment of all yes: how many doings of each machine are behind it
    MayYes(Vec<u16>),
    MayNo,
}

// An answer, and how many steps were taken for it.
#[derive(Drop)]
pub struct Counted {
    pub answer: Answer,
    // of numbers compared
    pub pairs: u64,
    // of flow
    pub ways: u64,
}
