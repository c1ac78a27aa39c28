// Records whose letters are matched. The struct is alone here, so that definitions of contracts can name it.
use crate::letter::Letter;
use records::records::Records;

// What all machines recorded, and the letters that were got, in order of their gettings.
#[derive(Drop)]
pub struct Matched {
    pub records: Records,
    pub letters: Vec<Letter>,
}
