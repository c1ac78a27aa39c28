// Letters that were got.

// A letter by machine and doing of its sending, and of its getting. Four numbers and not two places: what is said of letters, of what
// comes before what and of moments goes by machines, and each such word would be longer by one.
#[derive(Clone, Copy)]
pub struct Letter {
    pub from: u8,
    pub sent: u16,
    pub to: u8,
    pub got: u16,
}
