// Where in the records something is.

// A doing by its machine and its number from 1; 0 for what stands before a record's first doing, and
// machine 40 for a file too many, both as a rule of the project has them in the bytes of a refusal.
#[derive(Clone, Copy)]
pub struct Place {
    pub machine: u8,
    pub doing: u16,
}
