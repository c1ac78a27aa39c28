// The least or the most of what has been seen. The struct is alone here, so that definitions of contracts can name it.
use runs::counts::Counts;

// A least or a most, and the lowest moment that has it.
#[derive(Clone, Copy)]
pub struct Extreme {
    pub sum: u64,
    pub at: Counts,
}
