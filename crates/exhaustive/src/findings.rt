// What looking at each cut finds.
use crate::extreme::Extreme;
use runs::counts::Counts;

// How many moments there are, the first of all yes, whether every way has one, the least and the most of all amounts together.
#[derive(Clone, Copy)]
pub struct Findings {
    pub moments: u64,
    pub first: Option<Counts>,
    pub must: bool,
    pub least: Extreme,
    pub most: Extreme,
}
