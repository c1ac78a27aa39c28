// How far an ordering, or a search, has come.
use runs::counts::Counts;

// It has come to this cut, and so many pairs of counts were compared for that.
#[derive(Clone, Copy)]
pub struct Progress {
    pub cut: Counts,
    pub pairs: u64,
}
