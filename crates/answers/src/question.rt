// Questions. Those whose answers there are so far.
#[derive(Clone, Copy)]
pub enum Question {
    // may there have been a moment of all yes (Possibly)
    May,
}
