// States between doings.
use records::place::Place;

// A machine after one of its doings, or before the first: its sign and amount, and where the letter was sent that the doing got.
#[derive(Clone, Copy)]
pub struct State {
    pub sign: bool,
    pub amount: u32,
    pub sending: Option<Place>,
}
