// Refusals: what can't have been, where that shows, and the bytes that say it.
ghost use Rattle.std.specs.Prelude.{◌≡◌, IfOk};
ghost use Rattle.records.specs.Refusal.{refusal_number, refusal_places, place_bytes, refusal_bytes};

use crate::bytes::{Bytes, put_each};
use crate::place::Place;
use std::alloc::{AllocError, Global};

// Why a list of files is refused, with the first place at which that shows.
#[derive(Drop)]
pub enum Refusal {
    // the files are no records
    Form(Place),
    // a letter is sent twice, or got twice
    Again(Place),
    // a letter is got that nobody sent
    Unsent(Place),
    // doings come before themselves (a cycle), by these
    Ring(Vec<Place>),
}

impl Bytes for Place {
    ghost bytes = { place_bytes };

    fn put(&self, out: &mut Vec<u8>) -> Result<(), AllocError> {
        let doing = self.doing.to_be_bytes();
        out.extend_from_slice(&[self.machine, doing[0], doing[1]])
    }
}

impl Refusal {
    // The lower a number, the sooner it wins. No cast gives it, since a case with places has no number of its own.
    pub fn number(&self) -> u8
        ensures { result ≡ refusal_number self.now }
    {
        match self {
            Refusal::Form(_) => 1,
            Refusal::Again(_) => 2,
            Refusal::Unsent(_) => 3,
            Refusal::Ring(_) => 4,
        }
    }

    // Where it shows: one place, or those of the ring.
    pub fn places(&self, heap: Global) -> Result<Vec<Place>, AllocError>
        ensures { IfOk result (λ x. x.items ≡ refusal_places self.now) }
    {
        let mut places = Vec::new(heap);
        match self {
            Refusal::Form(place) | Refusal::Again(place) | Refusal::Unsent(place) => places.push(
                *place,
            )?,
            Refusal::Ring(ring) => places.extend_from_slice(ring)?,
        }
        Ok(places)
    }

    pub fn bytes(&self, heap: Global) -> Result<Vec<u8>, AllocError>
        ensures { IfOk result (λ x. x.items ≡ refusal_bytes self.now) }
    {
        let places = self.places(heap)?;
        let mut bytes = Vec::new(heap);
        bytes.push(78)?;
        bytes.push(self.number())?;
        put_each(&places, &mut bytes)?;
        Ok(bytes)
    }
}
