// The lowest ring of a run.
ghost use Rattle.std.specs.Prelude.{◌≡◌, ◌<◌, ◌∷◌, map, length, IfOk};
ghost use Rattle.runs.specs.Model.{run_of};
ghost use Rattle.rings.specs.Numbers.{place_of};
ghost use Rattle.rings.specs.Lowest.{AllBelow, RingFound};

use crate::finding::{Found, lowest};
use crate::numbers::Numbers;
use records::place::Place;
use runs::run::Run;
use std::alloc::{AllocError, Global};

// The places of a ring's numbers.
fn places_of(heap: Global, places: &[Place], found: &Found) -> Result<Vec<Place>, AllocError>
    requires start { found.now.start < length places.now }
    requires rest { AllBelow (length places.now) found.now.rest.items }
    ensures { IfOk result (λ x. x.items ≡ map (place_of places.now) (found.now.start ∷ found.now.rest.items)) }
{
    let mut ring = Vec::new(heap);
    ring.push(places[found.start])?;
    for number in &found.rest {
        ring.push(places[*number])?;
    }
    Ok(ring)
}

// Of the rings with the fewest doings the lowest, written from its lowest doing; none if nothing comes before itself.
pub fn lowest_ring(heap: Global, run: &Run) -> Result<Option<Vec<Place>>, AllocError>
    ensures { IfOk result (RingFound (run_of run.now)) }
{
    let numbers = Numbers::of(heap, run)?;
    let links = numbers.links(heap)?;
    match lowest(heap, &links)? {
        None => Ok(None),
        Some(found) => Ok(Some(places_of(heap, &numbers.places, &found)?)),
    }
}
