// The doings of a run by number, and the steps between them.
ghost use Rattle.std.specs.Prelude.{◌≡◌, ◌<◌, ◌≤◌, ◌++◌, map, IfOk, OnOk, option_map};
ghost use Rattle.runs.specs.Model.{sending_of, counts_of};
ghost use Rattle.rings.specs.Numbers.{places_of, Numbered, number_of, link_of};

use crate::links::{Link, Links};
use records::place::Place;
use runs::counts::Counts;
use runs::run::Run;
use std::alloc::{AllocError, Global};

// The places of all doings of a run, in order, and the number of each machine's first.
#[derive(Drop)]
pub(crate) struct Numbers<'a> {
    pub(crate) run: &'a Run,
    pub(crate) places: Vec<Place>,
    pub(crate) begins: Counts,
    ghost numbered: { Numbered run.now places.items begins },
}

// Puts the places of a machine's doings behind what is there.
fn push_machine(places: &mut Vec<Place>, machine: u8, did: u16) -> Result<(), AllocError>
    ensures { OnOk result (places.new.items ≡ places.old.items ++ places_of machine did) }
{
    // Counted: what `extend` says of a range's map is a run of it and no list, so that the proof did not close.
    for m in 0..did {
        places.push(Place {
            machine,
            doing: m + 1,
        })?;
    }
    Ok(())
}

impl Numbers<'_> {
    // Numbers the doings, machine after machine.
    pub(crate) fn of<'a>(heap: Global, run: &'a Run) -> Result<Numbers<'a>, AllocError>
        ensures { IfOk result (λ x. x.run.now ≡ run.now) }
    {
        let mut places = Vec::new(heap);
        let mut begins = Counts::none();
        for (i, did) in run.did.of[..run.count].iter().enumerate() {
            begins = begins.with(i, places.len() as u16);
            push_machine(&mut places, i as u8, *did)?;
        }
        Ok(Numbers {
            run,
            places,
            begins,
        })
    }

    // What leads to a doing.
    fn link(&self, place: Place) -> Link
        requires machine { place.machine < self.now.run.now.count }
        requires doing { place.doing ≤ counts_of self.now.run.now.did place.machine }
        ensures { result ≡ link_of self.now.run.now self.now.begins place }
    {
        // No `map`: its closure would need clauses, longer than the match.
        let letter = match self.run.sending(usize::from(place.machine), place.doing) {
            None => None,
            Some(sent) => Some(self.begins.index(usize::from(sent.machine), sent.doing) - 1),
        };
        Link {
            own: place.doing > 1,
            letter,
        }
    }

    // What leads to each number.
    pub(crate) fn links(&self, heap: Global) -> Result<Links, AllocError>
        ensures { IfOk result (λ x. x.of.items ≡ map (link_of self.now.run.now self.now.begins) self.now.places.items) }
    {
        // As many as there are, since links are large for what they say, and a list that grows may take room for twice as many.
        let mut of = Vec::with_capacity(heap, self.places.len())?;
        for place in &self.places {
            of.push(self.link(*place))?;
        }
        Ok(Links { of })
    }
}
