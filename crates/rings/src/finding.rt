// The shortest rings, start by start.
ghost use Rattle.std.specs.Prelude.{◌≡◌, ◌+◌, ◌<◌, length, IfOk};
ghost use Rattle.rings.specs.Links.{In};
ghost use Rattle.rings.specs.Shortest.{Shortest, Searched};

use crate::distances::Search;
use crate::links::Links;
use std::alloc::{AllocError, Global};

// Of the starts gone through, the first with a ring of the fewest numbers, and how many those are.
#[derive(Clone, Copy)]
pub(crate) struct Best {
    pub(crate) start: usize,
    pub(crate) fewest: u16,
}

// A ring by its lowest number and those after it.
#[derive(Drop)]
pub(crate) struct Found {
    pub(crate) start: usize,
    pub(crate) rest: Vec<usize>,
}

// Looks at the rings that begin with t, none of whose numbers is lower.
fn better(
    heap: Global,
    links: &Links,
    table: &mut [u16],
    best: Option<Best>,
    t: usize,
) -> Result<Option<Best>, AllocError>
    requires long { length table.old ≡ length links.now.of.items }
    requires here { t < length links.now.of.items }
    requires shortest { Shortest (In links.now.of.items) (length links.now.of.items) t best }
    ensures { IfOk result (Shortest (In links.now.of.items) (length links.now.of.items) (t + 1)) }
{
    let top = best.map_or(links.of.len() as u16 + 1, |best| best.fewest);
    if top <= 1 || links.sent_from(t, t).is_none() {
        return Ok(best);
    }
    Search {
        links,
        start: t,
        top,
    }
    .measure(heap, table)?;
    match table[t] {
        0 => Ok(best),
        fewest => Ok(Some(Best { start: t, fewest })),
    }
}

// The best of all starts.
fn shortest(heap: Global, links: &Links, table: &mut [u16]) -> Result<Option<Best>, AllocError>
    requires long { length table.old ≡ length links.now.of.items }
    ensures { IfOk result (Shortest (In links.now.of.items) (length links.now.of.items) (length links.now.of.items)) }
{
    let mut best = None;
    // The number is the start itself, and no index: what leads to it is not read here.
    for t in 0..links.of.len() {
        best = better(heap, links, table, best, t)?;
    }
    Ok(best)
}

// The lowest of the rings with the fewest numbers, if there is a ring.
pub(crate) fn lowest(heap: Global, links: &Links) -> Result<Option<Found>, AllocError>
    ensures { IfOk result (Searched (In links.now.of.items) (length links.now.of.items)) }
{
    let mut table = vec![in heap; 0; links.of.len()]?;
    let table = table.as_mut_slice();
    let Some(best) = shortest(heap, links, table)? else {
        return Ok(None);
    };
    let Best { start, fewest } = best;
    let search = Search {
        links,
        start,
        top: fewest + 1,
    };
    search.measure(heap, table)?;
    let rest = search.way_back(heap, table, fewest)?;
    Ok(Some(Found { start, rest }))
}
