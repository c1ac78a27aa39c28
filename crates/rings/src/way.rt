// The lowest way back to a start along its distances.
ghost use Rattle.std.specs.Prelude.{◌≡◌, ◌+◌, ◌<◌, length, IfOk, OnOk};
ghost use Rattle.rings.specs.RingSearch.{Greedy};
ghost use Rattle.rings.specs.Links.{In, far, SomeNext, Lowest, Measured, Going};

use crate::distances::Search;
use std::alloc::{AllocError, Global};

impl Search<'_> {
    // The lowest number that a step from v leads to, of those that are k steps from the start.
    fn lowest_next(&self, table: &[u16], v: usize, k: u16) -> usize
        requires long { length table.now ≡ length self.now.links.now.of.items }
        requires inside { v < length self.now.links.now.of.items }
        requires some { SomeNext self.now.links.now.of.items table.now self.now.start v k }
        ensures { Lowest self.now.links.now.of.items table.now self.now.start v k result }
    {
        (self.start..table.len())
            .find(|u| table[*u] == k && self.links.leads(v, *u))
            .unwrap()
    }

    // Goes from v along the distances, always to the lowest next number, until the start is one step away.
    fn go_on(&self, table: &[u16], v: usize, k: u16, out: &mut Vec<usize>) -> Result<(), AllocError>
        requires measured { Measured self.now.links.now.of.items self.now.start self.now.top table.now }
        requires going { Going self.now.links.now.of.items table.now self.now.start self.now.top v k out.old.items }
        ensures { OnOk result (Greedy (In self.now.links.now.of.items) self.now.start (far table.now self.now.top) self.now.start out.new.items × (1 + length out.new.items ≡ far table.now self.now.top self.now.start)) }
    {
        if k <= 1 {
            return Ok(());
        }
        let w = self.lowest_next(table, v, k - 1);
        out.push(w)?;
        self.go_on(table, w, k - 1, out)
    }

    // The numbers after the start on the lowest ring of the fewest numbers that begin with it, which is so many steps long.
    pub(crate) fn way_back(
        &self,
        heap: Global,
        table: &[u16],
        steps: u16,
    ) -> Result<Vec<usize>, AllocError>
        requires measured { Measured self.now.links.now.of.items self.now.start self.now.top table.now }
        requires reached { far table.now self.now.top self.now.start ≡ steps }
        requires low { steps < self.now.top }
        ensures { IfOk result (λ x. Greedy (In self.now.links.now.of.items) self.now.start (far table.now self.now.top) self.now.start x.items × (1 + length x.items ≡ far table.now self.now.top self.now.start)) }
    {
        let mut out = Vec::new(heap);
        self.go_on(table, self.start, steps, &mut out)?;
        Ok(out)
    }
}
