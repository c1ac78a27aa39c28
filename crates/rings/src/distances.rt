// Distances back to a start, level by level (breadth-first search).
ghost use Rattle.std.specs.Prelude.{◌≡◌, ℕ, ◌+◌, ◌<◌, ◌^◌, length, IfOk, OnOk};
ghost use Rattle.rings.specs.Links.{Marked, Into, Leveled, Measured};

use crate::links::Links;
use std::alloc::{AllocError, Global};

// A search for the steps from each number back to a start, where fewer than top, past numbers from the start on alone.
// The table is lent beside it: one serves all searches, and a search that held it could not be copied, nor made for a way back. In it a
// number has its steps once they are known, and 0 before: options there made the hardest search almost twice as slow.
#[derive(Clone, Copy)]
pub(crate) struct Search<'a> {
    pub(crate) links: &'a Links,
    pub(crate) start: usize,
    pub(crate) top: u16,
    ghost inside: { start < length links.now.of.items },
    ghost low: { 1 < top },
    ghost small: { top < 2 ^ 16 },
}

// Gives v so many steps, if it has none yet, and notes it.
fn mark(table: &mut [u16], next: &mut Vec<usize>, v: usize, steps: u16) -> Result<(), AllocError>
    requires inside { v < length table.old }
    requires some { 0 < steps }
    ensures { OnOk result (Marked steps v table.old next.old.items table.new next.new.items) }
{
    if table[v] == 0 {
        next.push(v)?;
        table[v] = steps;
    }
    Ok(())
}

impl Search<'_> {
    // Gives so many steps to the numbers from which a step leads to w.
    fn into(
        &self,
        table: &mut [u16],
        next: &mut Vec<usize>,
        w: usize,
        steps: u16,
    ) -> Result<(), AllocError>
        requires long { length table.old ≡ length self.now.links.now.of.items }
        requires inside { w < length self.now.links.now.of.items }
        requires some { 0 < steps }
        ensures { OnOk result (Into self.now.links.now.of.items self.now.start steps w table.old next.old.items table.new next.new.items) }
    {
        if self.links.of[w].own && self.start < w {
            mark(table, next, w - 1, steps)?;
        }
        if let Some(v) = self.links.sent_from(self.start, w) {
            mark(table, next, v, steps)?;
        }
        Ok(())
    }

    // One level more: from those at distance k to those at k + 1.
    fn level(
        &self,
        heap: Global,
        table: &mut [u16],
        k: u16,
        at_k: &[usize],
    ) -> Result<Vec<usize>, AllocError>
        requires leveled { Leveled self.now.links.now.of.items self.now.start self.now.top k table.old at_k.now }
        requires next { k + 1 < self.now.top }
        ensures { IfOk result (λ x. Leveled self.now.links.now.of.items self.now.start self.now.top (k + 1) table.new x.items) }
    {
        let mut next = Vec::new(heap);
        for w in at_k {
            self.into(table, &mut next, *w, k + 1)?;
        }
        Ok(next)
    }

    // The first level: what is one step from the start, and not lower.
    fn begin(&self, heap: Global, table: &mut [u16]) -> Result<Vec<usize>, AllocError>
        requires long { length table.old ≡ length self.now.links.now.of.items }
        ensures { IfOk result (λ x. Leveled self.now.links.now.of.items self.now.start self.now.top 1 table.new x.items) }
    {
        table[self.start..].fill(0);
        let mut first = Vec::new(heap);
        if let Some(v) = self.links.sent_from(self.start, self.start) {
            mark(table, &mut first, v, 1)?;
        }
        Ok(first)
    }

    // The distances back to the start that are below top.
    pub(crate) fn measure(&self, heap: Global, table: &mut [u16]) -> Result<(), AllocError>
        requires long { length table.old ≡ length self.now.links.now.of.items }
        ensures { OnOk result (Measured self.now.links.now.of.items self.now.start self.now.top table.new) }
    {
        let mut at_k = self.begin(heap, table)?;
        // The level, and no index: a level is made of the one before.
        let mut k = 1;
        while k + 1 < self.top && !at_k.is_empty() {
            at_k = self.level(heap, table, k, &at_k)?;
            k += 1;
        }
        Ok(())
    }
}
