// Vectors as moments.
ghost use Rattle.std.specs.Prelude.{◌≡◌, ◌<◌, ◌≤◌};
ghost use Rattle.runs.specs.Model.{run_of, counts_of};
ghost use Rattle.order.specs.Rows.{rows_in};
ghost use Rattle.moments.specs.Vectors.{LowestWith, VectorsLowest};

use order::ordered::Ordered;
use runs::counts::Counts;

// A doing's vector: the lowest moment that has the doing behind it.
pub fn vector(ordered: &Ordered, machine: usize, doing: u16) -> Counts
    requires inside { machine < ordered.now.run.count }
    requires some { 1 ≤ doing }
    requires done { doing ≤ counts_of ordered.now.run.did machine }
    ensures row { result ≡ rows_in ordered.now.run ordered.now.rows.items machine doing }
    ensures lowest { LowestWith (run_of ordered.now.run) machine doing (counts_of result) }
    ensures always { VectorsLowest }
{
    ordered.rows[ordered.run.index(machine, doing)]
}
