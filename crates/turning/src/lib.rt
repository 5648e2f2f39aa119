// Which arcs between components stay: the turn of one component, in a block of 128 components.
// Components go by their places in a topological order, so every arc leads to a later place. For a component a:
//     R(a)   the components that a reaches by one arc or more between components
//     U(a)   those that it reaches by two or more
// U(a) is all R(b) together, for the heads b of a, and R(a) is U(a) with these heads. The arc from a to b stays exactly
// when b is not in U(a): no third component lies between. So the turns go backwards along the order.
// Row j of the table, eight elements of 16 bits from j * 8 on, has a bit for each of the 128 components of the block.
// The names of the components, and their rows of heads, which are places too, stand behind the table.
#![tactic(auto)]

ghost use Rattle.std.specs.Prelude.{◌<◌};
ghost use Rattle.memory.specs.Regions.{cell};
ghost use Rattle.arcsink.specs.Sink.{SinkFit};
ghost use Rattle.uniting.specs.Uniting.{row_heads, BlockLaid};
ghost use Rattle.turning.specs.Steps.{noted_arcs, place_arcs};
ghost use Rattle.turning.specs.Contract.{RowNoted, PlaceTurned};

use arcsink::ArcSink;
use taking::take;
use uniting::{Block, heads_at, unite};

// R of component j, over its U: takes each of its heads.
fn note(work: &mut [u16], b: Block, j: usize, sink: &mut ArcSink<'_>)
    requires block_laid { BlockLaid work.old b }
    requires j_lt_places { j < b.places }
    requires arcs_fit { SinkFit sink.old
        (noted_arcs (cell work.old b.tops) work.old b.first j (row_heads work.old b j)) }
    ensures { RowNoted work.old work.new b j sink.old sink.new }
{
    let from = heads_at(work, b, j);
    let to = heads_at(work, b, j + 1);
    for at in from..to {
        let k = usize::from(work[at]);
        take(work, b, j, k, sink);
    }
}

// The turn of component j, once all later components have had theirs: U, then R, and the arcs that stay.
pub fn turn(work: &mut [u16], b: Block, j: usize, sink: &mut ArcSink<'_>)
    requires block_laid { BlockLaid work.old b }
    requires j_lt_places { j < b.places }
    requires arcs_fit { SinkFit sink.old
        (place_arcs (cell work.old b.tops) work.old b.first j (row_heads work.old b j)) }
    ensures { PlaceTurned work.old work.new b j sink.old sink.new }
{
    unite(work, b, j);
    note(work, b, j, sink);
}
