// The arcs between components that stay, by a table of who reaches whom, for 128 components at a time, in lent work
// memory. Components go by their places in a topological order. For a component a,
//     U(a)   is what a reaches by two or more arcs between components,
//     R(a)   what it reaches by one or more,
// and the arc from a to b stays exactly when b is not in U(a). A block asks this for the 128 components b from `first`
// on: a row of the table is eight 16-bit words, a bit for each of them. All components that stand before the block's
// end have their turns (`turning`), from the last on, so that the rows of a component's heads are there before its own.
// A component behind the block reaches none of it, so its row stays clear.
#![tactic(auto)]

ghost use Rattle.std.specs.Prelude.{◌≡◌, ◌≤◌};
ghost use Rattle.memory.specs.Regions.{cell};
ghost use Rattle.arcsink.specs.Sink.{SinkFit};
ghost use Rattle.uniting.specs.Uniting.{row_heads, BlockLaid};
ghost use Rattle.blocks.specs.Sweeps.{places_arcs, block_arcs, block_of, crossing_arcs};
ghost use Rattle.blocks.specs.Contract.{PlacesTurned, BlockDone, CrossingsPut};

use arcsink::ArcSink;
use memory::clear;
use turning::turn;
use uniting::Block;
use workmap::TableAt;

// The turns of the components before `end`, from the last on.
fn sweep(work: &mut [u16], b: Block, end: usize, sink: &mut ArcSink<'_>)
    requires block_laid { BlockLaid work.old b }
    requires end_le_places { end ≤ b.places }
    requires arcs_fit { SinkFit sink.old
        (places_arcs (cell work.old b.tops) work.old b.first (row_heads work.old b) end end) }
    ensures { PlacesTurned work.old work.new b end sink.old sink.new }
{
    for j in (0..end).rev() {
        turn(work, b, j, sink);
    }
}

// One block, in a table that is cleared first.
fn block(work: &mut [u16], b: Block, sink: &mut ArcSink<'_>)
    requires block_laid { BlockLaid work.old b }
    requires first_le_1024 { b.first ≤ 1024 }
    requires arcs_fit { SinkFit sink.old
        (block_arcs (cell work.old b.tops) work.old b.places b.first (row_heads work.old b)) }
    ensures { BlockDone work.old work.new b sink.old sink.new }
{
    let end = (b.first + 128).min(b.places);
    clear(work, b.places * 8);
    sweep(work, b, end, sink);
}

// Puts the arcs between the first `places` components that stay, each once, in no order.
pub fn cross(work: &mut [u16], at: TableAt, places: usize, sink: &mut ArcSink<'_>)
    requires block_laid { BlockLaid work.old (block_of at places 0) }
    requires arcs_fit { SinkFit sink.old (crossing_arcs work.old at places) }
    ensures { CrossingsPut work.old work.new at places sink.old sink.new }
{
    for first in (0..places).step_by(128) {
        let b = Block {
            places,
            first,
            tops: at.tops,
            starts: at.rows.starts,
            rows: at.rows.rows,
        };
        block(work, b, sink);
    }
}
