// One head of a component, in a block of 128 components: it stays where it is fresh, of the block and not in the
// component's row yet. The crate `turning` tells the method.
#![tactic(auto)]

ghost use Rattle.std.specs.Prelude.{◌≡◌, ◌+◌, ◌*◌, ◌≤◌, ◌<◌, length};
ghost use Rattle.memory.specs.Regions.{cell};
ghost use Rattle.arcsink.specs.Sink.{SinkFit};
ghost use Rattle.uniting.specs.Uniting.{BlockLaid};
ghost use Rattle.taking.specs.Taking.{fresh, taken_arcs, HeadTaken};

use arcsink::ArcSink;
use bits::{has_bit, set_bit};
use uniting::Block;

// Whether k is of the block, and not in row j.
#[tactic(auto, unfolding(crate::specs::Taking::fresh))]
fn is_fresh(work: &[u16], first: usize, j: usize, k: usize) -> bool
    requires { (j < 1024) × (j * 8 + 8 ≤ length work.now) }
    ensures { result ≡ fresh work.now first j k }
{
    first <= k && k - first < 128 && !has_bit(work, 8, j, k - first)
}

// Where the head k of component j is fresh: puts k into row j, and the arc from the one's name to the other's into the
// lists. A head that stands twice is not fresh any more the second time.
pub fn take(work: &mut [u16], b: Block, j: usize, k: usize, sink: &mut ArcSink<'_>)
    requires block_laid { BlockLaid work.old b }
    requires j_and_k_lt_places { (j < b.places) × (k < b.places) }
    requires arcs_fit { SinkFit sink.old (taken_arcs (cell work.old b.tops) work.old b.first j k) }
    ensures { HeadTaken work.old work.new b j k sink.old sink.new }
{
    if is_fresh(work, b.first, j, k) {
        let bit = k - b.first;
        sink.put(work[b.tops + j], work[b.tops + k]);
        set_bit(work, 8, j, bit);
    }
}
