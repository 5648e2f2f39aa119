// U of a component, in a block of 128 components: the rows of the heads of its arcs, united into its own. The crate
// `turning` tells the method.
// Row j of the table, eight elements of 16 bits from j * 8 on, has a bit for each of the 128 components of the block.
// The names of the components, and their rows of heads, which are places too, stand behind the table.
#![tactic(auto)]

ghost use Rattle.std.specs.Prelude.{◌≡◌, ◌+◌, ◌≤◌, ◌<◌};
ghost use Rattle.memory.specs.Regions.{cell};
ghost use Rattle.uniting.specs.Uniting.{row_heads, BlockLaid, united};

use bits::join;

// A block: how many components there are, the first of the block, and where the names of all components, the starts of
// their rows of heads, and these rows stand.
// Kept (5): every step stores into the slice that BlockLaid speaks of, so a struct of both would be opened for each.
// Kept (5): that j is an index of its places is a fact about two parameters, and no type has both.
#[derive(Clone, Copy)]
pub struct Block {
    pub places: usize,
    pub first: usize,
    pub tops: usize,
    pub starts: usize,
    pub rows: usize,
}

// Where the heads of component j begin. Those of the component before it end there.
pub fn heads_at(work: &[u16], b: Block, j: usize) -> usize
    requires block_laid { BlockLaid work.now b }
    requires j_le_places { j ≤ b.places }
    ensures { result ≡ b.rows + cell work.now b.starts j }
{
    b.rows + usize::from(work[b.starts + j])
}

// U of component j: the rows of its heads go into row j.
pub fn unite(work: &mut [u16], b: Block, j: usize)
    requires block_laid { BlockLaid work.old b }
    requires j_lt_places { j < b.places }
    ensures { work.new ≡ united work.old j (row_heads work.old b j) }
{
    let from = heads_at(work, b, j);
    let to = heads_at(work, b, j + 1);
    for at in from..to {
        let k = usize::from(work[at]);
        join(work, j * 8, k * 8, 8);
    }
}
