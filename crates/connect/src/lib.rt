// Connecting the sources and the sinks of a side: they are paired along its rows, and the links of the ordering are
// put.
#![tactic(auto)]

ghost use Rattle.rules.specs.Network.{Network};
ghost use Rattle.connect.specs.Connect.{Connectable, Connected};

use kinds::Counts;
use links::put_links;
use pairing::pair;
use sides::counts_of;
use workmap::Side;

// How many pairs were made, and how many links were put.
#[derive(Drop)]
pub struct Connection {
    pub pairs: usize,
    pub need: usize,
}

// Pairs the sources of a side with its sinks, along its rows, and puts the links. There are so many of each kind on
// that side.
pub fn connect(work: &mut [u16], side: Side, k: Counts) -> Connection
    requires { (N : Network) × Connectable work.old side k.sources k.sinks k.alone N }
    ensures { (N : Network) → Connectable work.old side k.sources k.sinks k.alone N
        → Connected work.old work.new side N result }
{
    let pairs = pair(work, side, k.sources, k.sinks);
    let n = counts_of(k, pairs);
    let need = put_links(work, n, side);
    Connection { pairs, need }
}
