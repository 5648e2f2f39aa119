// The stations of an ordering's chain, put into lent work memory. The ordering's lists stand there too.
#![tactic(auto)]

ghost use Rattle.stations.specs.Stations.{ListsApart, Stationed};

use memory::copy;
use workmap::Side;

// How many elements each list has: the pairs' sources and sinks, the lone sources, the lone sinks, the zones alone.
// Kept (2): no plainer as the counts of the kinds and one number more, since those count all sources and all sinks.
#[derive(Clone, Copy)]
pub struct Counts {
    pub pairs: usize,
    pub sources: usize,
    pub sinks: usize,
    pub alone: usize,
}

// Puts the chain's stations into the work memory, and answers how many there are: the last pair's sink, the surplus
// sinks, the zones alone, and the first pair's source, or the first zone alone where there is no pair.
pub fn put_stations(work: &mut [u16], n: Counts, p: Side) -> usize
    requires { ListsApart work.old n p }
    ensures { Stationed work.old work.new n p result }
{
    let last = n.pairs.min(1);
    let surplus = n.sinks - n.sources;
    let first = (n.pairs + n.alone).min(1);
    let front = last + surplus;
    let all = front + n.alone;
    let found = if n.pairs > 0 {
        p.pairs.firsts
    } else {
        p.lists.alone
    };
    copy(
        work,
        p.pairs.seconds + (n.pairs - last),
        last,
        p.links.stations,
    );
    copy(
        work,
        p.lists.sinks + n.sources,
        surplus,
        p.links.stations + last,
    );
    copy(work, p.lists.alone, n.alone, p.links.stations + front);
    copy(work, found, first, p.links.stations + all);
    all + first
}
