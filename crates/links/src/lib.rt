// The links of an ordering, put into lent work memory as three lists: starts, ends and whys. The ordering's lists
// stand there too, and the chain's stations are put there on the way.
#![tactic(auto)]

ghost use Rattle.rules.specs.Plan.{record_why_number};
ghost use Rattle.links.specs.Stores.{Joinable, LinksJoined};
ghost use Rattle.links.specs.Linking.{Linkable, LinksPut};

use memory::{copy, fill};
use rules::Why;
use stations::{Counts, put_stations};
use workmap::{LinksAt, Side};

// Puts n links of one why behind the first `at` links, from the elements from place `a` on to those from place `b` on.
fn join(work: &mut [u16], p: LinksAt, a: usize, b: usize, n: usize, why: Why, at: usize)
    requires { Joinable work.old p a b n at }
    ensures { LinksJoined work.old work.new p a b n (record_why_number why) at }
{
    copy(work, a, n, p.from + at);
    copy(work, b, n, p.to + at);
    fill(work, p.why + at, n, u16::from(why));
}

// Puts the links of the ordering into the work memory, and answers how many there are: the rings, the chain, and the
// links back.
pub fn put_links(work: &mut [u16], n: Counts, p: Side) -> usize
    requires { Linkable work.old n p }
    ensures { LinksPut work.old work.new n p result }
{
    let stations = put_stations(work, n, p);
    let rings = n.pairs.saturating_sub(1);
    let chain = stations.saturating_sub(1);
    let at = rings + chain;
    let w = p.pairs.seconds;
    let q = p.links.stations;
    join(work, p.links, w, p.pairs.firsts + 1, rings, Why::Ring, 0);
    join(work, p.links, q, q + 1, chain, Why::Chain, rings);
    join(
        work,
        p.links,
        p.lists.sinks,
        p.pairs.lone,
        n.sources,
        Why::Back,
        at,
    );
    at + n.sources
}
