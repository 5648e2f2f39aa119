// SKELETON: the skeleton of a network, in two lent lists. The arcs are arranged in the work memory and the zones get
// their names; the arcs of the skeleton are put out in no order, and then sorted by tail and head.
#![tactic(auto)]

ghost use Rattle.rules.specs.Answers.{skeleton_told};
ghost use Rattle.rules.specs.Promises.{SkeletonPromise};
ghost use Rattle.skeleton.specs.Promises.{Sketchable, Sketched};

use arranged::ready;
use components::name_all;
use drawing::draw;
use memory::clear;
use rules::{NetworkLists, Trouble};
use sorting::sort;
use workmap::map_of;

// Puts the skeleton and clears the work memory. Answers how many arcs the skeleton has.
fn sketch(
    zones: usize,
    tails: &[u16],
    heads: &[u16],
    from: &mut [u16],
    to: &mut [u16],
    work: &mut [u16],
) -> usize
    requires { Sketchable zones tails.now heads.now from.old to.old work.old }
    ensures { Sketched zones tails.now heads.now from.old
        to.old work.old result from.new to.new
        work.new }
{
    let m = map_of(zones, tails.len());
    ready(m, tails, heads, work);
    let places = name_all(work, m);
    let count = draw(m, places, tails, heads, from, to, work);
    sort(m.sorting, &mut from[..count], &mut to[..count], work);
    clear(work, m.asked);
    count
}

// SKELETON: the arcs of the skeleton, ascending by tail, then by head. Withdrawn zones are at no arc, so only the tests
// ask for them.
pub fn skeleton(
    net: NetworkLists<'_>,
    from: &mut [u16],
    to: &mut [u16],
    work: &mut [u16],
) -> Result<usize, Trouble>
    ensures { SkeletonPromise net.entry.zones net.entry.tails.now net.entry.heads.now net.entry.gone.now
        from.old to.old work.old from.new to.new
        work.new (skeleton_told result) }
{
    admission::skeleton(net, from, to, work)?;
    let count = sketch(net.zones, net.tails, net.heads, from, to, work);
    Ok(count)
}
