// STRONG and REACH: whether a network is strong, and whether a zone reaches another. The tests come first, then the
// question is answered in the lent work memory.
#![tactic(auto)]

ghost use Rattle.rules.specs.Answers.{strong_told, reach_told};
ghost use Rattle.rules.specs.Promises.{StrongPromise, ReachPromise};

use reaching::reached;
use rules::{NetworkLists, Trouble};
use strength::joined;
use workmap::map_of;

// STRONG: whether every zone reaches every zone.
pub fn strong(net: NetworkLists<'_>, work: &mut [u16]) -> Result<bool, Trouble>
    ensures { StrongPromise net.entry.zones net.entry.tails.now net.entry.heads.now
        net.entry.gone.now work.old work.new (strong_told result) }
{
    admission::strong(net, work)?;
    let m = map_of(net.zones, net.tails.len());
    Ok(joined(m, net, work))
}

// REACH: whether one zone reaches another.
pub fn reach(
    net: NetworkLists<'_>,
    from: usize,
    to: usize,
    work: &mut [u16],
) -> Result<bool, Trouble>
    ensures { ReachPromise net.entry.zones net.entry.tails.now net.entry.heads.now
        net.entry.gone.now from to work.old work.new (reach_told result) }
{
    admission::reach(net, from, to, work)?;
    let m = map_of(net.zones, net.tails.len());
    Ok(reached(m, net.tails, net.heads, from, to, work))
}
