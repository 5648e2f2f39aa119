// PLAN: the smallest set of links that makes a network strong, in three lent lists. The plan is laid out in lent work
// memory and then copied out.
#![tactic(auto)]

ghost use Rattle.rules.specs.Answers.{plan_told};
ghost use Rattle.rules.specs.Promises.{PlanPromise};

use handout::hand_out;
use laying::lay;
use memory::clear;
use rules::{NetworkLists, PlanCounts, Trouble};
use workmap::map_of;

// PLAN: the links' starts go to `from`, their ends to `to`, and the numbers of their whys to `why`.
pub fn plan(
    net: NetworkLists<'_>,
    from: &mut [u16],
    to: &mut [u16],
    why: &mut [u16],
    work: &mut [u16],
) -> Result<PlanCounts, Trouble>
    ensures { PlanPromise net.entry.zones net.entry.tails.now net.entry.heads.now net.entry.gone.now
        from.old to.old why.old work.old from.new
        to.new why.new work.new (plan_told result) }
{
    admission::plan(net, from, to, why, work)?;
    let m = map_of(net.zones, net.tails.len());
    let counts = lay(m, net, work);
    hand_out(work, m.links, counts.need, from, to, why);
    clear(work, m.asked);
    Ok(counts)
}
