// The tests of each call that is handed a network and lent work memory, in the order of the rules: chains of the tests
// of `intake`, with `?`. A test that only some calls make is a line in each of these.
#![tactic(auto, using(crate::proofs::Told::parts))]

ghost use Rattle.std.specs.Prelude.{◌≡◌};
ghost use Rattle.rules.specs.Calls.{strong_trouble, reach_trouble, skeleton_trouble, plan_trouble, records_trouble};
ghost use Rattle.probes.specs.Tested.{tested_trouble};

use intake::network;
use probes::{question, room};
use rules::{NetworkLists, Trouble};

// STRONG: a network, and work memory.
pub fn strong(net: NetworkLists<'_>, work: &[u16]) -> Result<(), Trouble>
    ensures { tested_trouble result
        ≡ strong_trouble net.entry.zones net.entry.tails.now net.entry.heads.now net.entry.gone.now
        work.now }
{
    network(net)?;
    intake::work(net.zones, net.tails.len(), work.len())
}

// REACH: a network, the two zones of a question, and work memory.
pub fn reach(net: NetworkLists<'_>, from: usize, to: usize, work: &[u16]) -> Result<(), Trouble>
    ensures { tested_trouble result
        ≡ reach_trouble net.entry.zones net.entry.tails.now net.entry.heads.now net.entry.gone.now
        from to work.now }
{
    let gone = network(net)?;
    let arcs = net.tails.len();
    question(net.zones, arcs, &gone, from, to)?;
    intake::work(net.zones, arcs, work.len())
}

// SKELETON: a network and work memory, as for STRONG, and two lists that are asked to be as long as the input's.
pub fn skeleton(
    net: NetworkLists<'_>,
    from: &[u16],
    to: &[u16],
    work: &[u16],
) -> Result<(), Trouble>
    ensures { tested_trouble result
        ≡ skeleton_trouble net.entry.zones net.entry.tails.now net.entry.heads.now
        net.entry.gone.now from.now to.now work.now }
{
    strong(net, work)?;
    room(net.tails.len(), from.len())?;
    room(net.tails.len(), to.len())
}

// PLAN: a network and work memory, as for STRONG, and three lists that are asked to be as long as there are zones.
pub fn plan(
    net: NetworkLists<'_>,
    from: &[u16],
    to: &[u16],
    why: &[u16],
    work: &[u16],
) -> Result<(), Trouble>
    ensures { tested_trouble result
        ≡ plan_trouble net.entry.zones net.entry.tails.now net.entry.heads.now net.entry.gone.now
        from.now to.now why.now work.now }
{
    strong(net, work)?;
    room(net.zones, from.len())?;
    room(net.zones, to.len())?;
    room(net.zones, why.len())
}

// PLAN over records: a network and work memory, as for STRONG, and so many records, asked to be as many as the zones.
pub fn records(net: NetworkLists<'_>, lent: usize, work: &[u16]) -> Result<(), Trouble>
    ensures { tested_trouble result
        ≡ records_trouble net.entry.zones net.entry.tails.now net.entry.heads.now net.entry.gone.now
        lent work.now }
{
    strong(net, work)?;
    room(net.zones, lent)
}
