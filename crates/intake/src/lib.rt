// The tests of a network that is handed in, in their order, with the set of its withdrawn zones, and the test of the
// work memory, which asks for as much as the network's counts say.
#![tactic(auto)]

ghost use Rattle.std.specs.Prelude.{◌≡◌, ◌≤◌, [], ◌∷◌, length};
ghost use Rattle.rules.specs.Calls.{arcs_tests, arcs_of, room_test, asked_work};
ghost use Rattle.zoneset.specs.Held.{held};
ghost use Rattle.probes.specs.Tested.{FoundBy};
ghost use Rattle.intake.specs.Taken.{first_tests, Taken};

use probes::{arc, room, test, zones_bad};
use rules::{NetworkLists, Trouble, TroubleKind};
use workmap::asked_work;
use zonelists::list;
use zoneset::ZoneSet;

// The tests before the arcs.
fn first_tests(net: NetworkLists<'_>) -> Result<(), Trouble>
    ensures { FoundBy
        (first_tests net.entry.zones net.entry.tails.now net.entry.heads.now net.entry.gone.now)
        result }
{
    test(net.tails.len() != net.heads.len(), TroubleKind::Pair, 0)?;
    test(zones_bad(net.zones), TroubleKind::Zones, 0)?;
    test(4096 < net.tails.len(), TroubleKind::Arcs, 0)?;
    list(net.zones, net.gone)?;
    test(net.gone.len() == net.zones, TroubleKind::None, 0)
}

// The tests of the arcs, one after the other.
#[tactic(auto, using(crate::proofs::Along::rest_turn, crate::proofs::Along::rest_none))]
fn arcs(net: NetworkLists<'_>, gone: &ZoneSet) -> Result<(), Trouble>
    requires { length net.tails.now ≡ length net.heads.now }
    ensures { FoundBy
        (arcs_tests net.entry.zones 0 (arcs_of net.entry.tails.now net.entry.heads.now) (held gone.now))
        result }
{
    for i in 0..net.tails.len() {
        arc(net.zones, net.tails[i], net.heads[i], gone, i)?;
    }
    Ok(())
}

// The tests of a network that is handed in, and the set of its withdrawn zones, which is filled once, before the arcs.
pub fn network(net: NetworkLists<'_>) -> Result<ZoneSet, Trouble>
    ensures { Taken net.entry.zones net.entry.tails.now net.entry.heads.now net.entry.gone.now
        result }
{
    first_tests(net)?;
    let gone = ZoneSet::of(net.gone);
    arcs(net, &gone)?;
    Ok(gone)
}

// The test of the work memory's length, of a network whose counts passed their tests.
// Kept (5): whoever asks has the two bounds from the tests just made, and a type of both would take the same proof.
pub fn work(zones: usize, arcs: usize, lent: usize) -> Result<(), Trouble>
    requires zones_bound { zones ≤ 1024 }
    requires arcs_bound { arcs ≤ 4096 }
    ensures { FoundBy (room_test (asked_work zones arcs) lent ∷ []) result }
{
    room(asked_work(zones, arcs), lent)
}
