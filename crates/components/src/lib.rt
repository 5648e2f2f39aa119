// The components of a network in linear time, in lent work memory: every zone's name, and the names of all components
// in topological order. The crate `finishing` has the first pass, which finds a finishing order along the arcs; `roots`
// the second, which goes against the arcs from the last zone that ended on; `naming` finds each component's lowest
// zone, and lists these zones.
#![tactic(auto)]

ghost use Rattle.std.specs.Prelude.{List, ℕ};
ghost use Rattle.rules.specs.Network.{network_of};
ghost use Rattle.rules.specs.Calls.{arcs_of};
ghost use Rattle.components.specs.Components.{Lent, Components};

use workmap::{Map, SearchAt};

// Names every zone and lists the names of all components. Answers how many components there are. The arcs are
// arranged in the work memory both ways, where the map says, and so do the names stand then.
pub fn name_all(work: &mut [u16], m: Map) -> usize
    requires { (ts : List ℕ) × ((hs : List ℕ) × Lent work.old m ts hs) }
    ensures { (ts hs : List ℕ) → Lent work.old m ts hs
        → Components work.old work.new m (network_of m.zones (arcs_of ts hs)) result }
{
    let to = m.names;
    let at = SearchAt {
        marks: to.roots,
        queue: to.queue,
    };
    finishing::finish(work, m.rows, m.order);
    roots::collect(work, m.turned, m.order, at);
    naming::name_zones(work, m.zones, to);
    naming::list_names(work, m.zones, to)
}
