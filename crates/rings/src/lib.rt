// The arcs of the rings of all components, from the zones' names in lent work memory, into two lent lists: the zones of
// a component make a ring, each followed by the next one above it, and the highest by the lowest, which is the name.
// One pass from the last zone down has, for each name, the lowest zone of its component so far: that one follows the
// zone which is met next. Before the first it is the name itself, so the highest zone is followed by the name.
#![tactic(auto)]

ghost use Rattle.std.specs.Prelude.{◌≡◌, ◌+◌, ◌<◌};
ghost use Rattle.std.proofs.lemmas.List.Edits.{sets};
ghost use Rattle.rules.specs.Lists.{span};
ghost use Rattle.memory.specs.Regions.{cell};
ghost use Rattle.arcsink.specs.Sink.{SinkFit};
ghost use Rattle.rings.specs.Rings.{ring_arc, rings_of, RingsLent, RingPut, RingsPut};

use arcsink::ArcSink;
use workmap::RingsAt;

// Notes each name as what comes first: the highest zone of its component is followed by it.
// Kept (5): every step stores into the slice that RingsLent speaks of, so a struct of both would be opened for each.
fn start_rings(work: &mut [u16], at: RingsAt)
    requires { RingsLent work.old at }
    ensures { work.new ≡ sets work.old at.last (span 0 at.zones) }
{
    for a in 0..at.zones {
        work[at.last + a] = a as u16;
    }
}

// Puts the ring's arc out of zone z, to the lowest zone of its component so far, and notes z as the lowest. A zone that
// would be followed by itself is alone.
// Kept (5): that z is an index of the zones is a fact about two parameters, and no type has both.
fn put_one(work: &mut [u16], at: RingsAt, z: usize, sink: &mut ArcSink<'_>)
    requires rings_lent { RingsLent work.old at }
    requires z_lt_zones { z < at.zones }
    requires arcs_fit { SinkFit sink.old (ring_arc z (cell work.old at.last (cell work.old at.names z))) }
    ensures { RingPut work.old work.new at z sink.old sink.new }
{
    let here = z as u16;
    let low = at.last + usize::from(work[at.names + z]);
    let next = work[low];
    work[low] = here;
    if usize::from(next) != z {
        sink.put(here, next);
    }
}

// Puts the arcs of all rings.
pub fn put_rings(work: &mut [u16], at: RingsAt, sink: &mut ArcSink<'_>)
    requires rings_lent { RingsLent work.old at }
    requires arcs_fit { SinkFit sink.old (rings_of (cell work.old at.names) (span 0 at.zones)) }
    ensures { RingsPut work.old work.new at sink.old sink.new }
{
    start_rings(work, at);
    for z in (0..at.zones).rev() {
        put_one(work, at, z, sink);
    }
}
