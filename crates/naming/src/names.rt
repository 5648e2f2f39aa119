// The name of every zone, the lowest zone of its component, from the zones' roots, in lent work memory. The zones are
// gone through upwards, so the first zone that is met with a root is the lowest; it is noted for the root, one more
// than itself.
//     at     where the names, the notes and the root numbers stand, of `zones` elements each
ghost use Rattle.std.specs.Prelude.{◌<◌, length};
ghost use Rattle.naming.specs.Names.{RootNoted, ZonesNameable, ZonesNamed};

use workmap::NamesAt;

// The zone that is noted at `place`; where none is, v, which is noted then.
fn note(work: &mut [u16], place: usize, v: usize) -> u16
    requires { (place < length work.old) × (v < 1024) }
    ensures { RootNoted work.old work.new place v result }
{
    let x = work[place];
    if x != 0 {
        return x - 1;
    }
    work[place] = (v + 1) as u16;
    v as u16
}

// Every zone's name, where `at` says. Nothing is noted at the start.
pub fn name_zones(work: &mut [u16], zones: usize, at: NamesAt)
    requires { ZonesNameable work.old zones at }
    ensures { ZonesNamed work.old work.new zones at zones }
{
    for v in 0..zones {
        let r = usize::from(work[at.roots + v]) - 1;
        let x = note(work, at.low + r, v);
        work[at.names + v] = x;
    }
}
