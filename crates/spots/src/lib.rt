// The places of the components of a network in their topological order, in lent work memory.
//   note_places   for each name its place, and once more the names in their order, behind the table
#![tactic(auto)]

ghost use Rattle.spots.specs.Spots.{PlacesNotable, PlacesNoted};

use workmap::PlacesAt;

// Notes the place of each name, and the name of each place.
pub fn note_places(work: &mut [u16], at: PlacesAt, places: usize)
    requires { PlacesNotable work.old at places }
    ensures { PlacesNoted work.old work.new at places }
{
    for place in 0..places {
        let name = work[at.tops + place];
        work[at.spots + usize::from(name)] = place as u16;
        work[at.order + place] = name;
    }
}
