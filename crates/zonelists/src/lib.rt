// The test of a list of zone numbers: each below the zone count, and above the one before. One walk, which carries the
// lowest number that may come next.
#![tactic(auto)]

ghost use Rattle.rules.specs.Calls.{list_tests};
ghost use Rattle.probes.specs.Tested.{FoundBy};

use rules::{Trouble, TroubleKind};

// LIST: the first index at which the list is out of range or does not ascend.
pub fn list(zones: usize, list: &[u16]) -> Result<(), Trouble>
    ensures { FoundBy (list_tests zones 0 0 list.now) result }
{
    let mut low = 0;
    for (place, &number) in list.iter().enumerate() {
        let zone = usize::from(number);
        if zones <= zone || zone < low {
            return Err(Trouble {
                kind: TroubleKind::ZoneList,
                place,
            });
        }
        low = zone + 1;
    }
    Ok(())
}
