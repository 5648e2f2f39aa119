// The two counts of a network file, each tested against its bounds.
//   zone_count    the zone count, which stands first: 1 to 1,024
//   arc_count     the arc count: 0 to 4,096, and no more than the two lent lists have room for
#![tactic(auto)]

ghost use Rattle.std.specs.Prelude.{◌≡◌};
ghost use Rattle.filenumbers.specs.Readings.{number_reading};
ghost use Rattle.filecounts.specs.Counts.{zones_at, count_at};

use filenumbers::Cursor;
use rules::{Trouble, TroubleKind};

// The zone count, and the place after it.
#[tactic(auto, unfolding(crate::specs::Counts::zones_at))]
pub fn zone_count(s: &[u8]) -> Result<(usize, Cursor), Trouble>
    ensures { number_reading result ≡ zones_at s.now }
{
    let (zones, next) = Cursor { at: 0 }.number(s)?;
    if zones == 0 || 1024 < zones {
        return Err(Trouble {
            kind: TroubleKind::Zones,
            place: 0,
        });
    }
    Ok((zones, next))
}

// The arc count, with room for so many tails and heads, and the place after it.
#[tactic(auto, unfolding(crate::specs::Counts::count_at))]
pub fn arc_count(
    s: &[u8],
    c: Cursor,
    tails: usize,
    heads: usize,
) -> Result<(usize, Cursor), Trouble>
    ensures { number_reading result ≡ count_at s.now tails heads c.at }
{
    let place = c.at;
    let (arcs, next) = c.number(s)?;
    if 4096 < arcs {
        return Err(Trouble {
            kind: TroubleKind::Arcs,
            place,
        });
    }
    if tails < arcs || heads < arcs {
        return Err(Trouble {
            kind: TroubleKind::Room,
            place,
        });
    }
    Ok((arcs, next))
}
