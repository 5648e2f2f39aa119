// An arc of a network file: its tail and its head.
//   arc    the arc at a reading place, or its refusal
#![tactic(auto)]

ghost use Rattle.std.specs.Prelude.{◌≡◌};
ghost use Rattle.rules.specs.File.{zone_at, arc_at};
ghost use Rattle.filenumbers.specs.Readings.{number_reading};
ghost use Rattle.filearcs.specs.Readings.{arc_reading};

use filenumbers::Cursor;
use rules::{Trouble, TroubleKind};

// An arc that was read: its tail, its head and the next cursor.
#[derive(Clone, Copy)]
pub struct ArcRead {
    pub tail: usize,
    pub head: usize,
    pub next: Cursor,
}

// A zone number, which is below the zone count, or else refused with this kind.
#[tactic(auto, using(crate::proofs::ArcCases::zone_cases))]
fn zone(s: &[u8], c: Cursor, zones: usize, kind: TroubleKind) -> Result<(usize, Cursor), Trouble>
    ensures { number_reading result ≡ zone_at s.now kind zones c.at }
{
    let (z, next) = c.number(s)?;
    if zones <= z {
        return Err(Trouble { kind, place: c.at });
    }
    Ok((z, next))
}

// An arc: its tail, its head, and the two distinct. RANGE is said of the tail, HEAD of the head.
#[tactic(auto, using(crate::proofs::ArcCases::arc_cases))]
pub fn arc(s: &[u8], c: Cursor, zones: usize) -> Result<ArcRead, Trouble>
    ensures { arc_reading result ≡ arc_at s.now zones c.at }
{
    let (tail, mid) = zone(s, c, zones, TroubleKind::Range)?;
    let (head, next) = zone(s, mid, zones, TroubleKind::Head)?;
    if tail == head {
        return Err(Trouble {
            kind: TroubleKind::SelfArc,
            place: mid.at,
        });
    }
    Ok(ArcRead { tail, head, next })
}
