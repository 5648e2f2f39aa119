// The single tests of a call. Each says the trouble that it finds, so that a call is tested by a chain of them with `?`
// (crates `intake` and `admission`). A new test is a line here.
#![tactic(auto)]

ghost use Rattle.std.specs.Prelude.{◌≡◌, [], ◌∷◌};
ghost use Rattle.rules.specs.Network.{◌⟶◌};
ghost use Rattle.rules.specs.File.{zones_bad};
ghost use Rattle.rules.specs.Calls.{test, arc_tests, question_tests, room_test};
ghost use Rattle.zoneset.specs.Held.{held};
ghost use Rattle.probes.specs.Tested.{FoundBy};

use rules::{Trouble, TroubleKind};
use zoneset::ZoneSet;

// One test: where it fails there is a trouble of this kind at this place.
pub fn test(fails: bool, kind: TroubleKind, place: usize) -> Result<(), Trouble>
    ensures { FoundBy (test fails kind place ∷ []) result }
{
    if fails {
        return Err(Trouble { kind, place });
    }
    Ok(())
}

// Whether a zone count is out of its bounds.
pub fn zones_bad(zones: usize) -> bool
    ensures { result ≡ zones_bad zones }
{
    zones == 0 || 1024 < zones
}

// The tests of the arc of index `i`, with the withdrawn zones.
pub fn arc(zones: usize, tail: u16, head: u16, gone: &ZoneSet, i: usize) -> Result<(), Trouble>
    ensures { FoundBy (arc_tests zones i (tail ⟶ head) (held gone.now)) result }
{
    let t = usize::from(tail);
    let h = usize::from(head);
    test(zones <= t, TroubleKind::Range, i)?;
    test(zones <= h, TroubleKind::Head, i)?;
    test(t == h, TroubleKind::SelfArc, i)?;
    test(gone.has(t) || gone.has(h), TroubleKind::Gone, i)
}

// The tests of the two zones of a question about a network of so many zones and arcs, with the withdrawn zones: the
// first counts as a tail, the second as a head.
pub fn question(
    zones: usize,
    arcs: usize,
    gone: &ZoneSet,
    from: usize,
    to: usize,
) -> Result<(), Trouble>
    ensures { FoundBy (question_tests zones arcs (held gone.now) from to) result }
{
    test(zones <= from, TroubleKind::Range, arcs)?;
    test(zones <= to, TroubleKind::Head, arcs)?;
    test(gone.has(from) || gone.has(to), TroubleKind::Gone, arcs)
}

// The test of a lent list's length.
pub fn room(asked: usize, lent: usize) -> Result<(), Trouble>
    ensures { FoundBy (room_test asked lent ∷ []) result }
{
    test(lent < asked, TroubleKind::Room, 0)
}
