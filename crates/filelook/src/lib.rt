// A quick look at an arc of a network file. Whatever is not plainly good is left to whoever looks closer.
//   quick_number    the number at a place, taken to have at most two groups
//   quick_arc       the place after an arc that is plainly good
#![tactic(auto)]

ghost use Rattle.std.specs.Prelude.{◌+◌, ◌≤◌, ◌<◌, length};
ghost use Rattle.rules.specs.File.{arc_at};
ghost use Rattle.filelook.specs.Looks.{NumberSeen, ArcSeen};

// The number at a place where two bytes stand, taken to have at most two groups, and the place after it. A second group
// goes down by one around 256, so that zero counts as 255: where it is zero, or says that another follows, the value
// comes out at 16,384 or above.
#[tactic(auto, using(crate::proofs::PlainLaws::plain_cases))]
fn quick_number(s: &[u8], at: usize) -> (usize, usize)
    requires { at + 1 < length s.now }
    ensures { NumberSeen result s.now at }
{
    let b = usize::from(s[at]);
    if b < 128 {
        return (b, at + 1);
    }
    let c = usize::from(s[at + 1]);
    (b + 128 * ((c + 255) % 256), at + 2)
}

// The place after the arc at a place, if four bytes stand there and they begin with a good one.
pub fn quick_arc(s: &[u8], at: usize, zones: usize) -> Option<usize>
    requires { zones ≤ 1024 }
    ensures { ArcSeen result (arc_at s.now zones at) }
{
    let size = s.len();
    if size < 4 || size - 4 < at {
        return None;
    }
    let (tail, mid) = quick_number(s, at);
    let (head, next) = quick_number(s, mid);
    if zones <= tail || zones <= head || tail == head {
        return None;
    }
    Some(next)
}
