// Which components an arc comes into from another, and which one goes out of to another, in lent work memory, where
// each zone's name stands: by one pass over the arcs, each noted at the names of its ends.
#![tactic(auto)]

ghost use Rattle.std.specs.Prelude.{◌<◌, length};
ghost use Rattle.rules.specs.Calls.{arcs_of};
ghost use Rattle.borders.specs.Borders.{KindsRoom, Noted, Markable, Marking};

use workmap::KindsAt;

// Notes an arc at the names of its ends, where they differ.
fn note(at: KindsAt, tail: u16, head: u16, work: &mut [u16])
    requires { KindsRoom at work.old × ((tail < at.zones) × (head < at.zones)) }
    ensures { Noted at tail head work.old work.new }
{
    let a = usize::from(work[at.names + usize::from(tail)]);
    let b = usize::from(work[at.names + usize::from(head)]);
    if a == b {
        return;
    }
    work[at.entered + b] = 1;
    work[at.exited + a] = 1;
}

// Notes every arc. The two regions are clear at the start.
pub fn mark(at: KindsAt, tails: &[u16], heads: &[u16], work: &mut [u16])
    requires { Markable at tails.now heads.now work.old }
    ensures { Marking at (arcs_of tails.now heads.now) (length tails.now)
        work.old work.new }
{
    for (&tail, &head) in tails.iter().zip(heads) {
        note(at, tail, head, work);
    }
}
