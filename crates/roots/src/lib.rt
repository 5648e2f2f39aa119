// The second pass: every zone's root, from a finishing order, in lent work memory. From the last zone that ended on,
// each zone that has no root becomes the root of its component: a search against the arcs, among zones that have no
// root, finds the others. Its mark is the root number, one more than the root, and its queue lists the zones as they
// get their roots, so by component, in topological order.
#![tactic(auto)]

ghost use Rattle.workmap.specs.declared.RowsAt.{RowsAt};
ghost use Rattle.roots.specs.Roots.{Collectable, Collected};

use workmap::{OrderAt, RowsAt, SearchAt};

// Every zone's root, and the queue of all zones, from the order. The turned rows are those of the arcs turned round.
pub fn collect(work: &mut [u16], turned: RowsAt, order: OrderAt, at: SearchAt)
    requires { (R : RowsAt) × Collectable work.old R turned order at }
    ensures { (R : RowsAt) → Collectable work.old R turned order at
        → Collected work.old work.new R turned at }
{
    let mut tail = 0;
    for k in (0..turned.zones).rev() {
        let z = usize::from(work[order.order + k]);
        tail = search::spread(work, turned, at, z, (z + 1) as u16, tail);
    }
}
