// The links of a plan that stands in lent work memory, in three columns, handed out to three lent lists.
#![tactic(auto)]

ghost use Rattle.handout.specs.Handout.{Handable, HandedOut};

use memory::copy_out;
use workmap::LinksAt;

// Copies the starts, the ends and the whys of the first n links to the fronts of three lists.
// Kept (6): the C interface lends PLAN three lists, so they are three parameters down to here.
pub fn hand_out(
    work: &[u16],
    at: LinksAt,
    n: usize,
    from: &mut [u16],
    to: &mut [u16],
    why: &mut [u16],
)
    requires { Handable work.now at n from.old to.old why.old }
    ensures { HandedOut work.now at n from.old to.old why.old
        from.new to.new why.new }
{
    copy_out(work, at.from, n, from);
    copy_out(work, at.to, n, to);
    copy_out(work, at.why, n, why);
}
