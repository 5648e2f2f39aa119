// Links that stand in lent work memory as three columns of numbers, read as records.
#![tactic(auto)]

ghost use Rattle.std.specs.Prelude.{◌≡◌};
ghost use Rattle.columns.specs.Columns.{LinkStands, link_at};

use rules::{Link, Why};
use workmap::LinksAt;

// The link of index i, from its three columns.
pub fn link_at(work: &[u16], at: LinksAt, i: usize) -> Link
    requires { LinkStands work.now at i }
    ensures { result ≡ link_at work.now at i }
{
    Link {
        from: work[at.from + i],
        to: work[at.to + i],
        why: Why::from(work[at.why + i]),
    }
}
