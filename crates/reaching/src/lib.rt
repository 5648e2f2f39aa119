// Whether a zone of a network that passed its tests reaches another, answered in lent work memory: whether a search
// from the one comes to the other.
#![tactic(auto)]

ghost use Rattle.rules.specs.Network.{reaches};
ghost use Rattle.rules.specs.Calls.{handed};
ghost use Rattle.reaching.specs.Questions.{Askable, Answered};

use arranged::arrange;
use memory::clear;
use search::search;
use workmap::Map;

// Whether a search from one zone came to another. It goes along the arcs only, so these are arranged as given.
pub fn reached(
    m: Map,
    tails: &[u16],
    heads: &[u16],
    from: usize,
    to: usize,
    work: &mut [u16],
) -> bool
    requires { Askable m tails.now heads.now from to work.old }
    ensures { Answered result (reaches (handed m.zones tails.now heads.now) from to)
        m.asked work.old work.new }
{
    let rows = m.rows;
    let at = m.search;
    clear(work, at.queue);
    arrange(rows, tails, heads, work);
    search(work, rows, at, from);
    let mark = work[at.marks + to];
    clear(work, m.asked);
    mark != 0
}
