// Whether a network that passed its tests is strong, answered in lent work memory: whether a search from the lowest
// zone that is not withdrawn comes to all others along the arcs, and against them.
#![tactic(auto)]

ghost use Rattle.rules.specs.Network.{strong};
ghost use Rattle.rules.specs.Calls.{handed_with};
ghost use Rattle.withdrawn.specs.Withdrawn.{ReadyWith};
ghost use Rattle.reaching.specs.Questions.{Answered};
ghost use Rattle.strength.specs.Marks.{Sweepable, Swept};

use arranged::both_ways;
use memory::clear;
use rules::NetworkLists;
use search::search;
use withdrawn::{lowest, stamp};
use workmap::{Map, RowsAt, SearchAt};

// Searches from a zone along the rows, and answers whether the search came to every zone that is not withdrawn: the
// withdrawn ones get a stamp for a mark, and then no mark may be zero.
fn sweep(work: &mut [u16], rows: RowsAt, at: SearchAt, from: usize, gone: &[u16]) -> bool
    requires { Sweepable work.old rows at from gone.now }
    ensures { Swept work.old work.new rows at from gone.now result }
{
    search(work, rows, at, from);
    stamp(work, at.marks, rows.zones, gone, 1);
    !work[at.marks..at.marks + rows.zones].contains(&0)
}

// Whether the lowest zone that is not withdrawn comes to all others along the arcs, and against them. Only the marks
// have to be clear beforehand, and they lie below the second queue.
pub fn joined(m: Map, net: NetworkLists<'_>, work: &mut [u16]) -> bool
    requires { ReadyWith m net.tails.now net.heads.now net.gone.now work.old }
    ensures { Answered result
        (strong (handed_with m.zones net.entry.tails.now net.entry.heads.now net.entry.gone.now))
        m.asked work.old work.new }
{
    let from = lowest(net.gone);
    clear(work, m.back.queue);
    both_ways(m, net.tails, net.heads, work);
    let there = sweep(work, m.rows, m.search, from, net.gone);
    let back = sweep(work, m.turned, m.back, from, net.gone);
    clear(work, m.asked);
    there && back
}
