// The finishing order of all zones: the first of the two passes that find the components of a network in linear time.
// A deep search goes along the arranged rows, in lent work memory. A zone ends when all its heads are seen, and zones
// are listed as they end. There is no recursion: `descent` says how the stack and the ended zones share a region.
//     lo, ended     how many zones have ended;   hi   where in the order's region the stack's top stands
#![tactic(auto)]

ghost use Rattle.std.specs.Prelude.{◌≡◌, ℕ, ◌-◌, ◌<◌};
ghost use Rattle.memory.specs.Regions.{cell};
ghost use Rattle.descent.specs.Memory.{Ready, State, OrderKept, Begun, Finished};

use descent::descend;
use workmap::{OrderAt, RowsAt};

// Ends every zone on the stack, which has one. Answers how many zones have ended.
// Kept (5): `rows` and `at` stay two parameters, as the second pass takes the order with the turned rows.
fn deepen(work: &mut [u16], rows: RowsAt, at: OrderAt, ended: usize) -> usize
    requires ready { Ready work.old rows at }
    requires zones_nonzero { (0 < rows.zones) × State work.old rows at ended (rows.zones - 1) }
    ensures { OrderKept work.old work.new rows at
        × State work.new rows at result rows.zones }
{
    let mut lo = ended;
    let mut hi = rows.zones - 1;
    // Kept (3): each turn `descend` puts as many zones on the stack as it finds, so no range is known beforehand.
    while hi < rows.zones {
        hi = descend(work, rows, at, lo, hi);
        work[at.order + lo] = work[at.order + hi];
        lo += 1;
        hi += 1;
    }
    lo
}

// Ends the zone r and all unmarked zones that it leads to, where r has no mark. Answers how many zones have ended.
fn begin(work: &mut [u16], rows: RowsAt, at: OrderAt, r: usize, ended: usize) -> usize
    requires ready { Ready work.old rows at }
    requires r_lt_zones { (r < rows.zones) × State work.old rows at ended rows.zones }
    ensures { Begun work.old work.new rows at result r }
{
    if work[at.seen + r] != 0 {
        return ended;
    }
    work[at.seen + r] = (ended + 1) as u16;
    work[at.order + (rows.zones - 1)] = r as u16;
    deepen(work, rows, at, ended)
}

// Begins at every zone, so that all end.
fn begin_all(work: &mut [u16], rows: RowsAt, at: OrderAt)
    requires ready { Ready work.old rows at }
    requires state { State work.old rows at 0 rows.zones }
    ensures { OrderKept work.old work.new rows at
        × Finished work.new rows at }
{
    let mut lo = 0;
    for r in 0..rows.zones {
        lo = begin(work, rows, at, r, lo);
    }
}

// The finishing order of all zones, where `at` says. The marks are clear at the start; every row's start is its zone's
// first next place.
pub fn finish(work: &mut [u16], rows: RowsAt, at: OrderAt)
    requires ready { Ready work.old rows at }
    requires marks_clear { (v : ℕ) → v < rows.zones → cell work.old at.seen v ≡ 0 }
    ensures { OrderKept work.old work.new rows at
        × Finished work.new rows at }
{
    memory::copy(work, rows.starts, rows.zones, at.next);
    begin_all(work, rows, at);
}
