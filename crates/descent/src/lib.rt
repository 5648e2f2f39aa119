// A step of the first pass, in lent work memory: going down from the top of the stack of a deep search along zones
// that have no mark. The stack grows down from the end of the order's own region, while ended zones grow up from its
// start. A mark says when its zone was seen, counted from 1; 0 says that it was not.
//     rows          how many zones there are, and where the rows' starts and the rows stand
//     at            where the marks, each zone's next place in its row, and the order stand
//     lo            how many zones have ended;   hi   where in the order's region the stack's top stands
#![tactic(auto)]

ghost use Rattle.std.specs.Prelude.{ℕ, ◌<◌};
ghost use Rattle.descent.specs.Memory.{Ready, State, Full, Went, Advancing};

use workmap::{OrderAt, RowsAt};

// The first head with no mark of the zone at place `top` of the order, from its next place on, which moves on behind
// this head; None where all these heads have marks.
// Kept (5): every step stores into the slice that Ready speaks of, so a struct of both would be opened for each.
// Kept (5): `rows` and `at` stay two parameters, as the second pass takes the order with the turned rows.
fn advance(work: &mut [u16], rows: RowsAt, at: OrderAt, top: usize) -> Option<u16>
    requires ready { Ready work.old rows at }
    requires top_lt_zones { (top < rows.zones) × ((lo : ℕ) × State work.old rows at lo top) }
    ensures { Advancing work.old work.new rows at top result }
{
    let z = usize::from(work[at.order + top]);
    let a = rows.rows + usize::from(work[at.next + z]);
    let b = rows.rows + usize::from(work[rows.starts + z + 1]);
    let i = arranged::step(work, a, b, at.seen, rows.zones)?;
    let h = work[a + i];
    work[at.next + z] = (a + i + 1 - rows.rows) as u16;
    Some(h)
}

// Goes down from the top of the stack along unmarked zones. Answers where the new top is: all its heads have marks.
pub fn descend(work: &mut [u16], rows: RowsAt, at: OrderAt, lo: usize, from: usize) -> usize
    requires ready { Ready work.old rows at }
    requires from_lt_zones { (from < rows.zones) × State work.old rows at lo from }
    ensures { Went work.old work.new rows at lo result
        × Full work.new rows at result }
{
    let mut hi = from;
    while let Some(h) = advance(work, rows, at, hi) {
        work[at.seen + usize::from(h)] = (lo + (rows.zones - hi) + 1) as u16;
        hi -= 1;
        work[at.order + hi] = h;
    }
    hi
}
