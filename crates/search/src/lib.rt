// The search over arranged rows, in lent work memory: marks, then a queue, then the rows. It gives a mark to each zone
// that has none and that a run of entries leads to, and lists these zones on the queue, first in, first out. It looks
// once at each entry of each row that it comes to.
//     rows, at      where the rows stand, and where the marks and the queue
//     x             the mark that is given, not 0
//     top, tail     how many zones the queue holds, before the search and now
#![tactic(auto)]

ghost use Rattle.search.specs.Marking.{Visitable, Visited, Underway, Drained};
ghost use Rattle.search.specs.Marking.{Spreadable, Spread, Searchable, Searched};

use arranged::step;
use workmap::{RowsAt, SearchAt};

// Marks the unmarked zones of the row from `from` up to `to` and puts them on the queue. Answers the queue's new end.
// Kept (5): which rows are searched, and where marks and queue stand, are chosen apart, as by `roots` and `strength`.
fn visit(
    work: &mut [u16],
    rows: RowsAt,
    at: SearchAt,
    x: u16,
    from: usize,
    to: usize,
    tail: usize,
) -> usize
    requires { Visitable work.old rows at x from to tail }
    ensures { Visited work.old work.new rows at x from to tail result }
{
    let mut a = from;
    let mut end = tail;
    // Kept (3): where the next unmarked zone stands depends on the marks that are given on the way.
    while let Some(i) = step(work, a, to, at.marks, rows.zones) {
        let h = work[a + i];
        let m = at.marks + usize::from(h);
        work[m] = x;
        work[at.queue + end] = h;
        end += 1;
        a = a + i + 1;
    }
    end
}

// Goes through the queue from place `top` on, where one zone stands, and visits the row of each. Answers the queue's
// end.
fn drain(work: &mut [u16], rows: RowsAt, at: SearchAt, x: u16, top: usize) -> usize
    requires { Underway work.old rows at x top }
    ensures { Drained work.old work.new rows at x top result }
{
    let mut head = top;
    let mut tail = top + 1;
    // Kept (3): the queue grows while it is gone through, so no range is known beforehand.
    while head < tail {
        let z = usize::from(work[at.queue + head]);
        let a = rows.rows + usize::from(work[rows.starts + z]);
        let b = rows.rows + usize::from(work[rows.starts + z + 1]);
        tail = visit(work, rows, at, x, a, b, tail);
        head += 1;
    }
    tail
}

// Gives the mark x to every zone without a mark that a run of entries leads to from the zone `from`, and lists them on
// the queue behind the first `top`. The marks that are there are closed: where a zone has one, all of its row has.
// Answers the queue's end.
pub fn spread(
    work: &mut [u16],
    rows: RowsAt,
    at: SearchAt,
    from: usize,
    x: u16,
    top: usize,
) -> usize
    requires { Spreadable work.old rows at from x top }
    ensures { Spread work.old work.new rows at from x top result }
{
    let marks = at.marks;
    let queue = at.queue;
    if work[marks + from] != 0 {
        return top;
    }
    work[marks + from] = x;
    work[queue + top] = from as u16;
    drain(work, rows, at, x, top)
}

// The search with the mark 1 and an empty queue: marks every zone that a run of entries leads to from the zone `from`,
// beside the marks that are there, which are closed.
pub fn search(work: &mut [u16], rows: RowsAt, at: SearchAt, from: usize)
    requires { Searchable work.old rows at from }
    ensures { Searched work.old work.new rows at from }
{
    spread(work, rows, at, from, 1, 0);
}
