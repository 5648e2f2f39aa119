// One source's turn in the pairing, in lent work memory: a search from the source marks what it reaches, and the
// lowest of the sinks left that has a mark is taken out of them. A search takes no sink but the one that it pairs.
#![tactic(auto)]

ghost use Rattle.std.specs.Prelude.{ℕ, ◌+◌, ◌≤◌, ◌<◌, length, get_or};
ghost use Rattle.turns.specs.Turn.{FirstMarked, TakenOut, Turnable, Turned};

use memory::fill;
use search::search;
use workmap::{RowsAt, SearchAt};

// The first place in a list of zones, `count` of them from `at` on, whose zone has a mark.
fn first_marked(work: &[u16], marks: usize, at: usize, count: usize) -> Option<usize>
    requires count_in_bounds { at + count ≤ length work.now }
    requires marks_in_bounds { (k : ℕ) → k < count → marks + get_or work.now (at + k) 0 < length work.now }
    ensures { FirstMarked work.now marks at count result }
{
    work[at..at + count]
        .iter()
        .position(|&z| work[marks + usize::from(z)] != 0)
}

// Takes the place j out of a list of `count` zones from `at` on: those behind it move down by one.
fn take_out(work: &mut [u16], at: usize, count: usize, j: usize)
    requires { (j < count) × (at + count ≤ length work.old) }
    ensures { TakenOut work.old work.new at count j }
{
    work.copy_within(at + j + 1..at + count, at + j);
}

// One source's turn: the first of the sinks left that a search from the source marks is taken out and answered. The
// sinks left, `left` of them, stand from `sinks` on.
pub fn turn(
    work: &mut [u16],
    rows: RowsAt,
    at: SearchAt,
    source: usize,
    sinks: usize,
    left: usize,
) -> Option<u16>
    requires { Turnable work.old rows at source sinks left }
    ensures { Turned work.old work.new rows at source sinks left result }
{
    fill(work, at.marks, rows.zones, 0);
    search(work, rows, at, source);
    let j = first_marked(work, at.marks, sinks, left)?;
    let z = work[sinks + j];
    take_out(work, sinks, left, j);
    Some(z)
}
