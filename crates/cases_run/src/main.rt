// Runs every row of the one table of proved cases through the real calls, and compares: a row that asks for a plan, or
// for its refusal, through `plan` and through `plan_records`, one that asks for a skeleton through `skeleton` and then
// `write`, one that asks for a file to be read through `read`, and one that asks about two zones through `reach`. A
// line has the row's letter, or its place in the table where it has none, the call, what came out, and whether that
// is what the table has and the lent memory is as it has to be.
#![tactic(auto)]

ghost use Rattle.std.specs.Prelude.{◌≤◌};

mod asking;
mod planning;

use asking::{network, reached};
use filed::{read_file, skeleton_of};
use outcomes::lines::line;
use outcomes::row::{Asked, Row};
use planning::{by_lists, by_records};
use std::io;

// How many answers there were to a row, and how many of them differ from the table.
#[derive(Drop)]
struct Tally {
    answers: usize,
    differ: usize,
    ghost few: { (answers ≤ 2) × (differ ≤ 2) },
}

// A row, by what it asks for: a plan, or its refusal, through the lists and through the records.
fn run_row(rt: &impl Print, row: &Row) -> io::Result<Tally> {
    let differs = match row.asked {
        Asked::Plan | Asked::Refusal => {
            let lists = line(rt, row, "lists", network(row, by_lists))?;
            let records = line(rt, row, "records", network(row, by_records))?;
            return Ok(Tally {
                answers: 2,
                differ: usize::from(lists) + usize::from(records),
            });
        }
        Asked::Skeleton => line(rt, row, "skeleton", network(row, skeleton_of))?,
        Asked::File => line(rt, row, "file", read_file(row))?,
        Asked::Question => {
            let [from, to, ..] = row.wanted.made;
            line(rt, row, "reach", network(row, |net| reached(net, from, to)))?
        }
    };
    Ok(Tally {
        answers: 1,
        differ: usize::from(differs),
    })
}

// All rows, and how many of the answers differ.
fn main(rt: HostRuntime) -> io::Result<()> {
    let mut answers = 0;
    let mut differ = 0;
    for i in 0..40 {
        let tally = run_row(&rt, &Row::new(i + 1, cases::row_at(i)))?;
        answers += tally.answers;
        differ += tally.differ;
    }
    println!(rt; "{answers} answers, {differ} differ")
}
