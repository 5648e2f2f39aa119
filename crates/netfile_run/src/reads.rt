// The runs of `read`.
use rules::{FileCounts, Trouble};
use runtable::{at, front};
use std::io;

// What reading answers: number, place, zones and arcs.
pub fn show(rt: &impl Print, answer: Result<FileCounts, Trouble>) -> io::Result<()> {
    printing::answer(rt, answer.map(|counts| counts.zones))?;
    print!(rt; " {}", answer.map_or(0, |counts| counts.arcs))
}

// Reads a file into two lists, and prints the line after its label.
fn line(rt: &impl Print, file: &[u8], tails: &mut [u16], heads: &mut [u16]) -> io::Result<()> {
    show(rt, netfile::read(file, tails, heads))?;
    printing::list(rt, tails)?;
    printing::list(rt, heads)?;
    println!(rt)
}

// Reads a row's file, into lists that are 7 before.
pub fn run(rt: &impl Print, given: &[u16]) -> io::Result<()> {
    let file = runtable::bytes(runtable::part(given, 4, 12));
    let n = at(given, 1).min(file.len());
    let mut tails = [7; 6];
    let mut heads = [7; 6];
    line(
        rt,
        &file[..n],
        front(&mut tails, at(given, 2)),
        front(&mut heads, at(given, 3)),
    )
}
