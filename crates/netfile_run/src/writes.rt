// The runs of `write`: small networks, and the largest files.
use super::reads;
use rules::{FileCounts, NetworkLists, Trouble};
use runtable::{at, part};
use std::{array, io};

// Writes a row's network into bytes that are 7 before, and prints the line after its label.
pub fn run(rt: &impl Print, given: &[u16]) -> io::Result<()> {
    let net = NetworkLists {
        zones: at(given, 1),
        tails: part(given, 5, at(given, 3)),
        heads: part(given, 10, at(given, 4)),
        gone: part(given, 16, at(given, 15)),
    };
    let mut file = [7; 12];
    let room = at(given, 2).min(file.len());
    printing::answer(rt, netfile::write(net, &mut file[..room]))?;
    printing::list(rt, &file[..room])?;
    println!(rt)
}

// The elements are i + by for i below 512, over and over.
fn ramp(by: u16) -> [u16; 4097] {
    array::from_fn(|i| (i % 512) as u16 + by % 512)
}

// How many elements of a list are not those of a ramp.
fn apart(list: &[u16], by: u16) -> usize {
    list.iter()
        .zip(&ramp(by))
        .filter(|(x, y)| **x != **y)
        .count()
}

// Writes a row's part of the largest network into a file.
fn write_arcs(given: &[u16], file: &mut [u8]) -> Result<usize, Trouble> {
    let tails = ramp(128);
    let heads = ramp(129);
    let arcs = at(given, 3).min(tails.len());
    let net = NetworkLists {
        zones: at(given, 1),
        tails: &tails[..arcs],
        heads: &heads[..arcs],
        gone: &[],
    };
    netfile::write(net, file)
}

// Writes a row's part of the largest network, and prints the line after its label: what writing answers.
pub fn large(rt: &impl Print, given: &[u16]) -> io::Result<()> {
    let mut file = [0; 16389];
    let room = at(given, 2).min(file.len());
    printing::answer(rt, write_arcs(given, &mut file[..room]))?;
    println!(rt)
}

// Writes a row's part of the largest network into a file, and reads that into lists.
fn read_arcs(given: &[u16], tails: &mut [u16], heads: &mut [u16]) -> Result<FileCounts, Trouble> {
    let mut file = [0; 16389];
    let room = at(given, 2).min(file.len());
    write_arcs(given, &mut file[..room])?;
    netfile::read(&file[..room], tails, heads)
}

// Reads what was written into lists of 4,096 elements, and prints the line after a row's label: what reading answers,
// and how many elements of each list differ from what was written.
pub fn read_back(rt: &impl Print, given: &[u16]) -> io::Result<()> {
    let mut tails = [7; 4096];
    let mut heads = [7; 4096];
    reads::show(rt, read_arcs(given, &mut tails, &mut heads))?;
    println!(rt; " {} {}", apart(&tails, 128), apart(&heads, 129))
}
