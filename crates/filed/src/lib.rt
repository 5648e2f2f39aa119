// Calls that read or write a file, each brought to an outcome: a file that is read, and a network's skeleton and the
// file of that.
#![tactic(auto)]

use outcomes::lent;
use outcomes::outcome::{self, Came, Outcome};
use outcomes::row::Row;
use rules::{FileCounts, NetworkLists};
use std::array;

// The first n bytes of a file as numbers, and zeros after them.
fn numbers(file: [u8; 12], n: usize) -> [u16; 10] {
    array::from_fn(|i| if i < n { u16::from(file[i]) } else { 0 })
}

// Writes the file of a skeleton; `kept` is whether what was lent for the skeleton is as it has to be.
fn written(net: NetworkLists<'_>, kept: bool) -> Outcome {
    let mut file = [7; 12];
    match netfile::write(net, &mut file) {
        Ok(length) => Outcome {
            came: Came::Skeleton,
            told: [outcome::narrow(net.tails.len()), 0, 0, 0, 0],
            count: length,
            made: numbers(file, length),
            kept: kept && file[10..] == [7, 7],
        },
        Err(t) => outcome::refused(t, kept),
    }
}

// The file of a network's skeleton, which keeps the network's withdrawn zones. No row wants a refusal of `skeleton`, so
// that is told as not kept, and differs.
pub fn skeleton_of(net: NetworkLists<'_>) -> Outcome {
    let mut from = [lent::UNSET; 10];
    let mut to = [lent::UNSET; 10];
    let mut work = [lent::SEVEN; 170];
    match skeleton::skeleton(net, &mut from, &mut to, &mut work) {
        Ok(arcs) => {
            let kept = lent::cleared(&work, net)
                && lent::holds(&from, arcs, lent::UNSET)
                && lent::holds(&to, arcs, lent::UNSET);
            let n = arcs.min(10);
            let drawn = NetworkLists {
                tails: &from[..n],
                heads: &to[..n],
                ..net
            };
            written(drawn, kept)
        }
        Err(t) => outcome::refused(t, false),
    }
}

// Reads a row's file. No row wants one that is accepted, so that is told as not kept, and differs.
pub fn read_file(row: &Row) -> Outcome {
    let file = row.given.map(|byte| (byte % 256) as u8);
    let n = row.count.min(file.len());
    let mut tails = [lent::UNSET; 10];
    let mut heads = [lent::UNSET; 10];
    match netfile::read(&file[..n], &mut tails, &mut heads) {
        Ok(FileCounts { zones, arcs }) => Outcome {
            came: Came::Network,
            told: [outcome::narrow(zones), outcome::narrow(arcs), 0, 0, 0],
            count: 0,
            made: [0; 10],
            kept: false,
        },
        Err(t) => {
            let kept = lent::holds(&tails, 0, lent::UNSET) && lent::holds(&heads, 0, lent::UNSET);
            outcome::refused(t, kept)
        }
    }
}
