// Runs `skeleton`: document 01's case J, skeletons of skeletons, repeats, one component of all zones, no arcs, the
// largest sizes, and every refusal. A line has the label, the number, the place, the arc count, the arcs that were
// put, and how many elements of the work memory are not zero then. Of long lists it has how many elements were put,
// and their sum.
#![tactic(auto)]

use printing::others;
use rules::NetworkLists;
use runtable::{at, front, part, rows};
use skeleton::skeleton;
use std::{array, io};

// What the lent lists hold before: no zone has this number.
const UNUSED: u16 = 65535;

// The sum of the elements that were put.
fn sum(list: &[u16; 4096]) -> u32 {
    list.iter()
        .take_while(|x| **x != UNUSED)
        .map(|x| u32::from(*x))
        .sum()
}

// How many elements of a list were put, and their sum.
fn show_sum(rt: &impl Print, list: &[u16; 4096]) -> io::Result<()> {
    print!(rt; " {} {}", others(list, UNUSED), sum(list))
}

// The arcs that were put.
fn show_arcs(rt: &impl Print, from: &[u16; 4096], to: &[u16; 4096]) -> io::Result<()> {
    from.iter()
        .zip(to)
        .take_while(|(tail, _)| **tail != UNUSED)
        .try_for_each(|(tail, head)| print!(rt; " {tail}-{head}"))
}

// The arcs that were put, or where long lists are lent their number and their sums.
fn show_lists(
    rt: &impl Print,
    lent: usize,
    from: &[u16; 4096],
    to: &[u16; 4096],
) -> io::Result<()> {
    if lent <= 16 {
        show_arcs(rt, from, to)
    } else {
        show_sum(rt, from)?;
        show_sum(rt, to)
    }
}

// Asks SKELETON, and prints the line after its label: the answer, the arcs that were put, and how many elements of the
// work memory are not zero.
fn ask(rt: &impl Print, given: &[u16], tails: &[u16], heads: &[u16]) -> io::Result<()> {
    let net = NetworkLists {
        zones: at(given, 1),
        tails,
        heads,
        gone: part(given, 22, at(given, 21)),
    };
    let mut from = [UNUSED; 4096];
    let mut to = [UNUSED; 4096];
    let mut work = [7; 28672];
    let answer = skeleton(
        net,
        front(&mut from, at(given, 2)),
        front(&mut to, at(given, 3)),
        front(&mut work, at(given, 4)),
    );
    print!(rt; ":")?;
    printing::answer(rt, answer)?;
    print!(rt; ";")?;
    show_lists(rt, at(given, 2), &from, &to)?;
    println!(rt; "; {}", others(part(&work, 0, at(given, 4)), 0))
}

// A path of 1,024 zones: arc i goes from zone i, around 1,020 zones, to a zone 1 to 5 further on.
fn path(rt: &impl Print, given: &[u16]) -> io::Result<()> {
    let tails: [u16; 4096] = array::from_fn(|i| (i % 1020) as u16);
    let heads: [u16; 4096] = array::from_fn(|i| (i % 1020 + i / 1020 + 1) as u16);
    ask(rt, given, &tails, &heads)
}

// A ring of 1,024 zones: arc i goes from zone i, around 1,024 zones, to the next.
// Kept (2): `network_run` has its ring in two lines too; one function for both, with its contract and edit, is more.
fn ring(rt: &impl Print, given: &[u16]) -> io::Result<()> {
    let tails: [u16; 4096] = array::from_fn(|i| (i % 1024) as u16);
    let heads: [u16; 4096] = array::from_fn(|i| ((i + 1) % 1024) as u16);
    ask(rt, given, &tails, &heads)
}

// A row's small network.
fn small(rt: &impl Print, given: &[u16]) -> io::Result<()> {
    let tails = part(given, 7, at(given, 5));
    let heads = part(given, 14, at(given, 6));
    ask(rt, given, tails, heads)
}

// Document 01's case J, and the skeleton of its skeleton; and small networks. A row has the zones; the lengths of the
// two lists and of the work memory that are lent; how many tails and heads there are, and those, seven places for each.
// Last come how many numbers are withdrawn, and those, three places.
fn small_rows(rt: &impl Print) -> io::Result<()> {
    rows(
        rt,
        b"case J: 4 6 6 83 6 6 0 1 0 2 2 0 0 1 2 2 1 3 3;\
          its skeleton: 4 6 6 83 4 4 0 1 1 2 0 0 0 1 2 3 1;\
          no arcs: 4 6 6 83 0 0;\
          one zone: 1 6 6 83 0 0;\
          one arc, six times: 2 6 6 83 6 6 0 0 0 0 0 0 0 1 1 1 1 1 1;\
          repeats in any order: 3 6 6 83 6 6 2 0 2 0 1 2 0 1 2 1 2 0 1;\
          one component of all zones: 4 6 6 83 4 4 3 1 0 2 0 0 0 1 0 2 3;\
          its skeleton: 4 6 6 83 4 4 0 1 2 3 0 0 0 1 2 3 0;\
          two arcs beside each other: 4 6 6 83 4 4 0 0 1 2 0 0 0 1 2 3 3;\
          one past another: 4 6 6 83 5 5 0 0 1 0 3 0 0 3 1 3 2 2;\
          a short cut before the way round: 3 6 6 83 3 3 0 0 1 0 0 0 0 2 1 2;\
          from a component to a lower one: 4 6 6 83 4 4 2 3 3 1 0 0 0 3 2 1 0;\
          past a gone zone: 4 6 6 83 4 4 0 2 0 2 0 0 0 2 0 3 3 0 0 0 1 1;\
          one zone left: 3 6 6 83 0 0 0 0 0 0 0 0 0 0 0 0 0 0 0 0 2 0 1;",
        |given| small(rt, given),
    )
}

// Each refusal, and lists of any length. A row is as before; the one with too many arcs has none of its own.
fn refused_rows(rt: &impl Print) -> io::Result<()> {
    rows(
        rt,
        b"list not ascending: 4 6 6 83 0 0 0 0 0 0 0 0 0 0 0 0 0 0 0 0 2 2 1;\
          none left: 2 6 6 83 0 0 0 0 0 0 0 0 0 0 0 0 0 0 0 0 2 0 1;\
          gone head: 4 6 6 83 2 2 0 2 0 0 0 0 0 2 1 0 0 0 0 0 1 1;\
          pair: 4 6 6 83 2 1 0 1 0 0 0 0 0 1;\
          no zones: 0 6 6 83 0 0;\
          too many zones: 1025 6 6 83 0 0;",
        |given| small(rt, given),
    )?;
    rows(
        rt,
        b"too many arcs: 2 6 6 83;",
        |given| ask(rt, given, &[0; 4097], &[1; 4097]),
    )?;
    rows(
        rt,
        b"tail out of range: 3 6 6 83 2 2 0 3 0 0 0 0 0 1 1;\
          head out of range: 3 6 6 83 2 2 0 1 0 0 0 0 0 1 3;\
          self arc: 3 6 6 83 3 3 0 1 2 0 0 0 0 1 2 2;\
          room for the work: 5 6 6 83 2 2 0 1 0 0 0 0 0 1 2;\
          room for the arcs: 4 6 6 83 7 7 0 0 0 0 0 0 0 1 1 1 1 1 1 1;\
          room for the tails: 2 1 2 38 2 2 0 0 0 0 0 0 0 1 1;\
          room for the heads: 2 2 1 38 2 2 0 0 0 0 0 0 0 1 1;\
          room enough: 2 2 2 38 2 2 0 0 0 0 0 0 0 1 1;",
        |given| small(rt, given),
    )
}

// The largest networks. A row has the zones, and the lengths of the two lists and of the work memory that are lent.
fn largest_rows(rt: &impl Print) -> io::Result<()> {
    rows(
        rt,
        b"1,024 zones in a path, with short cuts: 1024 4096 4096 28672;",
        |given| path(rt, given),
    )?;
    rows(
        rt,
        b"1,024 zones in a ring, each arc four times: 1024 4096 4096 28672;",
        |given| ring(rt, given),
    )
}

// All tables, in order.
fn main(rt: HostRuntime) -> io::Result<()> {
    small_rows(&rt)?;
    refused_rows(&rt)?;
    largest_rows(&rt)
}
