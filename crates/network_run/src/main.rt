// Runs `strong` and `reach`: every refusal, the order of two troubles at once, yes and no, and the largest sizes.
// A line has the label, the number, the place, the value, and how many elements of the work memory are not zero then.
#![tactic(auto)]

use network::{reach, strong};
use rules::NetworkLists;
use runtable::{at, front, part, rows};
use std::{array, io};

// Asks a row's question about a network, and prints the line after its label.
fn ask(rt: &impl Print, given: &[u16], tails: &[u16], heads: &[u16]) -> io::Result<()> {
    let net = NetworkLists {
        zones: at(given, 4),
        tails,
        heads,
        gone: part(given, 15, at(given, 14)),
    };
    let mut work = [7; 28673];
    let lent = front(&mut work, at(given, 5));
    // Kept (1): the table's text has this number, and an enum would be made of it only to be matched here.
    let answer = match at(given, 1) {
        0 => strong(net, lent),
        _ => reach(net, at(given, 2), at(given, 3), lent),
    };
    printing::answer(rt, answer.map(usize::from))?;
    println!(rt; " {}", printing::others(&work, 0))
}

// Asks about 1,024 zones and 4,096 arcs, each to the zone that is `by` further on.
// Kept (2): `skeleton_run` has its ring in two lines too; one function for both, with its contract and edit, is more.
fn largest(rt: &impl Print, given: &[u16]) -> io::Result<()> {
    let by = at(given, 6);
    let tails: [u16; 4096] = array::from_fn(|i| (i % 1024) as u16);
    let heads: [u16; 4096] = array::from_fn(|i| ((i % 1024 + by % 1024) % 1024) as u16);
    ask(rt, given, &tails, &heads)
}

// Asks about a row's small network, or about too many arcs.
fn small(rt: &impl Print, given: &[u16]) -> io::Result<()> {
    // Kept (1): lines of 4,097 arcs and of few stand mixed in one output, so a row has to say which; an enum would be
    // matched here only.
    match at(given, 6) {
        4097 => ask(rt, given, &[0; 4097], &[1; 4097]),
        n => ask(rt, given, part(given, 8, n), part(given, 11, at(given, 7))),
    }
}

// Each refusal; two troubles at once, of which the first in the order of the tests is told; and yes and no. A row has 0
// for STRONG and 1 for REACH, from where and to where; the zones and the length of the work memory; how many tails and
// heads there are, and those, three places for each. 4,097 arcs are all from 0 to 1. Last come how many numbers are
// withdrawn, and those, three places.
fn small_rows(rt: &impl Print) -> io::Result<()> {
    rows(
        rt,
        b"pair: 0 0 0 3 57 3 2 0 1 2 1 2;\
          no zones: 0 0 0 0 57 0 0;\
          too many zones: 0 0 0 1025 28673 0 0;\
          too many arcs: 0 0 0 2 28673 4097 4097;\
          tail out of range: 0 0 0 3 57 2 2 0 3 0 1 1;\
          head out of range: 0 0 0 3 57 2 2 0 1 0 1 3;\
          self arc: 0 0 0 3 57 3 3 0 1 2 1 2 2;\
          room: 0 0 0 3 56 3 3 0 1 2 1 2 0;\
          from out of range: 1 3 0 3 54 2 2 0 1 0 1 2;\
          to out of range: 1 0 3 3 54 2 2 0 1 0 1 2;\
          room of a question: 1 0 2 3 53 2 2 0 1 0 1 2;\
          pair and zones: 0 0 0 0 57 1 0;\
          zones and arcs: 0 0 0 0 57 4097 4097;\
          arcs and range: 0 0 0 1 57 4097 4097;\
          tail and head of one arc: 0 0 0 3 57 2 2 0 3 0 1 4;\
          range and self in one arc: 0 0 0 3 57 1 1 3 0 0 3;\
          self, then range: 0 0 0 3 57 2 2 1 3 0 1 0;\
          self and room: 0 0 0 3 0 2 2 0 1 0 1 1;\
          network and question: 1 3 0 3 54 2 2 0 3 0 1 2;\
          from and to: 1 9 9 3 54 2 2 0 1 0 1 2;\
          question and room: 1 0 3 3 0 2 2 0 1 0 1 2;\
          list out of range: 0 0 0 3 57 1 1 0 0 0 2 0 0 2 1 3;\
          list not ascending: 0 0 0 3 57 1 1 0 0 0 2 0 0 2 1 0;\
          list with a number twice: 0 0 0 3 57 1 1 0 0 0 2 0 0 2 1 1;\
          arcs and list: 0 0 0 3 57 4097 4097 0 0 0 0 0 0 1 3;\
          range and order of a list: 0 0 0 3 57 0 0 0 0 0 0 0 0 2 3 1;\
          none left: 0 0 0 3 57 0 0 0 0 0 0 0 0 3 0 1 2;\
          list and none left: 0 0 0 2 57 0 0 0 0 0 0 0 0 3 0 1 1;\
          none left, and tail out of range: 0 0 0 2 57 1 1 2 0 0 0 0 0 2 0 1;\
          gone tail: 0 0 0 3 57 2 2 0 1 0 2 0 0 1 1;\
          gone head: 0 0 0 3 57 2 2 0 2 0 2 1 0 1 1;\
          gone tail above 32: 0 0 0 130 2100 1 1 40 0 0 1 0 0 1 40;\
          gone head above 64: 0 0 0 130 2100 1 1 0 0 0 128 0 0 1 128;\
          not gone, 64 apart: 0 0 0 130 2100 1 1 0 0 0 64 0 0 1 128;\
          self arc of a gone zone: 0 0 0 3 57 2 2 0 1 0 2 1 0 1 1;\
          gone, then range: 0 0 0 3 57 2 2 1 3 0 0 0 0 1 1;\
          gone and room: 0 0 0 3 0 1 1 1 0 0 0 0 0 1 1;\
          from a gone zone: 1 1 0 3 54 1 1 0 0 0 2 0 0 1 1;\
          to a gone zone: 1 0 1 3 54 1 1 0 0 0 2 0 0 1 1;\
          from a gone zone to itself: 1 1 1 3 54 1 1 0 0 0 2 0 0 1 1;\
          from a gone zone, and to out of range: 1 1 3 3 54 1 1 0 0 0 2 0 0 1 1;\
          from a gone zone, and room: 1 1 0 3 0 1 1 0 0 0 2 0 0 1 1;\
          one zone: 0 0 0 1 16 0 0;\
          two zones, no arc: 0 0 0 2 32 0 0;\
          ring: 0 0 0 3 57 3 3 0 1 2 1 2 0;\
          path: 0 0 0 3 54 2 2 0 1 0 1 2;\
          path turned: 0 0 0 3 60 2 2 2 1 0 1 0;\
          along the path: 1 0 2 3 54 2 2 0 1 0 1 2;\
          against the path: 1 2 0 3 54 2 2 0 1 0 1 2;\
          to itself: 1 2 2 3 54 2 2 0 1 0 1 2;\
          ring past a gone zone: 0 0 0 3 57 2 2 0 2 0 2 0 0 1 1;\
          ring past gone zones at the ends: 0 0 0 4 70 2 2 1 2 0 2 1 0 2 0 3;\
          one zone left: 0 0 0 3 57 0 0 0 0 0 0 0 0 2 0 2;\
          two zones left, no arc: 0 0 0 3 57 0 0 0 0 0 0 0 0 1 1;\
          path past a gone zone: 0 0 0 3 57 1 1 0 0 0 2 0 0 1 1;\
          along the path past a gone zone: 1 0 2 3 57 1 1 0 0 0 2 0 0 1 1;\
          against the path past a gone zone: 1 2 0 3 57 1 1 0 0 0 2 0 0 1 1;",
        |given| small(rt, given),
    )
}

// The largest networks. A row begins as before, up to the length of the work memory. Its last number says how many
// zones further on an arc goes: the arcs are one ring where that is 1, and two where it is 2.
fn largest_rows(rt: &impl Print) -> io::Result<()> {
    rows(
        rt,
        b"one ring, to the last zone: 0 0 0 1024 28672 1;\
          one ring, to the last zone: 1 0 1023 1024 28672 1;\
          two rings, to a zone of the first: 0 0 0 1024 28672 2;\
          two rings, to a zone of the first: 1 0 1022 1024 28672 2;\
          two rings, to a zone of the second: 0 0 0 1024 28672 2;\
          two rings, to a zone of the second: 1 0 1023 1024 28672 2;",
        |given| largest(rt, given),
    )
}

// All tables, in order.
fn main(rt: HostRuntime) -> io::Result<()> {
    small_rows(&rt)?;
    largest_rows(&rt)
}
