// Runs `read` and `write`: document 01's files, every kind of refusal at the first, a middle and the last number,
// lists that are exact and one short, and the largest network. A line is the label, the number, the place and the
// values, and after a `|` what each lent list holds.
#![tactic(auto)]

mod reads;
mod writes;

use runtable::rows;
use std::io;

// Files that are read: some are accepted; of others the first number, one in the middle or the last is refused. A row
// has the file's length, the lengths of the two lists that are lent, and the file's bytes.
fn read_rows(rt: &impl Print) -> io::Result<()> {
    rows(
        rt,
        b"A: 12 6 6 6 5 0 2 2 3 0 4 1 4 4 5;\
          one zone: 2 0 0 1 0;\
          1024 zones: 3 6 6 128 8 0;\
          last of 1024 zones: 6 1 1 128 8 1 255 7 0;\
          K: 0 6 6;\
          short after a group: 1 6 6 128;\
          short after two groups: 2 6 6 128 128;\
          long: 3 6 6 128 128 128;\
          L: 3 6 6 128 128 0;\
          loose in two groups: 2 6 6 128 0;\
          no zones: 2 6 6 0 0;\
          1025 zones: 3 6 6 129 8 0;\
          2097151 zones: 4 6 6 255 255 127 0;\
          short arc count: 1 6 6 2;\
          long arc count: 4 6 6 2 128 128 128;\
          loose arc count: 3 6 6 2 129 0;\
          loose count of no arc: 3 6 6 2 128 0;\
          4097 arcs: 4 6 6 128 8 129 32;\
          short tail: 5 6 6 3 2 0 1 130;\
          long tail: 7 6 6 3 2 0 1 130 128 128;\
          loose tail: 7 6 6 3 2 0 1 130 0 0;\
          tail out of range: 6 6 6 3 2 0 1 3 0;\
          first tail out of range: 4 6 6 2 1 2 0;\
          first tail loose: 8 6 6 128 8 2 130 0 1 0 1;\
          first tail of three groups: 9 6 6 128 8 2 130 129 1 1 0 1;\
          first head out of range: 6 6 6 3 2 0 3 1 2;\
          first arc to itself: 6 6 6 3 2 1 1 0 2;\
          no head: 3 6 6 2 1 0;\
          short head: 4 6 6 2 1 0 129;\
          long head: 6 6 6 2 1 0 129 128 128;\
          loose head: 6 6 6 2 1 0 129 128 0;\
          head out of range: 4 6 6 2 1 0 2;\
          head 65537: 6 6 6 2 1 0 129 128 4;\
          tail and head out of range: 4 6 6 2 1 2 3;\
          self: 4 6 6 2 1 1 1;\
          last arc to itself: 6 6 6 3 2 0 1 2 2;",
        |given| reads::run(rt, given),
    )
}

// Files with bytes after the arcs; and lists that are exact or one short, before any arc is read and after ARCS.
fn room_rows(rt: &impl Print) -> io::Result<()> {
    rows(
        rt,
        b"extra after no arc: 3 6 6 1 0 0;\
          extra after an arc: 6 6 6 2 1 0 1 0 1;\
          room exact: 6 2 2 3 2 0 1 1 2;\
          tails one short: 6 1 2 3 2 0 1 1 2;\
          heads one short: 6 2 1 3 2 0 1 1 2;\
          room before the arcs: 4 0 1 2 1 5 5;\
          arcs before room: 4 0 0 128 8 129 32;\
          4096 arcs, no room: 4 6 6 128 8 128 32;",
        |given| reads::run(rt, given),
    )
}

// Networks that are written; each refusal of the network, at the first, a middle and the last arc, and two troubles at
// once; and a list that is exact, and one short. A row has the zones, the length of the list that is lent, how many
// tails and heads there are, and those, five places for each. Last come how many numbers are withdrawn, and those.
fn write_rows(rt: &impl Print) -> io::Result<()> {
    rows(
        rt,
        b"write A: 6 12 5 5 0 2 0 1 4 2 3 4 4 5;\
          write one zone: 1 12 0 0;\
          write 1024 zones: 1024 12 2 2 127 128 0 0 0 1023 0;\
          write longer heads: 1024 12 2 2 1 2 0 0 0 128 129;\
          write pair: 3 12 2 1 0 1 0 0 0 1;\
          write no zones: 0 12 0 0;\
          write 1025 zones: 1025 12 0 0;\
          write first tail out of range: 3 12 3 3 3 1 2 0 0 1 2 0;\
          write middle head out of range: 3 12 3 3 0 1 2 0 0 1 3 0;\
          write last head out of range: 3 12 3 3 0 1 2 0 0 1 2 3;\
          write first arc to itself: 3 12 3 3 1 1 2 0 0 1 2 0;\
          write last arc to itself: 3 12 3 3 0 1 2 0 0 1 2 2;\
          write pair before zones: 0 12 1 0 0;\
          write range before self: 3 12 1 1 3 0 0 0 0 3;\
          write self before room: 3 0 2 2 0 1 0 0 0 1 1;\
          write room exact: 3 6 2 2 0 1 0 0 0 1 2;\
          write one byte short: 3 5 2 2 0 1 0 0 0 1 2;\
          write no room: 1 0 0 0;\
          write with a gone zone: 4 12 2 2 0 2 0 0 0 2 3 0 0 0 1 1;\
          write list not ascending: 4 12 2 2 0 2 0 0 0 2 3 0 0 0 2 1 1;\
          write none left: 3 12 0 0 0 0 0 0 0 0 0 0 0 0 3 0 1 2;\
          write gone head: 4 12 2 2 0 2 0 0 0 2 3 0 0 0 1 3;\
          write gone before room: 4 0 2 2 0 2 0 0 0 2 3 0 0 0 1 3;",
        |given| writes::run(rt, given),
    )
}

// 4,097 arcs are too many. 4,096 arcs whose every number has two groups are the longest file: one byte short, exact and
// read back, and with a byte to spare, which is then a byte too many. A row has the zones, the length of the list that
// is lent, and how many arcs there are.
fn large_rows(rt: &impl Print) -> io::Result<()> {
    rows(
        rt,
        b"write 4097 arcs: 1024 12 4097;\
          longest file, one byte short: 1024 16387 4096;\
          longest file: 1024 16388 4096;",
        |given| writes::large(rt, given),
    )?;
    rows(
        rt,
        b"longest file, read back: 1024 16388 4096;",
        |given| writes::read_back(rt, given),
    )?;
    rows(
        rt,
        b"longest file, a byte to spare: 1024 16389 4096;",
        |given| writes::large(rt, given),
    )?;
    rows(
        rt,
        b"longest file and a byte: 1024 16389 4096;",
        |given| writes::read_back(rt, given),
    )
}

fn main(rt: HostRuntime) -> io::Result<()> {
    read_rows(&rt)?;
    room_rows(&rt)?;
    write_rows(&rt)?;
    large_rows(&rt)
}
