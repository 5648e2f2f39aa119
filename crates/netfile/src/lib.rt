// Network files: reading and writing them.
//   read     a file into two lent lists
//   write    a network into a lent list of bytes
// The parts are crates of their own: the two counts, an arc, the passes over all arcs, and the bytes.
#![tactic(auto)]

ghost use Rattle.rules.specs.Answers.{read_told, write_told};
ghost use Rattle.rules.specs.Promises.{ReadPromise, WritePromise};

use filebody::body;
use filebytes::{arcs_length, write_file};
use filecounts::{arc_count, zone_count};
use filegroups::number_length;
use filepasses::FileArcs;
use intake::network;
use probes::room;
use rules::{FileCounts, NetworkLists, Trouble};

// Reading a network file into two lent lists: the two counts, or the first trouble from left to right.
pub fn read(file: &[u8], tails: &mut [u16], heads: &mut [u16]) -> Result<FileCounts, Trouble>
    ensures { ReadPromise file.now tails.old heads.old
        tails.new heads.new (read_told result) }
{
    let (zones, next) = zone_count(file)?;
    let (arcs, from) = arc_count(file, next, tails.len(), heads.len())?;
    body(file, FileArcs { from, zones, arcs }, tails, heads)
}

// Writing a network into a lent list of bytes: the file's length, or the first trouble. Nothing is put in before the
// network, with its withdrawn numbers, and the room for it are found good. The file holds no withdrawn numbers.
pub fn write(net: NetworkLists<'_>, file: &mut [u8]) -> Result<usize, Trouble>
    ensures { WritePromise net.entry.zones net.entry.tails.now net.entry.heads.now net.entry.gone.now
        file.old file.new (write_told result) }
{
    network(net)?;
    let counts = number_length(net.zones) + number_length(net.tails.len());
    let length = counts + arcs_length(net.tails, net.heads);
    room(length, file.len())?;
    write_file(net.zones, net.tails, net.heads, file);
    Ok(length)
}
