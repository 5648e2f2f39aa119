// The bytes of a network file.
//   arcs_length    how many bytes the arcs are written as
//   write_file     the bytes of a network, put into a lent list that has room for them
#![tactic(auto)]

ghost use Rattle.std.specs.Prelude.{◌≡◌, ◌+◌, ◌≤◌, length};
ghost use Rattle.std.proofs.lemmas.List.Edits.{sets};
ghost use Rattle.rules.specs.Lists.{over};
ghost use Rattle.rules.specs.File.{arcs_bytes};
ghost use Rattle.rules.specs.Calls.{arcs_of, written};

use filegroups::{number_length, write_number};

// How many bytes the arcs are written as.
pub fn arcs_length(tails: &[u16], heads: &[u16]) -> usize
    requires { length tails.now ≤ 4096 }
    ensures { result ≡ length (arcs_bytes (arcs_of tails.now heads.now)) }
{
    tails
        .iter()
        .zip(heads)
        .map(|(&tail, &head)| number_length(usize::from(tail)) + number_length(usize::from(head)))
        .sum()
}

// Puts the arcs in, one after the other, from a place on.
fn write_arcs(file: &mut [u8], from: usize, tails: &[u16], heads: &[u16])
    requires { from + length (arcs_bytes (arcs_of tails.now heads.now)) ≤ length file.old }
    ensures { file.new
        ≡ sets file.old from (arcs_bytes (arcs_of tails.now heads.now)) }
{
    let mut at = from;
    for (&tail, &head) in tails.iter().zip(heads) {
        let mid = write_number(file, at, usize::from(tail));
        at = write_number(file, mid, usize::from(head));
    }
}

// Puts the whole file in.
#[tactic(auto, using(crate::proofs::WrittenFile::file_cases))]
pub fn write_file(zones: usize, tails: &[u16], heads: &[u16], file: &mut [u8])
    requires counts_bound { (zones ≤ 1024) × ((length tails.now ≡ length heads.now) × (length tails.now ≤ 4096)) }
    requires has_room { length (written zones tails.now heads.now) ≤ length file.old }
    ensures { file.new
        ≡ over (written zones tails.now heads.now) file.old }
{
    let arcs = tails.len();
    let at = write_number(file, 0, zones);
    let from = write_number(file, at, arcs);
    write_arcs(file, from, tails, heads);
}
