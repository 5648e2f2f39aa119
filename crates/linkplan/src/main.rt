// linkplan: reads a network file from standard input and prints the plan of its network, or the one line of a refusal.
// `respond` goes from the bytes that were read to the bytes to write, in a lent buffer; `main` only reads and writes.
#![tactic(auto)]

ghost use Rattle.std.specs.Prelude.{◌≤◌, length, take};
ghost use Rattle.std.specs.Io.KnownBytes.{Consumes};

use responding::respond;
use std::io::Read;

// Reads until the list is full or the input ends, and says how much was read: the list begins with it, in its order,
// and nothing else of the input is gone. A read that fails is the end of the input.
// Kept (6): a part that is handed on takes the list out of the contract, which says how the list begins.
fn read_full<R: Read>(reader: &mut R, into: &mut [u8]) -> usize
    ensures within { result ≤ length into.new }
    ensures front { Consumes (R.remaining reader.old) (R.remaining reader.new) (take result into.new) }
{
    let mut got = 0;
    // Kept (3): `read_exact` loses the count where the input ends early, and `read_to_end` needs a heap.
    while got < into.len() {
        match reader.read(&mut into[got..]) {
            Ok(0) | Err(_) => break,
            Ok(n) => got += n,
        }
    }
    got
}

// 16,389 bytes decide any input.
fn main(rt: HostRuntime) {
    let mut input = [0u8; 16389];
    let mut out = [0u8; 20000];
    let mut reader = rt.reader();
    let got = read_full(&mut reader, &mut input);
    let length = respond(&input[..got], &mut out);
    if rt.write_all(&out[..length]).is_err() {
        // Where nobody can be told either, nothing is left to do.
        let _ = eprintln!(rt; "linkplan: the output could not be written whole");
    }
}
