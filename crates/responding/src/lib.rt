// From the bytes of a network file to the bytes that linkplan writes, in a lent buffer: the plan of the network, or
// the one line of a refusal.
#![tactic(auto)]

ghost use Rattle.buffer.specs.Put.{Appended};
ghost use Rattle.responding.specs.Buffers.{IsPrefixLen, PlanLent, handed_lines, Responded};

use buffer::Page;
use netfile::read;
use phrases::put_refusal;
use rules::{FileCounts, NetworkLists};
use text::put_answer;

// Makes the plan of a network that passes every test, and puts its lines. The lists that PLAN is lent are as long as
// the largest network asks. A network file holds no withdrawn zones, so there are none.
fn put_planned(page: &mut Page<'_>, zones: usize, tails: &[u16], heads: &[u16])
    requires { PlanLent zones tails.now heads.now page.old }
    ensures { Appended page.old (handed_lines zones tails.now heads.now) page.new }
{
    let mut from = [0u16; 1024];
    let mut to = [0u16; 1024];
    let mut why = [0u16; 1024];
    let mut work = [0u16; 28672];
    let gone = &[];
    let net = NetworkLists {
        zones,
        tails,
        heads,
        gone,
    };
    let answer = plan::plan(net, &mut from, &mut to, &mut why, &mut work);
    let file = FileCounts {
        zones,
        arcs: tails.len(),
    };
    put_answer(page, file, answer, &from, &to, &why)
}

// From the bytes of a file to the bytes that linkplan writes: they stand at the start of `out`, and their number is
// the answer.
// Kept (6): `Responded`, which is promised, speaks of the length and of the whole buffer.
pub fn respond(file: &[u8], out: &mut [u8; 20000]) -> usize
    ensures prefix_len { IsPrefixLen result out.new }
    ensures responded { Responded file.now out.old result out.new }
{
    let mut tails = [0u16; 4096];
    let mut heads = [0u16; 4096];
    let mut page = Page::new(out);
    match read(file, &mut tails, &mut heads) {
        Err(t) => put_refusal(&mut page, t),
        Ok(counts) => {
            let arcs = counts.arcs;
            put_planned(&mut page, counts.zones, &tails[..arcs], &heads[..arcs]);
        }
    }
    page.written()
}
