// The two passes over the arcs of a network file: one that only tests, and one that stores.
//   FileArcs           where the arcs begin, and the two counts
//   FileArcs::scan     tests them, one after the other
//   FileArcs::store    puts the arcs of an accepted file into two lent lists
#![tactic(auto)]

ghost use Rattle.std.specs.Prelude.{◌≤◌, length};
ghost use Rattle.rules.specs.File.{arc_at, arcs_at};
ghost use Rattle.filepasses.specs.Readings.{Scanned, Accepted, ArcsStored};

use filearcs::arc;
use fileknown::known;
use filelook::quick_arc;
use filenumbers::Cursor;
use rules::Trouble;

// An arc: where it ends, or its refusal. Looked at closer only where a quick look does not find it good.
// Kept (5): the bound is of the zone count alone, which this and the quick look take out of a FileArcs.
fn one_arc(s: &[u8], c: Cursor, zones: usize) -> Result<Cursor, Trouble>
    requires { zones ≤ 1024 }
    ensures { Scanned result (arc_at s.now zones c.at) }
{
    if let Some(at) = quick_arc(s, c.at, zones) {
        return Ok(Cursor { at });
    }
    Ok(arc(s, c, zones)?.next)
}

// The arcs of a file: where they begin, and the two counts.
#[derive(Clone, Copy)]
pub struct FileArcs {
    pub from: Cursor,
    pub zones: usize,
    pub arcs: usize,
    ghost zones_bound: { zones ≤ 1024 },
}

impl FileArcs {
    // Tests them, one after the other: where they end, or the first refusal. Nothing is stored.
    pub fn scan(self, s: &[u8]) -> Result<Cursor, Trouble>
        ensures { Scanned result (arcs_at s.now self.zones self.arcs self.from.at) }
    {
        let FileArcs { from, zones, arcs } = self;
        let mut c = from;
        for _ in 0..arcs {
            c = one_arc(s, c, zones)?;
        }
        Ok(c)
    }

    // Puts the tail and the head of each of them into the two lists.
    pub fn store(self, s: &[u8], tails: &mut [u16], heads: &mut [u16])
        requires arcs_in_bounds { (self.arcs ≤ length tails.old) × (self.arcs ≤ length heads.old) }
        requires accepted { Accepted (arcs_at s.now self.zones self.arcs self.from.at) }
        ensures { ArcsStored (arcs_at s.now self.zones self.arcs self.from.at)
            tails.old heads.old tails.new heads.new }
    {
        let FileArcs { from, zones, arcs } = self;
        let mut at = from.at;
        for k in 0..arcs {
            let (tail, mid) = known(s, at);
            let (head, next) = known(s, mid);
            tails[k] = tail as u16;
            heads[k] = head as u16;
            at = next;
        }
    }
}
