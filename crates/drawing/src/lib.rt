// The arcs of a skeleton, in no order, in two lent lists, from the names of the zones and of the components in lent
// work memory: those of the rings, and behind them those between components that stay.
//   lay_table   the network of the components, behind where the table of who reaches whom will be
//   draw        the arcs of the skeleton
#![tactic(auto)]

ghost use Rattle.std.specs.Prelude.{◌≡◌, ◌≤◌, length};
ghost use Rattle.workmap.specs.Map.{map_of};
ghost use Rattle.drawing.specs.Drawing.{Named, Tabled, Drawn};

use arcsink::ArcSink;
use blocks::cross;
use condense::condense;
use rings::put_rings;
use spots::note_places;
use workmap::Map;

// Lays out the network of the components: the places of the names, and the rows of the arcs between components.
// Kept (5): a ghost field of Map that says it is the map of its counts would stand in the definition of that very map.
fn lay_table(m: Map, places: usize, tails: &[u16], heads: &[u16], work: &mut [u16])
    requires named { Named work.old m.zones tails.now heads.now places }
    requires m_is_map { m ≡ map_of m.zones m.arcs }
    ensures { Tabled work.old work.new m.zones tails.now
        heads.now places }
{
    let at = m.places;
    let table = m.table;
    note_places(work, at, places);
    condense(work, at, table.rows, tails, heads);
}

// Puts the arcs of the skeleton. Answers how many there are.
pub fn draw(
    m: Map,
    places: usize,
    tails: &[u16],
    heads: &[u16],
    from: &mut [u16],
    to: &mut [u16],
    work: &mut [u16],
) -> usize
    requires named { Named work.old m.zones tails.now heads.now places }
    requires lists_have_room { (length tails.now ≤ length from.old) × (length tails.now ≤ length to.old) }
    requires m_is_map { m ≡ map_of m.zones m.arcs }
    ensures { Drawn work.old work.new m.zones tails.now
        heads.now from.old to.old from.new to.new result }
{
    let table = m.table;
    let mut sink = ArcSink {
        tails: from,
        heads: to,
        len: 0,
    };
    put_rings(work, m.rings, &mut sink);
    lay_table(m, places, tails, heads, work);
    cross(work, table, places, &mut sink);
    sink.len
}
