// The kinds of the components, in lent work memory, where each zone's name stands: every arc is noted at the names of
// its ends, and withdrawn zones get a stamp that no kind has; then the names of the sources, of the sinks and of the
// components alone are put, as three ascending lists, and counted, by a pass over the zones for each. The map says
// where everything stands.
#![tactic(auto)]

ghost use Rattle.std.specs.Prelude.{◌≡◌, ◌<◌};
ghost use Rattle.rules.specs.Network.{network_with};
ghost use Rattle.rules.specs.Calls.{arcs_of};
ghost use Rattle.borders.specs.Borders.{KindsRoom, own_kind};
ghost use Rattle.kinds.specs.Marks.{entered_mark, exited_mark};
ghost use Rattle.kinds.specs.Lists.{Listable, Listing, Nameable, Withdrawable, Listed};

use borders::mark;
use rules::NetworkLists;
use withdrawn::stamp;
use workmap::{KindsAt, ListsAt};

// How many components are sources, sinks and alone.
#[derive(Clone, Copy)]
pub struct Counts {
    pub sources: usize,
    pub sinks: usize,
    pub alone: usize,
}

// The kinds of components.
#[derive(Clone, Copy)]
enum Kind {
    Source,
    Sink,
    Alone,
}

impl Kind {
    // What stands for the name of a component of this kind where it is noted that it is entered, and that it is left.
    fn marks(self) -> (u16, u16)
        ensures entered { result.0 ≡ entered_mark self }
        ensures exited { result.1 ≡ exited_mark self }
    {
        match self {
            Kind::Source => (0, 1),
            Kind::Sink => (1, 0),
            Kind::Alone => (0, 0),
        }
    }
}

// Whether z is the name of a component of this kind.
fn of_kind(at: KindsAt, kind: Kind, z: usize, work: &[u16]) -> bool
    requires { KindsRoom at work.now × (z < at.zones) }
    ensures { result ≡ own_kind at (entered_mark kind) (exited_mark kind) work.now z }
{
    let (entered, exited) = kind.marks();
    usize::from(work[at.names + z]) == z
        && work[at.entered + z] == entered
        && work[at.exited + z] == exited
}

// The names of the kind go to `to`, and the answer is how many there are.
fn list(at: KindsAt, kind: Kind, to: usize, work: &mut [u16]) -> usize
    requires { Listable at to work.old }
    ensures { Listing at (entered_mark kind) (exited_mark kind) to at.zones result work.old work.new }
{
    let mut count = 0;
    // Kept (3): a filter would hold the slice borrowed that the loop stores into, so `count` is counted by hand.
    for z in 0..at.zones {
        if of_kind(at, kind, z, work) {
            work[to + count] = z as u16;
            count += 1;
        }
    }
    count
}

// Finds which components are entered and left, lists the names of each kind, the withdrawn zones left out, and answers
// how many there are.
pub fn list_kinds(at: KindsAt, to: ListsAt, net: NetworkLists<'_>, work: &mut [u16]) -> Counts
    requires nameable { Nameable at to net.tails.now net.heads.now work.old }
    requires withdrawable { Withdrawable at.zones (arcs_of net.tails.now net.heads.now) net.gone.now }
    ensures { Listed at to
        (network_with at.zones (arcs_of net.entry.tails.now net.entry.heads.now) net.entry.gone.now) result
        work.old work.new }
{
    mark(at, net.tails, net.heads, work);
    stamp(work, at.entered, at.zones, net.gone, 2);
    let sources = list(at, Kind::Source, to.sources, work);
    let sinks = list(at, Kind::Sink, to.sinks, work);
    let alone = list(at, Kind::Alone, to.alone, work);
    Counts {
        sources,
        sinks,
        alone,
    }
}
