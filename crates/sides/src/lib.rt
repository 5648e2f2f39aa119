// The side on which the plan rule runs: as given, or turned round where there are more sources than sinks. And how
// many of each the links are made of, once its pairs are made.
#![tactic(auto)]

ghost use Rattle.std.specs.Prelude.{◌≡◌, ◌≤◌};
ghost use Rattle.workmap.specs.Map.{map_of};
ghost use Rattle.sides.specs.Sides.{RuleSide, Tallied};

use kinds::Counts as KindCounts;
use stations::Counts;
use workmap::{LinksAt, ListsAt, Map, Side};

// The side on which the rule runs: as given where there are no more sources than sinks. Elsewhere turned round: along
// the turned rows, with sources and sinks exchanged, and the links' starts and ends.
pub fn side_of(m: Map, k: KindCounts) -> Side
    requires { m ≡ map_of m.zones m.arcs }
    ensures { RuleSide m k.sources k.sinks result }
{
    let given = Side {
        rows: m.rows,
        search: m.search,
        lists: m.lists,
        pairs: m.pairs,
        links: m.links,
    };
    if k.sources <= k.sinks {
        return given;
    }
    Side {
        rows: m.turned,
        lists: ListsAt {
            sources: m.lists.sinks,
            sinks: m.lists.sources,
            ..m.lists
        },
        links: LinksAt {
            from: m.links.to,
            to: m.links.from,
            ..m.links
        },
        ..given
    }
}

// How many of each the links are made of, once p pairs are made of the sources and the sinks.
pub fn counts_of(k: KindCounts, p: usize) -> Counts
    requires { (p ≤ k.sources) × (p ≤ k.sinks) }
    ensures { Tallied k.sources k.sinks k.alone p result }
{
    Counts {
        pairs: p,
        sources: k.sources - p,
        sinks: k.sinks - p,
        alone: k.alone,
    }
}
