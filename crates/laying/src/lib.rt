// Laying out a plan in lent work memory: a network that is not strong is surveyed, and its sources and sinks are
// connected on the side on which the rule runs.
#![tactic(auto)]

ghost use Rattle.std.specs.Prelude.{◌≡◌};
ghost use Rattle.rules.specs.Calls.{handed_with};
ghost use Rattle.withdrawn.specs.Withdrawn.{ReadyWith};
ghost use Rattle.laying.specs.Layout.{counts_with, LaidOut};

use connect::{Connection, connect};
use kinds::Counts;
use rules::{NetworkLists, PlanCounts};
use sides::side_of;
use survey::survey;
use workmap::Map;

// The counts of the kinds, with the pairs and the links of a connection.
// Kept (4): `PlanPromise` tells the five counts one by one, and PlanCounts has them so.
fn counts_with(k: Counts, made: Connection) -> PlanCounts
    ensures { result ≡ counts_with k made }
{
    PlanCounts {
        sources: k.sources,
        sinks: k.sinks,
        alone: k.alone,
        pairs: made.pairs,
        need: made.need,
    }
}

// Leaves the plan in the work memory, in the columns that the map names. A strong network has one component, alone,
// and gets no link. The rule runs on the side with no more sources than sinks.
pub fn lay(m: Map, net: NetworkLists<'_>, work: &mut [u16]) -> PlanCounts
    requires { ReadyWith m net.tails.now net.heads.now net.gone.now work.old }
    ensures { LaidOut work.old work.new m
        (handed_with m.zones net.entry.tails.now net.entry.heads.now net.entry.gone.now) result }
{
    let k = survey(m, net, work);
    if k.sources + k.sinks + k.alone == 1 {
        let none = Connection { pairs: 0, need: 0 };
        return counts_with(k, none);
    }
    let side = side_of(m, k);
    let on_side = Counts {
        sources: k.sources.min(k.sinks),
        sinks: k.sources.max(k.sinks),
        ..k
    };
    let made = connect(work, side, on_side);
    counts_with(k, made)
}
