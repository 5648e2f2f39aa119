// The survey of a network: its rows are arranged both ways, its components named, and the names of each kind listed,
// the withdrawn zones left out.
#![tactic(auto)]

ghost use Rattle.rules.specs.Calls.{handed_with};
ghost use Rattle.withdrawn.specs.Withdrawn.{ReadyWith};
ghost use Rattle.survey.specs.Survey.{Surveyed};

use arranged::ready;
use components::name_all;
use kinds::{Counts, list_kinds};
use rules::NetworkLists;
use workmap::Map;

// Arranges the rows both ways, names the components, lists the names of each kind, and answers how many there are.
pub fn survey(m: Map, net: NetworkLists<'_>, work: &mut [u16]) -> Counts
    requires { ReadyWith m net.tails.now net.heads.now net.gone.now work.old }
    ensures { Surveyed work.old work.new m
        (handed_with m.zones net.entry.tails.now net.entry.heads.now net.entry.gone.now) result }
{
    ready(m, net.tails, net.heads, work);
    name_all(work, m);
    list_kinds(m.kinds, m.lists, net, work)
}
