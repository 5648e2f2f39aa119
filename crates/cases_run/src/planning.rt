// PLAN by lists and by records, each brought to the same outcome.
ghost use Rattle.std.specs.Prelude.{◌≡◌};
ghost use Rattle.rules.specs.Answers.{plan_told};
ghost use Rattle.rules.specs.Promises.{RecordsPromise};
ghost use Rattle.cases_run.specs.Unset.{unset_links};

use outcomes::lent;
use outcomes::outcome::{self, Outcome};
use records::plan_records;
use rules::{Link, NetworkLists, PlanCounts, Trouble, Why};
use std::array;

// The plan through three lists of ten elements, at least two more than there are zones.
pub fn by_lists(net: NetworkLists<'_>) -> Outcome {
    let mut from = [lent::UNSET; 10];
    let mut to = [lent::UNSET; 10];
    let mut why = [lent::UNSET; 10];
    let mut work = [lent::SEVEN; 170];
    let answer = plan::plan(net, &mut from, &mut to, &mut why, &mut work);
    let links = array::from_fn(|i| [from[i], to[i], why[i]]);
    let kept = lent::kept_of(&answer, &work, net);
    outcome::planned(answer, links, [lent::UNSET; 3], kept)
}

// Ten records that no plan has.
pub fn unset() -> [Link; 10]
    ensures { result ≡ unset_links }
{
    [Link {
        from: lent::UNSET,
        to: lent::UNSET,
        why: Why::Back,
    }; 10]
}

// What PLAN answers over ten records, at least two more than there are zones, and the records.
fn ask_records(net: NetworkLists<'_>, work: &mut [u16]) -> (Result<PlanCounts, Trouble>, [Link; 10])
    ensures { RecordsPromise net.entry.zones net.entry.tails.now net.entry.heads.now net.entry.gone.now unset_links
        work.old result.1 work.new (plan_told result.0) }
{
    let mut links = unset();
    let answer = plan_records(net, &mut links, work);
    (answer, links)
}

// The plan through ten records.
pub fn by_records(net: NetworkLists<'_>) -> Outcome {
    let mut work = [lent::SEVEN; 170];
    let (answer, links) = ask_records(net, &mut work);
    let links = links.map(|link| [link.from, link.to, u16::from(link.why)]);
    let unset = [lent::UNSET, lent::UNSET, u16::from(Why::Back)];
    let kept = lent::kept_of(&answer, &work, net);
    outcome::planned(answer, links, unset, kept)
}
