// PLAN over a lent slice of link records: the plan is laid out in lent work memory, in columns, and the records are
// filled from there.
#![tactic(auto)]

ghost use Rattle.std.specs.Prelude.{◌≡◌, length};
ghost use Rattle.columns.specs.Columns.{Readable, filled};
ghost use Rattle.rules.specs.Answers.{plan_told};
ghost use Rattle.rules.specs.Promises.{RecordsPromise};

use columns::link_at;
use laying::lay;
use memory::clear;
use rules::{Link, NetworkLists, PlanCounts, Trouble};
use workmap::{LinksAt, map_of};

// Stores links that stand in the work memory, one in each record.
fn fill_links(links: &mut [Link], work: &[u16], at: LinksAt)
    requires { Readable work.now at (length links.old) }
    ensures { links.new ≡ filled work.now at links.old (length links.old) }
{
    for (i, link) in links.iter_mut().enumerate() {
        *link = link_at(work, at, i);
    }
}

// PLAN over records: the links go to `links`, one record for each.
pub fn plan_records(
    net: NetworkLists<'_>,
    links: &mut [Link],
    work: &mut [u16],
) -> Result<PlanCounts, Trouble>
    ensures { RecordsPromise net.entry.zones net.entry.tails.now net.entry.heads.now net.entry.gone.now
        links.old work.old links.new work.new (plan_told result) }
{
    admission::records(net, links.len(), work)?;
    let m = map_of(net.zones, net.tails.len());
    let counts = lay(m, net, work);
    fill_links(&mut links[..counts.need], work, m.links);
    clear(work, m.asked);
    Ok(counts)
}
