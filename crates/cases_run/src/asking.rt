// A row's network, with its withdrawn zones, brought to a call.
use outcomes::lent;
use outcomes::outcome::{self, Outcome};
use outcomes::row::Row;
use rules::NetworkLists;

// Brings a row's network to a call. An arc is one number, 0x23 for the arc from 2 to 3.
pub fn network<F: FnOnce(NetworkLists<'_>) -> Outcome>(row: &Row, call: F) -> Outcome
    requires { F.IsAlwaysCallable call }
{
    let tails = row.given.map(|arc| arc / 16);
    let heads = row.given.map(|arc| arc % 16);
    let arcs = row.count.min(10);
    let withdrawn = usize::from(row.gone[0]).min(9);
    call(NetworkLists {
        zones: row.zones,
        tails: &tails[..arcs],
        heads: &heads[..arcs],
        gone: &row.gone[1..withdrawn + 1],
    })
}

// Asks about two zones of a network.
pub fn reached(net: NetworkLists<'_>, from: u16, to: u16) -> Outcome {
    let mut work = [lent::SEVEN; 170];
    let answer = network::reach(net, usize::from(from), usize::from(to), &mut work);
    let kept = lent::kept_of(&answer, &work, net);
    outcome::questioned(answer, from, to, kept)
}
