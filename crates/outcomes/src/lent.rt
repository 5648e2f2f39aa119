// The memory that is lent to the calls: what it holds before, and whether it holds what it has to afterwards.
use rules::{NetworkLists, Trouble};

// What the lent lists hold before: no zone and no why has this number.
pub const UNSET: u16 = 999;

// What the lent work memory holds before.
pub const SEVEN: u16 = 7;

// Whether the elements from index `from` on are all x.
pub fn holds(list: &[u16], from: usize, x: u16) -> bool {
    list.iter().skip(from).all(|y| *y == x)
}

// Whether the asked part of the work memory is zeros and the rest as it came. No network of the table has more than 8
// zones or 10 arcs.
pub fn cleared(work: &[u16], net: NetworkLists<'_>) -> bool {
    let asked = 16 * net.zones.min(8) + 3 * net.tails.len().min(10);
    match work.split_at_checked(asked) {
        Some((asked, rest)) => holds(asked, 0, 0) && holds(rest, 0, SEVEN),
        None => false,
    }
}

// Whether the work memory is as it has to be after an answer: cleared, or after a refusal as it came.
pub fn kept_of<T>(answer: &Result<T, Trouble>, work: &[u16], net: NetworkLists<'_>) -> bool {
    match answer {
        Ok(_) => cleared(work, net),
        Err(_) => holds(work, 0, SEVEN),
    }
}
