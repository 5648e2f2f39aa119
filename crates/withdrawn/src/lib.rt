// The withdrawn numbers of a network, for passes over lent work memory: the lowest number that is not withdrawn, and a
// stamp at the place of each that is.
#![tactic(auto)]

ghost use Rattle.std.specs.Prelude.{ℕ, ◌+◌, ◌≤◌, ◌<◌, length};
ghost use mathlib.Core.List.{Memᴰ as In};
ghost use Rattle.rules.specs.Network.{Ascending};
ghost use Rattle.withdrawn.specs.Withdrawn.{Lowest, Stamped};

// The lowest number that is not withdrawn. The list ascends, so it is the first index that differs from what stands
// there.
pub fn lowest(gone: &[u16]) -> usize
    requires { Ascending gone.now }
    ensures { Lowest gone.now result }
{
    gone.iter()
        .enumerate()
        .position(|(i, &zone)| usize::from(zone) != i)
        .unwrap_or(gone.len())
}

// Puts a stamp at the place of each withdrawn number, where n places from `at` on stand for the numbers below n.
// Kept (5): that n places from `at` on lie in the slice is what a range of it asks for, and no fact about one value.
pub fn stamp(work: &mut [u16], at: usize, n: usize, gone: &[u16], mark: u16)
    requires within { at + n ≤ length work.old }
    requires gone_below { (z : ℕ) → In z gone.now → z < n }
    ensures { Stamped work.old work.new at n gone.now mark }
{
    for &zone in gone {
        work[at + usize::from(zone)] = mark;
    }
}
