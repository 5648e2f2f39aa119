// Points 1 and 2 of the plan rule, in lent work memory: each source in turn takes the lowest sink that it reaches and
// that is still unpaired, or stays unpaired. One search a source.
#![tactic(auto)]

ghost use Rattle.std.specs.Prelude.{List, ℕ, ◌+◌};
ghost use Rattle.pairing.specs.Pairs.{Pairable, Course, PairingUnderway, Paired};

use turns::turn;
use workmap::Side;

// The turn of the source i of the s sources, with p pairs made of them and the t sinks: source and sink go to the
// pairs, or the source to those that stay unpaired. Answers the number of pairs.
fn settle(work: &mut [u16], at: Side, s: usize, t: usize, i: usize, p: usize) -> usize
    requires { PairingUnderway work.old at s t i p }
    ensures { (v : List ℕ) → Course v work.old at s t i p →
        Course v work.new at s t (i + 1) result }
{
    let v = work[at.lists.sources + i];
    let source = usize::from(v);
    match turn(work, at.rows, at.search, source, at.lists.sinks, t - p) {
        Some(z) => {
            work[at.pairs.firsts + p] = v;
            work[at.pairs.seconds + p] = z;
            p + 1
        }
        None => {
            work[at.pairs.lone + i - p] = v;
            p
        }
    }
}

// Pairs the s sources of a side with its t sinks. The side says where both stand, and where the pairs and the sources
// that stay unpaired are put; the sinks that stay unpaired then stand where the sinks stood. Answers the number of
// pairs.
pub fn pair(work: &mut [u16], at: Side, s: usize, t: usize) -> usize
    requires { Pairable work.old at s t }
    ensures { Paired work.old work.new at s t result }
{
    let mut p = 0;
    for k in 0..s {
        p = settle(work, at, s, t, k, p);
    }
    p
}
