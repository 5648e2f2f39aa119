// Numbers of a network file that were tested before.
//   known    the number at a place where a good one of at most two groups stands, and the place after it
#![tactic(auto)]

ghost use Rattle.std.specs.Prelude.{◌≡◌};
ghost use Rattle.rules.specs.Number.{got, number_at};
ghost use Rattle.fileknown.specs.Numbers.{GoodNumber};

// The number at a place where a good one of at most two groups stands, and the place after it. Nothing is tested again.
#[tactic(auto, using(crate::proofs::GoodNumbers::good_cases))]
pub fn known(s: &[u8], at: usize) -> (usize, usize)
    requires { GoodNumber s.now at }
    ensures { number_at s.now at ≡ got result.0 result.1 }
{
    let b = usize::from(s[at]);
    if b < 128 {
        return (b, at + 1);
    }
    let c = usize::from(s[at + 1]);
    (b - 128 + 128 * c, at + 2)
}
