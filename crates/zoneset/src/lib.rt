// A set of zone numbers below 1,024: one row of a table of bits, made by value and read through a reference, so that no
// look copies it. Whoever calls knows it by `held`, a function from numbers to yes or no.
#![tactic(auto)]

ghost use Rattle.std.specs.Prelude.{◌≡◌, ℕ, ◌<◌};
ghost use mathlib.Core.List.{Memᴰ as In};
ghost use Rattle.rules.specs.Lists.{listed};
ghost use Rattle.zoneset.specs.Held.{held};

use bits::{has_bit, set_bit};

// A set of zone numbers below 1,024. Of a set without a number no word is looked at.
#[derive(Clone, Copy, Debug, Default, PartialEq, Eq, PartialOrd, Ord, Hash)]
pub struct ZoneSet {
    words: [u16; 64],
    any: bool,
}

impl ZoneSet {
    // The numbers of a list.
    pub fn of(list: &[u16]) -> Self
        requires { (z : ℕ) → In z list.now → z < 1024 }
        ensures { (z : ℕ) → held result z ≡ listed list.now z }
    {
        let mut words = [0u16; 64];
        for &zone in list {
            set_bit(&mut words, 64, 0, usize::from(zone));
        }
        ZoneSet {
            words,
            any: !list.is_empty(),
        }
    }

    // Whether a number is in the set.
    #[tactic(auto, unfolding(crate::specs::Held::held))]
    pub fn has(&self, zone: usize) -> bool
        ensures { result ≡ held self.now zone }
    {
        self.any && zone < 1024 && has_bit(&self.words, 64, 0, zone)
    }
}
