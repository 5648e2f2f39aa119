// The eight numbers of the C interface: each call's answer is put into them, its number first, then its place, then its
// values, and 0 in what is left.
#![tactic(auto)]

ghost use Rattle.std.specs.Prelude.{◌≡◌, [], ◌∷◌, ◌++◌, Result, Ok, Err};
ghost use Rattle.rules.specs.declared.Trouble.{Trouble};
ghost use Rattle.rules.specs.Answers.{Told, answer_eight, refused};
ghost use Rattle.rules.specs.Answers.{read_told, write_told, strong_told, plan_told};
ghost use Rattle.std.proofs.Common.{refl};

use rules::{FileCounts, PlanCounts, Trouble};

// What a call hands out where it does not refuse: no call has more than five numbers.
pub trait Values {
    // What the call's answer says.
    ghost told: { Result Self Trouble → Told };

    // The values, and 0 in what is left.
    fn values(self) -> [u64; 5]
        ensures { answer_eight (told (Ok self)) ≡ 0 ∷ 0 ∷ result ++ 0 ∷ [] };

    // A refusal is told by its number and its place alone.
    ghost refuses: { (t : Trouble) → answer_eight (told (Err t)) ≡ answer_eight (refused 0 t) };
}

// READ: the zone count and the arc count.
impl Values for FileCounts {
    ghost told = { read_told };

    ghost refuses = { λ t. refl };

    fn values(self) -> [u64; 5] {
        [self.zones as u64, self.arcs as u64, 0, 0, 0]
    }
}

// WRITE and SKELETON: a length, an arc count.
impl Values for usize {
    ghost told = { write_told };

    ghost refuses = { λ t. refl };

    fn values(self) -> [u64; 5] {
        [self as u64, 0, 0, 0, 0]
    }
}

// STRONG and REACH: a yes or a no.
impl Values for bool {
    ghost told = { strong_told };

    ghost refuses = { λ t. refl };

    fn values(self) -> [u64; 5] {
        [u64::from(self), 0, 0, 0, 0]
    }
}

// PLAN: five counts.
impl Values for PlanCounts {
    ghost told = { plan_told };

    ghost refuses = { λ t. refl };

    fn values(self) -> [u64; 5] {
        [
            self.sources as u64,
            self.sinks as u64,
            self.alone as u64,
            self.pairs as u64,
            self.need as u64,
        ]
    }
}

// Puts an answer: its values, or the number and the place of its refusal.
// Kept (1): C has eight numbers and no Result, and a first number 0 is its Ok.
pub fn put_answer<T: Values>(answer: &mut [u64; 8], a: Result<T, Trouble>)
    ensures { answer.new ≡ answer_eight (T.told a) }
{
    *answer = match a {
        Ok(done) => {
            let [first, second, third, fourth, fifth] = done.values();
            [0, 0, first, second, third, fourth, fifth, 0]
        }
        Err(t) => [usize::from(t.kind) as u64, t.place as u64, 0, 0, 0, 0, 0, 0],
    };
}
