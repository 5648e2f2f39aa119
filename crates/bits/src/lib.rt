// A table of bits in lent memory: row a is `words` elements of 16 bits, from a * words on, and bit b of it stands in
// element b / 16 of the row, at b % 16 from the lowest. Each function leaves what a plain function of lists says.
//   has_bit   whether a bit is set
//   set_bit   sets one
//   join      sets in one row all bits that are set in another
#![tactic(auto)]

ghost use Rattle.std.specs.Prelude.{◌≡◌, ◌+◌, ◌*◌, ◌/◌, ◌≤◌, ◌<◌, length};
ghost use Rattle.bits.specs.Bits.{bit_in, with_bit, with_words};

// Whether bit b of row a is set.
pub fn has_bit(work: &[u16], words: usize, a: usize, b: usize) -> bool
    requires { a * words + b / 16 < length work.now }
    ensures { result ≡ bit_in work.now words a b }
{
    work[a * words + b / 16] >> (b % 16) & 1 == 1
}

// Sets bit b of row a.
pub fn set_bit(work: &mut [u16], words: usize, a: usize, b: usize)
    requires { a * words + b / 16 < length work.old }
    ensures { work.new ≡ with_bit work.old words a b }
{
    let at = a * words + b / 16;
    work[at] |= 1u16 << (b % 16);
}

// Sets in the row that starts at `into` all bits that are set in the row that starts at `from`.
#[tactic(auto, unfolding(crate::specs::Bits::with_words))]
pub fn join(work: &mut [u16], into: usize, from: usize, words: usize)
    requires { (into + words ≤ length work.old) × (from + words ≤ length work.old) }
    ensures { work.new ≡ with_words work.old into from words }
{
    for word in 0..words {
        work[into + word] |= work[from + word];
    }
}
