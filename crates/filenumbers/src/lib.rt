// Numbers of a network file: a byte 0 to 127 ends one, and 128 to 255 says that another group of seven bits follows.
//   Cursor::number    the number at a reading place with the place after it, or its refusal
// LONG and LOOSE are placed at the offending group, which an operator finds with a byte editor.
#![tactic(auto)]

ghost use Rattle.std.specs.Prelude.{◌≡◌, ◌+◌, ◌<◌, ◌≤◌, length, slice_index, MatchResult};
ghost use Rattle.rules.specs.declared.TroubleKind.TheVariants.{Short};
ghost use Rattle.rules.specs.Answers.{refusal};
ghost use Rattle.rules.specs.Number.{number_at, second_group, third_group};
ghost use Rattle.filenumbers.specs.Readings.{number_reading};

use rules::{Trouble, TroubleKind};

// The reading place. It moves forward by one number at a time.
// Kept (5): document 01 names this form, a place by value whose method takes the bytes; so they are no field of it.
#[derive(Clone, Copy)]
pub struct Cursor {
    pub at: usize,
}

// A refusal of this kind at this place.
fn refused(kind: TroubleKind, place: usize) -> Result<(usize, Cursor), Trouble>
    ensures { result ≡ Err (refusal kind place) }
{
    Err(Trouble { kind, place })
}

// The byte at a place, or SHORT at the length of the input.
fn byte(s: &[u8], at: usize) -> Result<u8, Trouble>
    ensures { MatchResult result (λ b. (at < length s.now) × (b ≡ slice_index s.now at))
        (λ t. (length s.now ≤ at) × (t ≡ refusal Short (length s.now))) }
{
    s.get(at).copied().ok_or(Trouble {
        kind: TroubleKind::Short,
        place: s.len(),
    })
}

impl Cursor {
    // The number at the cursor, and the next cursor.
    #[tactic(auto, unfolding(rules::specs::Number::number_at))]
    pub fn number(self, s: &[u8]) -> Result<(usize, Cursor), Trouble>
        ensures { number_reading result ≡ number_at s.now self.at }
    {
        let at = self.at;
        let b = byte(s, at)?;
        match b {
            0..=127 => Ok((usize::from(b), Cursor { at: at + 1 })),
            128..=255 => second(s, at, usize::from(b) - 128),
        }
    }
}

// The second group of the number at `at`, after one that is worth `low`.
#[tactic(auto, unfolding(rules::specs::Number::second_group))]
fn second(s: &[u8], at: usize, low: usize) -> Result<(usize, Cursor), Trouble>
    requires { (low < 128) × (at < length s.now) }
    ensures { number_reading result ≡ second_group s.now at low }
{
    let here = at + 1;
    let b = byte(s, here)?;
    match b {
        0 => refused(TroubleKind::Loose, here),
        1..=127 => Ok((low + 128 * usize::from(b), Cursor { at: at + 2 })),
        128..=255 => third(s, at, low + 128 * (usize::from(b) - 128)),
    }
}

// The third group of the number that starts at `start`, after two that are worth `low`.
#[tactic(auto, unfolding(rules::specs::Number::third_group))]
fn third(s: &[u8], start: usize, low: usize) -> Result<(usize, Cursor), Trouble>
    requires { (low < 16384) × (start + 1 < length s.now) }
    ensures { number_reading result ≡ third_group s.now start low }
{
    let last = start + 2;
    let b = byte(s, last)?;
    match b {
        0 => refused(TroubleKind::Loose, last),
        1..=127 => Ok((low + 16384 * usize::from(b), Cursor { at: start + 3 })),
        128..=255 => refused(TroubleKind::Long, last),
    }
}
