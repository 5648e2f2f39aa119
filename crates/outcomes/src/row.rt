// A row of the table of proved cases.
ghost use Rattle.std.specs.Prelude.{◌≡◌, IsTrue};

use super::outcome::{Came, Outcome};
use std::{array, fmt};

// What a row asks for: the plan, the skeleton, reading a file, a plan that is refused, or whether a zone reaches
// another.
#[derive(Clone, Copy)]
pub enum Asked {
    Plan,
    Skeleton,
    File,
    Refusal,
    Question,
}

// The table has a number for each.
impl From<u16> for Asked {
    fn from(number: u16) -> Asked {
        match number {
            0 => Asked::Plan,
            1 => Asked::Skeleton,
            2 => Asked::File,
            3 => Asked::Refusal,
            _ => Asked::Question,
        }
    }
}

// What a row wants to come.
impl From<Asked> for Came {
    fn from(asked: Asked) -> Came {
        match asked {
            Asked::Plan => Came::Plan,
            Asked::Skeleton => Came::Skeleton,
            Asked::File | Asked::Refusal => Came::Refusal,
            Asked::Question => Came::Question,
        }
    }
}

// A row: its number in the table, from 1; its letter, if it has one; what it asks for; the zone count; how many numbers
// are given, and these; how many numbers are withdrawn, and then these; and the outcome that is wanted.
// Kept (6): the calls split each given number into an arc or make a byte of it by `map`, which an array has and a slice
// has not; a borrowed `gone` would give the row a lifetime, and is cut in one place only.
#[derive(Clone, Copy)]
pub struct Row {
    pub number: usize,
    pub letter: Option<u8>,
    pub asked: Asked,
    pub zones: usize,
    pub count: usize,
    pub given: [u16; 10],
    pub gone: [u16; 10],
    pub wanted: Outcome,
}

impl Row {
    // The row of a number, out of its four lists.
    pub fn new(number: usize, lists: [[u16; 10]; 4]) -> Row
        ensures number { result.number ≡ number }
        ensures kept { IsTrue result.wanted.kept }
    {
        let [head, given, made, gone] = lists;
        let asked = Asked::from(head[1]);
        Row {
            number,
            letter: u8::try_from(head[0]).ok().filter(|byte| *byte != b'-'),
            asked,
            zones: usize::from(head[2]),
            count: usize::from(head[3]).min(10),
            given,
            gone,
            wanted: Outcome {
                came: Came::from(asked),
                told: array::from_fn(|i| head[5 + i]),
                count: usize::from(head[4]),
                made,
                kept: true,
            },
        }
    }
}

// A row's letter, or its number where it has none.
impl fmt::Display for Row {
    fn fmt<W: fmt::Write>(&self, f: &mut fmt::Formatter<W>) -> fmt::Result {
        match self.letter {
            Some(letter) => write!(f, "{}", char::from(letter)),
            None => write!(f, "{}", self.number),
        }
    }
}
