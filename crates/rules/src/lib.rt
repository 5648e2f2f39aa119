// What the calls take and answer: a network as lists, the kinds of refusal, a refusal with its place, the values of an
// answer that is no refusal, and a link as a record. Each call answers with a `Result`, whose error is the refusal.
// No algorithm is here. specs/ has document 01's rules as definitions that compute, and specs/Answers.antt sets out
// the document's number, place and values for every case of every answer.
#![tactic(auto)]

ghost use Rattle.std.specs.Prelude.{◌≡◌};
ghost use Rattle.rules.specs.Answers.{trouble_number};
ghost use Rattle.rules.specs.Plan.{why_numbered, record_why_number};

use std::error::Error;
use std::fmt;

// The kinds of refusal of document 01's table, 1 to 10, and of document 02: 11 of No. 1, 12 to 14 of No. 2. 0 is DONE,
// and is no refusal.
#[derive(Clone, Copy, Debug, PartialEq, Eq)]
pub enum TroubleKind {
    Short = 1,
    Long = 2,
    Loose = 3,
    Zones = 4,
    Arcs = 5,
    Range = 6,
    SelfArc = 7,
    Extra = 8,
    Room = 9,
    Pair = 10,
    Head = 11,
    ZoneList = 12,
    None = 13,
    Gone = 14,
}

// The number of a kind of refusal.
impl From<TroubleKind> for usize {
    ghost from_gives = { λ kind n. n ≡ trouble_number kind };

    fn from(kind: TroubleKind) -> usize {
        kind as usize
    }
}

// A refusal: its kind and its place.
#[derive(Clone, Copy, Debug, PartialEq, Eq)]
pub struct Trouble {
    pub kind: TroubleKind,
    pub place: usize,
}

// As linkplan prints it.
impl fmt::Display for Trouble {
    fn fmt<W: fmt::Write>(&self, f: &mut fmt::Formatter<W>) -> fmt::Result {
        write!(f, "refused {} at {}", usize::from(self.kind), self.place)
    }
}

impl Error for Trouble {}

// A network as it is handed to a call: the zone count, the tail and the head of each arc, and the withdrawn zones.
#[derive(Clone, Copy)]
pub struct NetworkLists<'a> {
    pub zones: usize,
    pub tails: &'a [u16],
    pub heads: &'a [u16],
    pub gone: &'a [u16],
}

// What reading a network file answers: the zone count and the arc count.
#[derive(Clone, Copy, Debug, PartialEq, Eq)]
pub struct FileCounts {
    pub zones: usize,
    pub arcs: usize,
}

// What the plan answers: s, t and q of the network as given, p, and the number of links.
#[derive(Clone, Copy, Debug, PartialEq, Eq)]
pub struct PlanCounts {
    pub sources: usize,
    pub sinks: usize,
    pub alone: usize,
    pub pairs: usize,
    pub need: usize,
}

// Why a link is there.
#[derive(Clone, Copy, Debug, PartialEq, Eq)]
pub enum Why {
    Ring = 0,
    Chain = 1,
    Back = 2,
}

// The why of a number.
impl From<u16> for Why {
    ghost from_gives = { λ number why. why ≡ why_numbered number };

    fn from(number: u16) -> Why {
        match number {
            0 => Why::Ring,
            1 => Why::Chain,
            _ => Why::Back,
        }
    }
}

// The number of a why.
impl From<Why> for u16 {
    ghost from_gives = { λ why number. number ≡ record_why_number why };

    fn from(why: Why) -> u16 {
        why as u16
    }
}

// A link as a record: from a zone, to a zone, and why.
#[derive(Clone, Copy, Debug, PartialEq, Eq)]
pub struct Link {
    pub from: u16,
    pub to: u16,
    pub why: Why,
}
