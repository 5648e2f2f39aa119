// What came out of a call, in the terms of the table's rows.
use rules::{PlanCounts, Trouble};
use std::{array, fmt};

// What came: a plan, a skeleton, a network that was read, which no row wants, a refusal, or a question that was
// answered or refused.
#[derive(Clone, Copy, PartialEq)]
pub enum Came {
    Plan,
    Skeleton,
    Network,
    Refusal,
    Question,
}

// An outcome: what came; the answer's numbers; how many links or bytes were put, or zones asked about; those, each as
// one number, and zeros after them; and whether all other lent memory is as it has to be.
// Kept (1): a row of the table is numbers, and an outcome is compared with it by ==, so kinds are numbers here as
// there.
// Kept (6): a count may be wrong, and is compared with the row's.
#[derive(Clone, Copy, PartialEq)]
pub struct Outcome {
    pub came: Came,
    pub told: [u16; 5],
    pub count: usize,
    pub made: [u16; 10],
    pub kept: bool,
}

// A number in 16 bits: the largest of these where it has more.
pub fn narrow(n: usize) -> u16 {
    u16::try_from(n).unwrap_or(u16::MAX)
}

// The numbers of a refusal: its number and its place.
fn told(t: Trouble) -> [u16; 5] {
    [narrow(usize::from(t.kind)), narrow(t.place), 0, 0, 0]
}

// A refusal.
pub fn refused(t: Trouble, kept: bool) -> Outcome {
    Outcome {
        came: Came::Refusal,
        told: told(t),
        count: 0,
        made: [0; 10],
        kept,
    }
}

// A link, which is from, to and why, as one number, 0x150 for the chain link from 5 to 0; 65535 where it has none.
fn code([from, to, why]: [u16; 3]) -> u16 {
    if from.max(to).max(why) < 16 {
        why * 256 + from * 16 + to
    } else {
        u16::MAX
    }
}

// A plan: its answer, the lent lists or records as links, what a link was before, and whether the work memory is kept.
pub fn planned(
    answer: Result<PlanCounts, Trouble>,
    links: [[u16; 3]; 10],
    unset: [u16; 3],
    kept: bool,
) -> Outcome {
    let put = answer.map_or(0, |counts| counts.need);
    let kept = kept && links.iter().skip(put).all(|link| *link == unset);
    match answer {
        Ok(c) => Outcome {
            came: Came::Plan,
            told: [c.sources, c.sinks, c.alone, c.pairs, c.need].map(narrow),
            count: put,
            made: array::from_fn(|i| if i < put { code(links[i]) } else { 0 }),
            kept,
        },
        Err(t) => refused(t, kept),
    }
}

// An answered or refused question about two zones, and whether the work memory is kept: the number, the place, and 1
// for yes.
pub fn questioned(answer: Result<bool, Trouble>, from: u16, to: u16, kept: bool) -> Outcome {
    Outcome {
        came: Came::Question,
        told: match answer {
            Ok(yes) => [0, 0, u16::from(yes), 0, 0],
            Err(t) => told(t),
        },
        count: 2,
        made: [from, to, 0, 0, 0, 0, 0, 0, 0, 0],
        kept,
    }
}

// Numbers, each after a space.
fn list<W: fmt::Write>(f: &mut fmt::Formatter<W>, xs: &[u16]) -> fmt::Result {
    for x in xs {
        write!(f, " {x}")?;
    }
    Ok(())
}

// A link that is one number.
fn link<W: fmt::Write>(f: &mut fmt::Formatter<W>, x: u16) -> fmt::Result {
    // Kept (1): a link that differs from the table may have any number here, and a `Why` has three.
    let why = match x / 256 {
        0 => "ring",
        1 => "chain",
        2 => "back",
        _ => "unknown",
    };
    write!(f, " {}-{} {why},", x / 16 % 16, x % 16)
}

// The links.
fn links<W: fmt::Write>(f: &mut fmt::Formatter<W>, links: &[u16]) -> fmt::Result {
    if links.is_empty() {
        return write!(f, " no links,");
    }
    for x in links {
        link(f, *x)?;
    }
    Ok(())
}

// A plan's s, t, q, p and the number of links, and the links; a skeleton's arc count, and the bytes of its file; a
// refusal's number and place; a question's two zones, and the answer or the refusal.
impl fmt::Display for Outcome {
    fn fmt<W: fmt::Write>(&self, f: &mut fmt::Formatter<W>) -> fmt::Result {
        let put = &self.made[..self.count.min(10)];
        let [number, place, yes, ..] = self.told;
        match self.came {
            Came::Plan => {
                list(f, &self.told)?;
                write!(f, ":")?;
                links(f, put)
            }
            Came::Skeleton => {
                write!(f, " {number}:")?;
                list(f, put)?;
                write!(f, ",")
            }
            Came::Network => write!(f, " accepted,"),
            Came::Refusal => write!(f, " refused {number} at {place},"),
            Came::Question => {
                list(f, put)?;
                match (number, yes) {
                    (0, 1) => write!(f, ": yes,"),
                    (0, _) => write!(f, ": no,"),
                    _ => write!(f, ": refused {number} at {place},"),
                }
            }
        }
    }
}
