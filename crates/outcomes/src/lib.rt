// What came out of a call, in the terms of the table of proved cases: compared with a row, and printed.
#![tactic(auto)]

pub mod lent;
pub mod lines;
pub mod outcome;
pub mod row;
