// What the program prints.
ghost use Rattle.std.specs.Prelude.{◌≢◌, ◌↔◌, IsTrue, IfOk};

use super::outcome::Outcome;
use super::row::Row;
use std::io;

// Prints a line, and answers whether the outcome differs from the row.
pub fn line(rt: &impl Print, row: &Row, call: &str, o: Outcome) -> io::Result<bool>
    ensures { IfOk result (λ differs. IsTrue differs ↔ (o ≢ row.now.wanted)) }
{
    let differs = o != row.wanted;
    let verdict = if differs {
        "differs"
    } else {
        "as the table has it"
    };
    println!(rt; "{row} {call}{o} {verdict}")?;
    Ok(differs)
}
