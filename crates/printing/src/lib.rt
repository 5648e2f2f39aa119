// What the programs that run the calls print with: answers and lists on standard output. A write that fails ends the
// printing, and its error is handed on.
#![tactic(auto)]

use rules::Trouble;
use std::fmt::Display;
use std::io;

// What a call answers: the number 0, the place 0 and its value, or a refusal's number, its place and no value.
// Kept (1): the expected output has a number first, which is 0 where nothing is refused.
pub fn answer<T: Display + Drop>(rt: &impl Print, answer: Result<T, Trouble>) -> io::Result<()> {
    match answer {
        Ok(value) => print!(rt; " 0 0 {value}"),
        Err(t) => print!(rt; " {} {} 0", usize::from(t.kind), t.place),
    }
}

// A bar, and the elements of a list.
pub fn list<T: Display>(rt: &impl Print, xs: &[T]) -> io::Result<()> {
    print!(rt; " |")?;
    xs.iter().try_for_each(|x| print!(rt; " {x}"))
}

// How many elements of a list are not `x`.
// Kept (3): a filter that is counted takes 2.7 times the instructions, and nearly twice the time.
pub fn others(list: &[u16], x: u16) -> usize {
    let mut n = 0;
    for y in list {
        n += usize::from(*y != x);
    }
    n
}
