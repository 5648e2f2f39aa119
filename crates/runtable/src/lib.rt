// A table of runs is a text. A row of it is a label, a colon, numbers with a space before each, and a semicolon.
#![tactic(auto)]

ghost use Rattle.std.specs.Prelude.{◌≤◌, ◌<◌, ◌≡◌, length, IfOk, OnErr};

use std::{array, io, str};

// How long the list of a row's numbers is: no row has more than 24.
const LENGTH: usize = 25;

// The number that a word of a row is, and 0 where it is none.
fn number(word: &[u8]) -> u16 {
    str::from_utf8(word)
        .ok()
        .and_then(|text| text.parse().ok())
        .unwrap_or(0)
}

// Where a byte stands first from `from` on, or the text's end.
// Kept (5): the edit `same_row_again`, which must stay refused, tells where the next row starts, so text and place go
// apart.
fn find(text: &[u8], from: usize, byte: u8) -> usize
    requires { from ≤ length text.now }
    ensures { (from ≤ result) × (result ≤ length text.now) }
{
    let rest = &text[from..];
    from + rest.iter().position(|b| *b == byte).unwrap_or(rest.len())
}

// Prints the label that starts at `from`, and answers where it ends.
fn label(rt: &impl Print, text: &[u8], from: usize) -> io::Result<usize>
    requires { from ≤ length text.now }
    ensures { IfOk result (λ end. (from ≤ end) × (end ≤ length text.now)) }
{
    let end = find(text, from, b':');
    rt.write_all(&text[from..end])?;
    Ok(end)
}

// Puts the numbers that start at `from` into a list of zeros, from index 1 on, and answers where the next row starts.
fn numbers(text: &[u8], from: usize, given: &mut [u16]) -> usize
    requires { from ≤ length text.now }
    ensures { from < result }
{
    let end = find(text, from, b';');
    let words = text[from..end].split(|b| *b == b' ');
    for (place, word) in given.iter_mut().zip(words) {
        *place = number(word);
    }
    end + 1
}

// Prints the label of the row that starts at `from`, puts its numbers into a list of zeros, from index 1 on, and
// answers where the next row starts. Where the label can't be printed, the list is as it came.
pub fn row(rt: &impl Print, text: &[u8], from: usize, given: &mut [u16]) -> io::Result<usize>
    requires { from < length text.now }
    ensures next { IfOk result (λ next. from < next) }
    ensures err { OnErr result (given.new ≡ given.old) }
{
    Ok(numbers(text, label(rt, text, from)?, given))
}

// Runs all rows of a text: prints each row's label, and hands its numbers to `run`, from index 1 on.
pub fn rows<F: Fn(&[u16]) -> io::Result<()>>(rt: &impl Print, text: &[u8], run: F) -> io::Result<()>
    requires { F.IsAlwaysCallable run }
{
    let mut from = 0;
    // Kept (3): the edit `same_row_again`, which must stay refused, is of a row that says where the next one starts.
    while from < text.len() {
        let mut given = [0; LENGTH];
        from = row(rt, text, from, &mut given)?;
        run(&given)?;
    }
    Ok(())
}

// The number of index k, and 0 past the end.
pub fn at(given: &[u16], k: usize) -> usize {
    given.get(k).map_or(0, |x| usize::from(*x))
}

// The n numbers from index `from` on, or all where there are fewer.
pub fn part(given: &[u16], from: usize, n: usize) -> &[u16] {
    match given.get(from..) {
        Some(rest) if n <= rest.len() => &rest[..n],
        _ => given,
    }
}

// The first n elements of a list to be lent, or all where it has fewer.
pub fn front(list: &mut [u16], n: usize) -> &mut [u16] {
    let n = n.min(list.len());
    &mut list[..n]
}

// Twelve numbers as bytes, with zeros past the end.
pub fn bytes(given: &[u16]) -> [u8; 12] {
    array::from_fn(|i| (at(given, i) % 256) as u8)
}
