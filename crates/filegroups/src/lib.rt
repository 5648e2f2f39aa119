// The bytes of a number of a network file, in groups of seven bits, lowest group first.
//   number_length    how many bytes a number is written as
//   write_number     the bytes of a number, put into a lent list
#![tactic(auto)]

ghost use Rattle.std.specs.Prelude.{◌≡◌, ◌+◌, ◌≤◌, ◌<◌, length};
ghost use Rattle.std.proofs.lemmas.List.Edits.{sets};
ghost use Rattle.rules.specs.Number.{number_bytes};

// How many bytes a number is written as.
#[tactic(auto, using(crate::proofs::GroupCases::length_cases))]
pub fn number_length(n: usize) -> usize
    ensures { result ≡ length (number_bytes n) }
{
    if n < 128 {
        return 1;
    }
    if n < 16384 {
        return 2;
    }
    3
}

// Puts a number in at a place, and answers with the place after it.
#[tactic(auto, using(crate::proofs::GroupCases::write_cases))]
pub fn write_number(file: &mut [u8], at: usize, n: usize) -> usize
    requires { (n < 2097152) × (at + length (number_bytes n) ≤ length file.old) }
    ensures { (result ≡ at + length (number_bytes n))
        × (file.new ≡ sets file.old at (number_bytes n)) }
{
    if n < 128 {
        file[at] = n as u8;
        return at + 1;
    }
    file[at] = (128 + n % 128) as u8;
    if n < 16384 {
        file[at + 1] = (n / 128) as u8;
        return at + 2;
    }
    file[at + 1] = (128 + n / 128 % 128) as u8;
    file[at + 2] = (n / 16384) as u8;
    at + 3
}
