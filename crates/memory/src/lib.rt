// Lent work memory: stretches that are cleared, filled, and copied to lower places or out to a lent list.
#![tactic(auto)]

ghost use Rattle.std.specs.Prelude.{◌≡◌, ◌+◌, ◌≤◌, length, replicate};
ghost use Rattle.std.proofs.lemmas.List.Edits.{sets};
ghost use Rattle.rules.specs.Lists.{over, cleared};
ghost use Rattle.memory.specs.Regions.{part};
ghost use Rattle.memory.specs.Storing.{Copyable, Copied};

// Stores a number n times, from the place `at` on.
pub fn fill(work: &mut [u16], at: usize, n: usize, x: u16)
    requires { at + n ≤ length work.old }
    ensures { work.new ≡ sets work.old at (replicate n x) }
{
    work[at..at + n].fill(x);
}

// Zeros in the first `asked` elements; past them the work memory is as it came.
pub fn clear(work: &mut [u16], asked: usize)
    requires { asked ≤ length work.old }
    ensures { work.new ≡ cleared asked work.old }
{
    work[..asked].fill(0);
}

// Copies n elements of the work memory, from the place `from` on, to lower places, from `to` on.
pub fn copy(work: &mut [u16], from: usize, n: usize, to: usize)
    requires { Copyable work.old from n to }
    ensures { Copied work.old work.new from n to }
{
    work.copy_within(from..from + n, to);
}

// Copies n elements of the work memory, from the place `at` on, to the front of a lent list.
// Kept (3): the slice's own copy makes the archive for C ask for `memmove`, which it did not.
pub fn copy_out(work: &[u16], at: usize, n: usize, out: &mut [u16])
    requires { (at + n ≤ length work.now) × (n ≤ length out.old) }
    ensures { out.new ≡ over (part work.now at n) out.old }
{
    for i in 0..n {
        out[i] = work[at + i];
    }
}
