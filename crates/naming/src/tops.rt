// The names of all components, in the queue's order, in lent work memory: a zone is a name where it is its own name.
//     at     where the list of names, the names and the queue stand, of `zones` elements each
ghost use Rattle.naming.specs.Tops.{TopsListable, TopsListed};

use workmap::NamesAt;

// Lists the names of all components, where `at` says. Answers how many there are.
pub fn list_names(work: &mut [u16], zones: usize, at: NamesAt) -> usize
    requires { TopsListable work.old zones at }
    ensures { TopsListed work.old work.new zones at zones result }
{
    let mut m = 0;
    for i in 0..zones {
        let q = work[at.queue + i];
        if work[at.names + usize::from(q)] == q {
            work[at.tops + m] = q;
            m += 1;
        }
    }
    m
}
