// The C interface: each call of linkplan under a C name, with its answer in eight numbers. include/linkplan.h says the
// same to a C programmer.
// Kept (5): C hands a network over as a zone count and lists, and each function makes one `NetworkLists` of them.
#![tactic(auto)]

ghost use Rattle.rules.specs.Promises.{ReadPromise, WritePromise, StrongPromise, ReachPromise, SkeletonPromise};
ghost use Rattle.rules.specs.Promises.{PlanPromise, CPromise};

use eight::put_answer;
use netfile::{read, write};
use network::{reach, strong};
use plan::plan;
use rules::NetworkLists;
use skeleton::skeleton;

// READ: reads a network file.
#[unsafe(no_mangle)]
pub extern "C" fn linkplan_read(
    file: &[u8],
    tails: &mut [u16],
    heads: &mut [u16],
    answer: &mut [u64; 8],
)
    ensures { CPromise (ReadPromise file.now tails.old heads.old
        tails.new heads.new)
        answer.new }
{
    put_answer(answer, read(file, tails, heads));
}

// WRITE: writes a network file.
#[unsafe(no_mangle)]
pub extern "C" fn linkplan_write(
    zones: usize,
    tails: &[u16],
    heads: &[u16],
    gone: &[u16],
    file: &mut [u8],
    answer: &mut [u64; 8],
)
    ensures { CPromise (WritePromise zones tails.now heads.now gone.now
        file.old file.new)
        answer.new }
{
    let net = NetworkLists {
        zones,
        tails,
        heads,
        gone,
    };
    put_answer(answer, write(net, file));
}

// STRONG: whether every zone reaches every zone.
#[unsafe(no_mangle)]
pub extern "C" fn linkplan_strong(
    zones: usize,
    tails: &[u16],
    heads: &[u16],
    gone: &[u16],
    work: &mut [u16],
    answer: &mut [u64; 8],
)
    ensures { CPromise (StrongPromise zones tails.now heads.now gone.now
        work.old work.new)
        answer.new }
{
    let net = NetworkLists {
        zones,
        tails,
        heads,
        gone,
    };
    put_answer(answer, strong(net, work));
}

// REACH: whether one zone reaches another.
#[unsafe(no_mangle)]
pub extern "C" fn linkplan_reach(
    zones: usize,
    tails: &[u16],
    heads: &[u16],
    gone: &[u16],
    from: usize,
    to: usize,
    work: &mut [u16],
    answer: &mut [u64; 8],
)
    ensures { CPromise (ReachPromise zones tails.now heads.now gone.now
        from to work.old work.new)
        answer.new }
{
    let net = NetworkLists {
        zones,
        tails,
        heads,
        gone,
    };
    put_answer(answer, reach(net, from, to, work));
}

// SKELETON: makes the skeleton.
#[unsafe(no_mangle)]
pub extern "C" fn linkplan_skeleton(
    zones: usize,
    tails: &[u16],
    heads: &[u16],
    gone: &[u16],
    out_tails: &mut [u16],
    out_heads: &mut [u16],
    work: &mut [u16],
    answer: &mut [u64; 8],
)
    ensures { CPromise (SkeletonPromise zones tails.now heads.now gone.now
        out_tails.old out_heads.old work.old
        out_tails.new out_heads.new work.new)
        answer.new }
{
    let net = NetworkLists {
        zones,
        tails,
        heads,
        gone,
    };
    put_answer(answer, skeleton(net, out_tails, out_heads, work));
}

// PLAN: makes the plan.
#[unsafe(no_mangle)]
pub extern "C" fn linkplan_plan(
    zones: usize,
    tails: &[u16],
    heads: &[u16],
    gone: &[u16],
    from: &mut [u16],
    to: &mut [u16],
    why: &mut [u16],
    work: &mut [u16],
    answer: &mut [u64; 8],
)
    ensures { CPromise (PlanPromise zones tails.now heads.now gone.now
        from.old to.old why.old work.old
        from.new to.new why.new work.new)
        answer.new }
{
    let net = NetworkLists {
        zones,
        tails,
        heads,
        gone,
    };
    put_answer(answer, plan(net, from, to, why, work));
}
