// linkplan's text, put on a page: all lines of a plan, or the line of a refusal.
#![tactic(auto)]

ghost use Rattle.std.specs.Prelude.{length};
ghost use Rattle.buffer.specs.Put.{HasRoom, Appended};
ghost use Rattle.lines.specs.Lines.{lines_of};
ghost use Rattle.text.specs.Texts.{plan_text, Putable, answer_lines};

use buffer::Page;
use lines::{LinkLists, put_lines};
use phrases::{put_head, put_refusal};
use rules::{FileCounts, PlanCounts, Trouble};

// Puts all lines of a plan, the line "done" last.
#[tactic(auto, unfolding(crate::specs::Texts::plan_text, rules::specs::Text::word))]
fn say_plan(page: &mut Page<'_>, file: FileCounts, plan: PlanCounts, links: LinkLists<'_>)
    requires { HasRoom page.old
        (plan_text file plan
        (lines_of links.from.now links.to.now links.why.now (length links.from.now))) }
    ensures { Appended page.old
        (plan_text file plan
        (lines_of links.entry.from.now links.entry.to.now links.entry.why.now (length links.entry.from.now)))
        page.new }
{
    put_head(page, file, plan);
    put_lines(page, links);
    page.put_bytes(b"done\n")
}

// Puts what is printed for an answer of PLAN over the lists that it left.
// Kept (5): the three lists are as long as they were lent, and only an answer with links says where to cut them.
pub fn put_answer(
    page: &mut Page<'_>,
    file: FileCounts,
    answer: Result<PlanCounts, Trouble>,
    from: &[u16],
    to: &[u16],
    why: &[u16],
)
    requires { Putable answer from.now to.now why.now page.old }
    ensures { Appended page.old
        (answer_lines file answer from.now to.now why.now)
        page.new }
{
    match answer {
        Err(t) => put_refusal(page, t),
        Ok(plan) => {
            let need = plan.need;
            let links = LinkLists {
                from: &from[..need],
                to: &to[..need],
                why: &why[..need],
            };
            say_plan(page, file, plan, links)
        }
    }
}
