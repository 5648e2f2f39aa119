// The lines of links, put on a page: from, to and why of each.
#![tactic(auto)]

ghost use Rattle.std.specs.Prelude.{◌≡◌, length};
ghost use Rattle.buffer.specs.Put.{HasRoom, Appended};
ghost use Rattle.lines.specs.Lines.{why_text, line, lines_of};

use buffer::Page;
use rules::Why;

// The links of a plan as three lists of numbers: where each starts, where it ends, and why it is there.
#[derive(Clone, Copy)]
// Kept (6): C lends PLAN three lists of links, and they are printed as they stand there.
pub struct LinkLists<'a> {
    pub from: &'a [u16],
    pub to: &'a [u16],
    pub why: &'a [u16],
    pub ghost same_len: { (length to.now ≡ length from.now) × (length why.now ≡ length from.now) },
}

// Puts the word of a why.
#[tactic(auto, unfolding(rules::specs::Text::word))]
fn put_why(page: &mut Page<'_>, why: Why)
    requires { HasRoom page.old (why_text why) }
    ensures { Appended page.old (why_text why) page.new }
{
    match why {
        Why::Ring => page.put_bytes(b" ring\n"),
        Why::Chain => page.put_bytes(b" chain\n"),
        Why::Back => page.put_bytes(b" back\n"),
    }
}

// Puts the line of a link: from, to, why.
#[tactic(auto, unfolding(crate::specs::Lines::line, rules::specs::Text::word))]
fn put_link(page: &mut Page<'_>, from: usize, to: usize, why: Why)
    requires { HasRoom page.old (line from to why) }
    ensures { Appended page.old (line from to why) page.new }
{
    page.put_number(from);
    page.put_labelled(b" ", to);
    put_why(page, why)
}

// Puts the lines of links.
pub fn put_lines(page: &mut Page<'_>, links: LinkLists<'_>)
    requires { HasRoom page.old
        (lines_of links.from.now links.to.now links.why.now (length links.from.now)) }
    ensures { Appended page.old
        (lines_of links.entry.from.now links.entry.to.now links.entry.why.now (length links.entry.from.now))
        page.new }
{
    for i in 0..links.from.len() {
        let from = usize::from(links.from[i]);
        let to = usize::from(links.to[i]);
        put_link(page, from, to, Why::from(links.why[i]));
    }
}
