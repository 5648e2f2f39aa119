// The parts of linkplan's text that are words and numbers alone, put on a page: the lines above the links, and the line
// of a refusal.
#![tactic(auto)]

ghost use Rattle.rules.specs.Text.{refusal_line};
ghost use Rattle.buffer.specs.Put.{HasSpace, HasRoom, Appended};
ghost use Rattle.phrases.specs.Phrases.{head_text};

use buffer::Page;
use rules::{FileCounts, PlanCounts, Trouble};

// Puts the lines above the links.
#[tactic(auto, unfolding(crate::specs::Phrases::head_text, rules::specs::Text::word))]
pub fn put_head(page: &mut Page<'_>, file: FileCounts, plan: PlanCounts)
    requires { HasRoom page.old (head_text file plan) }
    ensures { Appended page.old (head_text file plan) page.new }
{
    page.put_two(b"zones ", file.zones, b" arcs ", file.arcs);
    page.put_two(b"\nsources ", plan.sources, b" sinks ", plan.sinks);
    page.put_two(b" alone ", plan.alone, b" pairs ", plan.pairs);
    page.put_labelled(b"\nneed ", plan.need);
    page.put_bytes(b"\n")
}

// Puts the line of a refusal.
// Kept (4): by its contract `write!` may fail at any text, and what `respond` prints is promised whole.
#[tactic(auto, using(buffer::proofs::Lengths::two_length))]
pub fn put_refusal(page: &mut Page<'_>, t: Trouble)
    requires { HasSpace page.old 60 }
    ensures { Appended page.old (refusal_line t) page.new }
{
    page.put_two(b"refused ", usize::from(t.kind), b" at ", t.place);
    page.put_bytes(b"\n")
}

#[cfg(test)]
mod tests {
    use super::*;
    use rules::TroubleKind;
    use std::test::Fail;

    // A refusal says of itself what linkplan's line says, but for the line's end.
    #[test]
    fn refusal_told(rt: HostRuntime) -> Result<(), Fail> {
        let t = Trouble {
            kind: TroubleKind::Head,
            place: 3,
        };
        let said = format!(in rt.alloc(); "{t}\n")?;
        let mut line = [0u8; 60];
        let mut page = Page::new(&mut line);
        put_refusal(&mut page, t);
        let length = page.written();
        assert_eq!(rt; said.as_str(), "refused 11 at 3\n");
        assert_eq!(rt; said.len(), length);
        assert_eq!(rt; said.as_bytes(), &line[..said.len().min(60)]);
        Ok(())
    }
}
