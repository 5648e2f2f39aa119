// A network file past its two counts.
//   body    its arcs, and nothing after them: tested to the end, and only then stored
#![tactic(auto)]

ghost use Rattle.std.specs.Prelude.{◌≤◌, length};
ghost use Rattle.rules.specs.File.{body_at};
ghost use Rattle.filebody.specs.Answered.{ReadingAnswered};

use filepasses::FileArcs;
use rules::{FileCounts, Trouble, TroubleKind};

// The arcs of a file, and nothing after them: tested to the end, and only then stored.
#[tactic(auto, using(crate::proofs::Bodies::refusals))]
pub fn body(
    file: &[u8],
    due: FileArcs,
    tails: &mut [u16],
    heads: &mut [u16],
) -> Result<FileCounts, Trouble>
    requires { (due.arcs ≤ length tails.old) × (due.arcs ≤ length heads.old) }
    ensures { ReadingAnswered (body_at file.now due.zones due.arcs due.from.at)
        tails.old heads.old result tails.new heads.new }
{
    let FileArcs { zones, arcs, .. } = due;
    let end = due.scan(file)?;
    let size = file.len();
    if end.at < size {
        return Err(Trouble {
            kind: TroubleKind::Extra,
            place: end.at,
        });
    }
    due.store(file, tails, heads);
    Ok(FileCounts { zones, arcs })
}
