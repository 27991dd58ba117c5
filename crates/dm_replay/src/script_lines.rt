//! The lines of a script.
ghost use Rattle.std.specs.Prelude.{◌≡◌, ◌⊎◌, [], ℕ, IfOk, IfErr, IfSome, IfNone};
ghost use Rattle.dm_text.specs.Lines.{content_lines};
ghost use Rattle.dm_replay.specs.declared.fault.ScriptFault.TheVariants.{Syntax, NoMemory};
ghost use Rattle.dm_replay.specs.Scripts.{TellsScript, IsFirstBad};
ghost use Rattle.dm_replay.specs.LinesSoFar.{line_host};

use crate::fault::ScriptFault;
use crate::host_line::HostLine;
use crate::lines_so_far::{LinesSoFar, NamedPeers};
use dm_text::Lines;
use dm_text::laws::{joined_lines_have_joined_content, lines_exceed_octets_by_one_at_most};
use dm_world::Happening;
use std::alloc::Global;

/// What the lines of a script tell.
#[derive(Drop)]
pub struct ScriptLines<'a> {
    /// The peer of side A.
    pub left: HostLine<'a>,
    /// The peer of side B.
    pub right: HostLine<'a>,
    /// What happens, in order.
    pub list: Vec<Happening>,
}

/// What the lines of a text tell: two peers and what happens to them. None where every line is empty or a comment.
///
/// The first line that may not stand where it does is answered as `Syntax` with its number, from 1. A text that ends
/// behind the line of its first peer has that fault at its last line.
pub fn read_script_lines_if_any(
    alloc: Global,
    text: &[u8],
) -> Result<Option<ScriptLines<'_>>, ScriptFault>
    ensures none { IfOk result (λ read. IfNone read (content_lines text.now ≡ [])) }
    ensures told { IfOk result (λ read. IfSome read (λ s.
        TellsScript (line_host s.left) (line_host s.right) s.list.items text.now)) }
    ensures fault { IfErr result (λ f. (f ≡ NoMemory) ⊎ ((n : ℕ) × (f ≡ Syntax n) × IsFirstBad text.now n)) }
{
    joined_lines_have_joined_content();
    lines_exceed_octets_by_one_at_most();
    let mut so_far = LinesSoFar::new(alloc);
    let mut count = 0;
    for line in Lines::new(text) {
        count += 1;
        if !so_far.take_line(alloc, line)? {
            return Err(ScriptFault::Syntax(count));
        }
    }
    match so_far.hosts {
        NamedPeers::NotYet => Ok(None),
        NamedPeers::One(_) => Err(ScriptFault::Syntax(count)),
        NamedPeers::Both(left, right) => Ok(Some(ScriptLines {
            left,
            right,
            list: so_far.list,
        })),
    }
}
