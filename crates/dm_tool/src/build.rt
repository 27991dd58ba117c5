//! The command build: messages as show prints them, turned back into octets.
ghost use Rattle.std.specs.Prelude.{◌≡◌, IfOk, IfErr};
ghost use Rattle.dm_tool.specs.Build.{BuildsText};

use crate::built_messages::Building;
use crate::fault::ToolFault;
use dm_text::laws::{joined_lines_have_joined_content, lines_exceed_octets_by_one_at_most};
use dm_text::{Lines, push_syntax_fault_line};
use std::alloc::Global;

/// The text for an input, and whether all of it is good: a line out of place ends the text, and is told at its end.
pub fn build_text(alloc: Global, input: &[u8]) -> Result<(Vec<u8>, bool), ToolFault>
    ensures built { IfOk result (λ built. BuildsText input.now built.0.items built.1) }
    ensures fault { IfErr result (λ e. e ≡ ToolFault.Memory) }
{
    joined_lines_have_joined_content();
    lines_exceed_octets_by_one_at_most();
    let mut building = Building::new(alloc);
    let mut before: u64 = 0;
    for line in Lines::new(input) {
        if !building.take_line(alloc, line)? {
            let mut text = building.into_text_before_last_message();
            push_syntax_fault_line(&mut text, before + 1)?;
            return Ok((text, false));
        }
        before += 1;
    }
    building.into_whole_text(alloc)
}
