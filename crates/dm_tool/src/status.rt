//! What the program says when it ends.
ghost use Rattle.std.specs.Prelude.{◌≡◌};
ghost use Rattle.dm_tool.specs.Ending.{tool_ending};

use crate::fault::ToolFault;

/// The status with which the program ends, and the words for standard error, empty at 0 and 1.
///
/// The outcome is None where the words of the command line choose no command. A run tells
/// whether all of its input was good.
pub fn ending(outcome: Option<Result<bool, ToolFault>>) -> (u8, &'static str)
    ensures { (result.0, result.1.now) ≡ tool_ending outcome }
{
    match outcome {
        None => (2, "dmpeer: usage"),
        Some(Ok(true)) => (0, ""),
        Some(Ok(false)) => (1, ""),
        Some(Err(ToolFault::Read)) => (3, "dmpeer: read"),
        Some(Err(ToolFault::Write)) => (3, "dmpeer: write"),
        Some(Err(ToolFault::Memory)) => (3, "dmpeer: memory"),
    }
}
