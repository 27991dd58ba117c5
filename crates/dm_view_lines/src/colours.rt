//! Lines with colours for a terminal.
ghost use Rattle.std.specs.Prelude.{◌≡◌, ◌++◌, true, IfOk, OnOk};
ghost use Rattle.dm_view_lines.specs.Colours.{further_in, begun, line_coloured, in_colours, styled};

use crate::message_reports::Task;
use dm_text::Lines;
use std::alloc::{AllocError, Global};

/// The text with the first line of each message bold, and, of a check, the lines of faults red. JSON is left as it is.
pub fn coloured_text(alloc: Global, task: Task, text: &[u8]) -> Result<Vec<u8>, AllocError>
    ensures { IfOk result (λ coloured. coloured.items ≡ styled true task text.now) }
{
    match task {
        Task::Show | Task::Check => coloured_lines(alloc, task, text),
        Task::ShowJson | Task::CheckJson => Vec::from_slice(alloc, text),
    }
}

/// The text with a colour at each line.
fn coloured_lines(alloc: Global, task: Task, text: &[u8]) -> Result<Vec<u8>, AllocError>
    ensures { IfOk result (λ coloured. coloured.items ≡ in_colours task text.now) }
{
    let mut coloured = Vec::new(alloc);
    for line in Lines::new(text) {
        push_coloured_line(&mut coloured, task, line)?;
    }
    Ok(coloured)
}

/// Appends a line with its colour.
fn push_coloured_line(coloured: &mut Vec<u8>, task: Task, line: &[u8]) -> Result<(), AllocError>
    ensures { OnOk result (coloured.new.items ≡ coloured.old.items ++ line_coloured task line.now) }
{
    coloured.extend_from_slice(line_colour(task, line))?;
    coloured.extend_from_slice(line)?;
    coloured.extend_from_slice(b"\x1b[0m\n")?;
    Ok(())
}

/// The escape sequence that makes a line bold or red; nothing for an empty line.
fn line_colour(task: Task, line: &[u8]) -> &'static [u8]
    ensures { result.now ≡ begun task line.now }
{
    match line {
        [] => b"",
        [first, ..] => {
            if *first == b' ' {
                indented_line_colour(task)
            } else {
                b"\x1b[1m"
            }
        }
    }
}

/// The escape sequence for an indented line: red under `Task::Check`, where it is a fault; else nothing.
fn indented_line_colour(task: Task) -> &'static [u8]
    ensures { result.now ≡ further_in task }
{
    match task {
        Task::Show | Task::ShowJson | Task::CheckJson => b"",
        Task::Check => b"\x1b[31m",
    }
}
