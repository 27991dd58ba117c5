//! Messages in hexadecimal, one a line, and what is printed for each.
ghost use Rattle.std.specs.Prelude.{◌≡◌, ◌≢◌, ◌++◌, ◌∷◌, ◌⊎◌, [], false, ℕ, List, IfOk, IfErr};
ghost use Rattle.dm_tool.specs.HexLines.{PrintsMessage, PrintsFault, PrintsLine, PrintsAll};
ghost use Rattle.dm_wire.specs.declared.fault.WireFault.TheVariants as wire;
ghost use Rattle.dm_tool.specs.Check.{check_answer};
ghost use Rattle.dm_tool.specs.Show.{show_answer};
ghost use Rattle.dm_tool.specs.Text.{fault_text};
ghost use Rattle.dm_tool.specs.Tasks.{answer_of};

use crate::fault::ToolFault;
use crate::message_text::{push_message_fault_words, push_message_text};
use crate::verdict::push_verdict_line_of_judged;
use dm_dict::Dictionary;
use dm_text::{LineRoom, Lines, is_empty_or_comment, trim_spaces};
use dm_wire::{MessageRef, WireFault};
use std::alloc::Global;

/// What is printed for a message.
#[derive(Clone, Copy)]
pub enum Task<'a> {
    /// The message as text.
    Show,
    /// The verdict of the dictionary.
    Check(&'a Dictionary),
}

/// The text for an input, and whether all of it is good.
pub fn messages_text(
    alloc: Global,
    task: Task<'_>,
    input: &[u8],
) -> Result<(Vec<u8>, bool), ToolFault>
    ensures printed { IfOk result (λ printed. PrintsAll (answer_of task.entry) input.now printed.0.items printed.1) }
    ensures fault { IfErr result (λ e. e ≡ ToolFault.Memory) }
{
    let mut text = Vec::new(alloc);
    let mut room = LineRoom::new(alloc);
    let mut good = true;
    for line in Lines::new(input) {
        let line = trim_spaces(line);
        if !is_empty_or_comment(line) {
            let fine = push_text_for_hex_line(alloc, task, line, &mut room, &mut text)?;
            good = good && fine;
        }
    }
    Ok((text, good))
}

/// Appends the text for a line of hexadecimal digits. True where it is good. Empty lines and comments are the caller's
/// to leave out: here they are faults. The room is used again from line to line.
fn push_text_for_hex_line(
    alloc: Global,
    task: Task<'_>,
    line: &[u8],
    room: &mut LineRoom,
    text: &mut Vec<u8>,
) -> Result<bool, ToolFault>
    ensures printed { IfOk result (λ good. (more : List ℕ) × (text.new.items ≡ text.old.items ++ more)
        × PrintsLine (answer_of task.entry) line.now more good) }
    ensures fault { IfErr result (λ e. e ≡ ToolFault.Memory) }
{
    match room.read_spaced_hex(line)? {
        Some(octets) => push_text_for_octets(alloc, task, octets, text),
        None => {
            text.extend_from_slice(b"fault hex\n")?;
            Ok(false)
        }
    }
}

/// Appends the text for the octets of a line. True where they are good.
fn push_text_for_octets(
    alloc: Global,
    task: Task<'_>,
    octets: &[u8],
    text: &mut Vec<u8>,
) -> Result<bool, ToolFault>
    ensures printed { IfOk result (λ good. (more : List ℕ) × (text.new.items ≡ text.old.items ++ more)
        × (PrintsMessage (answer_of task.entry) octets.now more good ⊎ PrintsFault octets.now more good)) }
    ensures fault { IfErr result (λ e. e ≡ ToolFault.Memory) }
{
    match task {
        Task::Show => push_message_or_fault(octets, text),
        Task::Check(dictionary) => push_verdict_or_fault(alloc, dictionary, octets, text),
    }
}

/// Appends the text of the message that the octets spell, or of their fault. Of the message nothing is copied.
fn push_message_or_fault(octets: &[u8], text: &mut Vec<u8>) -> Result<bool, ToolFault>
    ensures printed { IfOk result (λ good. (more : List ℕ) × (text.new.items ≡ text.old.items ++ more)
        × (PrintsMessage show_answer octets.now more good ⊎ PrintsFault octets.now more good)) }
    ensures fault { IfErr result (λ e. e ≡ ToolFault.Memory) }
{
    match MessageRef::read(octets) {
        Ok(message) => {
            push_message_text(text, &message)?;
            Ok(true)
        }
        Err(fault) => push_fault_line(text, fault),
    }
}

/// Appends the verdict on the message that the octets spell, or their fault. Of the message nothing is copied.
fn push_verdict_or_fault(
    alloc: Global,
    dictionary: &Dictionary,
    octets: &[u8],
    text: &mut Vec<u8>,
) -> Result<bool, ToolFault>
    ensures printed { IfOk result (λ good. (more : List ℕ) × (text.new.items ≡ text.old.items ++ more)
        × (PrintsMessage (check_answer dictionary.now) octets.now more good ⊎ PrintsFault octets.now more good)) }
    ensures fault { IfErr result (λ e. e ≡ ToolFault.Memory) }
{
    match MessageRef::read(octets) {
        Ok(message) => {
            let judged = dictionary.judge(&message);
            push_verdict_line_of_judged(alloc, text, judged)
        }
        Err(fault) => push_fault_line(text, fault),
    }
}

/// Appends the line for a fault of octets, which aren't good.
fn push_fault_line(text: &mut Vec<u8>, fault: WireFault) -> Result<bool, ToolFault>
    ensures words { IfOk result (λ good. text.new.items ≡ text.old.items ++ fault_text fault ++ 10 ∷ []) }
    ensures known { IfOk result (λ good. fault ≢ wire.NoMemory) }
    ensures bad { IfOk result (λ good. good ≡ false) }
    ensures fault { IfErr result (λ e. e ≡ ToolFault.Memory) }
{
    push_message_fault_words(text, fault)?;
    text.push(b'\n')?;
    Ok(false)
}
