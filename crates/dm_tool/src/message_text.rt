//! Messages, and faults of octets that are none, as text.
ghost use Rattle.std.specs.Prelude.{◌≡◌, ◌≢◌, ◌++◌, List, OnOk, IfErr};
ghost use Rattle.std.specs.List.{flat_map};
ghost use Rattle.dm_wire.specs.declared.avp.Avp.{Avp};
ghost use Rattle.dm_wire.specs.Borrowed.{Lists, avp_of};
ghost use Rattle.dm_wire.specs.Spelling.{SpellsList};
ghost use Rattle.dm_tool.specs.Text.{shown_avp, message_text, fault_text};

use crate::fault::ToolFault;
use crate::header_and_avp_text::{push_avp, push_header};
use dm_text::push_decimal;
use dm_wire::laws::spelled_avps_are_members;
use dm_wire::{AvpRef, AvpsRef, MessageRef, WireFault};
use std::alloc::AllocError;

/// Appends the lines of a message where it lies to the text.
pub fn push_message_text(text: &mut Vec<u8>, message: &MessageRef<'_>) -> Result<(), AllocError>
    ensures { (l : List Avp) → SpellsList l message.now.rest.now → OnOk result (text.new.items
        ≡ text.old.items ++ message_text (record { header = message.now.header; avps = l })) }
{
    spelled_avps_are_members();
    push_header(text, message.header)?;
    text.push(b'\n')?;
    push_avp_lines(text, AvpsRef::Spelled(message.rest))?;
    Ok(())
}

/// Appends the lines of AVPs, one after the other.
fn push_avp_lines(text: &mut Vec<u8>, list: AvpsRef<'_>) -> Result<(), AllocError>
    ensures { (l : List Avp) → Lists list.entry l
        → OnOk result (text.new.items ≡ text.old.items ++ flat_map shown_avp l) }
{
    let mut left = list;
    while let Some((avp, rest)) = left.split_first() {
        push_avp_line(text, avp)?;
        left = rest;
    }
    Ok(())
}

/// Appends the line of an AVP.
#[tactic(auto, unfolding(crate::specs::Text::shown_avp))]
fn push_avp_line(text: &mut Vec<u8>, avp: AvpRef<'_>) -> Result<(), AllocError>
    ensures { OnOk result (text.new.items ≡ text.old.items ++ shown_avp (avp_of avp.entry)) }
{
    text.extend_from_slice(b"  ")?;
    push_avp(text, avp)?;
    text.push(b'\n')?;
    Ok(())
}

/// Appends the words for a fault. Want of memory has no words, and is answered as such.
#[tactic(auto, unfolding(crate::specs::Text::fault_text))]
pub fn push_message_fault_words(text: &mut Vec<u8>, fault: WireFault) -> Result<(), ToolFault>
    ensures words { OnOk result (text.new.items ≡ text.old.items ++ fault_text fault) }
    ensures known { OnOk result (fault ≢ WireFault.NoMemory) }
    ensures memory { IfErr result (λ e. e ≡ ToolFault.Memory) }
{
    match fault {
        WireFault::TooShort => text.extend_from_slice(b"fault 5015 TooShort")?,
        WireFault::Version => text.extend_from_slice(b"fault 5011 Version")?,
        WireFault::Length => text.extend_from_slice(b"fault 5015 Length")?,
        WireFault::AvpLength(offset) => {
            text.extend_from_slice(b"fault 5014 AvpLength ")?;
            push_decimal(text, offset as u64)?;
        }
        WireFault::TooLong => text.extend_from_slice(b"fault TooLong")?,
        WireFault::NoMemory => return Err(ToolFault::Memory),
    }
    Ok(())
}
