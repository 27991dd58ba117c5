//! The lines of who the other side is.
ghost use Rattle.std.specs.Prelude.{◌≡◌, ◌++◌, ℕ, List, IfSome, IfNone, OnOk};
ghost use Rattle.std.specs.Option.{option_copied};
ghost use Rattle.std.specs.String.{string_bytes};
ghost use Rattle.dm_wire.specs.declared.avp.Avp.{Avp};
ghost use Rattle.dm_base.specs.Senders.{HasAvps};
ghost use Rattle.dm_slots.specs.Acquaintances.{exchange_in};
ghost use Rattle.dm_live.specs.SenderLines.{IsSender, number_lines, number_line_if_any};
ghost use Rattle.dm_live.specs.SenderLines.{told_lines, exchange_lines, sender_lines, sender_answer};

use crate::form::Form;
use crate::line_ends::{put_number_line, put_octets_line};
use crate::order_words::only_neighbour_left;
use dm_base::SenderRef;
use dm_slots::Acquaintance;
use dm_text::Words;
use std::alloc::{AllocError, Global};

/// The number of the neighbour of which the line asks whom it met; None where it asks nothing such.
pub(crate) fn read_sender_line(form: Form, line: &[u8]) -> Option<usize>
    ensures told { IfSome result (λ n. IsSender form n line.now) }
    ensures none { IfNone result ((n : ℕ) → IsSender form n line.now → ⊥) }
{
    let mut left = Words::new(line);
    match left.next() {
        Some(b"sender") => only_neighbour_left(form, &mut left),
        _ => None,
    }
}

/// Appends a line of the name and the number; nothing where there is no number.
#[tactic(auto, unfolding(crate::specs::SenderLines::number_line_if_any, crate::specs::SenderLines::number_lines))]
fn put_number_line_if_any(
    text: &mut String,
    name: &str,
    number: Option<u32>,
) -> Result<(), AllocError>
    ensures { OnOk result (string_bytes text.new ≡ string_bytes text.old ++ number_line_if_any name.now number) }
{
    match number {
        Some(number) => put_number_line(text, name, u64::from(number)),
        None => Ok(()),
    }
}

/// Appends a line of the name and a number for each number.
#[tactic(auto, unfolding(crate::specs::SenderLines::number_lines))]
fn put_number_lines(text: &mut String, name: &str, numbers: &[u32]) -> Result<(), AllocError>
    ensures { OnOk result (string_bytes text.new ≡ string_bytes text.old ++ number_lines name.now numbers.now) }
{
    for number in numbers {
        put_number_line(text, name, u64::from(*number))?;
    }
    Ok(())
}

/// Appends what a CER or CEA says of its sender.
fn put_sender(alloc: Global, text: &mut String, sender: SenderRef<'_>) -> Result<(), AllocError>
    ensures { (l : List Avp) → HasAvps sender.entry l
        → OnOk result (string_bytes text.new ≡ string_bytes text.old ++ told_lines l) }
{
    put_octets_line(text, "host ", sender.host())?;
    put_octets_line(text, "realm ", sender.realm())?;
    put_octets_line(text, "product ", sender.product())?;
    put_number_line_if_any(text, "vendor ", sender.vendor())?;
    put_number_line_if_any(text, "firmware ", sender.firmware())?;
    let applications = sender.applications(alloc)?;
    put_number_lines(text, "application ", applications.as_slice())?;
    let vendors = sender.vendors(alloc)?;
    put_number_lines(text, "supports ", vendors.as_slice())?;
    put_number_line_if_any(text, "origin-state ", sender.state_id())?;
    Ok(())
}

/// Appends what is said of the sender, or that there is nobody.
#[tactic(auto, unfolding(crate::specs::SenderLines::exchange_lines))]
fn put_sender_or_nobody(
    alloc: Global,
    text: &mut String,
    known: &Acquaintance,
) -> Result<(), AllocError>
    ensures { OnOk result (string_bytes text.new
        ≡ string_bytes text.old ++ exchange_lines (exchange_in known.now.octets)) }
{
    match known.sender() {
        Some(sender) => put_sender(alloc, text, sender),
        None => text.push_str("nobody\n"),
    }
}

/// Appends who the other side is, or that nobody was met, its Origin-State-Id of the time before, and whether it has
/// begun anew.
#[tactic(auto, unfolding(crate::specs::SenderLines::anew_line))]
fn put_acquaintance(
    alloc: Global,
    text: &mut String,
    known: &Acquaintance,
) -> Result<(), AllocError>
    ensures { OnOk result (string_bytes text.new ≡ string_bytes text.old ++ sender_lines known.now) }
{
    put_sender_or_nobody(alloc, text, known)?;
    put_number_line_if_any(text, "origin-state-before ", known.state_before())?;
    if known.is_anew() {
        text.push_str("anew\n")?;
    }
    Ok(())
}

/// Appends who the other side of a neighbour is, or that there is none of the number.
#[tactic(auto, unfolding(crate::specs::SenderLines::sender_answer))]
pub(crate) fn put_acquaintance_or_refusal(
    alloc: Global,
    text: &mut String,
    known: Option<&Acquaintance>,
) -> Result<(), AllocError>
    ensures { OnOk result (string_bytes text.new
        ≡ string_bytes text.old ++ sender_answer (option_copied known.entry)) }
{
    match known {
        Some(known) => put_acquaintance(alloc, text, known),
        None => text.push_str("refused NoNeighbour\n"),
    }
}
