//! What is said of octets: of the message that they are, or why they are none.
ghost use Rattle.std.specs.Prelude.{◌≡◌, ◌++◌, ℕ, List, IfOk, OnOk};
ghost use Rattle.std.specs.String.{string_bytes};
ghost use Rattle.dm_wire.specs.declared.avp.Avp.{Avp};
ghost use Rattle.dm_wire.specs.Spelling.{SpellsList};
ghost use Rattle.dm_wire.specs.Refusal.{Refuses};
ghost use Rattle.dm_view.specs.Check.{are_none, check_view};
ghost use Rattle.dm_view.specs.View.{message_view};
ghost use Rattle.dm_dict.specs.Located.{located_faults};
ghost use Rattle.dm_view_lines.specs.Said.{message_answer, refused_said, SaysFronted};

use crate::front::Front;
use crate::json_refused::{put_json_checked_refusal, put_json_shown_refusal};
use crate::json_reports::{put_json_checked_message, put_json_shown_message};
use crate::refused::{put_checked_refusal, put_shown_refusal};
use dm_dict::{Dictionary, NoMemory};
use dm_view::{put_message, put_verdict_header_and_faults};
use dm_wire::{MessageRef, WireFault};
use std::alloc::{AllocError, Global};

/// What is said of a message, and how.
#[derive(Clone, Copy, Debug, PartialEq, Eq)]
pub enum Task {
    /// What it says, in names and values.
    Show,
    /// All that is wrong with it.
    Check,
    /// What it says, in JSON.
    ShowJson,
    /// All that is wrong with it, in JSON.
    CheckJson,
}

/// Appends what is said of octets behind this front. True where they are a good message; one that is shown is good.
///
/// Where memory is wanted, what is appended is of no use.
pub fn put_octets_report<F: Front>(
    alloc: Global,
    text: &mut String,
    dictionary: &Dictionary,
    task: Task,
    front: &F,
    octets: &[u8],
) -> Result<bool, NoMemory>
    ensures { IfOk result (λ good. (more : List ℕ) × (string_bytes text.new ≡ string_bytes text.old ++ more)
        × SaysFronted task dictionary.now (F.before front.now) octets.now more good) }
{
    match MessageRef::read(octets) {
        Ok(message) => put_message_report(alloc, text, dictionary, task, front, &message),
        Err(fault) => {
            put_refusal_report(alloc, text, dictionary, task, front, octets, fault)?;
            Ok(false)
        }
    }
}

/// Appends what is said of a message behind this front, and tells whether it is good.
fn put_message_report<F: Front>(
    alloc: Global,
    text: &mut String,
    dictionary: &Dictionary,
    task: Task,
    front: &F,
    message: &MessageRef<'_>,
) -> Result<bool, NoMemory>
    ensures said { (l : List Avp) → SpellsList l message.now.rest.now → OnOk result (string_bytes text.new
        ≡ string_bytes text.old
        ++ (message_answer task dictionary.now (F.before front.now)
        (record { header = message.now.header; avps = l })).0) }
    ensures good { (l : List Avp) → SpellsList l message.now.rest.now → IfOk result (λ good.
        good ≡ (message_answer task dictionary.now (F.before front.now)
        (record { header = message.now.header; avps = l })).1) }
{
    match task {
        Task::Show => {
            put_shown_message(text, dictionary, front, message)?;
            Ok(true)
        }
        Task::Check => put_checked_message(alloc, text, dictionary, front, message),
        Task::ShowJson => put_json_shown_message(alloc, text, dictionary, front, message),
        Task::CheckJson => put_json_checked_message(alloc, text, dictionary, front, message),
    }
}

/// Appends what a message says, behind this front.
fn put_shown_message<F: Front>(
    text: &mut String,
    dictionary: &Dictionary,
    front: &F,
    message: &MessageRef<'_>,
) -> Result<(), AllocError>
    ensures { (l : List Avp) → SpellsList l message.now.rest.now → OnOk result (string_bytes text.new
        ≡ string_bytes text.old
        ++ ((F.before front.now).words
        ++ message_view dictionary.now (record { header = message.now.header; avps = l }))) }
{
    front.put_front_words(text)?;
    put_message(text, dictionary, message)?;
    Ok(())
}

/// Appends all that is wrong with a message, behind this front, and tells whether it is good.
fn put_checked_message<F: Front>(
    alloc: Global,
    text: &mut String,
    dictionary: &Dictionary,
    front: &F,
    message: &MessageRef<'_>,
) -> Result<bool, NoMemory>
    ensures said { (l : List Avp) → SpellsList l message.now.rest.now → OnOk result (string_bytes text.new
        ≡ string_bytes text.old
        ++ ((F.before front.now).words
        ++ check_view dictionary.now (record { header = message.now.header; avps = l }))) }
    ensures good { (l : List Avp) → SpellsList l message.now.rest.now → IfOk result (λ good.
        good ≡ are_none (located_faults dictionary.now (record { header = message.now.header; avps = l }))) }
{
    front.put_front_words(text)?;
    let good = put_verdict_header_and_faults(alloc, text, dictionary, message)?;
    Ok(good)
}

/// Appends what is said of octets that are no message, behind this front.
fn put_refusal_report<F: Front>(
    alloc: Global,
    text: &mut String,
    dictionary: &Dictionary,
    task: Task,
    front: &F,
    octets: &[u8],
    fault: WireFault,
) -> Result<(), AllocError>
    requires refused { Refuses octets.now fault }
    ensures { OnOk result (string_bytes text.new
        ≡ string_bytes text.old ++ refused_said task dictionary.now (F.before front.now) octets.now fault) }
{
    match task {
        Task::Show => put_shown_refusal(text, dictionary, front, octets, fault),
        Task::Check => put_checked_refusal(text, dictionary, front, octets, fault),
        Task::ShowJson => put_json_shown_refusal(alloc, text, dictionary, front, octets, fault),
        Task::CheckJson => {
            put_json_checked_refusal(alloc, text, dictionary, front, octets, fault)
        }
    }
}
