//! Octets that are no message, and what stands before the first bad AVP.
ghost use Rattle.std.specs.Prelude.{◌≡◌, ◌++◌, ◌∷◌, [], OnOk};
ghost use Rattle.std.specs.String.{string_bytes};
ghost use Rattle.dm_wire.specs.Refusal.{IsBadAt, Refuses};
ghost use Rattle.dm_wire.specs.Spelling.{SpellsList};
ghost use Rattle.dm_wire.specs.Whole.{header_in};
ghost use Rattle.dm_view_lines.specs.Before.{avps_before};
ghost use Rattle.dm_view_lines.specs.Reasons.{refusal_sentence};
ghost use Rattle.dm_view_lines.specs.Said.{front_shown, front_checked, before_refusal};

use crate::front::Front;
use crate::header::header_at_front;
use crate::refusal_words::put_refusal_line;
use dm_dict::Dictionary;
use dm_view::{put_header_line, put_message};
use dm_wire::laws::spelled_avps_are_members;
use dm_wire::{MessageRef, WireFault};
use std::alloc::AllocError;

/// The message up to the first bad AVP, which begins at this octet.
pub(crate) fn message_before_bad_avp(octets: &[u8], offset: usize) -> MessageRef<'_>
    requires bad { IsBadAt 20 octets.now offset }
    ensures header { result.header ≡ header_in octets.now }
    ensures avps { SpellsList (avps_before octets.now offset) result.rest.now }
{
    spelled_avps_are_members();
    let header = header_at_front(octets);
    let front = &octets[..offset];
    MessageRef {
        header,
        rest: &front[20..],
    }
}

/// Appends the message up to the bad AVP, in names and values, and the indent of the refusal behind it; nothing where
/// the fault is another.
fn put_message_and_indent_if_bad_avp(
    text: &mut String,
    dictionary: &Dictionary,
    octets: &[u8],
    fault: WireFault,
) -> Result<(), AllocError>
    requires refused { Refuses octets.now fault }
    ensures { OnOk result (string_bytes text.new
        ≡ string_bytes text.old ++ before_refusal (front_shown dictionary.now) octets.now fault) }
{
    match fault {
        WireFault::AvpLength(offset) => {
            put_message(text, dictionary, &message_before_bad_avp(octets, offset))?;
            text.push_str("  ")?;
            Ok(())
        }
        WireFault::TooShort
        | WireFault::Version
        | WireFault::Length
        | WireFault::TooLong
        | WireFault::NoMemory => Ok(()),
    }
}

/// Appends `bad`, the header of a message with a bad AVP, and the indent of the refusal behind it; nothing where the
/// fault is another.
fn put_verdict_header_and_indent_if_bad_avp(
    text: &mut String,
    dictionary: &Dictionary,
    octets: &[u8],
    fault: WireFault,
) -> Result<(), AllocError>
    requires refused { Refuses octets.now fault }
    ensures { OnOk result (string_bytes text.new
        ≡ string_bytes text.old ++ before_refusal (front_checked dictionary.now) octets.now fault) }
{
    match fault {
        WireFault::AvpLength(offset) => {
            text.push_str("bad ")?;
            put_header_line(
                text,
                dictionary,
                &message_before_bad_avp(octets, offset).header,
            )?;
            text.push_str("  ")?;
            Ok(())
        }
        WireFault::TooShort
        | WireFault::Version
        | WireFault::Length
        | WireFault::TooLong
        | WireFault::NoMemory => Ok(()),
    }
}

/// Appends what is shown of octets that are no message, behind this front.
pub(crate) fn put_shown_refusal<F: Front>(
    text: &mut String,
    dictionary: &Dictionary,
    front: &F,
    octets: &[u8],
    fault: WireFault,
) -> Result<(), AllocError>
    requires refused { Refuses octets.now fault }
    ensures { OnOk result (string_bytes text.new ≡ string_bytes text.old ++ ((F.before front.now).words
        ++ (before_refusal (front_shown dictionary.now) octets.now fault ++ refusal_sentence fault ++ 10 ∷ []))) }
{
    front.put_front_words(text)?;
    put_message_and_indent_if_bad_avp(text, dictionary, octets, fault)?;
    put_refusal_line(text, fault)?;
    Ok(())
}

/// Appends what is said under a check of octets that are no message, behind this front.
pub(crate) fn put_checked_refusal<F: Front>(
    text: &mut String,
    dictionary: &Dictionary,
    front: &F,
    octets: &[u8],
    fault: WireFault,
) -> Result<(), AllocError>
    requires refused { Refuses octets.now fault }
    ensures { OnOk result (string_bytes text.new ≡ string_bytes text.old ++ ((F.before front.now).words
        ++ (before_refusal (front_checked dictionary.now) octets.now fault ++ refusal_sentence fault ++ 10 ∷ []))) }
{
    front.put_front_words(text)?;
    put_verdict_header_and_indent_if_bad_avp(text, dictionary, octets, fault)?;
    put_refusal_line(text, fault)?;
    Ok(())
}
