//! Why octets are no message, in words (RFC 6733, 7.1.5 and 7.2).
ghost use Rattle.std.specs.Prelude.{◌≡◌, ◌++◌, ◌∷◌, [], IfOk, OnOk};
ghost use Rattle.std.specs.String.{string_bytes};
ghost use Rattle.dm_view_lines.specs.Reasons.{refusal_words, refusal_sentence};

use dm_wire::WireFault;
use std::alloc::{AllocError, Global};

/// Appends the Result-Code of octets that are no message, its name, and why.
#[tactic(auto, unfolding(crate::specs::Reasons::refusal_words))]
fn put_result_code_and_reason(text: &mut String, fault: WireFault) -> Result<(), AllocError>
    ensures { OnOk result (string_bytes text.new ≡ string_bytes text.old ++ refusal_words fault) }
{
    match fault {
        WireFault::TooShort => {
            text.push_str("5015 DIAMETER_INVALID_MESSAGE_LENGTH: fewer octets than a header has")?
        }
        WireFault::Version => {
            text.push_str("5011 DIAMETER_UNSUPPORTED_VERSION: the first octet isn't 1")?
        }
        WireFault::Length => text.push_str("5015 DIAMETER_INVALID_MESSAGE_LENGTH: wrong length")?,
        WireFault::AvpLength(offset) => write!(
            text,
            "5014 DIAMETER_INVALID_AVP_LENGTH: no AVP at octet {offset}"
        )?,
        WireFault::TooLong => {}
        WireFault::NoMemory => {}
    }
    Ok(())
}

/// Appends `no message: ` and why octets are none, without a line's end.
fn put_refusal_sentence(text: &mut String, fault: WireFault) -> Result<(), AllocError>
    ensures { OnOk result (string_bytes text.new ≡ string_bytes text.old ++ refusal_sentence fault) }
{
    text.push_str("no message: ")?;
    put_result_code_and_reason(text, fault)?;
    Ok(())
}

/// Appends the line that says why octets are no message.
pub(crate) fn put_refusal_line(text: &mut String, fault: WireFault) -> Result<(), AllocError>
    ensures { OnOk result (string_bytes text.new ≡ string_bytes text.old ++ refusal_sentence fault ++ 10 ∷ []) }
{
    put_refusal_sentence(text, fault)?;
    text.push_str("\n")?;
    Ok(())
}

/// Why octets are no message.
pub(crate) fn refusal_sentence(alloc: Global, fault: WireFault) -> Result<String, AllocError>
    ensures { IfOk result (λ words. string_bytes words ≡ refusal_sentence fault) }
{
    let mut words = String::new(alloc);
    put_refusal_sentence(&mut words, fault)?;
    Ok(words)
}
