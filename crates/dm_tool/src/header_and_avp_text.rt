//! Headers and AVPs as text, appended piece by piece: just as their `Display` prints them.
ghost use Rattle.std.specs.Prelude.{◌≡◌, ◌++◌, OnOk, codes};
ghost use Rattle.std.specs.Fmt.{decimal};
ghost use Rattle.dm_wire.specs.Borrowed.{avp_of};
ghost use Rattle.dm_wire.specs.Printed.{vendor_text, data_text};
ghost use Rattle.dm_tool.specs.Text.{avp_text, header_text};

use dm_text::{push_decimal, push_hexadecimal};
use dm_wire::{AvpRef, Header, avp_letters, header_letters};
use std::alloc::AllocError;

/// Appends a header: command, flags, application and identifiers.
#[tactic(auto, unfolding(dm_wire::specs::Printed::header_text))]
pub fn push_header(text: &mut Vec<u8>, header: Header) -> Result<(), AllocError>
    ensures { OnOk result (text.new.items ≡ text.old.items ++ header_text header) }
{
    text.extend_from_slice(b"message ")?;
    push_decimal(text, u64::from(header.command))?;
    let [r, p, e, t] = header_letters(header);
    text.extend_from_slice(&[b' ', r, p, e, t])?;
    text.extend_from_slice(b" app ")?;
    push_decimal(text, u64::from(header.application))?;
    push_spaced_identifiers(text, header.hop_id, header.end_id)
}

/// Appends the identifiers of a header.
fn push_spaced_identifiers(text: &mut Vec<u8>, hop_id: u32, end_id: u32) -> Result<(), AllocError>
    ensures { OnOk result (text.new.items
        ≡ text.old.items ++ codes " hop " ++ decimal hop_id ++ codes " end " ++ decimal end_id) }
{
    text.extend_from_slice(b" hop ")?;
    push_decimal(text, u64::from(hop_id))?;
    text.extend_from_slice(b" end ")?;
    push_decimal(text, u64::from(end_id))
}

/// Appends an AVP: code, vendor, flags and data.
#[tactic(auto, unfolding(dm_wire::specs::Printed::avp_text))]
pub fn push_avp(text: &mut Vec<u8>, avp: AvpRef<'_>) -> Result<(), AllocError>
    ensures { OnOk result (text.new.items ≡ text.old.items ++ avp_text (avp_of avp.entry)) }
{
    push_decimal(text, u64::from(avp.code))?;
    push_vendor(text, avp.vendor)?;
    let [v, m, p] = avp_letters(avp.vendor.is_some(), avp.mandatory, avp.protected);
    text.extend_from_slice(&[b' ', v, m, p, b' '])?;
    push_hex_or_dash(text, avp.bytes)
}

/// Appends the vendor behind a `/`; nothing where there is none.
fn push_vendor(text: &mut Vec<u8>, vendor: Option<u32>) -> Result<(), AllocError>
    ensures { OnOk result (text.new.items ≡ text.old.items ++ vendor_text vendor) }
{
    match vendor {
        Some(vendor) => {
            text.push(b'/')?;
            push_decimal(text, u64::from(vendor))
        }
        None => Ok(()),
    }
}

/// Appends the data in hexadecimal, or `-` where there is none.
fn push_hex_or_dash(text: &mut Vec<u8>, octets: &[u8]) -> Result<(), AllocError>
    ensures { OnOk result (text.new.items ≡ text.old.items ++ data_text octets.now) }
{
    if octets.is_empty() {
        text.extend_from_slice(b"-")
    } else {
        push_hexadecimal(text, octets)
    }
}
