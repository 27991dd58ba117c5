//! AVPs and headers to octets, which are appended, or written in the room of a message (RFC 6733, 3 and 4.1).
ghost use Rattle.std.specs.Prelude.{◌≡◌, ◌⊎◌, ◌↔◌, ◌^◌, ◌<◌, ◌+◌, ◌*◌, ◌/◌, ◌++◌, ◌∷◌, length, replicate};
ghost use Rattle.std.specs.Prelude.{OnOk, IfErr, IsErrOf, IfSome, IfNone};
ghost use Rattle.dm_wire.specs.Spelling.{be, avp_length, vendor_octets, SpellsList, SpellsHeader};
ghost use Rattle.dm_wire.specs.Borrowed.{avp_of};
ghost use Rattle.dm_wire.specs.Canonical.{worth, avp_flags, zeros, canonical_avp, canonical_list};
ghost use Rattle.dm_wire.specs.Canonical.{header_flags, canonical_header};
ghost use Rattle.dm_wire.specs.Codes.{max_command, max_avp_len, max_message_len};
ghost use Rattle.dm_wire.specs.declared.fault.WireFault.{WireFault};

use crate::codes::limits::{MAX_AVP_LEN, MAX_COMMAND, MAX_MESSAGE_LEN};
use crate::size::avp_header_len;
use crate::{Avp, AvpRef, Header, WireFault};
use byteorder::{BigEndian, ByteOrder};
use std::alloc::AllocError;

/// What a bit of this value adds to the flag octet.
fn flag_bit(set: bool, value: u8) -> u8
    ensures { result ≡ worth set value }
{
    if set { value } else { 0 }
}

/// The flag octet of the AVP, with zero reserved bits.
fn avp_flag_octet(avp: AvpRef<'_>) -> u8
    ensures { result ≡ avp_flags (avp_of avp.entry) }
{
    flag_bit(avp.vendor.is_some(), 0x80)
        | flag_bit(avp.mandatory, 0x40)
        | flag_bit(avp.protected, 0x20)
}

/// The first eight octets of the header of the AVP with this Length.
fn avp_header_front(avp: AvpRef<'_>, length: u32) -> [u8; 8]
    requires { length < 256 ^ 3 }
    ensures { result ≡ be avp.entry.code 4 ++ avp_flags (avp_of avp.entry) ∷ be length 3 }
{
    let mut header = [0; 8];
    BigEndian::write_u32(&mut header, avp.code);
    BigEndian::write_u32(
        &mut header[4..],
        u32::from(avp_flag_octet(avp)) * 0x100_0000 + length,
    );
    header
}

/// The Vendor-ID field, appended where there is one.
#[inline(always)]
fn push_vendor_id_if_some(out: &mut Vec<u8>, vendor: Option<u32>) -> Result<(), AllocError>
    ensures { OnOk result (out.new.items ≡ out.old.items ++ vendor_octets vendor) }
{
    if let Some(vendor) = vendor {
        let mut octets = [0; 4];
        BigEndian::write_u32(&mut octets, vendor);
        out.extend_from_slice(&octets)?;
    }
    Ok(())
}

/// The zero octets that fill up an AVP of this Length to a multiple of 4, appended.
#[inline(always)]
fn push_padding(out: &mut Vec<u8>, length: usize) -> Result<(), AllocError>
    ensures { OnOk result (out.new.items ≡ out.old.items ++ zeros length) }
{
    match length % 4 {
        0 => {}
        1 => out.extend_from_slice(&[0, 0, 0])?,
        2 => out.extend_from_slice(&[0, 0])?,
        _ => out.extend_from_slice(&[0])?,
    }
    Ok(())
}

/// The AVP, whose Length this is and fits its field, appended.
#[inline(always)]
fn push_fitting_avp(out: &mut Vec<u8>, avp: AvpRef<'_>, length: usize) -> Result<(), AllocError>
    requires length { length ≡ avp_length (avp_of avp) }
    requires fits { avp_length (avp_of avp) < 256 ^ 3 }
    ensures { OnOk result (out.new.items ≡ out.old.items ++ canonical_avp (avp_of avp.entry)) }
{
    let header = avp_header_front(avp, length as u32);
    out.extend_from_slice(&header)?;
    push_vendor_id_if_some(out, avp.vendor)?;
    out.extend_from_slice(avp.bytes)?;
    push_padding(out, length)?;
    Ok(())
}

/// The AVP, appended with zero padding and zero reserved bits (RFC 6733, 4.1). It takes `AvpRef::padded_len` octets of
/// room.
///
/// Refuses with `TooLong` where the AVP Length would pass 16777215, whatever memory there is, and appends nothing then;
/// else with `NoMemory`.
#[inline(always)]
pub fn push_avp(out: &mut Vec<u8>, avp: AvpRef<'_>) -> Result<(), WireFault>
    ensures put { OnOk result (out.new.items ≡ out.old.items ++ canonical_avp (avp_of avp.entry)) }
    ensures long { IsErrOf result WireFault.TooLong ↔ (max_avp_len < avp_length (avp_of avp.entry)) }
    ensures unchanged { IsErrOf result WireFault.TooLong → out.new.items ≡ out.old.items }
    ensures fault { IfErr result (λ fault. (fault ≡ WireFault.TooLong) ⊎ (fault ≡ WireFault.NoMemory)) }
{
    let length = avp_header_len(avp.vendor) + avp.bytes.len();
    if length > MAX_AVP_LEN as usize {
        return Err(WireFault::TooLong);
    }
    push_fitting_avp(out, avp, length)?;
    Ok(())
}

/// The AVPs, appended one after the other.
pub(crate) fn push_avp_list(out: &mut Vec<u8>, avps: &[Avp]) -> Result<(), AllocError>
    requires { SpellsList avps.now (canonical_list avps.now) }
    ensures { OnOk result (out.new.items ≡ out.old.items ++ canonical_list avps.now) }
{
    let mut left = avps;
    while let [avp, rest @ ..] = left {
        let avp = avp.borrowed();
        push_fitting_avp(out, avp, avp_header_len(avp.vendor) + avp.bytes.len())?;
        left = rest;
    }
    Ok(())
}

/// The flag octet of the message, with zero reserved bits.
fn header_flag_octet(header: Header) -> u8
    ensures { result ≡ header_flags header }
{
    flag_bit(header.request, 0x80)
        | flag_bit(header.proxiable, 0x40)
        | flag_bit(header.error, 0x20)
        | flag_bit(header.retransmit, 0x10)
}

/// The header of a message of this many octets, with zero reserved bits (RFC 6733, 3). `None` where the Command Code
/// is above 16777215 or the Message Length above 16777212.
pub fn header_octets(header: Header, size: u32) -> Option<[u8; 20]>
    ensures octets { IfSome result (λ octets. octets ≡ canonical_header header size) }
    ensures spelled { IfSome result (λ octets. SpellsHeader header size octets) }
    ensures none { IfNone result ((max_command < header.command) ⊎ (max_message_len < size)) }
{
    if header.command > MAX_COMMAND || size > MAX_MESSAGE_LEN {
        return None;
    }
    let mut octets = [0; 20];
    octets[0] = 1;
    BigEndian::write_u24(&mut octets[1..], size);
    octets[4] = header_flag_octet(header);
    BigEndian::write_u24(&mut octets[5..], header.command);
    BigEndian::write_u32(&mut octets[8..], header.application);
    BigEndian::write_u32(&mut octets[12..], header.hop_id);
    BigEndian::write_u32(&mut octets[16..], header.end_id);
    Some(octets)
}

/// The AVP, whose Length this is and fits its field, written in the room, which is as long as it and zero.
#[inline(always)]
fn fill_with_fitting_avp(room: &mut [u8], avp: AvpRef<'_>, length: usize)
    requires length { length ≡ avp_length (avp_of avp) }
    requires fits { avp_length (avp_of avp) < 256 ^ 3 }
    requires zero { room.old ≡ replicate ((length + 3) / 4 * 4) 0 }
    ensures { room.new ≡ canonical_avp (avp_of avp.entry) }
{
    let front = avp_header_front(avp, length as u32);
    room[..8].copy_from_slice(&front);
    match avp.vendor {
        None => room[8..length].copy_from_slice(avp.bytes),
        Some(vendor) => {
            BigEndian::write_u32(&mut room[8..], vendor);
            room[12..length].copy_from_slice(avp.bytes);
        }
    }
}

/// The AVPs, written one after the other in the room, which is as long as they and zero.
fn fill_with_avps(room: &mut [u8], avps: &[Avp])
    requires spelled { SpellsList avps.now (canonical_list avps.now) }
    requires zero { room.old ≡ replicate (length (canonical_list avps.now)) 0 }
    ensures { room.new ≡ canonical_list avps.now }
{
    let mut place = 0;
    let mut left = avps;
    while let [avp, rest @ ..] = left {
        let avp = avp.borrowed();
        let length = avp_header_len(avp.vendor) + avp.bytes.len();
        let end = place + (length + 3) / 4 * 4;
        fill_with_fitting_avp(&mut room[place..end], avp, length);
        place = end;
        left = rest;
    }
}

/// The message of this header, written in the room, which is as long as it and zero.
pub(crate) fn fill_with_message(room: &mut [u8], header: &[u8; 20], avps: &[Avp])
    requires spelled { SpellsList avps.now (canonical_list avps.now) }
    requires zero { room.old ≡ replicate (20 + length (canonical_list avps.now)) 0 }
    ensures { room.new ≡ header.now ++ canonical_list avps.now }
{
    room[..20].copy_from_slice(header);
    fill_with_avps(&mut room[20..], avps);
}
