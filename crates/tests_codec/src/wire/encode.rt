//! What is written, and read back.

use super::{
    BAD_AVP_LENGTH, FREE_BITS, Row, WATCHDOG_REQUEST, avps_of, message_of, watchdog_request_message,
};
use dm_wire::{Avp, Message, Octets, WireFault, decode_avps, encode_avps};
use std::alloc::{AllocError, Global};

/// A Capabilities-Exchange-Request whose last AVP, a Vendor-Specific-Application-Id, groups two.
const CAPABILITIES_REQUEST: [u8; 172] = [
    0x01, 0x00, 0x00, 0xac, 0x80, 0x00, 0x01, 0x01, 0x00, 0x00, 0x00, 0x00, 0x00, 0x00, 0x00, 0x01,
    0x00, 0x00, 0x00, 0x01, 0x00, 0x00, 0x01, 0x08, 0x40, 0x00, 0x00, 0x11, 0x61, 0x2e, 0x65, 0x78,
    0x61, 0x6d, 0x70, 0x6c, 0x65, 0x00, 0x00, 0x00, 0x00, 0x00, 0x01, 0x28, 0x40, 0x00, 0x00, 0x0f,
    0x65, 0x78, 0x61, 0x6d, 0x70, 0x6c, 0x65, 0x00, 0x00, 0x00, 0x01, 0x01, 0x40, 0x00, 0x00, 0x0e,
    0x00, 0x01, 0x7f, 0x00, 0x00, 0x01, 0x00, 0x00, 0x00, 0x00, 0x01, 0x01, 0x40, 0x00, 0x00, 0x1a,
    0x00, 0x02, 0x00, 0x00, 0x00, 0x00, 0x00, 0x00, 0x00, 0x00, 0x00, 0x00, 0x00, 0x00, 0x00, 0x00,
    0x00, 0x01, 0x00, 0x00, 0x00, 0x00, 0x01, 0x0a, 0x40, 0x00, 0x00, 0x0c, 0x00, 0x00, 0x00, 0x00,
    0x00, 0x00, 0x01, 0x0d, 0x00, 0x00, 0x00, 0x0e, 0x64, 0x6d, 0x70, 0x65, 0x65, 0x72, 0x00, 0x00,
    0x00, 0x00, 0x01, 0x02, 0x40, 0x00, 0x00, 0x0c, 0x00, 0x00, 0x00, 0x04, 0x00, 0x00, 0x01, 0x04,
    0x40, 0x00, 0x00, 0x20, 0x00, 0x00, 0x01, 0x0a, 0x40, 0x00, 0x00, 0x0c, 0x00, 0x00, 0x28, 0xaf,
    0x00, 0x00, 0x01, 0x02, 0x40, 0x00, 0x00, 0x0c, 0x01, 0x00, 0x00, 0x23,
];

/// How many octets the message takes when it is written.
fn written_len(alloc: Global, message: &Message) -> Result<usize, WireFault> {
    Ok(message.encode(alloc)?.len())
}

fn is_written_as(alloc: Global, message: &Message, octets: &[u8]) -> bool {
    match message.encode(alloc) {
        Ok(written) => written.as_slice() == octets,
        Err(_) => false,
    }
}

/// Whether the message that is read from the octets is written as these others.
fn is_rewritten_as(alloc: Global, octets: &[u8], others: &[u8]) -> bool {
    match Message::decode(alloc, octets) {
        Ok(message) => is_written_as(alloc, &message, others),
        Err(_) => false,
    }
}

#[test]
fn free_bits(rt: HostRuntime) {
    assert!(rt; is_rewritten_as(rt.alloc(), &WATCHDOG_REQUEST, &WATCHDOG_REQUEST));
    assert!(rt; is_rewritten_as(rt.alloc(), &FREE_BITS, &WATCHDOG_REQUEST));
}

fn count_of_avps(alloc: Global, octets: &[u8]) -> Result<usize, WireFault> {
    Ok(Message::decode(alloc, octets)?.avps.as_slice().len())
}

/// Whether the octets are read as the AVPs.
fn is_list_of(alloc: Global, octets: &[u8], avps: &[Avp]) -> bool {
    match decode_avps(alloc, octets) {
        Ok(read) => read.as_slice() == avps,
        Err(_) => false,
    }
}

/// Whether the AVPs are written as the octets.
fn is_list_written_as(alloc: Global, avps: &[Avp], octets: &[u8]) -> bool {
    match encode_avps(alloc, avps) {
        Ok(written) => written.as_slice() == octets,
        Err(_) => false,
    }
}

/// The Vendor-Specific-Application-Id's AVPs.
const GROUP: [Row<'_>; 2] = [(266, &[0, 0, 0x28, 0xaf]), (258, &[1, 0, 0, 0x23])];

/// Whether the octets are read as the AVPs of the table, and these written as the octets.
fn is_list_both(alloc: Global, octets: &[u8], table: &[Row<'_>]) -> Result<bool, AllocError> {
    let avps = avps_of(alloc, table)?;
    Ok(
        is_list_of(alloc, octets, avps.as_slice())
            && is_list_written_as(alloc, avps.as_slice(), octets),
    )
}

#[test]
fn capabilities_request(rt: HostRuntime) {
    let whole = CAPABILITIES_REQUEST.as_slice();
    assert!(rt; count_of_avps(rt.alloc(), whole) == Ok(8));
    assert!(rt; is_rewritten_as(rt.alloc(), whole, whole));
    assert!(rt; is_list_both(rt.alloc(), &whole[148..], &GROUP) == Ok(true));
}

/// An AVP of this many zero octets.
fn zeros(alloc: Global, vendor: Option<u32>, size: usize) -> Result<Avp, AllocError> {
    Ok(Avp {
        code: 264,
        vendor,
        mandatory: true,
        protected: false,
        bytes: Octets::from_vec(vec![in alloc; 0; size]?),
    })
}

/// How many octets a message of one AVP of this many zero octets takes.
fn message_len(alloc: Global, size: usize) -> Result<usize, WireFault> {
    let avps = vec![in alloc; zeros(alloc, None, size)?]?;
    written_len(alloc, &message_of(avps))
}

#[test]
fn longest_message(rt: HostRuntime) {
    assert!(rt; message_len(rt.alloc(), 16777184) == Ok(16777212));
    assert!(rt; message_len(rt.alloc(), 16777185) == Err(WireFault::TooLong));
}

fn avp_len(alloc: Global, vendor: Option<u32>, size: usize) -> Result<Option<u32>, AllocError> {
    Ok(zeros(alloc, vendor, size)?.wire_len())
}

fn push_zeros(
    alloc: Global,
    avps: &mut Vec<Avp>,
    vendor: Option<u32>,
    sizes: &[usize],
) -> Result<(), AllocError> {
    for size in sizes {
        avps.push(zeros(alloc, vendor, *size)?)?;
    }
    Ok(())
}

/// The octets of a list of AVPs of these many zero octets.
fn written_zeros(
    alloc: Global,
    vendor: Option<u32>,
    sizes: &[usize],
) -> Result<Vec<u8>, WireFault> {
    let mut avps = Vec::new(alloc);
    let written = match push_zeros(alloc, &mut avps, vendor, sizes) {
        Ok(()) => encode_avps(alloc, avps.as_slice()),
        Err(_) => Err(WireFault::NoMemory),
    };
    drop(avps);
    written
}

fn list_len(alloc: Global, vendor: Option<u32>, sizes: &[usize]) -> Result<usize, WireFault> {
    Ok(written_zeros(alloc, vendor, sizes)?.len())
}

#[test]
fn longest_avp(rt: HostRuntime) {
    for (vendor, longest, longer) in &[(None, 16777207, 16777208), (Some(0), 16777203, 16777204)] {
        assert!(rt; avp_len(rt.alloc(), *vendor, *longest) == Ok(Some(16777215)));
        assert!(rt; avp_len(rt.alloc(), *vendor, *longer) == Ok(None));
        assert!(rt; list_len(rt.alloc(), *vendor, &[*longest]) == Ok(16777216));
        let both = list_len(rt.alloc(), *vendor, &[*longest, *longer]);
        assert!(rt; both == Err(WireFault::TooLong));
    }
}

/// How many octets the request with this command takes.
fn len_with_command(alloc: Global, command: u32) -> Result<usize, WireFault> {
    let mut message = watchdog_request_message(alloc)?;
    message.header.command = command;
    written_len(alloc, &message)
}

#[test]
fn greatest_command(rt: HostRuntime) {
    assert!(rt; len_with_command(rt.alloc(), 16777215) == Ok(56));
    assert!(rt; len_with_command(rt.alloc(), 16777216) == Err(WireFault::TooLong));
}

/// How many AVPs the octets are read as.
fn count_in_list(alloc: Global, octets: &[u8]) -> Result<usize, WireFault> {
    Ok(decode_avps(alloc, octets)?.len())
}

/// How many octets a list of AVPs of these many zero octets takes, and how many AVPs are read back.
fn read_back(alloc: Global, sizes: &[usize]) -> Result<(usize, usize), WireFault> {
    let octets = written_zeros(alloc, None, sizes)?;
    Ok((octets.len(), count_in_list(alloc, octets.as_slice())?))
}

#[test]
fn lists_have_no_limit(rt: HostRuntime) {
    assert!(rt; read_back(rt.alloc(), &[8388608, 8388608]) == Ok((16777232, 2)));
}

#[test]
fn bad_avps_of_a_list(rt: HostRuntime) {
    let alloc = rt.alloc();
    let list = &WATCHDOG_REQUEST[20..];
    assert!(rt; count_in_list(alloc, &list[..0]) == Ok(0));
    assert!(rt; count_in_list(alloc, &list[..35]) == Err(WireFault::AvpLength(20)));
    let bad = &BAD_AVP_LENGTH[20..];
    assert!(rt; count_in_list(alloc, bad) == Err(WireFault::AvpLength(0)));
}
