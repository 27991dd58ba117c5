//! What is read.

use super::{BAD_AVP_LENGTH, FREE_BITS, WATCHDOG_REQUEST, avp, watchdog_request_message};
use dm_wire::{Avp, AvpList, Message, Octets, WireFault};
use std::alloc::{AllocError, Global};
use std::test::Fail;

/// Whether the octets are read as the message.
fn is_read_as(alloc: Global, octets: &[u8], message: &Message) -> bool {
    match Message::decode(alloc, octets) {
        Ok(read) => read == *message,
        Err(_) => false,
    }
}

#[test]
fn watchdog_request(rt: HostRuntime) -> Result<(), Fail> {
    let message = watchdog_request_message(rt.alloc())?;
    assert!(rt; is_read_as(rt.alloc(), &WATCHDOG_REQUEST, &message));
    Ok(())
}

#[test]
fn free_bits(rt: HostRuntime) -> Result<(), Fail> {
    let message = watchdog_request_message(rt.alloc())?;
    assert!(rt; is_read_as(rt.alloc(), &FREE_BITS, &message));
    Ok(())
}

fn decoded(alloc: Global, octets: &[u8]) -> Result<(), WireFault> {
    drop(Message::decode(alloc, octets)?);
    Ok(())
}

/// What comes of the octets with one of them changed.
fn changed(alloc: Global, octets: &[u8], place: usize, octet: u8) -> Result<(), WireFault> {
    let mut copy = Vec::from_slice(alloc, octets)?;
    if let Some(old) = copy.get_mut(place) {
        *old = octet;
    }
    let done = decoded(alloc, copy.as_slice());
    drop(copy);
    done
}

#[test]
fn header_faults(rt: HostRuntime) {
    let alloc = rt.alloc();
    let whole = WATCHDOG_REQUEST.as_slice();
    let cut = &whole[..19];
    assert!(rt; decoded(alloc, cut) == Err(WireFault::TooShort));
    assert!(rt; changed(alloc, whole, 3, 0x39) == Err(WireFault::Length));
    assert!(rt; changed(alloc, whole, 0, 2) == Err(WireFault::Version));
    assert!(rt; changed(alloc, cut, 0, 2) == Err(WireFault::TooShort));
}

#[test]
fn bad_avp_lengths(rt: HostRuntime) {
    let alloc = rt.alloc();
    let bad = BAD_AVP_LENGTH.as_slice();
    let first = Err(WireFault::AvpLength(20));
    assert!(rt; decoded(alloc, bad) == first);
    assert!(rt; changed(alloc, bad, 24, 0xc0) == first);
    assert!(rt; changed(alloc, &bad[..24], 3, 0x18) == first);
}

fn is_copied(octets: &Octets) -> bool {
    match octets.clone() {
        Ok(copy) => copy == *octets,
        Err(_) => false,
    }
}

/// Whether octets hold the data, in a copy too, and hand it out.
fn hold(alloc: Global, data: &[u8]) -> Result<bool, AllocError> {
    let octets = Octets::from_slice(alloc, data)?;
    let is_same = is_copied(&octets);
    let held = octets.into_vec();
    Ok(is_same && held.as_slice() == data)
}

/// The list of a copy of the AVP alone.
fn list_of_copy(alloc: Global, avp: &Avp) -> Result<AvpList, AllocError> {
    Ok(AvpList::from_vec(vec![in alloc; avp.clone()?]?))
}

/// Whether a list of a copy of the AVP has it alone, and hands it out.
fn is_held(alloc: Global, avp: &Avp) -> Result<bool, AllocError> {
    let list = list_of_copy(alloc, avp)?;
    let is_one = list.as_slice().len() == 1;
    let avps = list.into_vec();
    Ok(is_one && avps.first() == Some(avp))
}

#[test]
fn octets_and_lists_hand_out_what_they_hold(rt: HostRuntime) -> Result<(), Fail> {
    assert!(rt; hold(rt.alloc(), b"abc")?);
    let avp = avp(rt.alloc(), 264, b"a")?;
    assert!(rt; is_held(rt.alloc(), &avp) == Ok(true));
    Ok(())
}
