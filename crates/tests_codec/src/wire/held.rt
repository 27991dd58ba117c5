//! Messages held as they came.

use super::{BAD_AVP_LENGTH, FREE_BITS, WATCHDOG_REQUEST};
use dm_wire::{AvpRef, AvpsRef, Message, MessageBuf};
use std::alloc::{AllocError, Global};

/// A request with a vendor's AVP that has the code of Origin-Host, in front of it, and two Origin-Realms without data.
const TWO_OF_A_CODE: [u8; 72] = [
    0x01, 0x00, 0x00, 0x48, 0x80, 0x00, 0x01, 0x18, 0x00, 0x00, 0x00, 0x00, 0x00, 0x00, 0x00, 0x01,
    0x00, 0x00, 0x00, 0x01, 0x00, 0x00, 0x01, 0x08, 0xc0, 0x00, 0x00, 0x0d, 0x00, 0x00, 0x28, 0xaf,
    0x78, 0x00, 0x00, 0x00, 0x00, 0x00, 0x01, 0x08, 0x40, 0x00, 0x00, 0x11, 0x61, 0x2e, 0x65, 0x78,
    0x61, 0x6d, 0x70, 0x6c, 0x65, 0x00, 0x00, 0x00, 0x00, 0x00, 0x01, 0x28, 0x40, 0x00, 0x00, 0x08,
    0x00, 0x00, 0x01, 0x28, 0x00, 0x00, 0x00, 0x08,
];

fn vec_of(alloc: Global, octets: &[u8]) -> Result<Vec<u8>, AllocError> {
    let mut copy = Vec::new(alloc);
    copy.extend_from_slice(octets)?;
    Ok(copy)
}

fn is_same(one: AvpRef<'_>, other: AvpRef<'_>) -> bool {
    one.code == other.code
        && one.vendor == other.vendor
        && one.mandatory == other.mandatory
        && one.protected == other.protected
        && one.bytes == other.bytes
}

/// Whether the AVPs that are held, by their numbers, are those of the message.
fn has_the_avps(held: &MessageBuf, message: &Message) -> bool {
    let mut left = AvpsRef::Held(message.avps.as_slice());
    for index in 0..held.len() {
        match (held.get(index), left.split_first()) {
            (Some(avp), Some((first, rest))) if is_same(avp, first) => left = rest,
            _ => return false,
        }
    }
    left.split_first().is_none() && held.get(held.len()).is_none()
}

/// Whether the octets are held as they are decoded, or refused alike.
fn is_held_as_decoded(alloc: Global, octets: &[u8], copy: Vec<u8>) -> bool {
    match MessageBuf::new(alloc, copy) {
        Ok(held) => match Message::decode(alloc, octets) {
            Ok(message) => {
                held.header() == message.header
                    && held.octets() == octets
                    && held.borrowed().rest == &octets[20..]
                    && has_the_avps(&held, &message)
            }
            Err(_) => false,
        },
        Err(fault) => Message::decode(alloc, octets).err() == Some(fault),
    }
}

#[test]
fn messages_are_held_as_decoded(rt: HostRuntime) {
    let rows = [
        WATCHDOG_REQUEST.as_slice(),
        &WATCHDOG_REQUEST[..19],
        FREE_BITS.as_slice(),
        BAD_AVP_LENGTH.as_slice(),
        TWO_OF_A_CODE.as_slice(),
        &[],
    ];
    for row in &rows {
        let copy = vec_of(rt.alloc(), row).expect(&rt, "memory");
        assert!(rt; is_held_as_decoded(rt.alloc(), row, copy));
    }
}

#[test]
fn avps_are_found_in_what_is_held(rt: HostRuntime) {
    let copy = vec_of(rt.alloc(), &TWO_OF_A_CODE).expect(&rt, "memory");
    let held = MessageBuf::new(rt.alloc(), copy).expect(&rt, "memory");
    assert!(rt; held.len() == 4);
    assert!(rt; held.avp(264, None).map(|avp| avp.bytes.len()) == Some(9));
    assert!(rt; held.avp(264, Some(10415)).map(|avp| avp.bytes.len()) == Some(1));
    assert!(rt; held.avp(296, None).map(|avp| avp.mandatory) == Some(true));
    assert!(rt; held.avp(296, Some(10415)).is_none());
    assert!(rt; held.avp(265, None).is_none());
    assert!(rt; held.into_octets().as_slice() == TWO_OF_A_CODE.as_slice());
}
