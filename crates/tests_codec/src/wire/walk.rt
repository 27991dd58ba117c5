//! What a walk tells, and what is read where it lies.

use super::{BAD_AVP_LENGTH, FREE_BITS, WATCHDOG_REQUEST};
use dm_wire::{
    Avp, AvpRef, AvpWalk, AvpsRef, Message, MessageRef, WireFault, decode_avps, spells_avps,
};
use std::alloc::Global;

fn is_same(one: AvpRef<'_>, other: AvpRef<'_>) -> bool {
    one.code == other.code
        && one.vendor == other.vendor
        && one.mandatory == other.mandatory
        && one.protected == other.protected
        && one.bytes == other.bytes
}

/// Whether a walk over the octets gives just these AVPs.
fn is_walk_of(octets: &[u8], avps: &[Avp]) -> bool {
    let mut left = AvpsRef::Held(avps);
    for read in AvpWalk::new(octets) {
        match (read, left.split_first()) {
            (Ok(avp), Some((held, rest))) if is_same(avp, held) => left = rest,
            _ => return false,
        }
    }
    left.split_first().is_none()
}

/// The offset that stops a walk.
fn stop_of(octets: &[u8]) -> Option<usize> {
    for read in AvpWalk::new(octets) {
        if let Err(offset) = read {
            return Some(offset);
        }
    }
    None
}

/// Whether a walk over the octets tells what they are decoded as.
fn walks_as_decoded(alloc: Global, octets: &[u8]) -> bool {
    match decode_avps(alloc, octets) {
        Ok(avps) => is_walk_of(octets, avps.as_slice()) && spells_avps(octets),
        Err(WireFault::AvpLength(offset)) => {
            stop_of(octets) == Some(offset) && !spells_avps(octets)
        }
        Err(_) => false,
    }
}

/// Whether what is read where it lies is what is decoded.
fn reads_as_decoded(alloc: Global, octets: &[u8]) -> bool {
    match Message::decode(alloc, octets) {
        Ok(message) => match MessageRef::read(octets) {
            Ok(read) => {
                read.header == message.header && is_walk_of(read.rest, message.avps.as_slice())
            }
            Err(_) => false,
        },
        Err(fault) => match MessageRef::read(octets) {
            Ok(_) => false,
            Err(other) => other == fault,
        },
    }
}

/// A message without AVPs.
const HEADER_ALONE: [u8; 20] = [
    0x01, 0x00, 0x00, 0x14, 0x80, 0x00, 0x01, 0x18, 0x00, 0x00, 0x00, 0x00, 0x00, 0x00, 0x00, 0x01,
    0x00, 0x00, 0x00, 0x01,
];

#[test]
fn walk_read_and_decode_tell_the_same(rt: HostRuntime) {
    let rows = [
        WATCHDOG_REQUEST.as_slice(),
        &WATCHDOG_REQUEST[..19],
        &WATCHDOG_REQUEST[..55],
        FREE_BITS.as_slice(),
        BAD_AVP_LENGTH.as_slice(),
        HEADER_ALONE.as_slice(),
        &[],
    ];
    for row in &rows {
        assert!(rt; reads_as_decoded(rt.alloc(), row));
        assert!(rt; walks_as_decoded(rt.alloc(), row));
        let behind = row.len().min(20);
        assert!(rt; walks_as_decoded(rt.alloc(), &row[behind..]));
    }
}

#[test]
fn a_walk_ends_at_a_bad_avp(rt: HostRuntime) {
    let mut walk = AvpWalk::new(&BAD_AVP_LENGTH[20..]);
    assert!(rt; matches!(walk.next(), Some(Err(0))));
    assert!(rt; walk.next().is_none());
    assert!(rt; MessageRef::read(&BAD_AVP_LENGTH).err() == Some(WireFault::AvpLength(20)));
    assert!(rt; is_walk_of(&WATCHDOG_REQUEST[20..], &[]) == false);
}
