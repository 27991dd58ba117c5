//! A message each octet of which takes each value.
use crate::cut::capabilities;
use dm_dict::{Dictionary, Verdict};
use dm_wire::{Message, MessageRef, WireFault};
use std::alloc::Global;
use std::process::Abort;

/// What comes of octets.
#[derive(Clone, Copy, PartialEq, Eq)]
enum Came {
    /// They are a message, and that is read and judged alike in both ways, and comes back from its own octets.
    Decoded,
    /// They are refused alike in both ways.
    Refused,
    /// They aren't told alike.
    Apart,
}

/// Whether the message comes back from its own octets.
fn comes_back(alloc: Global, message: &Message) -> bool {
    match message.encode(alloc) {
        Ok(octets) => match Message::decode(alloc, octets.as_slice()) {
            Ok(read) => read == *message,
            Err(_) => false,
        },
        Err(_) => false,
    }
}

/// The verdict of `judge`, where there is memory for it.
fn judged(alloc: Global, base: &Dictionary, message: &MessageRef<'_>) -> Option<Verdict> {
    base.judge(message).verdict(alloc).ok()
}

/// Whether `check` and `judge` say the same.
fn is_judged_alike(
    alloc: Global,
    base: &Dictionary,
    message: &Message,
    lent: &MessageRef<'_>,
) -> bool {
    match base.check(alloc, message) {
        Ok(verdict) => judged(alloc, base, lent) == Some(verdict),
        Err(_) => false,
    }
}

fn told_of(alloc: Global, base: &Dictionary, octets: &[u8]) -> Came {
    match (Message::decode(alloc, octets), MessageRef::read(octets)) {
        (Ok(message), Ok(lent)) => {
            if comes_back(alloc, &message) && is_judged_alike(alloc, base, &message, &lent) {
                Came::Decoded
            } else {
                Came::Apart
            }
        }
        (Err(fault), Err(other)) => {
            if fault == other && fault != WireFault::NoMemory {
                Came::Refused
            } else {
                Came::Apart
            }
        }
        _ => Came::Apart,
    }
}

/// How many are decoded and how many aren't told alike, of the octets with that of one place at each value.
fn counts_at(alloc: Global, base: &Dictionary, octets: &mut [u8], place: usize) -> (u32, u32) {
    let (mut decoded, mut apart) = (0u32, 0u32);
    for value in 0..=255u8 {
        if let Some(octet) = octets.get_mut(place) {
            *octet = value;
        }
        match told_of(alloc, base, octets) {
            Came::Decoded => decoded = decoded.saturating_add(1),
            Came::Refused => {}
            Came::Apart => apart = apart.saturating_add(1),
        }
    }
    (decoded, apart)
}

/// The same of a copy of the octets.
fn counts_of_copy(
    rt: &(impl Abort + AllocGlobal),
    base: &Dictionary,
    octets: &[u8],
    place: usize,
) -> (u32, u32) {
    let mut copy = Vec::from_slice(rt.alloc(), octets).expect(rt, "memory");
    let counts = counts_at(rt.alloc(), base, copy.as_mut_slice(), place);
    drop(copy);
    counts
}

/// The same of all places together.
fn counts(rt: &(impl Abort + AllocGlobal), base: &Dictionary, octets: &[u8]) -> (u32, u32) {
    let (mut decoded, mut apart) = (0u32, 0u32);
    for place in 0..octets.len() {
        let (more, further) = counts_of_copy(rt, base, octets, place);
        decoded = decoded.saturating_add(more);
        apart = apart.saturating_add(further);
    }
    (decoded, apart)
}

/// Of 44,032 changed messages 37,089 are messages.
#[test]
fn changed_messages(rt: HostRuntime) {
    let row = capabilities(&rt);
    let base = Dictionary::base(rt.alloc()).expect(&rt, "memory");
    let told = counts(&rt, &base, row.as_slice());
    drop(base);
    assert!(&rt; told == (37_089, 0), "{told:?}");
}
