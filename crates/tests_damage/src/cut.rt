//! Messages that are cut.
use dm_wire::{Message, WireFault};
use std::alloc::Global;
use std::process::Abort;

/// A CER of a.example with two addresses and a group, of 172 octets.
const CAPABILITIES: &str =
    "010000ac800001010000000000000001000000010000010840000011612e6578616d706c65000000000001284000000f6578616d706c6500000001014000000e00017f0000010000000001014000001a00020000000000000000000000000000000100000000010a4000000c000000000000010d0000000e646d706565720000000001024000000c0000000400000104400000200000010a4000000c000028af000001024000000c01000023";

/// The octets of that message.
pub fn capabilities(rt: &(impl Abort + AllocGlobal)) -> Vec<u8> {
    hex::decode(rt.alloc(), CAPABILITIES.as_bytes()).expect(rt, "digits")
}

fn fault_of(alloc: Global, octets: &[u8]) -> Option<WireFault> {
    match Message::decode(alloc, octets) {
        Ok(_) => None,
        Err(fault) => Some(fault),
    }
}

/// Where the header ends, and each AVP but the last.
const ENDS: [usize; 8] = [20, 40, 56, 72, 100, 112, 128, 140];

/// What so many first octets are refused with, when they are the whole by their Message Length.
fn wanted(size: usize) -> Option<WireFault> {
    let mut last = 0usize;
    for end in ENDS {
        if end == size {
            return None;
        }
        if end < size {
            last = end;
        }
    }
    Some(WireFault::AvpLength(last))
}

/// So many first octets, that number as their Message Length.
fn whole(rt: &(impl Abort + AllocGlobal), octets: &[u8], size: u8) -> Vec<u8> {
    let front = &octets[..octets.len().min(usize::from(size))];
    let mut octets = Vec::from_slice(rt.alloc(), front).expect(rt, "memory");
    if let Some(length) = octets.get_mut(3) {
        *length = size;
    }
    octets
}

fn check_whole(rt: &(impl Abort + AllocGlobal), octets: &[u8], size: u8) {
    let cut = whole(rt, octets, size);
    let fault = fault_of(rt.alloc(), cut.as_slice());
    drop(cut);
    assert!(rt;
        fault == wanted(usize::from(size)),
        "{fault:?} of {size} octets"
    );
}

/// What the first octets are refused with, whose Message Length is another.
fn check_fronts(rt: &(impl Abort + AllocGlobal), octets: &[u8]) {
    for size in 0..octets.len() {
        let fault = fault_of(rt.alloc(), &octets[..size]);
        let wanted = if size < 20 {
            WireFault::TooShort
        } else {
            WireFault::Length
        };
        assert!(rt; fault == Some(wanted), "{fault:?} of {size} octets");
    }
}

#[test]
fn cut_messages(rt: HostRuntime) {
    let row = capabilities(&rt);
    check_fronts(&rt, row.as_slice());
}

#[test]
fn cut_messages_of_their_length(rt: HostRuntime) {
    let row = capabilities(&rt);
    for quarter in 5..43u8 {
        check_whole(&rt, row.as_slice(), quarter * 4);
    }
}
