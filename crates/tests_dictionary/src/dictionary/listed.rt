//! All faults of a message, listed (RFC 6733, 7).
use super::types::TYPES;
use dm_dict::{Dictionary, Failed, Fault, LocatedFault};
use dm_wire::{Message, MessageRef};
use std::process::Abort;

/// A Device-Watchdog-Request without AVPs.
const WITHOUT_AVPS: &str = "0100001480000118000000000000000100000001";

/// A Device-Watchdog-Request of a.example.
const GOOD: &str =
    "01000038800001180000000000000001000000010000010840000011612e6578616d706c65000000000001284000000f6578616d706c6500";

/// The Result-Codes, and the AVPs that are lacking.
const LACKS_BOTH: &[(u32, u32)] = &[(5005, 264), (5005, 296)];

/// Whether the fault has this Result-Code, and an example of this AVP.
fn is_lacking(fault: &Fault<'_>, code: u32, lacking: u32) -> bool {
    match fault.failed {
        Failed::Example { code: avp, .. } => fault.code == code && avp == lacking,
        _ => false,
    }
}

fn are_lacking(faults: &[Fault<'_>], rows: &[(u32, u32)]) -> bool {
    if faults.len() != rows.len() {
        return false;
    }
    for (fault, (code, lacking)) in faults.iter().zip(rows) {
        if !is_lacking(fault, *code, *lacking) {
            return false;
        }
    }
    true
}

fn assert_in_octets(
    rt: &(impl Abort + AllocGlobal),
    base: &Dictionary,
    digits: &str,
    rows: &[(u32, u32)],
) {
    let octets = hex::decode(rt.alloc(), digits.as_bytes()).expect(rt, "hexadecimal");
    let message = MessageRef::read(octets.as_slice()).expect(rt, "a message");
    let faults = base.faults_in(rt.alloc(), &message).expect(rt, "memory");
    assert!(rt; are_lacking(faults.as_slice(), rows));
}

fn assert_decoded(
    rt: &(impl Abort + AllocGlobal),
    base: &Dictionary,
    digits: &str,
    rows: &[(u32, u32)],
) {
    let octets = hex::decode(rt.alloc(), digits.as_bytes()).expect(rt, "hexadecimal");
    let message = Message::decode(rt.alloc(), octets.as_slice()).expect(rt, "a message");
    let faults = base.faults(rt.alloc(), &message).expect(rt, "memory");
    assert!(rt; are_lacking(faults.as_slice(), rows));
}

fn assert_listed(rt: &(impl Abort + AllocGlobal)) {
    let base = Dictionary::base(rt.alloc()).expect(rt, "a dictionary");
    assert_in_octets(rt, &base, WITHOUT_AVPS, LACKS_BOTH);
    assert_decoded(rt, &base, WITHOUT_AVPS, LACKS_BOTH);
    assert_in_octets(rt, &base, GOOD, &[]);
    assert_decoded(rt, &base, GOOD, &[]);
}

/// Each AVP that a message lacks is a fault, in the order of its command's rule; a good message has none.
#[test]
fn all_faults_are_listed(rt: HostRuntime) {
    assert_listed(&rt);
}

/// A Device-Watchdog-Request with two Vendor-Specific-Application-Id behind two AVPs; in the second stands a
/// Result-Code, which may not.
const IN_GROUP: &str =
    "01000078800001180000000000000001000000010000010840000011612e6578616d706c65000000000001284000000f6578616d706c650000000104400000200000010a4000000c00000000000001024000000c0000000100000104400000200000010a4000000c000000000000010c4000000c000007d1";

/// Whether there is one fault, of this Result-Code, inside the nth group of this code alone.
fn is_inside(located: &[LocatedFault<'_>], code: u32, nth: usize, group: u32) -> bool {
    match located {
        [one] => match one.path.as_slice() {
            [step] => one.fault.code == code && step.nth == nth && step.code == group,
            _ => false,
        },
        _ => false,
    }
}

fn assert_located(rt: &(impl Abort + AllocGlobal), base: &Dictionary, octets: &[u8]) {
    let message = Message::decode(rt.alloc(), octets).expect(rt, "a message");
    let held = base.located(rt.alloc(), &message).expect(rt, "memory");
    assert!(rt; is_inside(held.as_slice(), 5008, 2, 260));
    let lying = MessageRef::read(octets).expect(rt, "a message");
    let located = base.located_in(rt.alloc(), &lying).expect(rt, "memory");
    assert!(rt; is_inside(located.as_slice(), 5008, 2, 260));
}

/// A fault inside a group has the group's occurrence and code.
#[test]
fn faults_have_their_groups(rt: HostRuntime) {
    let base = Dictionary::base(rt.alloc()).expect(&rt, "a dictionary");
    let octets = hex::decode(rt.alloc(), IN_GROUP.as_bytes()).expect(&rt, "hexadecimal");
    assert_located(&rt, &base, octets.as_slice());
}

/// A request that wants 6001, an AVP that may be empty, without it.
const WITHOUT_OCTETS: &str = "010000148000012d000000000000000100000001";

/// The same with an empty 6001, and behind it an empty 6008, which its rule doesn't allow.
const OCTETS_AND_WORDS: &str =
    "010000248000012d00000000000000010000000100001771400000080000177840000008";

fn dictionary_of_types(rt: &(impl Abort + AllocGlobal)) -> Dictionary {
    let empty = Dictionary::empty(rt.alloc());
    let read = Dictionary::read(rt.alloc(), TYPES.as_bytes(), &empty);
    drop(empty);
    read.expect(rt, "a dictionary")
}

/// Whether the fault has this Result-Code, and this AVP of the message, which is empty.
fn is_found_empty(fault: &Fault<'_>, code: u32, found: u32) -> bool {
    match fault.failed {
        Failed::Found(avp) => fault.code == code && avp.code == found && avp.bytes.is_empty(),
        _ => false,
    }
}

/// Whether there is one fault, and it is so.
fn is_one_found_empty(faults: &[Fault<'_>], code: u32, found: u32) -> bool {
    match faults {
        [one] => is_found_empty(one, code, found),
        _ => false,
    }
}

fn assert_found_empty(rt: &(impl Abort + AllocGlobal), types: &Dictionary) {
    let octets = hex::decode(rt.alloc(), OCTETS_AND_WORDS.as_bytes()).expect(rt, "hexadecimal");
    let message = MessageRef::read(octets.as_slice()).expect(rt, "a message");
    let faults = types.faults_in(rt.alloc(), &message).expect(rt, "memory");
    assert!(rt; is_one_found_empty(faults.as_slice(), 5008, 6008));
}

/// An AVP that is missing is told as an example, also where it has no octets and looks like one that came.
#[test]
fn empty_avps_that_lack_or_stand(rt: HostRuntime) {
    let types = dictionary_of_types(&rt);
    assert_in_octets(&rt, &types, WITHOUT_OCTETS, &[(5005, 6001)]);
    assert_decoded(&rt, &types, WITHOUT_OCTETS, &[(5005, 6001)]);
    assert_found_empty(&rt, &types);
    drop(types);
}
