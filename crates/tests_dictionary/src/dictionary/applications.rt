//! Dictionaries of applications: which one judges a message (RFC 6733, 2.4), and lists that are open.
use super::rows::verdict_text;
use dm_dict::Dictionary;
use dm_dictionaries::Dictionaries;
use dm_wire::{Message, MessageRef};
use std::process::Abort;

/// The rule of command 9000 in application 4.
const OWN: &str =
    "@ 2 @ Color 7000 Enumerated { RED 1 } < Paint > ::= < Diameter Header: 9000, REQ > { Color } *[ AVP ]";

/// The rule of command 9000 in all others.
const OTHER: &str = "< Paint > ::= < Diameter Header: 9000, REQ > { Origin-Host } *[ AVP ]";

/// Messages of application 4.
const OWN_ROWS: &[(&str, &str)] = &[
    (
        "010000208000232800000004000000010000000100001b584000000c00000001",
        "good",
    ),
    (
        "010000208000232800000004000000010000000100001b584000000c00000002",
        "bad 5004 7000 -M- 00000002",
    ),
    (
        "01000028800023280000000400000001000000010000010840000011612e6578616d706c65000000",
        "bad 5005 7000 -M- 00000000",
    ),
];

/// Messages of other applications.
const OTHER_ROWS: &[(&str, &str)] = &[
    (
        "01000028800023280000000500000001000000010000010840000011612e6578616d706c65000000",
        "good",
    ),
    (
        "010000208000232800000005000000010000000100001b584000000c00000001",
        "bad 5001 7000 -M- 00000001",
    ),
    (
        "0100001480002328000000000000000100000001",
        "bad 5005 264 -M- 00",
    ),
];

/// Base messages with the Application-ID 4.
const BASE_ROWS: &[(&str, &str)] = &[
    (
        "01000038800001180000000400000001000000010000010840000011612e6578616d706c65000000000001284000000f6578616d706c6500",
        "good",
    ),
    (
        "01000044800001180000000400000001000000010000010840000011612e6578616d706c65000000000001284000000f6578616d706c650000001b584000000c00000001",
        "bad 5001 7000 -M- 00000001",
    ),
    (
        "0100001480000101000000040000000100000001",
        "bad 5005 264 -M- 00",
    ),
    (
        "010000388000011a0000000400000001000000010000010840000011612e6578616d706c65000000000001284000000f6578616d706c6500",
        "bad 5005 273 -M- 00000000",
    ),
];

/// Messages of application 4, whose lists are open.
const OPEN_ROWS: &[(&str, &str)] = &[
    (
        "010000208000232800000004000000010000000100001b584000000c00000002",
        "good",
    ),
    (
        "010000208000232800000004000000010000000100001b584000000c00000001",
        "good",
    ),
    (
        "010000248000232800000004000000010000000100001b584000000d0000000002000000",
        "bad 5014 7000 -M- 0000000002",
    ),
    (
        "01000028800023280000000400000001000000010000010840000011612e6578616d706c65000000",
        "bad 5005 7000 -M- 00000000",
    ),
];

/// Messages of application 4, which has no dictionary of its own.
const ALONE_ROWS: &[(&str, &str)] = &[
    (
        "01000028800023280000000400000001000000010000010840000011612e6578616d706c65000000",
        "good",
    ),
    (
        "010000208000232800000004000000010000000100001b584000000c00000001",
        "bad 5001 7000 -M- 00000001",
    ),
];

/// The text over the base dictionary.
fn read(rt: &(impl Abort + AllocGlobal), text: &str) -> Dictionary {
    let base = Dictionary::base(rt.alloc()).expect(rt, "a dictionary");
    let read = Dictionary::read(rt.alloc(), text.as_bytes(), &base);
    drop(base);
    read.expect(rt, "a dictionary")
}

/// One dictionary for all applications.
fn one(rt: &(impl Abort + AllocGlobal)) -> Dictionaries {
    Dictionaries::new(rt.alloc(), read(rt, OTHER)).expect(rt, "memory")
}

/// Application 4 has this one of its own.
fn set_own(rt: &(impl Abort + AllocGlobal), dictionaries: &mut Dictionaries, own: Dictionary) {
    dictionaries.set(4, own).expect(rt, "memory");
}

/// Its lists are open.
fn open(rt: &(impl Abort + AllocGlobal), own: Dictionary) -> Dictionary {
    let mut own = own;
    own.open_lists(rt.alloc());
    own
}

/// The verdict in words, which is that of the message where it lies too.
fn words(rt: &(impl Abort + AllocGlobal), dictionaries: &Dictionaries, octets: &[u8]) -> String {
    let message = Message::decode(rt.alloc(), octets).expect(rt, "a message");
    let verdict = dictionaries
        .check(rt.alloc(), &message)
        .expect(rt, "memory");
    let lying = MessageRef::read(octets).expect(rt, "a message");
    let judged = dictionaries.judge(&lying).verdict(rt.alloc());
    assert!(rt; judged.expect(rt, "memory") == verdict);
    verdict_text(rt, &verdict)
}

/// How many faults are listed, of the message and where it lies.
fn counted(rt: &(impl Abort + AllocGlobal), dictionaries: &Dictionaries, octets: &[u8]) -> usize {
    let message = Message::decode(rt.alloc(), octets).expect(rt, "a message");
    let faults = dictionaries
        .faults(rt.alloc(), &message)
        .expect(rt, "memory");
    let lying = MessageRef::read(octets).expect(rt, "a message");
    let listed = dictionaries
        .faults_in(rt.alloc(), &lying)
        .expect(rt, "memory");
    assert!(rt; faults.len() == listed.len());
    faults.len()
}

fn assert_rows(
    rt: &(impl Abort + AllocGlobal),
    dictionaries: &Dictionaries,
    rows: &[(&str, &str)],
) {
    for (message, want) in rows {
        let octets = hex::decode(rt.alloc(), message.as_bytes()).expect(rt, "hexadecimal");
        let words = words(rt, dictionaries, octets.as_slice());
        assert_eq!(rt; words.as_str(), *want, "of {message}");
        let good = counted(rt, dictionaries, octets.as_slice()) == 0;
        assert_eq!(rt; good, *want == "good", "of {message}");
    }
}

fn assert_of_two(rt: &(impl Abort + AllocGlobal), rows: &[(&str, &str)]) {
    let mut dictionaries = one(rt);
    set_own(rt, &mut dictionaries, read(rt, OWN));
    assert_rows(rt, &dictionaries, rows);
    drop(dictionaries);
}

fn assert_of_one(rt: &(impl Abort + AllocGlobal), rows: &[(&str, &str)]) {
    let dictionaries = one(rt);
    assert_rows(rt, &dictionaries, rows);
    drop(dictionaries);
}

fn assert_of_open(rt: &(impl Abort + AllocGlobal), rows: &[(&str, &str)]) {
    let mut dictionaries = one(rt);
    set_own(rt, &mut dictionaries, open(rt, read(rt, OWN)));
    assert_rows(rt, &dictionaries, rows);
    drop(dictionaries);
}

#[test]
fn own_dictionary_judges_its_application(rt: HostRuntime) {
    assert_of_two(&rt, OWN_ROWS);
}

#[test]
fn other_applications_are_judged_by_the_other(rt: HostRuntime) {
    assert_of_two(&rt, OTHER_ROWS);
}

#[test]
fn base_commands_are_judged_by_base_rules(rt: HostRuntime) {
    assert_of_two(&rt, BASE_ROWS);
}

#[test]
fn one_dictionary_judges_all(rt: HostRuntime) {
    assert_of_one(&rt, ALONE_ROWS);
    assert_of_one(&rt, OTHER_ROWS);
}

#[test]
fn open_lists_let_values_pass(rt: HostRuntime) {
    assert_of_open(&rt, OPEN_ROWS);
}
