//! Definitions behind more than two octets number: each is found at its place, and none that stands 65,536 before it.
use crate::told::{
    GOOD, Run, Said, assert_bad, assert_said, assert_said_of_one, codes, marked, one_of,
    put_definitions, put_entries, ruled,
};
use dm_dict::Dictionary;
use std::process::Abort;

const FIRST: u32 = 100_000;

/// How many are Unsigned32. Behind them 20 are Unsigned64.
const COUNT: u32 = 65_600;

/// So many from the place on, whose codes are so far apart.
fn from(step: u32, place: u32, count: u32) -> Run {
    codes(FIRST.wrapping_add(step.wrapping_mul(place)), step, count)
}

/// Its rule wants one of each of ten about the 65,536th, allows one of each of ten at the start, and of all of the last
/// twenty.
fn dictionary(rt: &(impl Abort + AllocGlobal), step: u32) -> Dictionary {
    let mut definitions = String::new(rt.alloc());
    put_definitions(rt, &mut definitions, &from(step, 0, COUNT), "Unsigned32");
    put_definitions(rt, &mut definitions, &from(step, COUNT, 20), "Unsigned64");
    let mut entries = String::new(rt.alloc());
    put_entries(rt, &mut entries, &from(step, 65_531, 10), " { ", " }");
    put_entries(rt, &mut entries, &from(step, 0, 10), " [ ", " ]");
    put_entries(rt, &mut entries, &from(step, COUNT, 20), " *[ ", " ]");
    let dictionary = ruled(rt, definitions.as_str(), entries.as_str());
    drop(entries);
    drop(definitions);
    dictionary
}

fn assert_counted(rt: &(impl Abort + AllocGlobal), dictionary: &Dictionary, step: u32) {
    let (wanted, free) = (from(step, 65_531, 10), from(step, 0, 10));
    assert_said(rt, dictionary, &[wanted], GOOD);
    assert_said(rt, dictionary, &[free, wanted], GOOD);
    for nth in 0..10 {
        let (late, early) = (one_of(&wanted, nth), one_of(&free, nth));
        assert_bad(rt, dictionary, &[wanted, late], 5009, &late, 10, 1);
        assert_bad(
            rt,
            dictionary,
            &[late, early],
            5005,
            &one_of(&wanted, u32::from(nth == 0)),
            0,
            9,
        );
        assert_bad(rt, dictionary, &[free, wanted, early], 5009, &early, 20, 1);
    }
}

/// What no entry names, and what has another type than what stands 65,536 before it.
fn assert_known(rt: &(impl Abort + AllocGlobal), dictionary: &Dictionary, step: u32) {
    let wanted = from(step, 65_531, 10);
    for place in [10, 63, 64, 65_530, 65_541, 65_599] {
        let unlisted = from(step, place, 1);
        assert_bad(rt, dictionary, &[wanted, unlisted], 5008, &unlisted, 10, 1);
    }
    for nth in 0..20 {
        let long = from(step, COUNT.saturating_add(nth), 1);
        assert_bad(rt, dictionary, &[wanted, long], 5014, &long, 10, 1);
    }
    let unknown = from(step, COUNT.saturating_add(20), 1);
    assert_bad(rt, dictionary, &[wanted, unknown], 5001, &unknown, 10, 1);
}

fn assert_late(rt: &(impl Abort + AllocGlobal), step: u32) {
    let dictionary = dictionary(rt, step);
    assert_counted(rt, &dictionary, step);
    assert_known(rt, &dictionary, step);
    drop(dictionary);
}

#[test]
fn late_definitions_are_found(rt: HostRuntime) {
    assert_late(&rt, 1);
}

#[test]
fn late_definitions_of_codes_that_share_nine_bits_are_found(rt: HostRuntime) {
    assert_late(&rt, 512);
}

/// Late definitions whose lowest bits no earlier code has: a group, and what it holds.
const LAST: &str = "\
@ Held 77 Unsigned32
< Holder > ::= < AVP Header: 78 > 2*2 { Held }
";

/// The group that is defined last, of two of what is defined before it.
fn holder(rt: &(impl Abort + AllocGlobal)) -> Dictionary {
    let mut definitions = String::new(rt.alloc());
    put_definitions(
        rt,
        &mut definitions,
        &codes(512_000, 512, COUNT),
        "Unsigned32",
    );
    definitions.push_str(LAST).expect(rt, "memory");
    let dictionary = ruled(rt, definitions.as_str(), " 1*{ Holder } *[ Held ]");
    drop(definitions);
    dictionary
}

/// Data of the group, and what is said of it.
const HELD: &[(&[u8], Said<'static>)] = &[
    (
        b"\x00\x00\x00\x4d\x40\x00\x00\x0c\x00\x00\x00\x01\x00\x00\x00\x4d\x40\x00\x00\x0c\x00\x00\x00\x02",
        GOOD,
    ),
    (
        b"\x00\x00\x00\x4d\x40\x00\x00\x0c\x00\x00\x00\x01",
        Said {
            words: "bad 5005 77 -M- 00000000",
            faults: 1,
        },
    ),
    (
        b"\x00\x00\x00\x4d\x40\x00\x00\x0c\x00\x00\x00\x01\x00\x00\x00\x4d\x40\x00\x00\x0a\x00\x00\x00\x00",
        Said {
            words: "bad 5014 77 -M- 0000",
            faults: 1,
        },
    ),
    (
        b"\x00\x00\x00\x01",
        Said {
            words: "bad 5014 78 -M- -",
            faults: 1,
        },
    ),
];

#[test]
fn a_late_group_has_its_own_rule(rt: HostRuntime) {
    let dictionary = holder(&rt);
    for (data, said) in HELD {
        assert_said_of_one(&rt, &dictionary, marked(&rt, 78, None, data), *said);
    }
    drop(dictionary);
}
