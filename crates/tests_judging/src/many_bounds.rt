//! Bounds of entries at the ends of the counters' range, with as many AVPs and those beside (RFC 6733, 3.2): what
//! decides is the number of the AVPs, whatever counts them.
use crate::told::{
    Said, assert_said, assert_said_of_empty, codes, put_definitions, put_entries, ruled,
};
use dm_dict::Dictionary;
use std::process::Abort;

/// The AVP whose number is bounded.
const COUNTED: u32 = 5000;

/// The first AVP of the entries before it.
const BEFORE: u32 = 9000;

/// A dictionary whose rule has so many entries before that of the AVP with these bounds. Each of them allows one AVP.
fn rule_behind(
    rt: &(impl Abort + AllocGlobal),
    before: u32,
    bounds: &str,
    kind: &str,
) -> Dictionary {
    let others = codes(BEFORE, 1, before);
    let mut definitions = String::new(rt.alloc());
    put_definitions(rt, &mut definitions, &codes(COUNTED, 1, 1), kind);
    put_definitions(rt, &mut definitions, &others, kind);
    let mut entries = String::new(rt.alloc());
    put_entries(rt, &mut entries, &others, " 0*1 < ", " >");
    entries.push_str(" ").expect(rt, "memory");
    put_entries(rt, &mut entries, &codes(COUNTED, 1, 1), bounds, " ]");
    let dictionary = ruled(rt, definitions.as_str(), entries.as_str());
    drop(entries);
    drop(definitions);
    dictionary
}

/// The bounds of an entry, how many AVPs there are, the first fault, and how many.
type Row = (&'static str, u32, &'static str, usize);

/// Too few AVPs.
const LACKS: &str = "bad 5005 5000 -M- 00000000";

/// One row, behind so many entries.
fn assert_row(rt: &(impl Abort + AllocGlobal), before: u32, row: &Row) {
    let (bounds, count, words, faults) = *row;
    let dictionary = rule_behind(rt, before, bounds, "Unsigned32");
    let said = Said { words, faults };
    assert_said(rt, &dictionary, &[codes(COUNTED, 0, count)], said);
    drop(dictionary);
}

fn assert_rows(rt: &(impl Abort + AllocGlobal), before: u32, rows: &[Row]) {
    for row in rows {
        assert_row(rt, before, row);
    }
}

const MINIMA: &[Row] = &[
    ("0* [ ", 0, "good", 0),
    ("0* [ ", 65_537, "good", 0),
    ("1* [ ", 0, LACKS, 1),
    ("1* [ ", 1, "good", 0),
    ("1* [ ", 65_536, "good", 0),
    ("65534* [ ", 65_533, LACKS, 1),
    ("65534* [ ", 65_534, "good", 0),
    ("65534* [ ", 65_535, "good", 0),
    ("65534* [ ", 65_536, "good", 0),
    ("65535* [ ", 65_534, LACKS, 1),
    ("65535* [ ", 65_535, "good", 0),
    ("65535* [ ", 65_536, "good", 0),
    ("65536* [ ", 0, LACKS, 1),
    ("65536* [ ", 65_534, LACKS, 1),
    ("65536* [ ", 65_535, LACKS, 1),
    ("65536* [ ", 65_536, "good", 0),
    ("65536* [ ", 65_537, "good", 0),
    ("4294967295* [ ", 0, LACKS, 1),
    ("4294967295* [ ", 65_535, LACKS, 1),
    ("4294967295* [ ", 65_537, LACKS, 1),
];

const MAXIMA: &[Row] = &[
    ("*1 [ ", 0, "good", 0),
    ("*1 [ ", 1, "good", 0),
    ("*1 [ ", 2, "bad 5009 5000 -M- 00000001", 1),
    ("*1 [ ", 65_537, "bad 5009 5000 -M- 00000001", 1),
    ("*65534 [ ", 65_534, "good", 0),
    ("*65534 [ ", 65_535, "bad 5009 5000 -M- 0000fffe", 1),
    ("*65534 [ ", 65_537, "bad 5009 5000 -M- 0000fffe", 1),
    ("*65535 [ ", 65_534, "good", 0),
    ("*65535 [ ", 65_535, "good", 0),
    ("*65535 [ ", 65_536, "bad 5009 5000 -M- 0000ffff", 1),
    ("*65535 [ ", 65_537, "bad 5009 5000 -M- 0000ffff", 1),
    ("*65536 [ ", 65_535, "good", 0),
    ("*65536 [ ", 65_536, "good", 0),
    ("*65536 [ ", 65_537, "bad 5009 5000 -M- 00010000", 1),
    ("*4294967295 [ ", 0, "good", 0),
    ("*4294967295 [ ", 65_535, "good", 0),
    ("*4294967295 [ ", 65_537, "good", 0),
];

/// Both bounds, and an entry whose AVP may not stand.
const BOTH: &[Row] = &[
    ("65534*65534 [ ", 65_533, LACKS, 1),
    ("65534*65534 [ ", 65_534, "good", 0),
    ("65534*65534 [ ", 65_535, "bad 5009 5000 -M- 0000fffe", 1),
    ("65535*65535 [ ", 65_534, LACKS, 1),
    ("65535*65535 [ ", 65_535, "good", 0),
    ("65535*65535 [ ", 65_536, "bad 5009 5000 -M- 0000ffff", 1),
    ("65536*65536 [ ", 65_535, LACKS, 1),
    ("65536*65536 [ ", 65_536, "good", 0),
    ("65536*65536 [ ", 65_537, "bad 5009 5000 -M- 00010000", 1),
    ("65535*4294967295 [ ", 65_534, LACKS, 1),
    ("65535*4294967295 [ ", 65_537, "good", 0),
    ("4294967295*4294967295 [ ", 65_537, LACKS, 1),
    ("0*0 [ ", 0, "good", 0),
    ("0*0 [ ", 1, "bad 5008 5000 -M- 00000000", 1),
    ("0*0 [ ", 65_537, "bad 5008 5000 -M- 00000000", 65_537),
];

#[test]
fn minima_are_reached_by_as_many_avps(rt: HostRuntime) {
    assert_rows(&rt, 0, MINIMA);
}

#[test]
fn maxima_are_passed_by_one_avp_more(rt: HostRuntime) {
    assert_rows(&rt, 0, MAXIMA);
}

#[test]
fn both_bounds_hold(rt: HostRuntime) {
    assert_rows(&rt, 0, BOTH);
}

/// Behind entries that fill the lanes before it, the counters for few entries, those for many, and a window of them.
#[test]
fn bounds_hold_behind_other_entries(rt: HostRuntime) {
    for before in [7, 8, 31, 32, 253, 254, 255, 256, 4351, 4352] {
        assert_rows(&rt, before, &BOTH[3..9]);
    }
}

/// As many AVPs without data.
const EMPTY: &[Row] = &[
    ("65535*65536 [ ", 65_534, "bad 5005 5000 -M- -", 1),
    ("65535*65536 [ ", 65_535, "good", 0),
    ("65535*65536 [ ", 65_536, "good", 0),
    ("65535*65536 [ ", 65_537, "bad 5009 5000 -M- -", 1),
];

#[test]
fn avps_without_data_are_counted(rt: HostRuntime) {
    for (bounds, count, words, faults) in EMPTY {
        let dictionary = rule_behind(&rt, 0, bounds, "OctetString");
        let said = Said {
            words: *words,
            faults: *faults,
        };
        assert_said_of_empty(&rt, &dictionary, COUNTED, *count, said);
        drop(dictionary);
    }
}
