//! AVPs of each type whose codes share their lowest bits, and of one code and two vendors: the data of each are judged
//! by its own type (RFC 6733, 4.2 to 4.4, 7.5).
use crate::told::{
    GOOD, Said, assert_said_of_one, codes, marked, put_definitions, put_entries, ruled,
};
use dm_dict::Dictionary;
use dm_wire::{Avp, Octets};
use std::process::Abort;

/// An AVP of each type, a second list, the same codes of a vendor with other types, and Failed-AVP with neighbours.
const DEFINITIONS: &str = "\
@ 2
@ Octets 6000 OctetString
@ Whole 6256 Integer32
@ LongWhole 6512 Integer64
@ Count 6768 Unsigned32
@ LongCount 7024 Unsigned64
@ Place 7280 Address
@ At 7536 Time
@ Words 7792 UTF8String
@ Host 8048 DiameterIdentity
@ Link 8304 DiameterURI
@ Choice 8560 Enumerated
@ Colour 8816 Enumerated { RED 0, BLUE 2 }
@ Taste 9072 Enumerated { SWEET 1, SOUR 3 }
@ Octets-V 6000 Unsigned64 99
@ Whole-V 6256 OctetString 99
@ LongCount-V 7024 Unsigned32 99
@ At-V 7536 UTF8String 99
@ Host-V 8048 Unsigned32 99
@ Colour-V 8816 Enumerated 99 { RED 1, BLUE 3 }
@ Taste-V 9072 Enumerated 99
@ Failed 279 Unsigned32
@ Failed-V 279 Unsigned32 99
@ Near 535 Unsigned32
@ Far 791 Unsigned64
";

const ENTRIES: &str = "\
 *[ Octets ] *[ Whole ] *[ LongWhole ] *[ Count ] *[ LongCount ] *[ Place ] *[ At ] *[ Words ] *[ Host ] *[ Link ] \
 *[ Choice ] *[ Colour ] *[ Taste ] *[ Octets-V ] *[ Whole-V ] *[ LongCount-V ] *[ At-V ] *[ Host-V ] *[ Colour-V ] \
 *[ Taste-V ] *[ Failed ] *[ Failed-V ] *[ Near ] *[ Far ]";

/// An AVP's code, vendor and data, and what is said of it.
type Row = (u32, Option<u32>, &'static [u8], &'static str);

const NUMBERS: &[Row] = &[
    (6256, None, b"\x80\x80\x80\x80", "good"),
    (6256, None, b"\x80\x80\x80", "bad 5014 6256 -M- 808080"),
    (6256, None, b"", "bad 5014 6256 -M- -"),
    (6512, None, b"\x80\x80\x80\x80\x80\x80\x80\x80", "good"),
    (
        6512,
        None,
        b"\x80\x80\x80\x80",
        "bad 5014 6512 -M- 80808080",
    ),
    (6768, None, b"\x80\x80\x80\x80", "good"),
    (
        6768,
        None,
        b"\x80\x80\x80\x80\x80",
        "bad 5014 6768 -M- 8080808080",
    ),
    (
        6768,
        None,
        b"\x01\x02\x03\x04\x05\x06\x07\x08",
        "bad 5014 6768 -M- 0102030405060708",
    ),
    (7024, None, b"\x80\x80\x80\x80\x80\x80\x80\x80", "good"),
    (
        7024,
        None,
        b"\x80\x80\x80\x80",
        "bad 5014 7024 -M- 80808080",
    ),
    (7536, None, b"\x80\x80\x80\x80", "good"),
    (7536, None, b"\x80\x80", "bad 5014 7536 -M- 8080"),
    (8560, None, b"\x00\x00\x00\x07", "good"),
    (8560, None, b"\x00\x00\x07", "bad 5014 8560 -M- 000007"),
];

const LISTS: &[Row] = &[
    (8816, None, b"\x00\x00\x00\x02", "good"),
    (
        8816,
        None,
        b"\x00\x00\x00\x01",
        "bad 5004 8816 -M- 00000001",
    ),
    (
        8816,
        None,
        b"\x80\x00\x00\x02",
        "bad 5004 8816 -M- 80000002",
    ),
    (8816, None, b"\x00\x02", "bad 5014 8816 -M- 0002"),
    (9072, None, b"\x00\x00\x00\x03", "good"),
    (
        9072,
        None,
        b"\x00\x00\x00\x02",
        "bad 5004 9072 -M- 00000002",
    ),
    (8816, Some(99), b"\x00\x00\x00\x03", "good"),
    (
        8816,
        Some(99),
        b"\x00\x00\x00\x02",
        "bad 5004 8816/99 VM- 00000002",
    ),
    (9072, Some(99), b"\x00\x00\x00\x02", "good"),
    (
        9072,
        Some(99),
        b"\x00\x00\x00",
        "bad 5014 9072/99 VM- 000000",
    ),
];

const TEXTS: &[Row] = &[
    (6000, None, b"", "good"),
    (6000, None, b"\xff\x00 ", "good"),
    (7280, None, b"\x00\x01\x7f\x00\x00\x01", "good"),
    (
        7280,
        None,
        b"\x00\x01\x7f\x00",
        "bad 5004 7280 -M- 00017f00",
    ),
    (7280, None, b"\x00", "bad 5014 7280 -M- 00"),
    (7792, None, b"", "good"),
    (7792, None, b"\xc3\xa9\xc3", "bad 5004 7792 -M- c3a9c3"),
    (8048, None, b"a.example", "good"),
    (
        8048,
        None,
        b"a example",
        "bad 5004 8048 -M- 61206578616d706c65",
    ),
    (8048, None, b"", "bad 5014 8048 -M- -"),
    (8304, None, b"aaa://h", "good"),
    (8304, None, b"aaa:/h", "bad 5014 8304 -M- 6161613a2f68"),
    (8304, None, b"aab://h", "bad 5004 8304 -M- 6161623a2f2f68"),
];

const VENDORS: &[Row] = &[
    (6000, Some(99), b"\x00\x00\x00\x00\x00\x00\x00\x01", "good"),
    (
        6000,
        Some(99),
        b"\x00\x00\x00\x01",
        "bad 5014 6000/99 VM- 00000001",
    ),
    (6256, Some(99), b"\x00", "good"),
    (7024, Some(99), b"\x00\x00\x00\x01", "good"),
    (
        7024,
        Some(99),
        b"\x00\x00\x00\x00\x00\x00\x00\x01",
        "bad 5014 7024/99 VM- 0000000000000001",
    ),
    (7536, Some(99), b"abc", "good"),
    (
        7536,
        Some(99),
        b"\xff\xff\xff\xff",
        "bad 5004 7536/99 VM- ffffffff",
    ),
    (8048, Some(99), b"a.ex", "good"),
    (
        8048,
        Some(99),
        b"a.example",
        "bad 5014 8048/99 VM- 612e6578616d706c65",
    ),
    (
        6768,
        Some(99),
        b"\x00\x00\x00\x01",
        "bad 5001 6768/99 VM- 00000001",
    ),
];

/// The data of Failed-AVP are free, and those of its neighbours aren't.
const FAILED: &[Row] = &[
    (279, None, b"a", "good"),
    (279, None, b"\x00\x00\x00\x01", "good"),
    (279, Some(99), b"\x00\x00\x00\x01", "good"),
    (279, Some(99), b"a", "bad 5014 279/99 VM- 61"),
    (535, None, b"\x00\x00\x00\x01", "good"),
    (535, None, b"a", "bad 5014 535 -M- 61"),
    (791, None, b"\x00\x00\x00\x01", "bad 5014 791 -M- 00000001"),
];

fn assert_rows(rt: &(impl Abort + AllocGlobal), dictionary: &Dictionary, rows: &[Row]) {
    for (code, vendor, data, words) in rows {
        let said = Said {
            words: *words,
            faults: usize::from(*words != "good"),
        };
        assert_said_of_one(rt, dictionary, marked(rt, *code, *vendor, data), said);
    }
}

/// A dictionary of all, behind so many other entries.
fn dictionary_behind(rt: &(impl Abort + AllocGlobal), before: u32) -> Dictionary {
    let others = codes(99_952, 256, before);
    let mut definitions = String::from_str(rt.alloc(), DEFINITIONS).expect(rt, "memory");
    put_definitions(rt, &mut definitions, &others, "Time");
    let mut entries = String::new(rt.alloc());
    put_entries(rt, &mut entries, &others, " 0*1 < ", " >");
    entries.push_str(ENTRIES).expect(rt, "memory");
    let dictionary = ruled(rt, definitions.as_str(), entries.as_str());
    drop(entries);
    drop(definitions);
    dictionary
}

/// AVPs that nobody defines, whose bits those of the rule have: of another code, another vendor, and of none.
const UNKNOWN: &[(u32, Option<u32>)] = &[
    (31_600, None),
    (6768, Some(99)),
    (6768, Some(0)),
    (535, Some(99)),
    (279, Some(0)),
    (0, None),
    (u32::MAX, Some(u32::MAX)),
];

/// Without M they pass, whatever their data are.
fn assert_unknown_passes(rt: &(impl Abort + AllocGlobal), dictionary: &Dictionary) {
    for (code, vendor) in UNKNOWN {
        let data = Octets::from_slice(rt.alloc(), b"a").expect(rt, "memory");
        let avp = Avp::new(*code, *vendor, false, data);
        assert_said_of_one(rt, dictionary, avp, GOOD);
    }
}

#[test]
fn data_are_judged_by_the_type_of_the_code_and_vendor(rt: HostRuntime) {
    for before in [0, 229, 230, 231, 300] {
        let dictionary = dictionary_behind(&rt, before);
        for rows in [NUMBERS, LISTS, TEXTS, VENDORS, FAILED] {
            assert_rows(&rt, &dictionary, rows);
        }
        assert_unknown_passes(&rt, &dictionary);
        drop(dictionary);
    }
}

/// A group that wants one Count, and one that allows any AVP, both with a neighbour's bits.
const GROUPS: &str = "\
@ Count 6768 Unsigned32
< Strict > ::= < AVP Header: 7024 > 1*1 { Count }
< Loose > ::= < AVP Header: 7280 > *[ AVP ]
< Failed-AVP > ::= < AVP Header: 279 > 1*{ AVP }
@ Near 535 Unsigned32
";

const GROUPED: &[Row] = &[
    (
        7024,
        None,
        b"\x00\x00\x1a\x70\x40\x00\x00\x0c\x00\x00\x00\x01",
        "good",
    ),
    (7024, None, b"", "bad 5005 6768 -M- 00000000"),
    (7024, None, b"\x00\x00\x00\x01", "bad 5014 7024 -M- -"),
    (
        7024,
        None,
        b"\x00\x00\x1a\x70\x40\x00\x00\x0c\x00\x00\x00\x01\x00\x00\x02\x17\x00\x00\x00\x0c\x00\x00\x00\x02",
        "bad 5008 535 --- 00000002",
    ),
    (
        7280,
        None,
        b"\x00\x00\x1a\x70\x40\x00\x00\x0b\x00\x00\x00\x00",
        "bad 5014 6768 -M- 000000",
    ),
    (7280, None, b"", "good"),
    (279, None, b"\x00\x00\x00\x01", "good"),
    (279, None, b"", "good"),
];

#[test]
fn groups_are_judged_by_their_own_rules(rt: HostRuntime) {
    let entries = " *[ Count ] *[ Strict ] *[ Loose ] *[ Failed-AVP ] *[ Near ]";
    let dictionary = ruled(&rt, GROUPS, entries);
    assert_rows(&rt, &dictionary, GROUPED);
    drop(dictionary);
}
