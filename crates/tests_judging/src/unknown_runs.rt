//! AVPs without definition, alone and in runs, before, between and behind others: each counts where `AVP` stands, up to
//! its maximum, and one that is mandatory ends what is good.
use crate::told::{Said, assert_both, codes, plain_request, put_definitions, ruled};
use dm_dict::Dictionary;
use dm_wire::{Avp, Octets};
use std::process::Abort;

/// Letters, what is said of their AVPs, and how many faults these have.
type Row = (&'static [u8], &'static str, usize);

/// Three definitions, A1000, A2000 and A3000, and a rule of these entries.
fn dictionary(rt: &(impl Abort + AllocGlobal), entries: &str) -> Dictionary {
    let mut definitions = String::new(rt.alloc());
    put_definitions(rt, &mut definitions, &codes(1000, 1000, 3), "Unsigned32");
    let dictionary = ruled(rt, definitions.as_str(), entries);
    drop(definitions);
    dictionary
}

/// The code, the vendor and the M bit of what a letter stands for: of `k`, `f` and `x` the three that are defined, of
/// `s` and `v` codes whose lowest bits the first one's has, the latter a vendor's own, of `m` one that is mandatory.
fn of_letter(letter: u8) -> (u32, Option<u32>, bool) {
    match letter {
        b'k' => (1000, None, true),
        b'f' => (2000, None, true),
        b'x' => (3000, None, true),
        b's' => (1512, None, false),
        b'v' => (1000, Some(9), false),
        b'm' => (70001, None, true),
        _ => (70000, None, false),
    }
}

/// The AVPs that the letters stand for; the data of each is its place among them.
fn avps_of(rt: &(impl Abort + AllocGlobal), letters: &[u8]) -> Vec<Avp> {
    let mut avps = Vec::new(rt.alloc());
    let mut place: u32 = 0;
    for letter in letters {
        let (code, vendor, mandatory) = of_letter(*letter);
        let data = Octets::from_slice(rt.alloc(), &place.to_be_bytes()).expect(rt, "memory");
        avps.push(Avp::new(code, vendor, mandatory, data))
            .expect(rt, "memory");
        place = place.wrapping_add(1);
    }
    avps
}

/// All calls say of the AVPs of each row, and of the group of them, what stands beside it.
fn assert_rows(rt: &(impl Abort + AllocGlobal), entries: &str, rows: &[Row]) -> usize {
    let dictionary = dictionary(rt, entries);
    for (letters, words, faults) in rows {
        let message = plain_request(avps_of(rt, letters));
        let said = Said {
            words,
            faults: *faults,
        };
        assert_both(rt, &dictionary, &message, said);
        drop(message);
    }
    drop(dictionary);
    rows.len()
}

/// One to three may stand at `AVP`.
const BOUNDED: &[Row] = &[
    (b"ku", "good", 0),
    (b"uk", "good", 0),
    (b"kuuu", "good", 0),
    (b"uuuk", "good", 0),
    (b"uukuf", "good", 0),
    (b"fufufuk", "good", 0),
    (b"suvk", "good", 0),
    (b"kxus", "good", 0),
    (b"kuuuu", "bad 5009 70000 --- 00000004", 1),
    (b"uuuuk", "bad 5009 70000 --- 00000003", 1),
    (b"uukuu", "bad 5009 70000 --- 00000004", 1),
    (b"suvsk", "bad 5009 1512 --- 00000003", 1),
    (b"usuvk", "bad 5009 1000/9 V-- 00000003", 1),
    (b"uusxk", "bad 5009 3000 -M- 00000003", 1),
    (b"fuuufufuk", "bad 5009 70000 --- 00000005", 1),
    (b"uuu", "bad 5005 1000 -M- 00000000", 1),
    (b"kuumu", "bad 5001 70001 -M- 00000003", 2),
    (b"mk", "bad 5001 70001 -M- 00000000", 1),
    (b"uukmm", "bad 5001 70001 -M- 00000003", 3),
    (b"kuk", "bad 5009 1000 -M- 00000002", 1),
];

/// Any number may.
const FREE: &[Row] = &[
    (b"k", "good", 0),
    (b"uuuuuuuuuuuuuuuukuuuuuuuuuuuuuuuusvusvusvx", "good", 0),
    (b"uuuusuuuum", "bad 5001 70001 -M- 00000009", 2),
    (b"uuuukuuuuk", "bad 5009 1000 -M- 00000009", 1),
];

/// No `AVP` stands there: what has no definition passes all the same.
const NONE: &[Row] = &[
    (b"k", "good", 0),
    (b"uuuskvuuu", "good", 0),
    (b"uuukuxu", "bad 5008 3000 -M- 00000005", 1),
    (b"kuuumu", "bad 5001 70001 -M- 00000004", 1),
];

#[test]
fn unknown_avps_count_where_avp_has_bounds(rt: HostRuntime) {
    let rows = assert_rows(&rt, " { A1000 } *[ A2000 ] 1*3 [ AVP ]", BOUNDED);
    assert_eq!(rt; rows, 20);
}

#[test]
fn unknown_avps_pass_where_avp_has_none(rt: HostRuntime) {
    let rows = assert_rows(&rt, " { A1000 } *[ A2000 ] *[ AVP ]", FREE);
    assert_eq!(rt; rows, 4);
}

#[test]
fn unknown_avps_pass_where_no_avp_stands(rt: HostRuntime) {
    let rows = assert_rows(&rt, " { A1000 } *[ A2000 ]", NONE);
    assert_eq!(rt; rows, 4);
}
