//! Rules of as many entries as are looked up or counted in one way, and of more: each AVP is found at its entry and
//! counted there (RFC 6733, 3.2), in whatever order they come.
use crate::told::{
    GOOD, Run, Said, assert_bad, assert_said, assert_said_deep, code_of, codes, one_of,
    put_definitions, put_entries, reversed, ruled, words_of,
};
use dm_dict::Dictionary;
use std::process::Abort;

/// The code of the first AVP.
const FIRST: u32 = 80_000;

/// A dictionary of these AVPs and two more, whose rule wants one of each of those that are listed, in this order, by a
/// fixed or a required entry, and has this behind them.
fn rule_of(
    rt: &(impl Abort + AllocGlobal),
    defined: &Run,
    listed: &Run,
    is_fixed: bool,
    last: &str,
) -> Dictionary {
    let mut definitions = String::new(rt.alloc());
    put_definitions(rt, &mut definitions, defined, "Unsigned32");
    put_definitions(rt, &mut definitions, &others(listed), "Unsigned32");
    let mut entries = String::new(rt.alloc());
    let (front, back) = if is_fixed {
        (" < ", " >")
    } else {
        (" { ", " }")
    };
    put_entries(rt, &mut entries, listed, front, back);
    entries.push_str(last).expect(rt, "memory");
    let dictionary = ruled(rt, definitions.as_str(), entries.as_str());
    drop(entries);
    drop(definitions);
    dictionary
}

/// The two more.
fn others(listed: &Run) -> Run {
    codes(code_of(listed, listed.count), listed.step, 2)
}

/// All but the first, and all but the last.
fn without_first(listed: &Run) -> Run {
    codes(
        code_of(listed, 1),
        listed.step,
        listed.count.saturating_sub(1),
    )
}

fn without_last(listed: &Run) -> Run {
    codes(listed.first, listed.step, listed.count.saturating_sub(1))
}

/// One AVP of each entry is good, in whatever order.
fn assert_full(rt: &(impl Abort + AllocGlobal), dictionary: &Dictionary, listed: &Run) {
    assert_said(rt, dictionary, &[*listed], GOOD);
    assert_said(rt, dictionary, &[reversed(listed)], GOOD);
    let last = one_of(listed, listed.count.saturating_sub(1));
    assert_said(rt, dictionary, &[last, without_last(listed)], GOOD);
}

/// Where there is none, the first or the last alone, or one is missing, each missing one is told.
fn assert_lacking(rt: &(impl Abort + AllocGlobal), dictionary: &Dictionary, listed: &Run) {
    let size = listed.count;
    let most = size.saturating_sub(1);
    let (first, last) = (one_of(listed, 0), one_of(listed, most));
    assert_bad(rt, dictionary, &[], 5005, &first, 0, size);
    assert_bad(rt, dictionary, &[first], 5005, &one_of(listed, 1), 0, most);
    assert_bad(rt, dictionary, &[last], 5005, &first, 0, most);
    assert_bad(rt, dictionary, &[without_first(listed)], 5005, &first, 0, 1);
    assert_bad(rt, dictionary, &[without_last(listed)], 5005, &last, 0, 1);
}

/// Where the first or the last stands twice, the second is told, and where both do, that of the first entry.
fn assert_exceeding(rt: &(impl Abort + AllocGlobal), dictionary: &Dictionary, listed: &Run) {
    let size = listed.count;
    let (first, last) = (one_of(listed, 0), one_of(listed, size.saturating_sub(1)));
    assert_bad(rt, dictionary, &[*listed, first], 5009, &first, size, 1);
    assert_bad(rt, dictionary, &[*listed, last], 5009, &last, size, 1);
    assert_bad(rt, dictionary, &[last, *listed], 5009, &last, size, 1);
    let runs = [*listed, last, last, first];
    let at = size.saturating_add(2);
    assert_bad(rt, dictionary, &runs, 5009, &first, at, 2);
}

/// An AVP that no entry names isn't allowed, and is told before what is missing; nor is one known that isn't defined.
fn assert_unlisted(rt: &(impl Abort + AllocGlobal), dictionary: &Dictionary, listed: &Run) {
    let size = listed.count;
    let other = others(listed);
    let second = one_of(&other, 1);
    assert_bad(rt, dictionary, &[*listed, other], 5008, &other, size, 2);
    let runs = [without_last(listed), second];
    assert_bad(
        rt,
        dictionary,
        &runs,
        5008,
        &second,
        size.saturating_sub(1),
        2,
    );
    let unknown = one_of(&other, 2);
    assert_bad(rt, dictionary, &[*listed, unknown], 5001, &unknown, size, 1);
}

/// A rule that wants one of each of the AVPs, in this order.
fn assert_each_wanted(
    rt: &(impl Abort + AllocGlobal),
    defined: &Run,
    listed: &Run,
    is_fixed: bool,
) {
    let dictionary = rule_of(rt, defined, listed, is_fixed, "");
    assert_full(rt, &dictionary, listed);
    assert_lacking(rt, &dictionary, listed);
    assert_exceeding(rt, &dictionary, listed);
    assert_unlisted(rt, &dictionary, listed);
    drop(dictionary);
}

/// The same of AVPs whose codes are so far apart, in the order of their definitions.
fn assert_in_order(rt: &(impl Abort + AllocGlobal), step: u32, size: u32) {
    let defined = codes(FIRST, step, size);
    assert_each_wanted(rt, &defined, &defined, false);
}

/// Rules of about as many entries as eights have, as few counters do for, and as one octet tells.
const SIZES: &[u32] = &[2, 7, 8, 9, 15, 16, 17, 31, 32, 33, 253, 254, 255, 256, 257];

#[test]
fn each_entry_counts_its_own_avp(rt: HostRuntime) {
    for size in SIZES {
        assert_in_order(&rt, 1, *size);
    }
}

#[test]
fn each_entry_counts_its_own_avp_in_the_contrary_order(rt: HostRuntime) {
    for size in SIZES {
        let defined = codes(FIRST, 1, *size);
        assert_each_wanted(&rt, &defined, &reversed(&defined), false);
    }
}

/// Where an AVP of a fixed entry stands isn't looked at.
#[test]
fn each_fixed_entry_counts_its_own_avp(rt: HostRuntime) {
    for size in SIZES {
        let defined = codes(FIRST, 1, *size);
        assert_each_wanted(&rt, &defined, &reversed(&defined), true);
    }
}

#[test]
fn each_entry_counts_its_own_avp_where_codes_share_eight_bits(rt: HostRuntime) {
    for size in SIZES {
        assert_in_order(&rt, 256, *size);
    }
}

#[test]
fn each_entry_counts_its_own_avp_where_codes_share_nine_bits(rt: HostRuntime) {
    for size in SIZES {
        assert_in_order(&rt, 512, *size);
    }
}

#[test]
fn each_of_4352_entries_counts_its_own_avp(rt: HostRuntime) {
    assert_in_order(&rt, 1, 4352);
}

#[test]
fn each_of_4353_entries_counts_its_own_avp(rt: HostRuntime) {
    assert_in_order(&rt, 1, 4353);
    assert_in_order(&rt, 256, 4353);
}

#[test]
fn each_of_40000_entries_counts_its_own_avp(rt: HostRuntime) {
    assert_in_order(&rt, 1, 40_000);
}

#[test]
fn each_of_40000_entries_counts_its_own_avp_in_the_contrary_order(rt: HostRuntime) {
    let defined = codes(FIRST, 1, 40_000);
    assert_each_wanted(&rt, &defined, &reversed(&defined), false);
}

/// A rule of more entries than two octets number: one AVP of each, the last missing, and the last twice.
fn assert_last_wanted(rt: &(impl Abort + AllocGlobal), size: u32) {
    let listed = codes(FIRST, 1, size);
    let dictionary = rule_of(rt, &listed, &listed, false, "");
    let last = one_of(&listed, size.saturating_sub(1));
    assert_said(rt, &dictionary, &[reversed(&listed)], GOOD);
    assert_bad(rt, &dictionary, &[without_last(&listed)], 5005, &last, 0, 1);
    assert_bad(rt, &dictionary, &[listed, last], 5009, &last, size, 1);
    drop(dictionary);
}

#[test]
fn the_last_entry_counts_its_own_avp_beside_the_end_of_each_window(rt: HostRuntime) {
    for size in [512, 513, 16_640, 16_641] {
        assert_last_wanted(&rt, size);
    }
}

#[test]
fn the_last_of_65793_entries_counts_its_own_avp(rt: HostRuntime) {
    assert_last_wanted(&rt, 65_792);
    assert_last_wanted(&rt, 65_793);
}

/// A rule of these AVPs, and behind them of one that it doesn't name.
fn assert_last_for_any(rt: &(impl Abort + AllocGlobal), listed: &Run) {
    let dictionary = rule_of(rt, listed, listed, true, " *1 [ AVP ]");
    let other = others(listed);
    assert_full(rt, &dictionary, listed);
    assert_exceeding(rt, &dictionary, listed);
    assert_said(rt, &dictionary, &[*listed, one_of(&other, 0)], GOOD);
    assert_said(rt, &dictionary, &[one_of(&other, 1), *listed], GOOD);
    let second = one_of(&other, 1);
    let at = listed.count.saturating_add(1);
    assert_bad(rt, &dictionary, &[*listed, other], 5009, &second, at, 1);
    drop(dictionary);
}

#[test]
fn an_entry_for_any_avp_counts_the_others_alone(rt: HostRuntime) {
    for size in [7, 252, 253, 254, 255, 256, 257] {
        assert_last_for_any(&rt, &codes(FIRST, 1, size));
        assert_last_for_any(&rt, &codes(FIRST, 256, size));
    }
}

/// The dictionary whose rule allows one of each of these, and the group of them inside itself.
fn nested_rule(rt: &(impl Abort + AllocGlobal), listed: &Run) -> Dictionary {
    let mut definitions = String::new(rt.alloc());
    put_definitions(rt, &mut definitions, listed, "Unsigned32");
    let mut entries = String::new(rt.alloc());
    put_entries(rt, &mut entries, listed, " [ ", " ]");
    entries.push_str(" [ Group ]").expect(rt, "memory");
    let dictionary = ruled(rt, definitions.as_str(), entries.as_str());
    drop(entries);
    drop(definitions);
    dictionary
}

/// One of each of so many is good in eight groups inside each other, and the last one twice isn't.
fn assert_deep(rt: &(impl Abort + AllocGlobal), size: u32) {
    let listed = codes(FIRST, 1, size);
    let dictionary = nested_rule(rt, &listed);
    let last = one_of(&listed, size.saturating_sub(1));
    assert_said_deep(rt, &dictionary, &[listed], 8, GOOD);
    let words = words_of(rt, 5009, &last, size);
    let said = Said {
        words: words.as_str(),
        faults: 1,
    };
    assert_said_deep(rt, &dictionary, &[listed, last], 8, said);
    drop(words);
    drop(dictionary);
}

#[test]
fn entries_count_the_avps_of_their_own_group(rt: HostRuntime) {
    for size in [254, 255, 256, 257, 4352, 4353] {
        assert_deep(&rt, size);
    }
    assert_deep(&rt, 40_000);
}
