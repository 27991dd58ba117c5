//! AVPs whose codes share their lowest bits, and AVPs of one code and several vendors (RFC 6733, 4.1): each is known by
//! its whole code and its vendor, and judged by its own entry.
use crate::told::{
    GOOD, Run, assert_bad, assert_said, one_of, put_definitions, put_entries, ruled,
};
use dm_dict::Dictionary;
use std::process::Abort;

/// AVPs of one vendor, twenty times as many as a part has. Of the first part each is wanted, of the second two or
/// three; the third may stand, and the fourth may not; no entry names the others.
#[derive(Clone, Copy)]
struct Family {
    step: u32,
    part: u32,
    vendor: Option<u32>,
}

/// The code of each family's first.
const FIRST: u32 = 10_007;

/// So many of its AVPs, from this one on.
fn some_of(family: &Family, from: u32, count: u32) -> Run {
    Run {
        first: FIRST.wrapping_add(family.step.wrapping_mul(from)),
        step: family.step,
        count,
        vendor: family.vendor,
    }
}

/// Its parts, and those that no entry names.
fn wanted(family: &Family) -> Run {
    some_of(family, 0, family.part)
}

fn twos(family: &Family) -> Run {
    some_of(family, family.part, family.part)
}

fn free(family: &Family) -> Run {
    some_of(family, family.part.wrapping_mul(2), family.part)
}

fn barred(family: &Family) -> Run {
    some_of(family, family.part.wrapping_mul(3), family.part)
}

fn unlisted(family: &Family) -> Run {
    some_of(
        family,
        family.part.wrapping_mul(4),
        family.part.wrapping_mul(16),
    )
}

/// Its entries behind the others.
fn put_family(rt: &(impl Abort + AllocGlobal), entries: &mut String, family: &Family) {
    put_entries(rt, entries, &wanted(family), " 1*1 [ ", " ]");
    put_entries(rt, entries, &twos(family), " 2*3 [ ", " ]");
    put_entries(rt, entries, &free(family), " [ ", " ]");
    put_entries(rt, entries, &barred(family), " 0*0 [ ", " ]");
}

/// The dictionary of the families, whose rule has this entry behind theirs.
fn dictionary_of(rt: &(impl Abort + AllocGlobal), families: &[Family], last: &str) -> Dictionary {
    let mut definitions = String::new(rt.alloc());
    let mut entries = String::new(rt.alloc());
    for family in families {
        let all = some_of(family, 0, family.part.wrapping_mul(20));
        put_definitions(rt, &mut definitions, &all, "Unsigned32");
        put_family(rt, &mut entries, family);
    }
    entries.push_str(last).expect(rt, "memory");
    let dictionary = ruled(rt, definitions.as_str(), entries.as_str());
    drop(entries);
    drop(definitions);
    dictionary
}

/// What the rule wants of all families.
fn kept(rt: &(impl Abort + AllocGlobal), families: &[Family]) -> Vec<Run> {
    let mut runs = Vec::new(rt.alloc());
    for family in families {
        for part in [twos(family), wanted(family), twos(family)] {
            runs.push(part).expect(rt, "memory");
        }
    }
    runs
}

/// The same with more behind it.
fn kept_with(rt: &(impl Abort + AllocGlobal), families: &[Family], more: &[Run]) -> Vec<Run> {
    let mut runs = kept(rt, families);
    for part in more {
        runs.push(*part).expect(rt, "memory");
    }
    runs
}

/// What the rule wants, and these behind it.
#[derive(Clone, Copy)]
struct Asked<'a> {
    dictionary: &'a Dictionary,
    families: &'a [Family],
}

fn assert_more_is_good(rt: &(impl Abort + AllocGlobal), asked: Asked<'_>, more: &[Run]) {
    let runs = kept_with(rt, asked.families, more);
    assert_said(rt, asked.dictionary, runs.as_slice(), GOOD);
    drop(runs);
}

/// How many AVPs the rule wants.
fn count_kept(families: &[Family]) -> u32 {
    let mut count: u32 = 0;
    for family in families {
        count = count.saturating_add(family.part.saturating_mul(3));
    }
    count
}

/// Of these behind what the rule wants the nth is the first that is wrong, by this Result-Code.
fn assert_more_is_bad(
    rt: &(impl Abort + AllocGlobal),
    asked: Asked<'_>,
    more: &[Run],
    result_code: u32,
    avp: &Run,
    nth: u32,
    faults: u32,
) {
    let runs = kept_with(rt, asked.families, more);
    let number = count_kept(asked.families).saturating_add(nth);
    assert_bad(
        rt,
        asked.dictionary,
        runs.as_slice(),
        result_code,
        avp,
        number,
        faults,
    );
    drop(runs);
}

/// What may stand, and how often.
fn assert_allowed(rt: &(impl Abort + AllocGlobal), asked: Asked<'_>, family: &Family) {
    let (free, twos) = (free(family), twos(family));
    let last = family.part.saturating_sub(1);
    assert_more_is_good(rt, asked, &[]);
    assert_more_is_good(rt, asked, &[free, twos]);
    let again = one_of(&free, last);
    assert_more_is_bad(rt, asked, &[again, again], 5009, &again, 1, 1);
    assert_more_is_bad(
        rt,
        asked,
        &[free, free],
        5009,
        &free,
        family.part,
        family.part,
    );
    let again = one_of(&twos, last);
    assert_more_is_bad(rt, asked, &[again, again], 5009, &again, 1, 1);
    let again = wanted(family);
    assert_more_is_bad(rt, asked, &[again], 5009, &again, 0, family.part);
}

/// What may not stand.
fn assert_not_allowed(rt: &(impl Abort + AllocGlobal), asked: Asked<'_>, family: &Family) {
    let (barred, unlisted) = (barred(family), unlisted(family));
    let last = one_of(&barred, family.part.saturating_sub(1));
    assert_more_is_bad(rt, asked, &[last], 5008, &last, 0, 1);
    assert_more_is_bad(rt, asked, &[barred], 5008, &barred, 0, barred.count);
    let last = one_of(&unlisted, unlisted.count.saturating_sub(1));
    assert_more_is_bad(rt, asked, &[last], 5008, &last, 0, 1);
    let count = unlisted.count;
    assert_more_is_bad(rt, asked, &[unlisted], 5008, &unlisted, 0, count);
}

/// Whether one of the families is the vendor's.
fn have(families: &[Family], vendor: Option<u32>) -> bool {
    for family in families {
        if family.vendor == vendor {
            return true;
        }
    }
    false
}

/// What nobody knows: a code that none has, and the codes of the family of other vendors and of none.
fn assert_unknown(rt: &(impl Abort + AllocGlobal), asked: Asked<'_>, family: &Family) {
    let unlisted = unlisted(family);
    let unknown = one_of(&unlisted, unlisted.count);
    assert_more_is_bad(rt, asked, &[unknown], 5001, &unknown, 0, 1);
    for vendor in [None, Some(0), Some(1), Some(255), Some(u32::MAX)] {
        if !have(asked.families, vendor) {
            let unknown = Run {
                vendor,
                ..wanted(family)
            };
            let count = unknown.count;
            assert_more_is_bad(rt, asked, &[unknown], 5001, &unknown, 0, count);
        }
    }
}

/// Where nothing stands, all that is wanted is missing, in the order of the rule.
fn assert_missing(rt: &(impl Abort + AllocGlobal), asked: Asked<'_>) {
    let mut lacks: u32 = 0;
    for family in asked.families {
        lacks = lacks.saturating_add(family.part.saturating_mul(2));
    }
    if let [first, ..] = asked.families {
        assert_bad(rt, asked.dictionary, &[], 5005, &wanted(first), 0, lacks);
    }
}

fn assert_told_apart(rt: &(impl Abort + AllocGlobal), families: &[Family]) {
    let dictionary = dictionary_of(rt, families, "");
    let asked = Asked {
        dictionary: &dictionary,
        families,
    };
    assert_missing(rt, asked);
    for family in families {
        assert_allowed(rt, asked, family);
        assert_not_allowed(rt, asked, family);
        assert_unknown(rt, asked, family);
    }
    drop(dictionary);
}

fn assert_family(rt: &(impl Abort + AllocGlobal), step: u32, part: u32, vendor: Option<u32>) {
    assert_told_apart(rt, &[Family { step, part, vendor }]);
}

/// A thousand AVPs whose codes share 6 to 9, 16 and 20 bits, and 200 that share 24: seats go by the lowest 7.
#[test]
fn codes_that_share_their_lowest_bits_are_told_apart(rt: HostRuntime) {
    for step in [64, 128, 256, 512, 65_536, 1_048_576] {
        assert_family(&rt, step, 50, None);
    }
    assert_family(&rt, 16_777_216, 10, None);
}

#[test]
fn a_vendor_is_no_other_and_not_none(rt: HostRuntime) {
    for vendor in [Some(0), Some(256), Some(u32::MAX)] {
        assert_family(&rt, 256, 50, vendor);
    }
}

/// Families of the same codes, so large, without a vendor and of three.
fn families(step: u32, part: u32) -> [Family; 4] {
    let family = Family {
        step,
        part,
        vendor: None,
    };
    [
        family,
        Family {
            vendor: Some(0),
            ..family
        },
        Family {
            vendor: Some(256),
            ..family
        },
        Family {
            vendor: Some(u32::MAX),
            ..family
        },
    ]
}

#[test]
fn vendors_of_one_code_are_told_apart(rt: HostRuntime) {
    assert_told_apart(&rt, &families(1, 15));
    assert_told_apart(&rt, &families(256, 15));
    assert_told_apart(&rt, &families(512, 16));
}

/// Behind entries of their own stands one for any AVP, which counts all others alone.
fn assert_any(rt: &(impl Abort + AllocGlobal), families: &[Family]) {
    let dictionary = dictionary_of(rt, families, " 0*2 [ AVP ]");
    let asked = Asked {
        dictionary: &dictionary,
        families,
    };
    for family in families {
        let (free, unlisted) = (free(family), unlisted(family));
        let (first, third) = (one_of(&unlisted, 0), one_of(&unlisted, 2));
        assert_more_is_good(rt, asked, &[free, first, first]);
        let more = [first, free, first, third];
        let at = free.count.saturating_add(2);
        assert_more_is_bad(rt, asked, &more, 5009, &third, at, 1);
    }
    drop(dictionary);
}

#[test]
fn an_entry_for_any_avp_counts_no_avp_that_another_names(rt: HostRuntime) {
    assert_any(&rt, &families(256, 12));
    assert_any(&rt, &families(256, 16));
}
