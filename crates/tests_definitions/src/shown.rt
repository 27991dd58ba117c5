//! What Debug shows of a list of values, and of a dictionary's links and marks: written out, it shows what the derived
//! one did.

use dm_dict::Dictionary;
use dm_tables::EnumValue;
use dm_wire::Octets;
use indexmap::IndexMap;
use std::alloc::{AllocError, Global};
use std::process::Abort;

/// The links of a rule without entries.
const NO_LINKS: &str = "Links { items: [], any: None, places: {}, seats: [255, 255,";

/// A list and its index, shown by the derived Debug.
#[derive(Debug, Drop)]
struct Values {
    items: Vec<EnumValue>,
    places: IndexMap<i32, usize>,
}

/// So many values, whose numbers repeat behind so many.
fn listed(alloc: Global, count: u32, different: u32) -> Result<Vec<EnumValue>, AllocError> {
    let mut values = Vec::new(alloc);
    for place in 0..count {
        let number = place % different.max(1);
        values.push(EnumValue {
            name: Octets::from_slice(alloc, b"VALUE")?,
            number: i32::try_from(number).unwrap_or(0),
        })?;
    }
    Ok(values)
}

/// Where the first value of each number stands.
fn first_places(alloc: Global, values: &[EnumValue]) -> Result<IndexMap<i32, usize>, AllocError> {
    let mut places = IndexMap::new(alloc);
    for (place, value) in values.iter().enumerate() {
        if !places.contains_key(&value.number) {
            places.insert(value.number, place)?;
        }
    }
    Ok(places)
}

/// The derived text of so many values.
fn derived(rt: &(impl Abort + AllocGlobal), count: u32, different: u32) -> String {
    let items = listed(rt.alloc(), count, different).expect(rt, "the values");
    let places = first_places(rt.alloc(), items.as_slice()).expect(rt, "their places");
    let list = Values { items, places };
    let text = format!(in rt.alloc(); "{list:?} {list:#?}").expect(rt, "the text");
    drop(list);
    text
}

/// The text of so many values.
fn shown(rt: &(impl Abort + AllocGlobal), count: u32, different: u32) -> String {
    let items = listed(rt.alloc(), count, different).expect(rt, "the values");
    let list = dm_tables::Values::new(rt.alloc(), items).expect(rt, "the list");
    let text = format!(in rt.alloc(); "{list:?} {list:#?}").expect(rt, "the text");
    drop(list);
    text
}

/// Whether so many values are shown as the derived Debug shows them.
fn is_derived(rt: &(impl Abort + AllocGlobal), count: u32, different: u32) -> bool {
    let one = shown(rt, count, different);
    let other = derived(rt, count, different);
    one.as_str() == other.as_str()
}

/// Whether so many values are, however few of them differ.
fn are_derived(rt: &(impl Abort + AllocGlobal), count: u32) -> bool {
    for different in 1..21 {
        if !is_derived(rt, count, different) {
            return false;
        }
    }
    true
}

/// How often the words stand in the base dictionary's text.
fn count_in_base(rt: &(impl Abort + AllocGlobal), words: &str) -> usize {
    let base = Dictionary::base(rt.alloc()).expect(rt, "the base dictionary");
    let text = format!(in rt.alloc(); "{base:?}").expect(rt, "the text");
    drop(base);
    text.as_str().matches(words).count()
}

#[test]
fn values_are_shown_with_their_places(rt: HostRuntime) {
    for count in 0..21 {
        assert!(rt; are_derived(&rt, count));
    }
}

#[test]
fn each_rule_has_its_links_shown(rt: HostRuntime) {
    // 29 AVPs, of which four are groups, and seven commands.
    assert!(rt; count_in_base(&rt, "Links {") == 36);
    assert!(rt; count_in_base(&rt, NO_LINKS) == 25);
}

/// For each code below 512 whether the dictionary defines it without a vendor, as 1 or 0.
fn marked(dictionary: &Dictionary) -> [u8; 512] {
    let mut marks = [0; 512];
    for (code, mark) in marks.iter_mut().enumerate() {
        *mark = u8::from(dictionary.avp_by_code(code as u32, None).is_some());
    }
    marks
}

#[test]
fn marks_of_codes_are_shown_as_ones(rt: HostRuntime) {
    let base = Dictionary::base(rt.alloc()).expect(&rt, "the base dictionary");
    let marks = marked(&base);
    let text = format!(in rt.alloc(); "{base:?}").expect(&rt, "the text");
    drop(base);
    let derived = format!(in rt.alloc(); ", marks: {marks:?} }} }}").expect(&rt, "the marks");
    assert!(rt; text.as_str().ends_with(derived.as_str()));
}
