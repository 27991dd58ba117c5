//! Texts and lists on both sides of the numbers of members from which on they are looked up otherwise. What stands
//! twice is told behind the first member and behind the last.
use crate::texts::fault_over_empty;
use dm_dict::DictFault;
use dm_tables::{EnumValue, Values};
use dm_wire::Octets;
use std::process::Abort;

/// A member, and an earlier one whose name or number it has.
type Twice = (u32, u32);

/// Nothing stands twice.
const NEVER: Twice = (u32::MAX, 0);

/// What stands at the place.
fn at(place: u32, twice: Twice) -> u32 {
    if place == twice.0 { twice.1 } else { place }
}

/// The first name again behind it, the first one at the end, and the last but one at the end.
fn pairs(size: u32) -> [Twice; 3] {
    let last = size.saturating_sub(1);
    [(1, 0), (last, 0), (last, last.saturating_sub(1))]
}

/// Appends the name of a member. All have one length and differ in their last octets.
fn put_name(rt: &(impl Abort + AllocGlobal), text: &mut String, front: &str, member: u32) {
    let word = format!(in rt.alloc(); "{front}Member-{member:05}").expect(rt, "memory");
    text.push_str(word.as_str()).expect(rt, "memory");
    drop(word);
}

fn put_number(rt: &(impl Abort + AllocGlobal), text: &mut String, front: &str, number: u32) {
    let word = format!(in rt.alloc(); "{front}{number}").expect(rt, "memory");
    text.push_str(word.as_str()).expect(rt, "memory");
    drop(word);
}

/// A text of so many AVPs, a line each, and of a rule of these, whose entries follow behind one line, a line each.
fn rule_of(rt: &(impl Abort + AllocGlobal), size: u32, twice: Twice) -> String {
    let mut text = String::new(rt.alloc());
    for member in 0..size {
        put_name(rt, &mut text, "@ ", member);
        put_number(rt, &mut text, " ", 80_000 + member % 10_000);
        text.push_str(" Time\n").expect(rt, "memory");
    }
    text.push_str("< Q > ::= < Diameter Header: 300, REQ >")
        .expect(rt, "memory");
    for place in 0..size {
        put_name(rt, &mut text, "\n[ ", at(place, twice));
        text.push_str(" ]").expect(rt, "memory");
    }
    text
}

fn rule_fault(rt: &(impl Abort + AllocGlobal), size: u32, twice: Twice) -> Option<DictFault> {
    let text = rule_of(rt, size, twice);
    let fault = fault_over_empty(rt.alloc(), text.as_bytes());
    drop(text);
    fault
}

/// The line of the nth further one, where the first has this one.
fn line(first: u32, step: u32, nth: u32) -> Option<DictFault> {
    let number = first.saturating_add(step.saturating_mul(nth));
    Some(DictFault::Duplicate(number as usize))
}

/// Whether a rule of so many entries is read, and isn't where a name stands twice.
fn is_rule_judged(rt: &(impl Abort + AllocGlobal), size: u32) -> bool {
    let mut is_so = rule_fault(rt, size, NEVER) == None;
    for twice in pairs(size) {
        is_so = is_so && rule_fault(rt, size, twice) == line(size.saturating_add(2), 1, twice.0);
    }
    is_so
}

#[test]
fn rules_with_a_name_twice(rt: HostRuntime) {
    for size in [15, 16, 17, 18, 31, 32, 33, 34, 63, 64, 65, 66] {
        assert!(rt; is_rule_judged(&rt, size), "of {size} entries");
    }
}

/// How members with a name and a number are written, each name and each number on a line of its own: what stands before
/// all, before a name, behind a number and behind all. The first name stands on the second line.
#[derive(Clone, Copy)]
struct Form {
    head: &'static str,
    front: &'static str,
    back: &'static str,
    tail: &'static str,
}

/// A list, which has one value more.
const LIST: Form = Form {
    head: "@ 2 @ List 1 Enumerated { First 99999",
    front: "\n, ",
    back: "",
    tail: " }",
};

const VENDORS: Form = Form {
    head: "@ 2",
    front: "\n@ vendor ",
    back: "",
    tail: "",
};

const AVPS: Form = Form {
    head: "",
    front: "\n@ ",
    back: " Time",
    tail: "",
};

/// A text of so many members.
fn text_of(
    rt: &(impl Abort + AllocGlobal),
    form: Form,
    size: u32,
    name: Twice,
    number: Twice,
) -> String {
    let mut text = String::from_str(rt.alloc(), form.head).expect(rt, "memory");
    for place in 0..size {
        put_name(rt, &mut text, form.front, at(place, name));
        put_number(rt, &mut text, "\n", at(place, number));
        text.push_str(form.back).expect(rt, "memory");
    }
    text.push_str(form.tail).expect(rt, "memory");
    text
}

fn fault_of(
    rt: &(impl Abort + AllocGlobal),
    form: Form,
    size: u32,
    name: Twice,
    number: Twice,
) -> Option<DictFault> {
    let text = text_of(rt, form, size, name, number);
    let fault = fault_over_empty(rt.alloc(), text.as_bytes());
    drop(text);
    fault
}

/// Whether so many members are read, and aren't where a name or a number stands twice.
fn are_judged(rt: &(impl Abort + AllocGlobal), form: Form, size: u32) -> bool {
    let mut is_so = fault_of(rt, form, size, NEVER, NEVER) == None;
    for twice in pairs(size) {
        is_so = is_so
            && fault_of(rt, form, size, twice, NEVER) == line(2, 2, twice.0)
            && fault_of(rt, form, size, NEVER, twice) == line(3, 2, twice.0);
    }
    is_so
}

fn assert_judged(rt: &(impl Abort + AllocGlobal), form: Form, sizes: &[u32]) {
    for size in sizes {
        assert!(rt; are_judged(rt, form, *size), "of {size} members");
    }
}

#[test]
fn lists_with_a_name_or_a_number_twice(rt: HostRuntime) {
    assert_judged(&rt, LIST, &[6, 7, 8, 9, 30, 31, 32, 33, 62, 63, 64, 65]);
}

#[test]
fn vendors_with_a_name_or_a_number_twice(rt: HostRuntime) {
    assert_judged(&rt, VENDORS, &[15, 16, 17, 18]);
}

#[test]
fn avps_with_a_name_or_a_code_twice(rt: HostRuntime) {
    assert_judged(&rt, AVPS, &[8191, 8192, 8193, 8194]);
}

fn value(rt: &(impl Abort + AllocGlobal), place: u32, number: u32) -> EnumValue {
    let mut word = String::new(rt.alloc());
    put_name(rt, &mut word, "", place);
    let name = Octets::from_slice(rt.alloc(), word.as_bytes()).expect(rt, "memory");
    drop(word);
    let number = i32::try_from(number).unwrap_or(0);
    EnumValue { name, number }
}

/// A list of so many values, the number of each its place.
fn list_of(rt: &(impl Abort + AllocGlobal), size: u32, twice: Twice) -> Values {
    let mut values = Vec::new(rt.alloc());
    for place in 0..size {
        values
            .push(value(rt, place, at(place, twice)))
            .expect(rt, "memory");
    }
    Values::new(rt.alloc(), values).expect(rt, "memory")
}

/// Whether the number is listed, and its name is that of the value at the place.
fn is_named(values: &Values, number: i32, place: usize) -> bool {
    match (values.name(number), values.as_slice().get(place)) {
        (Some(name), Some(value)) => name == &value.name && !values.leaves_out(number),
        _ => false,
    }
}

fn is_left_out(values: &Values, number: i32) -> bool {
    values.name(number).is_none() && values.leaves_out(number)
}

/// Whether the first and the last of so many values are named, and no others.
fn is_list_named(rt: &(impl Abort + AllocGlobal), size: u32) -> bool {
    let values = list_of(rt, size, NEVER);
    let end = i32::try_from(size).unwrap_or(0);
    let is_so = is_named(&values, 0, 0)
        && is_named(
            &values,
            end.saturating_sub(1),
            size.saturating_sub(1) as usize,
        )
        && is_left_out(&values, end)
        && is_left_out(&values, -1);
    drop(values);
    is_so
}

/// Whether of two values of one number, the first and the last of the list, the first is named.
fn is_first_named(rt: &(impl Abort + AllocGlobal), size: u32) -> bool {
    let last = size.saturating_sub(1);
    let values = list_of(rt, size, (last, 0));
    let is_so = is_named(&values, 0, 0) && is_left_out(&values, i32::try_from(last).unwrap_or(0));
    drop(values);
    is_so
}

#[test]
fn names_of_the_first_and_the_last_value(rt: HostRuntime) {
    for size in [2, 7, 8, 9, 10, 64, 65] {
        assert!(rt;
            is_list_named(&rt, size) && is_first_named(&rt, size),
            "of {size} values"
        );
    }
}
