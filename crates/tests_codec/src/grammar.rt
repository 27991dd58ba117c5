//! The items of a dictionary text.

use dm_grammar::{
    AvpItem, CommandItem, EntryItem, Form, GroupItem, Item, ItemFault, ValueItem, VendorItem,
    VendorWord, items_are_what_steps_take, read_items, tokens_are_items_or_have_a_fault,
    words_not_all_digits_are_names,
};
use std::alloc::{AllocError, Global};

/// How many items a text has, or the line of its fault; 0 stands for want of memory.
fn outcome(alloc: Global, text: &[u8]) -> Result<usize, usize> {
    match read_items(alloc, text) {
        Ok(items) => Ok(items.len()),
        Err(ItemFault::Syntax(line)) => Err(line),
        Err(ItemFault::NoMemory) => Err(0),
    }
}

/// Texts, with how many items each has, or the line of its fault.
const EDGES: [(&str, Result<usize, usize>); 35] = [
    ("", Ok(0)),
    (" \t\r\n; a comment alone", Ok(0)),
    ("@ A 1 Time ; the end", Ok(1)),
    ("@ A 1 Time\r\n@ B\r2 Time\r", Ok(2)),
    ("@ A 1 Time 7 @ B 2 Time", Ok(2)),
    ("@ 3GPP-Name 1 Time", Ok(1)),
    ("@ 1-2 1 Time", Ok(1)),
    ("@ 12 1 Time", Err(1)),
    ("@ A -1 Time", Err(1)),
    ("%", Err(1)),
    ("@ A 1 Time\n%", Err(2)),
    ("X ::= < AVP-Header: 7 >", Ok(1)),
    ("X :::= < AVP-Header: 7 >", Err(1)),
    ("X ::=: < AVP-Header: 7 >", Err(1)),
    ("X ::= < AVP-Header ::= 7 >", Err(1)),
    ("< X > ::= <", Err(1)),
    ("X ::= < AVP-Header: 7 > < Y > ::= < AVP-Header: 8 >", Ok(2)),
    (
        "X ::= < AVP-Header: 7 >\n< Y >\n::= < AVP-Header: 8 >",
        Ok(2),
    ),
    (
        "X ::= < AVP-Header: 7 >\n*\n< Y >\n::= < AVP-Header: 8 >",
        Err(4),
    ),
    (
        "X ::= < AVP-Header: 7 >\n* < Y >\nZ ::= < AVP-Header: 8 >",
        Ok(2),
    ),
    ("X ::= < AVP-Header: 7 > { Y ]", Err(1)),
    ("X ::= < AVP Header: 7 9 > 1*2{ Y }3*[ Z ]*< V >", Ok(1)),
    ("X ::= < AVP Header: 7, 9 > 1 { Y }", Err(1)),
    ("X ::= < AVP Header: 7, REQ >", Err(1)),
    ("X ::= < Diameter Header: 7, REQ, PXY, ERR 5 >", Ok(1)),
    ("X ::= < Diameter Header: 7, REQ, PXY, ERR, 5 >", Ok(1)),
    ("X ::= < Diameter Header: 7, ERR >", Ok(1)),
    ("X ::= < Diameter Header: 7 5 >", Ok(1)),
    ("X ::= < Diameter Header: 7, PXY,\nREQ >", Err(2)),
    ("X ::= < Diameter Header: 7, REQ,\n>", Err(2)),
    ("X ::= < diameter Header: 7 >", Err(1)),
    ("REQ ::= < Diameter-Header: 7 > { Diameter }", Ok(1)),
    ("@ A 1\n; more\n; and more\n", Err(3)),
    ("@ A 1\n; more\n; and more", Err(3)),
    ("@ A 1\n\n", Err(2)),
];

#[test]
fn syntax_edges(rt: HostRuntime) {
    items_are_what_steps_take();
    tokens_are_items_or_have_a_fault();
    for (text, want) in &EDGES {
        assert!(rt;
            outcome(rt.alloc(), text.as_bytes()) == *want,
            "at {text:?}"
        );
    }
}

/// Texts about version 2, with how many items each has, or the line of its fault.
const SECOND_EDGES: [(&str, Result<usize, usize>); 52] = [
    // What tells the version are tokens.
    ("@ 2", Ok(0)),
    ("@2", Ok(0)),
    ("; c\n@ 2\n", Ok(0)),
    ("@\n; c\n2", Ok(0)),
    ("@2@A 1 Time", Ok(1)),
    ("@ 3", Err(1)),
    ("@ 02", Err(1)),
    ("@ 22", Err(1)),
    ("@", Err(1)),
    ("@ 2 2", Err(1)),
    ("@ 2\n@ 2", Err(2)),
    ("@ A 1 Time\n@ 2", Err(2)),
    // Vendors.
    ("@ 2 @ vendor Acme 99", Ok(1)),
    ("@ 2 @ vendor 5 Time", Ok(1)),
    ("@ 2 @ vendor Time 5", Ok(1)),
    ("@ 2 @ vendor vendor 5 @ vendor 5 vendor", Ok(2)),
    ("@ 2 @ Vendor Acme 99", Err(1)),
    ("@ vendor 5 Time", Ok(1)),
    ("@ vendor\nTime 5", Err(2)),
    ("@ 2 @ vendor\n", Err(1)),
    ("@ 2 @ vendor Acme\n\n", Err(2)),
    ("@ 2 @ vendor\nAcme\nTime", Err(3)),
    ("@ 2 @ vendor Acme 99 7", Err(1)),
    // A vendor behind a type.
    ("@ 2 @ F 1 Time 9", Ok(1)),
    ("@ 2 @ F 1 Time : Acme", Ok(1)),
    ("@ 2 @ F 1 Time: 9", Err(1)),
    ("@ 2 @ F 1 Time:\n", Err(1)),
    ("@ 2 @ F 1 Time : Acme\n9", Err(2)),
    ("@ F 1 Time\n: Acme", Err(2)),
    // Lists.
    ("@ 2 @ F 1 Enumerated", Ok(1)),
    ("@ 2 @ F 1 Enumerated : Acme @ G 2 Time", Ok(2)),
    ("@ 2 @ F 1 Enumerated { X 0 }", Ok(1)),
    (
        "@ 2 @ F 1 Enumerated 9 { X 0, Y 2147483648 } @ G 2 Time",
        Ok(2),
    ),
    (
        "@ 2 @ Enumerated 1 Enumerated : Acme {vendor 0,Enumerated 0}",
        Ok(1),
    ),
    ("@ F 1 Enumerated\n{ X 0 }", Err(2)),
    ("@ 2 @ F 1 Time\n{ X 0 }", Err(2)),
    ("@ 2 @ F 1 enumerated\n{ X 0 }", Err(2)),
    ("@ 2 @ F 1 Enumerated {\n}", Err(2)),
    ("@ 2 @ F 1 Enumerated { X 0,\n}", Err(2)),
    ("@ 2 @ F 1 Enumerated { X 0\nY 1 }", Err(2)),
    ("@ 2 @ F 1 Enumerated { X\n-1 }", Err(2)),
    ("@ 2 @ F 1 Enumerated {\n0 X }", Err(2)),
    ("@ 2 @ F 1 Enumerated { X 0\n", Err(1)),
    ("@ 2 @ F 1 Enumerated { X 0 }\n9", Err(2)),
    ("@ 2 @ F 1 Enumerated { X 0 }\n{ Y 1 }", Err(2)),
    // A group's vendor.
    ("@ 2 X ::= < AVP-Header: 7 : Acme > *[ AVP ]", Ok(1)),
    (
        "@ 2 X ::= < AVP-Header: 7, 9 > { Y } Z ::= < AVP Header: 8 9 >",
        Ok(2),
    ),
    ("@ 2 X ::= < AVP-Header: 7,\n: Acme >", Err(2)),
    ("@ 2 X ::= < AVP-Header: 7 : Acme\n9 >", Err(2)),
    ("@ 2 X ::= < Diameter-Header: 7\n: Acme >", Err(2)),
    ("X ::= < AVP-Header: 7\n: Acme >", Err(2)),
    ("@ 2 X\n{ Y 0 }", Err(2)),
];

#[test]
fn second_version_edges(rt: HostRuntime) {
    words_not_all_digits_are_names();
    for (text, want) in &SECOND_EDGES {
        assert!(rt;
            outcome(rt.alloc(), text.as_bytes()) == *want,
            "at {text:?}"
        );
    }
}

/// An AVP with a list of this many values.
fn long_list(alloc: Global, values: usize) -> Result<String, AllocError> {
    let mut text = String::from_str(alloc, "@ 2 @ A 1 Enumerated { X 0")?;
    let done = put_values(&mut text, values);
    done.and(Ok(text))
}

fn put_values(text: &mut String, values: usize) -> Result<(), AllocError> {
    for _ in 1..values {
        text.push_str(", X 0")?;
    }
    text.push_str(" }")
}

fn has_values(item: &Item<'_>, values: usize) -> bool {
    match item {
        Item::Avp(avp) => avp.values.len() == values,
        _ => false,
    }
}

fn is_list_of(items: &[Item<'_>], values: usize) -> bool {
    match items {
        [item] => has_values(item, values),
        _ => false,
    }
}

fn is_one_list(alloc: Global, values: usize) -> Result<bool, AllocError> {
    let text = long_list(alloc, values)?;
    match read_items(alloc, text.as_bytes()) {
        Ok(items) => Ok(is_list_of(items.as_slice(), values)),
        Err(_) => Ok(false),
    }
}

#[test]
fn long_lists(rt: HostRuntime) {
    assert!(rt; is_one_list(rt.alloc(), 100000) == Ok(true));
}

/// An AVP whose code has this many digits.
fn long_code(alloc: Global, digits: usize) -> Result<String, AllocError> {
    let mut text = String::from_str(alloc, "@ A ")?;
    let done = put_code(&mut text, digits);
    done.and(Ok(text))
}

fn put_code(text: &mut String, digits: usize) -> Result<(), AllocError> {
    for _ in 0..digits {
        text.push('9')?;
    }
    text.push_str(" Time")
}

fn is_one_item(alloc: Global, digits: usize) -> Result<bool, AllocError> {
    let text = long_code(alloc, digits)?;
    Ok(outcome(alloc, text.as_bytes()) == Ok(1))
}

#[test]
fn long_numbers(rt: HostRuntime) {
    assert!(rt; is_one_item(rt.alloc(), 5000) == Ok(true));
}

fn holds_avp(avp: &AvpItem<'_>) -> bool {
    avp.name.text == b"A".as_slice()
        && avp.code.text == b"1".as_slice()
        && avp.kind.text == b"Time".as_slice()
        && avp.vendor.is_some()
}

fn holds_command(command: &CommandItem<'_>) -> bool {
    let flags = (command.request, command.proxiable, command.error);
    command.name.line == 2
        && command.code.text == b"300".as_slice()
        && flags == (true, false, true)
        && command.application.is_some()
}

fn is_entry(entry: &EntryItem<'_>, form: Form, starred: bool) -> bool {
    entry.form == form && entry.qualifier.is_some() == starred
}

fn holds_rule(rule: &[EntryItem<'_>]) -> bool {
    match rule {
        [first, second, third] => {
            is_entry(first, Form::Fixed, true)
                && is_entry(second, Form::Required, true)
                && is_entry(third, Form::Optional, false)
                && third.name.line == 3
        }
        _ => false,
    }
}

fn is_avp(item: &Item<'_>) -> bool {
    match item {
        Item::Avp(avp) => holds_avp(avp),
        _ => false,
    }
}

fn is_command(item: &Item<'_>) -> bool {
    match item {
        Item::Command(command) => holds_command(command) && holds_rule(command.rule.as_slice()),
        _ => false,
    }
}

fn hold_their_words(items: &[Item<'_>]) -> bool {
    match items {
        [first, second] => is_avp(first) && is_command(second),
        _ => false,
    }
}

const WORDS: &[u8] =
    b"@ A 1 Time 9\nX ::= < Diameter-Header: 300, REQ, ERR 7 >\n1*2 < A > * { B } [ C ]";

/// Whether the text's items hold the words above.
fn are_held(alloc: Global, text: &[u8]) -> bool {
    match read_items(alloc, text) {
        Ok(items) => hold_their_words(items.as_slice()),
        Err(_) => false,
    }
}

#[test]
fn items_hold_their_words(rt: HostRuntime) {
    assert!(rt; are_held(rt.alloc(), WORDS));
}

fn is_named(vendor: Option<VendorWord<'_>>, line: usize) -> bool {
    match vendor {
        Some(VendorWord::Named(name)) => name.text == b"Acme".as_slice() && name.line == line,
        _ => false,
    }
}

fn holds_vendor(vendor: &VendorItem<'_>) -> bool {
    vendor.name.text == b"Acme".as_slice()
        && vendor.name.line == 2
        && vendor.number.text == b"99".as_slice()
        && vendor.number.line == 3
}

fn is_value(value: &ValueItem<'_>, name: &[u8], number: &[u8], line: usize) -> bool {
    value.name.text == name
        && value.name.line == line
        && value.number.text == number
        && value.number.line == line
}

fn holds_values(values: &[ValueItem<'_>]) -> bool {
    match values {
        [first, second] => is_value(first, b"RED", b"0", 5) && is_value(second, b"BLUE", b"2", 6),
        _ => false,
    }
}

fn holds_list(avp: &AvpItem<'_>) -> bool {
    avp.kind.text == b"Enumerated".as_slice()
        && is_named(avp.vendor, 4)
        && holds_values(avp.values.as_slice())
}

fn holds_group(group: &GroupItem<'_>) -> bool {
    group.code.text == b"6".as_slice() && is_named(group.vendor, 7) && group.rule.len() == 1
}

fn is_vendor(item: &Item<'_>) -> bool {
    match item {
        Item::Vendor(vendor) => holds_vendor(vendor),
        _ => false,
    }
}

fn is_listed(item: &Item<'_>) -> bool {
    match item {
        Item::Avp(avp) => holds_list(avp),
        _ => false,
    }
}

fn is_group(item: &Item<'_>) -> bool {
    match item {
        Item::Group(group) => holds_group(group),
        _ => false,
    }
}

fn hold_second_words(items: &[Item<'_>]) -> bool {
    match items {
        [first, second, third] => is_vendor(first) && is_listed(second) && is_group(third),
        _ => false,
    }
}

const SECOND_WORDS: &[u8] =
    b"@ 2\n@ vendor Acme\n99\n@ Colour 5000 Enumerated : Acme {\nRED 0,\nBLUE 2 }\nG ::= < AVP Header: 6 : Acme > *[ AVP ]";

/// Whether the text's items hold the words above.
fn second_are_held(alloc: Global, text: &[u8]) -> bool {
    match read_items(alloc, text) {
        Ok(items) => hold_second_words(items.as_slice()),
        Err(_) => false,
    }
}

#[test]
fn second_items_hold_their_words(rt: HostRuntime) {
    assert!(rt; second_are_held(rt.alloc(), SECOND_WORDS));
}
