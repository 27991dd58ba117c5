//! Entries of many AVPs, and a rule of many entries.
use super::rows::assert_over_base;
use std::process::Abort;

/// One AVP more, with M, whose data is this number.
fn put_avp(rt: &(impl Abort + AllocGlobal), avps: &mut String, code: u32, number: usize) {
    let avp = format!(in rt.alloc(); "{code:08x}4000000c{number:08x}").expect(rt, "memory");
    avps.push_str(avp.as_str()).expect(rt, "memory");
    drop(avp);
}

/// The request of these AVPs.
fn request_of(rt: &(impl Abort + AllocGlobal), avps: &str) -> String {
    let size = avps.len() / 2 + 20;
    let header = "8000012c000000000000000100000001";
    format!(in rt.alloc(); "01{size:06x}{header}{avps}").expect(rt, "memory")
}

/// A request with the AVP so many times; their data are numbers from 0 on.
fn request_of_many(rt: &(impl Abort + AllocGlobal), count: u32) -> String {
    let mut avps = String::new(rt.alloc());
    for number in 0..count {
        put_avp(rt, &mut avps, 5000, number as usize);
    }
    let request = request_of(rt, avps.as_str());
    drop(avps);
    request
}

/// A dictionary of a command whose rule has the entry alone.
fn rule_of(rt: &(impl Abort + AllocGlobal), entry: &str) -> String {
    let head = "@ Foo 5000 Unsigned32 < Q > ::= < Diameter Header: 300, REQ > ";
    format!(in rt.alloc(); "{head}{entry}").expect(rt, "memory")
}

fn assert_counted(rt: &(impl Abort + AllocGlobal), entry: &str, count: u32, want: &str) {
    let text = rule_of(rt, entry);
    let request = request_of_many(rt, count);
    assert_over_base(rt, &[(text.as_str(), request.as_str(), want)]);
    drop(request);
    drop(text);
}

/// An entry, how often the request has its AVP, and the verdict.
const MANY_ROWS: &[(&str, u32, &str)] = &[
    ("300*{ Foo }", 0, "bad 5005 5000 -M- 00000000"),
    ("300*{ Foo }", 299, "bad 5005 5000 -M- 00000000"),
    ("300*{ Foo }", 300, "good"),
    ("300*{ Foo }", 600, "good"),
    ("*254 [ Foo ]", 254, "good"),
    ("*254 [ Foo ]", 255, "bad 5009 5000 -M- 000000fe"),
    ("300*300 { Foo }", 556, "bad 5009 5000 -M- 0000012c"),
    ("1*{ Foo }", 256, "good"),
    ("*[ Foo ]", 600, "good"),
    // A counter stops at 65535.
    ("65535*{ Foo }", 65534, "bad 5005 5000 -M- 00000000"),
    ("65535*{ Foo }", 65535, "good"),
    ("65536*{ Foo }", 65535, "bad 5005 5000 -M- 00000000"),
    ("65536*{ Foo }", 65536, "good"),
    ("*65534 [ Foo ]", 65535, "bad 5009 5000 -M- 0000fffe"),
    ("*65535 [ Foo ]", 65535, "good"),
    ("*65535 [ Foo ]", 65536, "bad 5009 5000 -M- 0000ffff"),
    ("*65536 [ Foo ]", 65536, "good"),
    ("*65536 [ Foo ]", 65537, "bad 5009 5000 -M- 00010000"),
];

#[test]
fn many_avps(rt: HostRuntime) {
    for (entry, count, want) in MANY_ROWS {
        assert_counted(&rt, entry, *count, want);
    }
}

/// The definition of the AVP that an entry names.
pub(super) fn put_definition(rt: &(impl Abort + AllocGlobal), text: &mut String, place: u16) {
    let code = 80000 + place as u32;
    let line = format!(in rt.alloc(); "@ A{place} {code} Unsigned32\n").expect(rt, "memory");
    text.push_str(line.as_str()).expect(rt, "memory");
    drop(line);
}

fn put_entry(rt: &(impl Abort + AllocGlobal), text: &mut String, place: u16) {
    let bounds = match place {
        3 | 255 | 256 | 511 => "",
        599 => "1*1",
        _ => "*",
    };
    let entry = format!(in rt.alloc(); " {bounds} [ A{place} ]").expect(rt, "memory");
    text.push_str(entry.as_str()).expect(rt, "memory");
    drop(entry);
}

/// A dictionary of a command of 600 entries, of which five are bounded: 3, 255, 256 and 511 allow one AVP, and
/// 599 wants one.
fn wide_rule(rt: &(impl Abort + AllocGlobal)) -> String {
    let mut text = String::new(rt.alloc());
    for place in 0..600u16 {
        put_definition(rt, &mut text, place);
    }
    text.push_str("< Q > ::= < Diameter Header: 300, REQ >")
        .expect(rt, "memory");
    for place in 0..600u16 {
        put_entry(rt, &mut text, place);
    }
    text
}

/// A request with the AVPs of the entries at these places; their data are numbers from 0 on.
fn request_under(rt: &(impl Abort + AllocGlobal), places: &[u16]) -> String {
    let mut avps = String::new(rt.alloc());
    for (number, place) in places.iter().enumerate() {
        put_avp(rt, &mut avps, 80000 + *place as u32, number);
    }
    let request = request_of(rt, avps.as_str());
    drop(avps);
    request
}

fn assert_wide(rt: &(impl Abort + AllocGlobal), text: &str, rows: &[(&[u16], &str)]) {
    for (places, want) in rows {
        let request = request_under(rt, places);
        assert_over_base(rt, &[(text, request.as_str(), *want)]);
        drop(request);
    }
}

/// The places whose AVPs the request has, and the verdict.
const WIDE_ROWS: &[(&[u16], &str)] = &[
    (&[3, 255, 256, 511, 599], "good"),
    (
        &[0, 0, 254, 254, 257, 257, 510, 510, 512, 512, 598, 598, 599],
        "good",
    ),
    (&[3, 599, 3], "bad 5009 80003 -M- 00000002"),
    (&[255, 599, 255], "bad 5009 80255 -M- 00000002"),
    (&[256, 599, 256], "bad 5009 80256 -M- 00000002"),
    (&[511, 599, 511], "bad 5009 80511 -M- 00000002"),
    (&[599, 3, 599], "bad 5009 80599 -M- 00000002"),
    (&[511, 511, 256, 256, 599], "bad 5009 80256 -M- 00000003"),
    (&[3, 255, 256, 511], "bad 5005 80599 -M- 00000000"),
    (&[511, 511], "bad 5009 80511 -M- 00000001"),
];

#[test]
fn many_entries(rt: HostRuntime) {
    let text = wide_rule(&rt);
    assert_wide(&rt, text.as_str(), WIDE_ROWS);
    drop(text);
}
