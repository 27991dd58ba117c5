//! What kind of message a message is: held, and where it lies.
use super::{CAPABILITIES_REQUEST, DISCONNECT_REQUEST, WATCHDOG_REQUEST, decoded, node};
use dm_base::{BaseFault, Kind, KindRef, Node, classify, common, secure, view};
use dm_dict::{Dictionary, Judged, Verdict};
use dm_wire::MessageRef;
use std::process::Abort;

/// A message in hexadecimal, and its kind in words.
type Row<'a> = (&'a str, &'a str);

fn word(rt: &(impl Abort + AllocGlobal), word: &str) -> String {
    String::from_str(rt.alloc(), word).expect(rt, "memory")
}

fn numbered(rt: &(impl Abort + AllocGlobal), word: &str, number: i64) -> String {
    format!(in rt.alloc(); "{word} {number}").expect(rt, "memory")
}

/// Host and realm in hexadecimal, whether there is an application in common, and whether connections may be without
/// security.
fn caps_words(
    rt: &(impl Abort + AllocGlobal),
    host: &[u8],
    realm: &[u8],
    common: bool,
    secure: bool,
) -> String {
    let host = hex::encode(rt.alloc(), host).expect(rt, "memory");
    let realm = hex::encode(rt.alloc(), realm).expect(rt, "memory");
    format!(in rt.alloc(); "cer {host} {realm} {common} {secure}").expect(rt, "memory")
}

fn kind_words(rt: &(impl Abort + AllocGlobal), own: &Node, kind: &Kind) -> String {
    match kind {
        Kind::Cer(caps) => caps_words(
            rt,
            caps.host.as_slice(),
            caps.realm.as_slice(),
            common(caps, own),
            secure(caps),
        ),
        Kind::Cea(code) => numbered(rt, "cea", i64::from(*code)),
        Kind::Dwr => word(rt, "dwr"),
        Kind::Dwa => word(rt, "dwa"),
        Kind::Dpr(cause) => numbered(rt, "dpr", i64::from(*cause)),
        Kind::Dpa => word(rt, "dpa"),
        Kind::Other => word(rt, "other"),
    }
}

fn ref_words(rt: &(impl Abort + AllocGlobal), own: &Node, kind: KindRef<'_>) -> String {
    match kind {
        KindRef::Cer(caps) => caps_words(
            rt,
            caps.host,
            caps.realm,
            caps.common(own),
            caps.secure(),
        ),
        KindRef::Cea(code) => numbered(rt, "cea", i64::from(code)),
        KindRef::Dwr => word(rt, "dwr"),
        KindRef::Dwa => word(rt, "dwa"),
        KindRef::Dpr(cause) => numbered(rt, "dpr", i64::from(cause)),
        KindRef::Dpa => word(rt, "dpa"),
        KindRef::Other => word(rt, "other"),
    }
}

/// What `classify` says of the message, with applications in common with `own`.
fn classified(
    rt: &(impl Abort + AllocGlobal),
    base: &Dictionary,
    own: &Node,
    message: &str,
) -> String {
    let message = decoded(rt, message);
    match classify(rt.alloc(), base, &message) {
        Ok(kind) => kind_words(rt, own, &kind),
        Err(BaseFault::Bad(Verdict::Bad { code, .. })) => numbered(rt, "bad", i64::from(code)),
        Err(_) => word(rt, "memory"),
    }
}

/// What `view` says of it where it lies.
fn viewed(rt: &(impl Abort + AllocGlobal), base: &Dictionary, own: &Node, message: &str) -> String {
    let octets = hex::decode(rt.alloc(), message.as_bytes()).expect(rt, "hexadecimal");
    let message = MessageRef::read(octets.as_slice()).expect(rt, "a message");
    match view(base, &message) {
        Ok(kind) => ref_words(rt, own, kind),
        Err(Judged::Bad { code, .. }) => numbered(rt, "bad", i64::from(code)),
        Err(Judged::Good) => word(rt, "good"),
    }
}

/// Each row is a message and what both say of it under the base dictionary, to a node of application 16777251.
fn assert_kinds(rt: &(impl Abort + AllocGlobal), rows: &[Row<'_>]) {
    let base = Dictionary::base(rt.alloc()).expect(rt, "a dictionary");
    let own = node(rt, b"B.example", &[16777251]);
    for (message, want) in rows {
        let held = classified(rt, &base, &own, message);
        assert_eq!(rt; held.as_str(), *want, "of {message}, held");
        let lying = viewed(rt, &base, &own, message);
        assert_eq!(rt; lying.as_str(), *want, "of {message}, where it lies");
    }
    drop(own);
    drop(base);
}

/// A Capabilities-Exchange-Request with application 4 and, for vendor 10415, 16777251.
const TWO_APPLICATIONS: &str =
    "010000ac800001010000000000000001000000010000010840000011612e6578616d706c65000000000001284000000f6578616d706c6500000001014000000e00017f0000010000000001014000001a00020000000000000000000000000000000100000000010a4000000c000000000000010d0000000e646d706565720000000001024000000c0000000400000104400000200000010a4000000c000028af000001024000000c01000023";

/// Capabilities: the application for the vendor counts, and so does an Inband-Security-Id.
const CAPABILITIES_ROWS: &[Row<'static>] = &[
    (
        CAPABILITIES_REQUEST,
        "cer 612e6578616d706c65 6578616d706c65 false true",
    ),
    (
        TWO_APPLICATIONS,
        "cer 612e6578616d706c65 6578616d706c65 true true",
    ),
    // Application 4 alone, and Inband-Security-Id 1.
    (
        "0100007c800001010000000000000001000000010000010840000011612e6578616d706c65000000000001284000000f6578616d706c6500000001014000000e00017f00000100000000010a4000000c000000000000010d0000000e646d706565720000000001024000000c000000040000012b4000000c00000001",
        "cer 612e6578616d706c65 6578616d706c65 false false",
    ),
    // A relay, and Inband-Security-Ids 1 and 0.
    (
        "01000088800001010000000000000001000000010000010840000011612e6578616d706c65000000000001284000000f6578616d706c6500000001014000000e00017f00000100000000010a4000000c000000000000010d0000000e646d706565720000000001024000000cffffffff0000012b4000000c000000010000012b4000000c00000000",
        "cer 612e6578616d706c65 6578616d706c65 true true",
    ),
];

#[test]
fn capabilities_are_told(rt: HostRuntime) {
    assert_kinds(&rt, CAPABILITIES_ROWS);
}

/// The messages on which the dictionary's tests tell a verdict, and one of each other kind.
const CHECKED_ROWS: &[Row<'static>] = &[
    (WATCHDOG_REQUEST, "dwr"),
    // Padding octets and reserved bits are free.
    (
        "010000388f000118000000000000000100000001000001085f000011612e6578616d706c65ffffff000001285f00000f6578616d706c65ff",
        "dwr",
    ),
    ("0100001480000118000000000000000100000001", "bad 5005"),
    (DISCONNECT_REQUEST, "dpr 0"),
    (
        "010000508000011a0000000000000001000000010000010840000011612e6578616d706c65000000000001284000000f6578616d706c6500000001114000000c00000000000001114000000c00000001",
        "bad 5009",
    ),
    (
        "010000588000011a0000000000000001000000010000010840000011612e6578616d706c65000000000001284000000f6578616d706c6500000001114000000c00000000000001114000000c000000010000270f40000008",
        "bad 5001",
    ),
    (
        "0100004c8000011a0000000000000001000000010000010840000011612e6578616d706c65000000000001284000000f6578616d706c6500000001114000000c000000000000270f00000008",
        "dpr 0",
    ),
    // A Capabilities-Exchange-Answer with the E bit, and with the R bit too.
    (
        "01000044200001010000000000000001000000010000010840000011422e6578616d706c65000000000001284000000f6578616d706c65000000010c4000000c00000bc2",
        "cea 3010",
    ),
    (
        "01000044300001010000000000000001000000010000010840000011422e6578616d706c65000000000001284000000f6578616d706c65000000010c4000000c00000bc2",
        "bad 3008",
    ),
    (
        "01000038a00001180000000000000001000000010000010840000011612e6578616d706c65000000000001284000000f6578616d706c6500",
        "bad 3008",
    ),
    // Another command isn't checked.
    ("01000014800003e7000000000000000100000001", "other"),
    ("010000148000012c000000000000000100000001", "other"),
];

#[test]
fn kinds_are_told(rt: HostRuntime) {
    assert_kinds(&rt, CHECKED_ROWS);
}

/// AVPs with wrong data, and answers.
const ANSWERS_ROWS: &[Row<'static>] = &[
    (
        "010000448000011a0000000000000001000000010000010840000011612e6578616d706c65000000000001284000000f6578616d706c6500000001114000000b00000000",
        "bad 5014",
    ),
    (
        "0100003080000118000000000000000100000001000001084000000920000000000001284000000f6578616d706c6500",
        "bad 5004",
    ),
    (
        "01000044800001180000000000000001000000010000010840000011612e6578616d706c65000000000001284000000f6578616d706c6500000001044000000c00000000",
        "bad 5014",
    ),
    (
        "01000058800001180000000000000001000000010000010840000011612e6578616d706c65000000000001284000000f6578616d706c650000000104400000200000010a4000000c000000000000010c4000000c000007d1",
        "bad 5008",
    ),
    // An AVP of vendor 99 that isn't defined, with the M bit.
    (
        "01000048800001180000000000000001000000010000010840000011612e6578616d706c65000000000001284000000f6578616d706c650000001388c00000100000006300000007",
        "bad 5001",
    ),
    (
        "01000044000001180000000000000001000000010000010c4000000c000007d10000010840000011422e6578616d706c65000000000001284000000f6578616d706c6500",
        "dwa",
    ),
    (
        "010000440000011a0000000000000001000000010000010c4000000c000007d10000010840000011422e6578616d706c65000000000001284000000f6578616d706c6500",
        "dpa",
    ),
];

#[test]
fn faults_and_answers_are_told(rt: HostRuntime) {
    assert_kinds(&rt, ANSWERS_ROWS);
}

/// Whether the message tells these ids of applications.
fn tells(rt: &(impl Abort + AllocGlobal), message: &str, ids: &[u32]) -> bool {
    let message = decoded(rt, message);
    let base = Dictionary::base(rt.alloc()).expect(rt, "memory");
    let kind = classify(rt.alloc(), &base, &message);
    drop(base);
    match kind {
        Ok(Kind::Cer(caps)) => caps.applications.as_slice() == ids,
        _ => false,
    }
}

#[test]
fn applications_are_told(rt: HostRuntime) {
    assert!(&rt; tells(&rt, TWO_APPLICATIONS, &[4, 16777251]));
    assert!(&rt; tells(&rt, CAPABILITIES_REQUEST, &[4]));
}
