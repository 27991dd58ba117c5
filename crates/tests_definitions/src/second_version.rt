//! Dictionary texts of version 2: vendors with names, and lists of values.
use crate::texts::{assert_faults_over, assert_faults_over_empty, assert_printed};
use dm_dict::{DictFault, Dictionary};
use std::alloc::Global;

const VERSION_ROWS: &[(&[u8], Option<DictFault>)] = &[
    // The first two tokens tell the version, with or without a space between them.
    (b"@ 2", None),
    (b"@2", None),
    (b"; c\n@ 2 @ vendor A 1", None),
    (b"@ 3", Some(DictFault::Syntax(1))),
    (b"@ 02", Some(DictFault::Syntax(1))),
    (b"@ 2\n@ 2", Some(DictFault::Syntax(2))),
    (b"@ F 1 Time\n@ 2", Some(DictFault::Syntax(2))),
    (b"@ vendor A 1", Some(DictFault::Syntax(1))),
    (b"@ F 1 Enumerated { X 0 }", Some(DictFault::Syntax(1))),
    // The third token tells an AVP called vendor from a vendor.
    (b"@ 2 @ vendor 5 Time", None),
    (b"@ 2 @ vendor Time 5", None),
    (b"@ vendor 5 Time", None),
    // Only an Enumerated has a list, of a value at least.
    (b"@ 2 @ F 1 Time { X 0 }", Some(DictFault::Syntax(1))),
    (b"@ 2 @ F 1 Enumerated { }", Some(DictFault::Syntax(1))),
    (b"@ 2 @ F 1 Enumerated { X 0, }", Some(DictFault::Syntax(1))),
    (b"@ 2 @ F 1 Enumerated 99 { X 0 }", None),
];

#[test]
fn versions(rt: HostRuntime) {
    assert_faults_over_empty(&rt, VERSION_ROWS);
}

const FAULT_ROWS: &[(&[u8], Option<DictFault>)] = &[
    (
        b"@ 2 @ F 1 Enumerated : Acme",
        Some(DictFault::UnknownName(1)),
    ),
    (
        b"@ 2 @ vendor A 1 @ vendor B 1",
        Some(DictFault::Duplicate(1)),
    ),
    (
        b"@ 2 @ vendor A 1\n@ vendor\nA 2",
        Some(DictFault::Duplicate(3)),
    ),
    (
        b"@ 2 @ F 1 Enumerated { X 0, Y 0 }",
        Some(DictFault::Duplicate(1)),
    ),
    // Values count as numbers, and names as names.
    (
        b"@ 2 @ F 1 Enumerated { X 0,\nY\n00 }",
        Some(DictFault::Duplicate(3)),
    ),
    (
        b"@ 2 @ F 1 Enumerated { X 0,\nX\n1 }",
        Some(DictFault::Duplicate(2)),
    ),
    (b"@ 2 @ F 1 Enumerated { X 2147483647 }", None),
    (
        b"@ 2 @ F 1 Enumerated { X 2147483648 }",
        Some(DictFault::Range(1)),
    ),
    (b"@ 2 @ vendor A 4294967295", None),
    (b"@ 2 @ vendor A\n4294967296", Some(DictFault::Range(2))),
    (b"@ 2 @ F 1 Time\n4294967296", Some(DictFault::Range(2))),
    // A vendor has its name behind its definition alone.
    (
        b"@ 2 @ F 1 Time\n: A\n@ vendor A 1",
        Some(DictFault::UnknownName(2)),
    ),
    (b"@ 2 @ vendor A 1 @ F 1 Time : A", None),
    (b"@ 2 @ vendor A 1 < G > ::= < AVP Header: 5 : A >", None),
    (
        b"@ 2 < G > ::= < AVP Header: 5\n: A > { No-Such }",
        Some(DictFault::UnknownName(2)),
    ),
    // The name stands for the number.
    (
        b"@ 2 @ vendor A 1 @ F 5 Time : A\n@ G\n5 Time 1",
        Some(DictFault::Duplicate(3)),
    ),
    // Names of vendors are apart from those of AVPs and commands, also from AVP.
    (b"@ 2 @ vendor F 1 @ F 1 Time : F", None),
    (b"@ 2 @ vendor AVP 1", None),
    // Where the vendor isn't known the code isn't compared, and the name is.
    (
        b"@ 2 @ F 1 Time @ G 1 Time\n: A\n@ H 1 Time 5",
        Some(DictFault::UnknownName(2)),
    ),
    (
        b"@ 2 @ F 1 Time : A\n@ G 1 Time @ F 2 Time",
        Some(DictFault::Duplicate(2)),
    ),
    (
        b"@ 2 < G > ::= < AVP Header: 5 > { F }\n@ F 1 Time : A",
        Some(DictFault::UnknownName(2)),
    ),
    // A type before the vendor, and both in order of the text.
    (b"@ 2 @ F 1\nNone\n: A", Some(DictFault::UnknownName(2))),
];

#[test]
fn version_2_faults(rt: HostRuntime) {
    assert_faults_over_empty(&rt, FAULT_ROWS);
}

/// The vendors of the handed dictionary are there too.
#[test]
fn handed_vendors(rt: HostRuntime) {
    let rows: &[(&[u8], Option<DictFault>)] = &[
        (b"@ 2 @ F 1 Time : Acme", None),
        (b"@ F 1 Time : Acme", Some(DictFault::Syntax(1))),
        (b"@ F 1 Time 99", None),
        (b"@ 2 @ vendor Acme 1", Some(DictFault::Duplicate(1))),
        (b"@ 2 @ vendor Other\n99", Some(DictFault::Duplicate(2))),
    ];
    assert_faults_over(&rt, b"@ 2 @ vendor Acme 99", rows);
}

#[test]
fn printed_version_2(rt: HostRuntime) {
    let rows: &[(&[u8], &[u8])] = &[
        (b"@ 2", b""),
        (b"@ 2 @ F 1 Time", b"@ F 1 Time\n"),
        (
            b"@ 2\n@ vendor Acme 99\n@ Colour 5000 Enumerated : Acme { RED 0, BLUE 2 }",
            b"@ 2\n@ vendor Acme 99\n@ Colour 5000 Enumerated 99 { RED 0, BLUE 2 }\n",
        ),
        (
            b"@ 2 @ F 1 Enumerated{X 007} @ vendor A 1 G ::= < AVP-Header: 5 : A >",
            b"@ 2\n@ vendor A 1\n@ F 1 Enumerated { X 7 }\n< G > ::= < AVP Header: 5 1 >\n",
        ),
        (b"@ 2 @ vendor 5 Time", b"@ vendor 5 Time\n"),
    ];
    assert_printed(&rt, rows);
}

/// The number of the vendor of a name, in the dictionary of two vendors and an AVP.
fn vendor_of(alloc: Global, name: &[u8]) -> Option<u32> {
    let empty = Dictionary::empty(alloc);
    let read = Dictionary::read(
        alloc,
        b"@ 2 @ vendor Acme 99 @ vendor Other 7 @ Colour 5000 Time",
        &empty,
    );
    drop(empty);
    match read {
        Ok(dictionary) => {
            let number = dictionary.vendor_by_name(name);
            drop(dictionary);
            number
        }
        Err(_) => None,
    }
}

#[test]
fn vendors_by_name(rt: HostRuntime) {
    assert_eq!(&rt; vendor_of(rt.alloc(), b"Acme"), Some(99));
    assert_eq!(&rt; vendor_of(rt.alloc(), b"Other"), Some(7));
    assert_eq!(&rt; vendor_of(rt.alloc(), b"Colour"), None);
    assert_eq!(&rt; vendor_of(rt.alloc(), b"acme"), None);
}
