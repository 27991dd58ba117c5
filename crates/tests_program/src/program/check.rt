//! What check prints.
use dm_tool::run_check;
use std::alloc::Global;
use std::process::Abort;

/// Whether check prints this text for an input in memory, and whether all of it was good.
fn checks(alloc: Global, with_dict: bool, input: &str, want: &str) -> Option<bool> {
    let mut reader = input.as_bytes();
    let mut text = Vec::new(alloc);
    let done = run_check(alloc, &mut reader, &mut text, with_dict);
    let same = text.as_slice() == want.as_bytes();
    drop(text);
    if same { done.ok() } else { None }
}

/// Each input has this text under check, and is good or not.
pub fn assert_checked(
    rt: &(impl Abort + AllocGlobal),
    with_dict: bool,
    rows: &[(&str, &str, bool)],
) {
    for (input, want, good) in rows {
        assert!(rt;
            checks(rt.alloc(), with_dict, input, want) == Some(*good),
            "of {input}"
        );
    }
}

#[test]
fn watchdog_request(rt: HostRuntime) {
    let rows = &[(
        "01000038 80000118 00000000 00000001 00000001 00000108 40000011 612e6578 616d706c 65000000 00000128 4000000f 6578616d 706c6500",
        "good\n",
        true,
    )];
    assert_checked(&rt, false, rows);
}

#[test]
fn missing_origin_host(rt: HostRuntime) {
    let rows = &[(
        "01000014 80000118 00000000 00000001 00000001",
        "bad 5005 264 -M- 00\n",
        false,
    )];
    assert_checked(&rt, false, rows);
}

#[test]
fn capabilities_request(rt: HostRuntime) {
    let rows = &[(
        "010000ac 80000101 00000000 00000001 00000001 00000108 40000011 612e6578 616d706c 65000000 00000128 4000000f 6578616d 706c6500 00000101 4000000e 00017f00 00010000 00000101 4000001a 00020000 00000000 00000000 00000000 00010000 0000010a 4000000c 00000000 0000010d 0000000e 646d7065 65720000 00000102 4000000c 00000004 00000104 40000020 0000010a 4000000c 000028af 00000102 4000000c 01000023",
        "good\n",
        true,
    )];
    assert_checked(&rt, false, rows);
}

#[test]
fn disconnect_checks(rt: HostRuntime) {
    let rows = &[
        (
            "01000050 8000011a 00000000 00000001 00000001 00000108 40000011 612e6578 616d706c 65000000 00000128 4000000f 6578616d 706c6500 00000111 4000000c 00000000 00000111 4000000c 00000001",
            "bad 5009 273 -M- 00000001\n",
            false,
        ),
        (
            "01000058 8000011a 00000000 00000001 00000001 00000108 40000011 612e6578 616d706c 65000000 00000128 4000000f 6578616d 706c6500 00000111 4000000c 00000000 00000111 4000000c 00000001 0000270f 40000008",
            "bad 5001 9999 -M- -\n",
            false,
        ),
        (
            "0100004c 8000011a 00000000 00000001 00000001 00000108 40000011 612e6578 616d706c 65000000 00000128 4000000f 6578616d 706c6500 00000111 4000000c 00000000 0000270f 00000008",
            "good\n",
            true,
        ),
    ];
    assert_checked(&rt, false, rows);
}

#[test]
fn error_bits(rt: HostRuntime) {
    let rows = &[
        (
            "01000044 20000101 00000000 00000001 00000001 00000108 40000011 422e6578 616d706c 65000000 00000128 4000000f 6578616d 706c6500 0000010c 4000000c 00000bc2",
            "good\n",
            true,
        ),
        (
            "01000044 30000101 00000000 00000001 00000001 00000108 40000011 422e6578 616d706c 65000000 00000128 4000000f 6578616d 706c6500 0000010c 4000000c 00000bc2",
            "bad 3008\n",
            false,
        ),
        (
            "01000038 a0000118 00000000 00000001 00000001 00000108 40000011 612e6578 616d706c 65000000 00000128 4000000f 6578616d 706c6500",
            "bad 3008\n",
            false,
        ),
        (
            "01000014 800003e7 00000000 00000001 00000001",
            "bad 3001\n",
            false,
        ),
    ];
    assert_checked(&rt, false, rows);
}

#[test]
fn failed_avps(rt: HostRuntime) {
    let rows = &[
        (
            "01000044 8000011a 00000000 00000001 00000001 00000108 40000011 612e6578 616d706c 65000000 00000128 4000000f 6578616d 706c6500 00000111 4000000b 00000000",
            "bad 5014 273 -M- 000000\n",
            false,
        ),
        (
            "01000030 80000118 00000000 00000001 00000001 00000108 40000009 20000000 00000128 4000000f 6578616d 706c6500",
            "bad 5004 264 -M- 20\n",
            false,
        ),
        (
            "01000044 80000118 00000000 00000001 00000001 00000108 40000011 612e6578 616d706c 65000000 00000128 4000000f 6578616d 706c6500 00000104 4000000c 00000000",
            "bad 5014 260 -M- -\n",
            false,
        ),
        (
            "01000058 80000118 00000000 00000001 00000001 00000108 40000011 612e6578 616d706c 65000000 00000128 4000000f 6578616d 706c6500 00000104 40000020 0000010a 4000000c 00000000 0000010c 4000000c 000007d1",
            "bad 5008 268 -M- 000007d1\n",
            false,
        ),
    ];
    assert_checked(&rt, false, rows);
}

#[test]
fn vendor_and_no_dictionary(rt: HostRuntime) {
    let rows = &[
        (
            "01000048 80000118 00000000 00000001 00000001 00000108 40000011 612e6578 616d706c 65000000 00000128 4000000f 6578616d 706c6500 00001388 c0000010 00000063 00000007",
            "bad 5001 5000/99 VM- 00000007\n",
            false,
        ),
        ("%%", "fault hex\n", false),
    ];
    assert_checked(&rt, false, rows);
}

#[test]
fn empty_input(rt: HostRuntime) {
    let rows = &[("", "", true), ("# nothing\n\n", "", true)];
    assert_checked(&rt, false, rows);
}

/// Faults of lines go on to the next line, as under show.
#[test]
fn lines(rt: HostRuntime) {
    let rows = &[(
        "0g\n# note\n  01000038 80000118 00000000 00000001 00000001 00000108 40000011 612e6578 616d706c 65000000 00000128 4000000f 6578616d 706c6500  \r\n01000014\n01000038 80000118 00000000 00000001 00000001 00000108 40000011 612e6578 616d706c 65000000 00000128 4000000f 6578616d 706c6500\n02000014 80000118 00000000 00000001 00000001",
        "fault hex\ngood\nfault 5015 TooShort\ngood\nfault 5011 Version\n",
        false,
    )];
    assert_checked(&rt, false, rows);
}
