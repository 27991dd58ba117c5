//! What build prints.
use super::{FREE_BITS, SHORT, SHORT_TEXT, WATCHDOG_REQUEST, WATCHDOG_TEXT};
use crate::text::joined;
use dm_tool::{run_build, run_show};
use std::alloc::Global;
use std::process::Abort;

const WATCHDOG_WORD: &str =
    "01000038800001180000000000000001000000010000010840000011612e6578616d706c65000000000001284000000f6578616d706c6500\n";

const SHORT_WORD: &str = "010000145000012c000000040000000affffffff\n";

/// A Capabilities-Exchange-Request, also with an AVP of more data than one word.
const CAPABILITIES_REQUEST: &str =
    "010000ac 80000101 00000000 00000001 00000001 00000108 40000011 612e6578 616d706c 65000000 00000128 4000000f 6578616d 706c6500 00000101 4000000e 00017f00 00010000 00000101 4000001a 00020000 00000000 00000000 00000000 00010000 0000010a 4000000c 00000000 0000010d 0000000e 646d7065 65720000 00000102 4000000c 00000004 00000104 40000020 0000010a 4000000c 000028af 00000102 4000000c 01000023";

/// Whether build prints this text for an input in memory, and whether all of it was good.
fn builds(alloc: Global, input: &[u8], want: &[u8]) -> Option<bool> {
    let mut reader = input;
    let mut text = Vec::new(alloc);
    let done = run_build(alloc, &mut reader, &mut text);
    let same = text.as_slice() == want;
    drop(text);
    if same { done.ok() } else { None }
}

/// Each input has this text, and is good or not.
fn assert_built(rt: &(impl Abort + AllocGlobal), rows: &[(&str, &str, bool)]) {
    for (input, want, good) in rows {
        let built = builds(rt.alloc(), input.as_bytes(), want.as_bytes());
        assert!(rt; built == Some(*good), "of {input}");
    }
}

/// Whether what show prints of these octets is all good, and is built into this text.
fn rebuilds(alloc: Global, octets: &str, want: &[u8]) -> bool {
    let mut reader = octets.as_bytes();
    let mut text = Vec::new(alloc);
    let shown = run_show(alloc, &mut reader, &mut text);
    let built = builds(alloc, text.as_slice(), want);
    drop(text);
    shown == Ok(true) && built == Some(true)
}

/// The octets without the spaces between them, as a line.
fn line_of(rt: &(impl Abort + AllocGlobal), octets: &str) -> String {
    let mut line = String::new(rt.alloc());
    for group in octets.split_whitespace() {
        line.push_str(group).expect(rt, "memory");
    }
    line.push_str("\n").expect(rt, "memory");
    line
}

/// What show prints of each of these octets is built into them again.
fn assert_rebuilt(rt: &(impl Abort + AllocGlobal), rows: &[&str]) {
    for octets in rows {
        let line = line_of(rt, octets);
        let same = rebuilds(rt.alloc(), octets, line.as_bytes());
        drop(line);
        assert!(rt; same, "of {octets}");
    }
}

/// Each line is out of place behind a whole message.
fn assert_out_of_place(rt: &(impl Abort + AllocGlobal), lines: &[&str]) {
    for line in lines {
        let input = joined(rt, &[SHORT_TEXT, "\n", line, "\n", WATCHDOG_TEXT]);
        let built = builds(rt.alloc(), input.as_bytes(), b"fault syntax 3\n");
        drop(input);
        assert!(rt; built == Some(false), "of {line}");
    }
}

#[test]
fn free_bits(rt: HostRuntime) {
    assert_eq!(rt; WATCHDOG_WORD.len(), 113);
    assert!(rt; rebuilds(rt.alloc(), FREE_BITS, WATCHDOG_WORD.as_bytes()));
}

#[test]
fn empty_input(rt: HostRuntime) {
    assert_built(&rt, &[("", "", true), ("\n  \n# x\n", "", true)]);
}

/// What show prints of canonical octets is built into them again.
#[test]
fn round_trip(rt: HostRuntime) {
    let rows = &[
        WATCHDOG_REQUEST,
        SHORT,
        CAPABILITIES_REQUEST,
        // A vendor, a vendor 0, and data of no octet.
        "01000020 20000118 00000000 00000001 00000001 00001388 c000000c 00000063",
        "01000024 00000118 00000000 00000001 00000001 ffffffff a0000010 00000000 00ff00ff",
        "0100001c a0ffffff ffffffff 00000001 00000001 00000000 00000008",
    ];
    assert_rebuilt(&rt, rows);
}

/// A line out of place ends the run, and the message that it interrupts isn't printed.
#[test]
fn lines_out_of_place(rt: HostRuntime) {
    let rows = &[
        ("  264 -M- 612e\n", "fault syntax 1\n", false),
        ("# x\n\n264 -M- 612e\n", "fault syntax 3\n", false),
        (
            "message 280 R--- app 0 hop 1 end 1\n  264 -M- 61\nmessage 280 R---\n  264 -M- 61\n",
            "fault syntax 3\n",
            false,
        ),
        (
            "message 300 -P-T app 4 hop 10 end 4294967295\nmessage 300 -P-T app 4 hop 10 end 4294967295\n\nx\nmessage 300 -P-T app 4 hop 10 end 4294967295\n",
            "010000145000012c000000040000000affffffff\nfault syntax 4\n",
            false,
        ),
        // Also one that has no spelling.
        (
            "message 16777216 ---- app 0 hop 0 end 0\nx\n",
            "fault syntax 2\n",
            false,
        ),
        // A comment needs its line.
        (
            "message 300 -P-T app 4 hop 10 end 4294967295 # x\n",
            "fault syntax 1\n",
            false,
        ),
    ];
    assert_built(&rt, rows);
}

/// The Command Code of a message may be too great for its field, and the run goes on.
#[test]
fn too_long(rt: HostRuntime) {
    let input = joined(
        &rt,
        &[
            SHORT_TEXT,
            "message 16777216 ---- app 0 hop 0 end 0\n  264 -M- 61\n",
            SHORT_TEXT,
            "message 4294967295 ---- app 0 hop 0 end 0\n",
        ],
    );
    let want =
        "010000145000012c000000040000000affffffff\nfault TooLong\n010000145000012c000000040000000affffffff\nfault TooLong\n";
    let rows = &[
        (input.as_str(), want, false),
        (
            "message 4294967296 ---- app 0 hop 0 end 0\n",
            "fault syntax 1\n",
            false,
        ),
    ];
    assert_built(&rt, rows);
}

/// Skipped lines, spaces and leading zeros say nothing, and digits may be in either case.
#[test]
fn free_forms(rt: HostRuntime) {
    let rows = &[
        (
            "   message   280 R---  app 0 hop 1 end   1  \n# x\n\n264   -M- 612e6578616d706c65\r\n    # y\n  296 -M-   6578616D706C65",
            WATCHDOG_WORD,
            true,
        ),
        (
            "message 000000000000000000000300 -P-T app 04 hop 00010 end 04294967295\n",
            SHORT_WORD,
            true,
        ),
        (
            "message 280 ---- app 0 hop 1 end 1\n1/0 V-- -\n1 --- -\n",
            "0100002800000118000000000000000100000001000000018000000c000000000000000100000008\n",
            true,
        ),
    ];
    assert_built(&rt, rows);
}

/// Each of these lines, behind a whole message, is out of place.
#[test]
fn bad_lines(rt: HostRuntime) {
    let lines = &[
        // The line of a message that isn't whole.
        "message",
        "message 280 R--- app 0 hop 1 end",
        "message 280 R--- app 0 hop 1 end 1 1",
        "Message 280 R--- app 0 hop 1 end 1",
        "message 280 R--- hop 1 app 0 end 1",
        "message 280 R--- app 0 hop 1 end x",
        "message -1 R--- app 0 hop 1 end 1",
        "message +1 R--- app 0 hop 1 end 1",
        "message 280 R--- app 4294967296 hop 1 end 1",
        // Flags out of place.
        "message 280 -R-- app 0 hop 1 end 1",
        "message 280 r--- app 0 hop 1 end 1",
        "message 280 R-- app 0 hop 1 end 1",
        "264 M-- 61",
        "264 -P- 61",
        "264 -m- 61",
        "264 -- 61",
        // V stands just where there is a vendor.
        "264 V-- 61",
        "264/1 --- 61",
        "264/ V-- 61",
        "/1 V-- 61",
        "264/1/1 V-- 61",
        "264/4294967296 V-- 61",
        "4294967296 --- 61",
        // Data is one word, an even number of digits or `-`.
        "264 -M- 6",
        "264 -M- 6g",
        "264 -M- 61 61",
        "264 -M-",
        "264 -M- --",
        "264\t-M- 61",
        "0",
    ];
    assert_out_of_place(&rt, lines);
}
