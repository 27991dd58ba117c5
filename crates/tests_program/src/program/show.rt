//! What show prints, and what the words of the command line choose.
use super::{FREE_BITS, WATCHDOG_REQUEST, WATCHDOG_TEXT};
use crate::text::repeated;
use dm_tool::{Choice, ToolFault, choose, ending, run_show};
use std::alloc::Global;
use std::process::Abort;

/// Whether show prints this text for an input in memory, and whether all of it was good.
fn shows(alloc: Global, input: &str, want: &str) -> Option<bool> {
    let mut reader = input.as_bytes();
    let mut text = Vec::new(alloc);
    let done = run_show(alloc, &mut reader, &mut text);
    let same = text.as_slice() == want.as_bytes();
    drop(text);
    if same { done.ok() } else { None }
}

/// Each input has this text, and is good or not.
pub fn assert_shown(rt: &(impl Abort + AllocGlobal), rows: &[(&str, &str, bool)]) {
    for (input, want, good) in rows {
        assert!(rt; shows(rt.alloc(), input, want) == Some(*good), "of {input}");
    }
}

/// What the words choose, which stand apart by spaces.
fn chosen(rt: &(impl Abort + AllocGlobal), words: &str) -> Option<Choice> {
    let mut list = Vec::new(rt.alloc());
    for word in words.split_whitespace() {
        let word = String::from_str(rt.alloc(), word).expect(rt, "memory");
        list.push(word).expect(rt, "memory");
    }
    let choice = choose(list.as_slice());
    drop(list);
    choice
}

/// Each outcome of a run has this exit status and this line.
fn assert_endings(rt: &impl Abort, rows: &[(Option<Result<bool, ToolFault>>, u8, &str)]) {
    for (outcome, status, line) in rows {
        assert!(rt; ending(*outcome) == (*status, *line), "of {outcome:?}");
    }
}

fn assert_chosen(rt: &(impl Abort + AllocGlobal), rows: &[(&str, Option<Choice>)]) {
    for (words, want) in rows {
        assert!(rt; chosen(rt, words) == *want, "of {words}");
    }
}

#[test]
fn watchdog_request(rt: HostRuntime) {
    assert_shown(&rt, &[(WATCHDOG_REQUEST, WATCHDOG_TEXT, true)]);
}

#[test]
fn free_bits(rt: HostRuntime) {
    assert_shown(&rt, &[(FREE_BITS, WATCHDOG_TEXT, true)]);
}

#[test]
fn bad_lines(rt: HostRuntime) {
    let rows = &[
        (
            "01000038 80000118 00000000 00000001 000000",
            "fault 5015 TooShort\n",
            false,
        ),
        (
            "01000039 80000118 00000000 00000001 00000001 00000108 40000011 612e6578 616d706c 65000000 00000128 4000000f 6578616d 706c6500",
            "fault 5015 Length\n",
            false,
        ),
        (
            "02000038 80000118 00000000 00000001 00000001 00000108 40000011 612e6578 616d706c 65000000 00000128 4000000f 6578616d 706c6500",
            "fault 5011 Version\n",
            false,
        ),
        ("0g", "fault hex\n", false),
    ];
    assert_shown(&rt, rows);
}

#[test]
fn bad_avp_lengths(rt: HostRuntime) {
    let rows = &[
        (
            "0100001c 80000118 00000000 00000001 00000001 00000108 40000007",
            "fault 5014 AvpLength 20\n",
            false,
        ),
        (
            "0100001c 80000118 00000000 00000001 00000001 00000108 c0000008",
            "fault 5014 AvpLength 20\n",
            false,
        ),
        (
            "01000018 80000118 00000000 00000001 00000001 00000108",
            "fault 5014 AvpLength 20\n",
            false,
        ),
    ];
    assert_shown(&rt, rows);
}

#[test]
fn empty_input(rt: HostRuntime) {
    assert_shown(&rt, &[("", "", true)]);
    let endings = &[
        (None, 2, "dmpeer: usage"),
        (Some(Err(ToolFault::Read)), 3, "dmpeer: read"),
    ];
    assert_endings(&rt, endings);
    let rows = &[
        ("paint", None),
        ("show x", None),
        ("", None),
        ("show", Some(Choice::Show)),
        ("check", Some(Choice::Check { with_dict: false })),
        ("check --dict", Some(Choice::Check { with_dict: true })),
        ("check x", None),
        ("check --dict x", None),
        ("--dict check", None),
        ("show --dict", None),
        ("build", Some(Choice::Build)),
        ("build x", None),
        ("replay", Some(Choice::Replay)),
        ("replay x", None),
    ];
    assert_chosen(&rt, rows);
}

#[test]
fn endings(rt: HostRuntime) {
    let rows = &[
        (Some(Ok(true)), 0, ""),
        (Some(Ok(false)), 1, ""),
        (Some(Err(ToolFault::Write)), 3, "dmpeer: write"),
        (Some(Err(ToolFault::Memory)), 3, "dmpeer: memory"),
    ];
    assert_endings(&rt, rows);
}

/// A vendor, a vendor 0, the flags of an AVP, and data of no octet.
#[test]
fn vendors_and_empty_data(rt: HostRuntime) {
    let rows = &[
        (
            "01000020 20000118 00000000 00000001 00000001 00001388 c000000c 00000063",
            "message 280 --E- app 0 hop 1 end 1\n  5000/99 VM- -\n",
            true,
        ),
        (
            "01000020 00000118 00000000 00000001 00000001 ffffffff a000000c 00000000",
            "message 280 ---- app 0 hop 1 end 1\n  4294967295/0 V-P -\n",
            true,
        ),
        (
            "0100001c 00ffffff 00000000 00000001 00000001 00000000 00000008",
            "message 16777215 ---- app 0 hop 1 end 1\n  0 --- -\n",
            true,
        ),
    ];
    assert_shown(&rt, rows);
}

/// Data of more octets than are turned into digits at once.
#[test]
fn long_data(rt: HostRuntime) {
    let input = repeated(
        &rt,
        "01000274 00000118 00000000 00000001 00000001 00000019 00000260 ",
        "0aF9",
        300,
        "",
    );
    let want = repeated(
        &rt,
        "message 280 ---- app 0 hop 1 end 1\n  25 --- ",
        "0af9",
        300,
        "\n",
    );
    assert_shown(&rt, &[(input.as_str(), want.as_str(), true)]);
}
