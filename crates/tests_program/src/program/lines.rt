//! The lines of an input.
use super::show::assert_shown;
use super::{SHORT, SHORT_TEXT, WATCHDOG_REQUEST, WATCHDOG_TEXT};
use crate::text::joined;

/// How lines end, what is skipped, and what counts as a digit.
#[test]
fn line_edges(rt: HostRuntime) {
    let rows = &[
        // The last LF may be missing, a CR before an LF isn't part of the line, another CR is.
        (
            "01000014 5000012c 00000004 0000000a ffffffff\r\n",
            SHORT_TEXT,
            true,
        ),
        (
            "01000014 5000012c 00000004 0000000a ffffffff \r\n",
            SHORT_TEXT,
            true,
        ),
        (
            "01000014 5000012c 00000004 0000000a ffffffff\r",
            "fault hex\n",
            false,
        ),
        (
            "01000014 5000012c 00000004 0000000a ffffffff\r\r\n",
            "fault hex\n",
            false,
        ),
        (
            "01000014 5000012c\r00000004 0000000a ffffffff\n",
            "fault hex\n",
            false,
        ),
        // Only 0x20 is a space.
        (
            "01000014\t5000012c 00000004 0000000a ffffffff\n",
            "fault hex\n",
            false,
        ),
        ("\t\n", "fault hex\n", false),
        (
            "  0 1000 0145000012c00000004 00  00000affffffff  \n",
            SHORT_TEXT,
            true,
        ),
        // Skipped lines.
        ("\n\r\n   \n# x\n   # x\n", "", true),
        (
            "01000014 5000012c 00000004 0000000a ffffffff # x\n",
            "fault hex\n",
            false,
        ),
        // Digits in either case, an even number of them.
        (
            "01000014 5000012C 00000004 0000000A FFFFffFF\n",
            SHORT_TEXT,
            true,
        ),
        (
            "01000014 5000012c 00000004 0000000a fffffff\n",
            "fault hex\n",
            false,
        ),
        ("0\n", "fault hex\n", false),
    ];
    assert_shown(&rt, rows);
}

/// A bad line doesn't end the run, and nothing of the good lines is lost.
#[test]
fn bad_line_between_good_ones(rt: HostRuntime) {
    let input = joined(&rt, &[SHORT, "\n0g\n\n", WATCHDOG_REQUEST, "\n00\n", SHORT]);
    let want = joined(
        &rt,
        &[
            SHORT_TEXT,
            "fault hex\n",
            WATCHDOG_TEXT,
            "fault 5015 TooShort\n",
            SHORT_TEXT,
        ],
    );
    assert_shown(&rt, &[(input.as_str(), want.as_str(), false)]);
}
