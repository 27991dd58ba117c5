//! What may stand in a line, and lines that are no messages.
use crate::dictionary::assert_said;
use dm_view_lines::Task;

#[test]
fn lines_read(rt: HostRuntime) {
    assert_said(
        &rt,
        Task::Show,
        &[
            ("", "", true),
            ("# nothing\n\n ; nothing\n\t: \n", "", true),
            (
                "010000148000012c000000040000001100000022",
                "1: Thing 300 request, application 4, hop-by-hop 17 (0x00000011), end-to-end 34 (0x00000022)\n",
                true,
            ),
            (
                "010000148000012C000000040000001100000022\r\n010000148000012c000000040000001100000022\r\n",
                "1: Thing 300 request, application 4, hop-by-hop 17 (0x00000011), end-to-end 34 (0x00000022)\n2: Thing 300 request, application 4, hop-by-hop 17 (0x00000011), end-to-end 34 (0x00000022)\n",
                true,
            ),
            (
                "\u{feff}010000148000012c000000040000001100000022 ; a comment",
                "1: Thing 300 request, application 4, hop-by-hop 17 (0x00000011), end-to-end 34 (0x00000022)\n",
                true,
            ),
            (
                "01:00:00:14:80:00:01:2c:00:00:00:04:00:00:00:11:00:00:00:22",
                "1: Thing 300 request, application 4, hop-by-hop 17 (0x00000011), end-to-end 34 (0x00000022)\n",
                true,
            ),
            (
                "0x01000014\t0x8000012c\t0x00000004\t0x00000011\t0x00000022 # behind",
                "1: Thing 300 request, application 4, hop-by-hop 17 (0x00000011), end-to-end 34 (0x00000022)\n",
                true,
            ),
            (
                "0X010000148000012c000000040000001100000022",
                "1: Thing 300 request, application 4, hop-by-hop 17 (0x00000011), end-to-end 34 (0x00000022)\n",
                true,
            ),
            (
                "\n010000148000012c00000004000000110000002\nxyz\n0x0x010000148000012c000000040000001100000022\n",
                "2: no hexadecimal\n3: no hexadecimal\n4: no hexadecimal\n",
                false,
            ),
            (
                "0100",
                "1: no message: 5015 DIAMETER_INVALID_MESSAGE_LENGTH: fewer octets than a header has\n",
                false,
            ),
            (
                "020000148000012c000000040000001100000022",
                "1: no message: 5011 DIAMETER_UNSUPPORTED_VERSION: the first octet isn't 1\n",
                false,
            ),
            (
                "010000188000012c000000040000001100000022\n010000148000012c000000040000001100000022",
                "1: no message: 5015 DIAMETER_INVALID_MESSAGE_LENGTH: wrong length\n2: Thing 300 request, application 4, hop-by-hop 17 (0x00000011), end-to-end 34 (0x00000022)\n",
                false,
            ),
        ],
    );
}

/// The line that is said of the message.
const SAID: &str =
    "1: Thing 300 request, application 4, hop-by-hop 17 (0x00000011), end-to-end 34 (0x00000022)\n";

/// Lines whose first and last sixteen octets are digits, with something else between these.
#[test]
fn lines_with_a_gap(rt: HostRuntime) {
    let short =
        "1: no message: 5015 DIAMETER_INVALID_MESSAGE_LENGTH: fewer octets than a header has\n";
    let none = "1: no hexadecimal\n";
    let rows = &[
        ("010000148000012c 000000040000001100000022", SAID, true),
        ("010000148000012c 00000004000000110000002", none, false),
        ("010000148000012c\t000000040000001100000022", SAID, true),
        ("010000148000012c:000000040000001100000022", SAID, true),
        ("010000148000012c#000000040000001100000022", short, false),
        ("010000148000012c;00000004000000110000002", short, false),
        ("010000148000012cx000000040000001100000022", none, false),
        ("010000148000012c,000000040000001100000022", none, false),
        ("010000148000012c 0x000000040000001100000022", SAID, true),
        ("010000148000012c0x000000040000001100000022", none, false),
        ("010000148000012c000000040 000001100000022", SAID, true),
        ("010000148000012c00000004 0000001100000022", SAID, true),
        ("010000148000012c0000000 40000001100000022", SAID, true),
        ("010000148000012c00000004g0000001100000022", none, false),
        ("010000148000012c00000004g000001100000022", none, false),
        (
            "010000148000012c000000040000001100000022 # 0123456789abcdef",
            SAID,
            true,
        ),
    ];
    assert_said(&rt, Task::Show, rows);
}

/// Lines of fifteen, sixteen, seventeen and so many more digits, with a bad one in front or behind.
#[test]
fn lines_of_few_digits(rt: HostRuntime) {
    let short =
        "1: no message: 5015 DIAMETER_INVALID_MESSAGE_LENGTH: fewer octets than a header has\n";
    let none = "1: no hexadecimal\n";
    let rows = &[
        ("010000148000012", none, false),
        ("010000148000012c", short, false),
        ("g10000148000012c", none, false),
        ("010000148000012g", none, false),
        ("010000148000012c0", none, false),
        ("010000148000012c00", short, false),
        ("010000148000012c000000040000001", none, false),
        ("010000148000012c0000000400000011", short, false),
        ("010000148000012c000000040000001g", none, false),
        ("010000148000012c00000004000000110", none, false),
        ("010000148000012c0000000400000011000000", short, false),
        ("010000148000012c00000004000000110000002g", none, false),
        ("g10000148000012c000000040000001100000022", none, false),
        ("010000148000012cg00000040000001100000022", none, false),
    ];
    assert_said(&rt, Task::Show, rows);
}

#[test]
fn lines_counted(rt: HostRuntime) {
    assert_said(
        &rt,
        Task::Check,
        &[
            ("", "0 good, 0 bad\n", true),
            (
                "# nothing\n0\n",
                "2: no hexadecimal\n0 good, 1 bad\n",
                false,
            ),
        ],
    );
}
