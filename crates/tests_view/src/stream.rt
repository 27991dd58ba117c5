//! Lines as one stream.
use crate::dictionary::assert_streamed;
use dm_view_lines::Task;

#[test]
fn streams_shown(rt: HostRuntime) {
    assert_streamed(
        &rt,
        Task::Show,
        &[
            ("", "", true),
            ("# nothing\n\n", "", true),
            (
                "010000208000012c000000040000001100000022000017744000000c00000001\n010000148000012b000000040000001100000022\n",
                "1: Thing 300 request, application 4, hop-by-hop 17 (0x00000011), end-to-end 34 (0x00000022)\n  Count 6004 -M- 1\n2: ? 299 request, application 4, hop-by-hop 17 (0x00000011), end-to-end 34 (0x00000022)\n",
                true,
            ),
            (
                "010000\n208000012c000000\n\n0400000011000000220000 ; a comment\n17744000000c00000001",
                "1: Thing 300 request, application 4, hop-by-hop 17 (0x00000011), end-to-end 34 (0x00000022)\n  Count 6004 -M- 1\n",
                true,
            ),
            (
                "010000208000012c000000040000001100000022000017744000000c00000001010000148000012b0000\n00040000001100000022010000208000012c000000040000001100000022000017744000000c00000001",
                "1: Thing 300 request, application 4, hop-by-hop 17 (0x00000011), end-to-end 34 (0x00000022)\n  Count 6004 -M- 1\n2: ? 299 request, application 4, hop-by-hop 17 (0x00000011), end-to-end 34 (0x00000022)\n3: Thing 300 request, application 4, hop-by-hop 17 (0x00000011), end-to-end 34 (0x00000022)\n  Count 6004 -M- 1\n",
                true,
            ),
            (
                "01\n00\n00\n20\n80\n00\n01\n2c\n00\n00\n00\n04\n00\n00\n00\n11\n00\n00\n00\n22\n00\n00\n17\n74\n40\n00\n00\n0c\n00\n00\n00\n01",
                "1: Thing 300 request, application 4, hop-by-hop 17 (0x00000011), end-to-end 34 (0x00000022)\n  Count 6004 -M- 1\n",
                true,
            ),
            (
                "010000208000012c000000040000001100000022000017744000000c00000001010000208000012c000000040000001100000022\n",
                "1: Thing 300 request, application 4, hop-by-hop 17 (0x00000011), end-to-end 34 (0x00000022)\n  Count 6004 -M- 1\n2: no message: the stream ends inside it, at octet 20\n",
                false,
            ),
            (
                "01",
                "1: no message: the stream ends inside it, at octet 1\n",
                false,
            ),
            (
                "010000208000012c000000040000001100000022000017744000000c0000000102\n010000208000012c000000040000001100000022000017744000000c00000001",
                "1: Thing 300 request, application 4, hop-by-hop 17 (0x00000011), end-to-end 34 (0x00000022)\n  Count 6004 -M- 1\n2: no message: 5011 DIAMETER_UNSUPPORTED_VERSION: the first octet isn't 1\n",
                false,
            ),
            (
                "01000013\nxyz\n",
                "1: no message: 5015 DIAMETER_INVALID_MESSAGE_LENGTH: wrong length\n",
                false,
            ),
            (
                "010000208000012c000000040000001100000022000017744000000c00000001\n01000022\n",
                "1: Thing 300 request, application 4, hop-by-hop 17 (0x00000011), end-to-end 34 (0x00000022)\n  Count 6004 -M- 1\n2: no message: 5015 DIAMETER_INVALID_MESSAGE_LENGTH: wrong length\n",
                false,
            ),
            (
                "\n010000208000012c000000040000001100000022000017744000000c0000000101000020\n8000012c000000040000001100000022000017744000000c00000001\n0\n010000208000012c000000040000001100000022000017744000000c00000001",
                "1: Thing 300 request, application 4, hop-by-hop 17 (0x00000011), end-to-end 34 (0x00000022)\n  Count 6004 -M- 1\n2: Thing 300 request, application 4, hop-by-hop 17 (0x00000011), end-to-end 34 (0x00000022)\n  Count 6004 -M- 1\nline 4: no hexadecimal\n",
                false,
            ),
            (
                "010000208000012c000000040000001100000022000017744000000c0000000101000020\nxyz\n8000012c000000040000001100000022000017744000000c00000001",
                "1: Thing 300 request, application 4, hop-by-hop 17 (0x00000011), end-to-end 34 (0x00000022)\n  Count 6004 -M- 1\nline 2: no hexadecimal\n",
                false,
            ),
            (
                "0100002c8000012c000000040000001100000022000017744000000c0000000100001774400000c8\n00000001010000208000012c000000040000001100000022000017744000000c00000001",
                "1: Thing 300 request, application 4, hop-by-hop 17 (0x00000011), end-to-end 34 (0x00000022)\n  Count 6004 -M- 1\n  no message: 5014 DIAMETER_INVALID_AVP_LENGTH: no AVP at octet 32\n2: Thing 300 request, application 4, hop-by-hop 17 (0x00000011), end-to-end 34 (0x00000022)\n  Count 6004 -M- 1\n",
                false,
            ),
        ],
    );
}

#[test]
fn streams_checked(rt: HostRuntime) {
    assert_streamed(
        &rt,
        Task::Check,
        &[
            ("", "0 good, 0 bad\n", true),
            (
                "010000208000012c000000040000001100000022000017744000000c00000001010000148000012b000000040000001100000022\n010000208000012c000000040000001100000022000017744000000c00000001",
                "1: good Thing 300 request, application 4, hop-by-hop 17 (0x00000011), end-to-end 34 (0x00000022)\n2: bad ? 299 request, application 4, hop-by-hop 17 (0x00000011), end-to-end 34 (0x00000022)\n  3001 DIAMETER_COMMAND_UNSUPPORTED\n3: good Thing 300 request, application 4, hop-by-hop 17 (0x00000011), end-to-end 34 (0x00000022)\n2 good, 1 bad\n",
                false,
            ),
            (
                "010000208000012c000000040000001100000022000017744000000c00000001010000208000012c000000040000001100000022000017744000000c0000000101",
                "1: good Thing 300 request, application 4, hop-by-hop 17 (0x00000011), end-to-end 34 (0x00000022)\n2: good Thing 300 request, application 4, hop-by-hop 17 (0x00000011), end-to-end 34 (0x00000022)\n3: no message: the stream ends inside it, at octet 1\n2 good, 1 bad\n",
                false,
            ),
        ],
    );
}
