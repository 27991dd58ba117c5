//! All that is wrong with messages, and why.
use crate::dictionary::assert_said;
use dm_view_lines::Task;

#[test]
fn messages_with_reasons(rt: HostRuntime) {
    assert_said(
        &rt,
        Task::Check,
        &[
            (
                "010000208000012c000000040000001100000022000017744000000c00000001",
                "1: good Thing 300 request, application 4, hop-by-hop 17 (0x00000011), end-to-end 34 (0x00000022)\n1 good, 0 bad\n",
                true,
            ),
            (
                "010000148000012b000000040000001100000022",
                "1: bad ? 299 request, application 4, hop-by-hop 17 (0x00000011), end-to-end 34 (0x00000022)\n  3001 DIAMETER_COMMAND_UNSUPPORTED\n0 good, 1 bad\n",
                false,
            ),
            (
                "01000020a000012c000000040000001100000022000017744000000c00000001",
                "1: bad Thing 300 request error, application 4, hop-by-hop 17 (0x00000011), end-to-end 34 (0x00000022)\n  3008 DIAMETER_INVALID_HDR_BITS\n0 good, 1 bad\n",
                false,
            ),
            (
                "010000288000012c000000040000001100000022000017744000000c0000000100001e6140000008",
                "1: bad Thing 300 request, application 4, hop-by-hop 17 (0x00000011), end-to-end 34 (0x00000022)\n  5001 DIAMETER_AVP_UNSUPPORTED ? 7777 -M-: not known, and mandatory\n0 good, 1 bad\n",
                false,
            ),
            (
                "0100004c8000012c000000040000001100000022000017744000000c000000010000177c4000000c000000030000177640000020000017744000000c00000001000017784000000b00000000",
                "1: bad Thing 300 request, application 4, hop-by-hop 17 (0x00000011), end-to-end 34 (0x00000022)\n  5004 DIAMETER_INVALID_AVP_VALUE Colour 6012 -M-: wrong value\n  5014 DIAMETER_INVALID_AVP_LENGTH Group[1] / When 6008 -M-: length 3, not 4\n0 good, 1 bad\n",
                false,
            ),
            (
                "010000148000012c000000040000001100000022",
                "1: bad Thing 300 request, application 4, hop-by-hop 17 (0x00000011), end-to-end 34 (0x00000022)\n  5005 DIAMETER_MISSING_AVP lacks Count 6004 -M-\n0 good, 1 bad\n",
                false,
            ),
            (
                "010000288000012d000000040000001100000022000017744000000c000000010000177140000008",
                "1: bad Strict 301 request, application 4, hop-by-hop 17 (0x00000011), end-to-end 34 (0x00000022)\n  5008 DIAMETER_AVP_NOT_ALLOWED Octets 6001 -M-: not allowed here\n0 good, 1 bad\n",
                false,
            ),
            (
                "0100002c8000012c000000040000001100000022000017744000000c00000001000017744000000c00000002",
                "1: bad Thing 300 request, application 4, hop-by-hop 17 (0x00000011), end-to-end 34 (0x00000022)\n  5009 DIAMETER_AVP_OCCURS_TOO_MANY_TIMES Count 6004 -M-: one too many\n0 good, 1 bad\n",
                false,
            ),
            (
                "0100003c8000012c000000040000001100000022000017744000000c00000001000017764000000c0000000100001771400000080000177a40000008",
                "1: bad Thing 300 request, application 4, hop-by-hop 17 (0x00000011), end-to-end 34 (0x00000022)\n  5014 DIAMETER_INVALID_AVP_LENGTH Group 6006 -M-: no AVPs one after the other\n  5014 DIAMETER_INVALID_AVP_LENGTH Host 6010 -M-: length 0, at least 1\n0 good, 1 bad\n",
                false,
            ),
            (
                "0100002c8000012c000000040000001100000022000017744000000c0000000100001774400000c800000001",
                "1: bad Thing 300 request, application 4, hop-by-hop 17 (0x00000011), end-to-end 34 (0x00000022)\n  no message: 5014 DIAMETER_INVALID_AVP_LENGTH: no AVP at octet 32\n0 good, 1 bad\n",
                false,
            ),
        ],
    );
}
