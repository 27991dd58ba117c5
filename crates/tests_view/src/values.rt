//! Messages in names and values.
use crate::dictionary::assert_said;
use dm_view_lines::Task;

const EVERY_TYPE: &str =
    "010001088000012c000000040000001100000022000017714000000aabcd0000000017724000000cfffffffe0000177340000010fffffffffffffffd000017744000000cffffffff0000177540000010ffffffffffffffff000017764000001c000017744000000c000000070000177100000008000017774000000e0001c00002010000000017774000001a000220010db80000000000000000000000010000000017784000000ce000e100000017794000000ac3a90000000017794000000b612262000000177a40000011612e6578616d706c650000000000177b400000176161613a2f2f612e6578616d706c65000000177c4000000c000000020000177c4000000c00000003";

const EVERY_TYPE_TEXT: &str =
    "1: Thing 300 request, application 4, hop-by-hop 17 (0x00000011), end-to-end 34 (0x00000022)\n  Octets 6001 -M- abcd\n  Whole 6002 -M- -2\n  Long 6003 -M- -3\n  Count 6004 -M- 4294967295\n  Large 6005 -M- 18446744073709551615\n  Group 6006 -M-\n    Count 6004 -M- 7\n    Octets 6001 --- -\n  Place 6007 -M- 192.0.2.1\n  Place 6007 -M- 2001:db8::1\n  When 6008 -M- 1549165184 2019-02-03T03:39:44Z\n  Words 6009 -M- \"é\"\n  Words 6009 -M- 612262\n  Host 6010 -M- a.example\n  Where 6011 -M- aaa://a.example\n  Colour 6012 -M- BLUE (2)\n  Colour 6012 -M- 3\n";

const VENDORS: &str =
    "010000404000012c00000004000000110000002200001774e000001000000063000000010000177480000010000000640000000200001e610000000901000000";

const VENDORS_TEXT: &str =
    "1: ? 300 answer proxiable, application 4, hop-by-hop 17 (0x00000011), end-to-end 34 (0x00000022)\n  Acme-Count 6004/99 VMP 1\n  ? 6004/100 V-- 00000002\n  ? 7777 --- 01\n";

const DEPTH_OF_NINE: &str =
    "010000688000012c0000000400000011000000220000177640000054000017764000004c0000177640000044000017764000003c0000177640000034000017764000002c0000177640000024000017764000001c0000177640000014000017744000000c00000009";

const DEPTH_OF_NINE_TEXT: &str =
    "1: Thing 300 request, application 4, hop-by-hop 17 (0x00000011), end-to-end 34 (0x00000022)\n  Group 6006 -M-\n    Group 6006 -M-\n      Group 6006 -M-\n        Group 6006 -M-\n          Group 6006 -M-\n            Group 6006 -M-\n              Group 6006 -M-\n                Group 6006 -M-\n                  Group 6006 -M- too deep 000017744000000c00000009\n";

const FLAWS: &str =
    "010000388000012c000000040000001100000022000017744000000b00000100000017774000000c00010102000017764000000c00000001";

const FLAWS_TEXT: &str =
    "1: Thing 300 request, application 4, hop-by-hop 17 (0x00000011), end-to-end 34 (0x00000022)\n  Count 6004 -M- wrong length 000001\n  Place 6007 -M- wrong value 00010102\n  Group 6006 -M- wrong length 00000001\n";

const CUT: &str =
    "0100002c8000012c000000040000001100000022000017744000000c0000000100001774400000c800000001";

const CUT_TEXT: &str =
    "1: Thing 300 request, application 4, hop-by-hop 17 (0x00000011), end-to-end 34 (0x00000022)\n  Count 6004 -M- 1\n  no message: 5014 DIAMETER_INVALID_AVP_LENGTH: no AVP at octet 32\n";

#[test]
fn messages_in_values(rt: HostRuntime) {
    assert_said(
        &rt,
        Task::Show,
        &[
            (EVERY_TYPE, EVERY_TYPE_TEXT, true),
            (VENDORS, VENDORS_TEXT, true),
            (DEPTH_OF_NINE, DEPTH_OF_NINE_TEXT, true),
            (FLAWS, FLAWS_TEXT, true),
            (CUT, CUT_TEXT, false),
        ],
    );
}
