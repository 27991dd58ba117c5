//! Ends with addresses of both versions.
use crate::told::{assert_ends, end_of_4, end_of_6};

#[test]
fn ends_of_version_4(rt: HostRuntime) {
    assert_ends(
        &rt,
        &[
            (end_of_4(0x0a000001, 41234), "10.0.0.1:41234"),
            (end_of_4(0, 0), "0.0.0.0:0"),
            (end_of_4(0xffffffff, 65535), "255.255.255.255:65535"),
            (end_of_4(0xc0a80164, 3868), "192.168.1.100:3868"),
        ],
    );
}

#[test]
fn ends_of_version_6(rt: HostRuntime) {
    assert_ends(
        &rt,
        &[
            (
                end_of_6(0x20010db8_00000000_00000000_00000001, 3868),
                "[2001:db8::1]:3868",
            ),
            (end_of_6(0, 0), "[::]:0"),
            (end_of_6(1, 5868), "[::1]:5868"),
            // An address of version 4 that is mapped.
            (end_of_6(0xffff_0a000001, 3868), "[::ffff:10.0.0.1]:3868"),
            // The first of two runs of zeros, and the longer one.
            (
                end_of_6(0x20010db8_00000000_00010000_00000001, 3868),
                "[2001:db8::1:0:0:1]:3868",
            ),
            (
                end_of_6(0x20010000_00000001_00000000_00000001, 3868),
                "[2001:0:0:1::1]:3868",
            ),
            // No single zero is left out.
            (
                end_of_6(0x20010db8_00000001_00010001_00010001, 3868),
                "[2001:db8:0:1:1:1:1:1]:3868",
            ),
            (
                end_of_6(0xfedcba98_76543210_0123abcd_ffff000f, 65535),
                "[fedc:ba98:7654:3210:123:abcd:ffff:f]:65535",
            ),
        ],
    );
}
