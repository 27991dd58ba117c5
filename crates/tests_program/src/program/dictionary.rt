//! What check prints with a dictionary before its lines.
use super::check::assert_checked;

#[test]
fn vendor_and_dictionary(rt: HostRuntime) {
    let rows = &[
        (
            "@ Foo 5000 Unsigned32 99\n%%\n01000048 80000118 00000000 00000001 00000001 00000108 40000011 612e6578 616d706c 65000000 00000128 4000000f 6578616d 706c6500 00001388 c0000010 00000063 00000007",
            "good\n",
            true,
        ),
        (
            "@ Foo 264 Unsigned32\n%%\n01000048 80000118 00000000 00000001 00000001 00000108 40000011 612e6578 616d706c 65000000 00000128 4000000f 6578616d 706c6500 00001388 c0000010 00000063 00000007",
            "fault dict Duplicate 1\n",
            false,
        ),
    ];
    assert_checked(&rt, true, rows);
}

#[test]
fn groups_inside_each_other(rt: HostRuntime) {
    let rows = &[
        (
            "< G > ::= < AVP Header: 6000 > *[ AVP ] < Q > ::= < Diameter Header: 300, REQ > *[ AVP ]\n%%\n0100005c 8000012c 00000000 00000001 00000001 00001770 40000048 00001770 40000040 00001770 40000038 00001770 40000030 00001770 40000028 00001770 40000020 00001770 40000018 00001770 40000010 00001770 40000008",
            "bad 5004 6000 -M- -\n",
            false,
        ),
        (
            "< G > ::= < AVP Header: 6000 > *[ AVP ] < Q > ::= < Diameter Header: 300, REQ > *[ AVP ]\n%%\n01000054 8000012c 00000000 00000001 00000001 00001770 40000040 00001770 40000038 00001770 40000030 00001770 40000028 00001770 40000020 00001770 40000018 00001770 40000010 00001770 40000008",
            "good\n",
            true,
        ),
    ];
    assert_checked(&rt, true, rows);
}

#[test]
fn empty_dictionary(rt: HostRuntime) {
    let rows = &[
        ("", "", true),
        ("%%", "", true),
        (
            "%%\n01000038 80000118 00000000 00000001 00000001 00000108 40000011 612e6578 616d706c 65000000 00000128 4000000f 6578616d 706c6500\n",
            "good\n",
            true,
        ),
    ];
    assert_checked(&rt, true, rows);
}

/// Where the dictionary ends, and what a line of `%%` is.
#[test]
fn dictionary_ends(rt: HostRuntime) {
    let rows = &[
        // The mark is trimmed like every line, and a second one is a line of check.
        (
            "@ Foo 5000 Unsigned32 99\r\n  %% \r\n01000048 80000118 00000000 00000001 00000001 00000108 40000011 612e6578 616d706c 65000000 00000128 4000000f 6578616d 706c6500 00001388 c0000010 00000063 00000007\n%%\n01000038 80000118 00000000 00000001 00000001 00000108 40000011 612e6578 616d706c 65000000 00000128 4000000f 6578616d 706c6500",
            "good\nfault hex\ngood\n",
            false,
        ),
        // Without a mark all is dictionary, also a message.
        ("@ Foo 5000 Unsigned32 99", "", true),
        (
            "01000038 80000118 00000000 00000001 00000001 00000108 40000011 612e6578 616d706c 65000000 00000128 4000000f 6578616d 706c6500",
            "fault dict Syntax 1\n",
            false,
        ),
        // `#` begins no comment in a dictionary, and `%%` behind other words is no mark.
        (
            "# none\n%%\n01000038 80000118 00000000 00000001 00000001 00000108 40000011 612e6578 616d706c 65000000 00000128 4000000f 6578616d 706c6500",
            "fault dict Syntax 1\n",
            false,
        ),
        (
            "@ Foo 5000 Time %%\n%%\n01000038 80000118 00000000 00000001 00000001 00000108 40000011 612e6578 616d706c 65000000 00000128 4000000f 6578616d 706c6500",
            "fault dict Syntax 1\n",
            false,
        ),
        // A comment may stand before the mark, and lines count.
        (
            "; one\n@ Foo 5000\n; two\nUnsigned33\n%%\n01000038 80000118 00000000 00000001 00000001 00000108 40000011 612e6578 616d706c 65000000 00000128 4000000f 6578616d 706c6500",
            "fault dict UnknownName 4\n",
            false,
        ),
        ("@ Foo 4294967296 Time\n%%", "fault dict Range 1\n", false),
        (
            "< X > ::= < AVP Header: 7 >\n[ User-Name ]\n{ Class }\n%%",
            "fault dict Order 3\n",
            false,
        ),
    ];
    assert_checked(&rt, true, rows);
}

/// A value that the list of an Enumerated leaves out, and one of it.
#[test]
fn listed_value(rt: HostRuntime) {
    let rows = &[
        (
            "@ 2\n@ vendor Acme 99\n@ Colour 5000 Enumerated : Acme { RED 0, BLUE 2 }\n< Ask > ::= < Diameter Header: 300, REQ > { Colour }\n%%\n01000024 8000012c 00000000 00000001 00000001 00001388 c0000010 00000063 00000001",
            "bad 5004 5000/99 VM- 00000001\n",
            false,
        ),
        (
            "@ 2\n@ vendor Acme 99\n@ Colour 5000 Enumerated : Acme { RED 0, BLUE 2 }\n< Ask > ::= < Diameter Header: 300, REQ > { Colour }\n%%\n01000024 8000012c 00000000 00000001 00000001 00001388 c0000010 00000063 00000002",
            "good\n",
            true,
        ),
        // A negative value is never listed.
        (
            "@ 2 @ Colour 5000 Enumerated { RED 0 } < Ask > ::= < Diameter Header: 300, REQ > { Colour }\n%%\n01000020 8000012c 00000000 00000001 00000001 00001388 4000000c ffffffff",
            "bad 5004 5000 -M- ffffffff\n",
            false,
        ),
        // Another size comes first.
        (
            "@ 2 @ Colour 5000 Enumerated { RED 0 } < Ask > ::= < Diameter Header: 300, REQ > { Colour }\n%%\n01000024 8000012c 00000000 00000001 00000001 00001388 40000010 00000000 00000000",
            "bad 5014 5000 -M- 0000000000000000\n",
            false,
        ),
    ];
    assert_checked(&rt, true, rows);
}
