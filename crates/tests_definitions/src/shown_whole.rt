//! What Debug shows of whole dictionaries, as sums of what it showed when all of it was derived.

use dm_dict::Dictionary;
use std::process::Abort;

/// A text, and the sum of what is shown of its dictionary.
const ROWS: &[(&str, u64)] = &[
    ("", 0x042c_8c20_70b0_a803),
    (
        "@ 2 @ vendor A 9 @ F 1 Enumerated : A { X 0, Y 1 }",
        0xeb41_423c_ecc1_a919,
    ),
    // A rule with entries, for any AVP, for none, and of an AVP that has no rule.
    (
        "@ F 1 Time < G > ::= < AVP Header: 2 > { F } *[ AVP ] < H > ::= < AVP Header: 3 > < I > ::= < AVP Header: 4 > [ G ] [ F ]",
        0xa0c4_1a2b_3316_3887,
    ),
    // Codes that share their lowest nine bits, with vendors and without, and the last code.
    (
        "@ A 7 Time @ B 519 Time @ C 7 Time 5 @ D 511 Time @ E 512 Time @ F 4294967295 Time",
        0x49d9_a8a7_7aea_077f,
    ),
    // Commands with rules and without.
    (
        "@ F 1 Time < Q > ::= < Diameter Header: 5, REQ > { F } < R > ::= < Diameter Header: 5 > < S > ::= < Diameter Header: 6, PXY > *[ AVP ]",
        0x1b4f_3da8_e08c_5781,
    ),
];

/// So many definitions, and the sum of what is shown of their dictionary.
const MADE_ROWS: &[(u32, u64)] = &[
    (1, 0x2504_01df_7bec_9cb3),
    (2, 0xf2e7_5959_ceb2_15eb),
    (3, 0x9a67_0588_fe9e_34d3),
    (4, 0xe9da_568d_171e_a025),
    (7, 0x2573_37b1_0116_b901),
    (16, 0x29de_b091_d7c4_8d5f),
    (63, 0xa1b0_bfbe_6075_373d),
    (64, 0x5991_de5f_2241_391f),
    (65, 0x4291_af12_24e2_e03f),
    (300, 0x5df2_5113_2ad5_6911),
    (1100, 0x019f_cd15_2f69_b77f),
];

/// The sum of a text's octets in their order.
fn sum_of(text: &str) -> u64 {
    let mut sum: u64 = 0xcbf2_9ce4_8422_2325;
    for octet in text.as_bytes() {
        sum = (sum ^ u64::from(*octet)).wrapping_mul(0x0000_0100_0000_01b3);
    }
    sum
}

/// The sum of both forms that Debug shows of the text's dictionary.
fn shown(rt: &(impl Abort + AllocGlobal), text: &str) -> u64 {
    let empty = Dictionary::empty(rt.alloc());
    let read = Dictionary::read(rt.alloc(), text.as_bytes(), &empty);
    drop(empty);
    let dictionary = read.expect(rt, "a dictionary");
    let shown = format!(in rt.alloc(); "{dictionary:?}\n{dictionary:#?}").expect(rt, "the text");
    drop(dictionary);
    sum_of(shown.as_str())
}

/// One definition more: an AVP without a rule, one of a vendor, or a group of the two before it.
fn put_definition(rt: &(impl Abort + AllocGlobal), text: &mut String, place: u32) {
    let code = 400 + place.wrapping_mul(131) % 3001;
    let one = place.saturating_sub(1);
    let other = place.saturating_sub(2);
    let item = match place % 3 {
        0 => format!(in rt.alloc(); "@ A{place} {code} Unsigned32\n"),
        1 => format!(in rt.alloc(); "@ A{place} {code} Enumerated 99 {{ X 0, Y {place} }}\n"),
        _ => {
            format!(in rt.alloc();
                "< A{place} > ::= < AVP Header: {code} > {{ A{one} }} [ A{other} ]\n"
            )
        }
    };
    let item = item.expect(rt, "memory");
    text.push_str(item.as_str()).expect(rt, "memory");
    drop(item);
}

/// A text of so many definitions and a command.
fn made(rt: &(impl Abort + AllocGlobal), count: u32) -> String {
    let mut text = String::from_str(rt.alloc(), "@ 2\n").expect(rt, "memory");
    for place in 0..count {
        put_definition(rt, &mut text, place);
    }
    text.push_str("< Q > ::= < Diameter Header: 300, REQ > { A0 } *[ AVP ]")
        .expect(rt, "memory");
    text
}

#[test]
fn written_dictionaries_are_shown_as_they_were(rt: HostRuntime) {
    for (text, sum) in ROWS {
        assert!(&rt; shown(&rt, text) == *sum);
    }
}

#[test]
fn made_dictionaries_are_shown_as_they_were(rt: HostRuntime) {
    for (count, sum) in MADE_ROWS {
        let text = made(&rt, *count);
        assert!(&rt; shown(&rt, text.as_str()) == *sum);
        drop(text);
    }
}
