//! Tokens and words of dictionary texts: what each text's first fault is.
use crate::texts::assert_faults_over_base;
use dm_dict::DictFault;

const TOKENS_ROWS: &[(&[u8], Option<DictFault>)] = &[
    (b"", None),
    (b" \n\t", None),
    (b"; ends here", None),
    (b"@ Foo 5000 Time ; ends here", None),
    // A text that ends too early: its last line, also one of comment or spaces. A last LF begins none.
    (b"@ Foo", Some(DictFault::Syntax(1))),
    (b"@ Foo\n", Some(DictFault::Syntax(1))),
    (b"@ Foo\n\n", Some(DictFault::Syntax(2))),
    (b"@ Foo\n  ", Some(DictFault::Syntax(2))),
    (b"@ Foo\n; ends here", Some(DictFault::Syntax(2))),
    (b"@ Foo\r\n; one\n; two\n", Some(DictFault::Syntax(3))),
    // CR is between tokens, and ends neither a line nor a comment.
    (b"@\rFoo\r5000\tTime\r", None),
    (b"@ Foo\r%", Some(DictFault::Syntax(1))),
    (b"@ Foo\r\n%", Some(DictFault::Syntax(2))),
    (b"@ Foo 5000 Time ; one\r%", None),
    (b"@ Foo 5000 Time ; one\n%", Some(DictFault::Syntax(2))),
    // `::=` is taken before `:`.
    (b"X::=<AVP-Header:5>*[AVP]", None),
    (b"X\n:::=<AVP-Header:5>", Some(DictFault::Syntax(2))),
    (b"X::=<AVP-Header:\n::=5>", Some(DictFault::Syntax(2))),
    (b"X::=<AVP-Header::=5>", Some(DictFault::Syntax(1))),
    // A name may begin with a digit, and isn't digits alone.
    (b"@ 3GPP-Foo 5000 Time", None),
    (b"@ 3- 5000 Time", None),
    (b"@ 3 5000 Time", Some(DictFault::Syntax(1))),
    (b"@ -A 5000 Time", Some(DictFault::Syntax(1))),
    (b"@ A_B 5000 Time", Some(DictFault::Syntax(1))),
    (b"@ Foo\n5A Time", Some(DictFault::Syntax(2))),
    (b"\xff", Some(DictFault::Syntax(1))),
];

#[test]
fn tokens_of_texts(rt: HostRuntime) {
    assert_faults_over_base(&rt, TOKENS_ROWS);
}

const WORDS_ROWS: &[(&[u8], Option<DictFault>)] = &[
    // Words are names where no step wants them, and stand in just their case.
    (
        b"@ Diameter 5000 Time @ Header 5001 Time @ REQ 5002 Time REQ ::= < Diameter Header: 300, REQ > { Diameter } { Header } { REQ }",
        None,
    ),
    (b"Diameter-Header ::= < Diameter-Header: 300 >", None),
    (b"@ Time 5000 Time", None),
    (b"@ avp 5000 Time", None),
    (b"@ Foo 5000 time", Some(DictFault::UnknownName(1))),
    (
        b"< X > ::= < diameter Header: 300 >",
        Some(DictFault::Syntax(1)),
    ),
    (b"< X > ::= < avp Header: 5 >", Some(DictFault::Syntax(1))),
    (
        b"< X > ::= < Diameter Header: 300, req >",
        Some(DictFault::Syntax(1)),
    ),
    // The flags have an order; the number behind them may have a comma.
    (
        b"< X > ::= < Diameter Header: 300, PXY, REQ >",
        Some(DictFault::Syntax(1)),
    ),
    (b"< X > ::= < Diameter Header: 300, REQ, 4 >", None),
    (b"< X > ::= < Diameter Header: 300 4 >", None),
    (
        b"< X > ::= < Diameter Header: 300, >",
        Some(DictFault::Syntax(1)),
    ),
    // A title can't stand behind a qualifier, and one without brackets may follow an item.
    (
        b"< X > ::= < Diameter Header: 1 > * < Y >\n::= < AVP Header: 5 >",
        Some(DictFault::Syntax(2)),
    ),
    (b"@ Foo 5000 Time Bar ::= < AVP-Header: 5 >", None),
    // AVP names and command names are two name spaces; `AVP` is no AVP's name.
    (b"< User-Name > ::= < Diameter Header: 1 >", None),
    (b"< AVP > ::= < Diameter Header: 1 >", None),
    (b"@ CER 5000 Time", None),
    (
        b"< AVP > ::= < AVP Header: 5 >",
        Some(DictFault::Duplicate(1)),
    ),
    (b"@ AVP 5000 Time", Some(DictFault::Duplicate(1))),
];

#[test]
fn words_of_texts(rt: HostRuntime) {
    assert_faults_over_base(&rt, WORDS_ROWS);
}
