//! Which lines a script may have where.
use super::rows::assert_replayed;
use std::process::Abort;

const PEERS: &str = "peer A b.example 4\npeer B a.example 4\n";

/// Each line behind two peers is refused.
fn assert_refused(rt: &(impl Abort + AllocGlobal), lines: &[&str]) {
    for line in lines {
        let mut text = String::from_str(rt.alloc(), PEERS).expect(rt, "memory");
        text.push_str(line).expect(rt, "memory");
        assert_replayed(rt, &[(text.as_str(), "fault syntax 3\n", false)]);
    }
}

#[test]
fn empty_input(rt: HostRuntime) {
    let rows = &[
        ("", "", true),
        ("\n", "", true),
        ("# a comment\n   # another\n\n    \r\n", "", true),
    ];
    assert_replayed(&rt, rows);
}

#[test]
fn peers_come_first(rt: HostRuntime) {
    let rows = &[
        ("peer A b.example 4\n", "fault syntax 1\n", false),
        (
            "# x\n\npeer A b.example 4\n\n# y",
            "fault syntax 5\n",
            false,
        ),
        ("peer B b.example 4\n", "fault syntax 1\n", false),
        ("start A\n", "fault syntax 1\n", false),
        (
            "peer A b.example 4\npeer A a.example 4\n",
            "fault syntax 2\n",
            false,
        ),
        ("peer A b.example 4\nstart A\n", "fault syntax 2\n", false),
        (
            "peer A b.example 4\npeer B a.example\n",
            "fault syntax 2\n",
            false,
        ),
        ("peer A b.example 4 4\n", "fault syntax 1\n", false),
        ("peer A b.example 4294967296\n", "fault syntax 1\n", false),
        ("peer A b\u{7f} 4\n", "fault syntax 1\n", false),
        ("peer\tA b.example 4\n", "fault syntax 1\n", false),
    ];
    assert_replayed(&rt, rows);
}

#[test]
fn lines_that_are_no_happenings(rt: HostRuntime) {
    let lines = &[
        "start",
        "start C",
        "start a",
        "start A B",
        "Start A",
        "stop A",
        "stop A 3",
        "stop 0 A",
        "ack",
        "ack A",
        "ack 18446744073709551616",
        "deliver A 0",
        "deliver 0",
        "lose 0 1",
        "lose 0 4294967296 0",
        "submit A",
        "submit A 0",
        "submit A 0g",
        "submit A 00 00",
        "piece 0 B",
        "piece 0 B 1 1",
        "piece B 0 1",
        "piece 0 1",
        "piece 0 C 1",
        "piece 0 B 4294967296",
        "piece 0 B -1",
        "Piece 0 B 1",
        "peer A b.example 4",
        "tick A # not a comment",
    ];
    assert_refused(&rt, lines);
}

#[test]
fn faults_in_their_order(rt: HostRuntime) {
    let rows = &[
        (
            "peer A a 4\npeer B A 4\nstart A\nstop A 9\n",
            "fault syntax 4\n",
            false,
        ),
        ("peer A a 4\npeer B A 5\n", "fault SameHost\n", false),
        (
            "peer A a 4\npeer B b 5\nack 0\n",
            "fault NothingCommon\n",
            false,
        ),
        (
            "peer A a 4\npeer B b 4\nack 0\nstart A\n",
            "1 nolink\n",
            false,
        ),
        (
            "peer A # 4\npeer B b 4294967295\n",
            "end agreed=yes quiet=yes open=-\n",
            true,
        ),
    ];
    assert_replayed(&rt, rows);
}

#[test]
fn words_in_other_forms(rt: HostRuntime) {
    let rows = &[
        (
            "  peer   A  b.example  0004 \r\npeer B a.example 4\n   start A  \n stop   A  02\nlose 00 0 4294967295",
            "1 done A Wait-Conn-Ack i0 B Closed\n2 ignored A Wait-Conn-Ack i0 B Closed\n3 ignored A Wait-Conn-Ack i0 B Closed\nend agreed=yes quiet=no open=-\n",
            true,
        ),
        (
            "peer A b 4\npeer B a 4\nsubmit A 00\nack 18446744073709551615",
            "1 ignored A Closed B Closed\n2 nolink\n",
            false,
        ),
    ];
    assert_replayed(&rt, rows);
}
