//! Scripts and their replays, row by row.
use dm_tool::run_replay;
use std::alloc::Global;
use std::process::Abort;

/// Whether replay prints this text for an input in memory, and whether all of it was good.
fn replays(alloc: Global, input: &str, want: &str) -> Option<bool> {
    let mut reader = input.as_bytes();
    let mut text = Vec::new(alloc);
    let done = run_replay(alloc, &mut reader, &mut text);
    let same = text.as_slice() == want.as_bytes();
    drop(text);
    if same { done.ok() } else { None }
}

/// Each input has this text, and is good or not.
pub fn assert_replayed(rt: &(impl Abort + AllocGlobal), rows: &[(&str, &str, bool)]) {
    for (input, want, good) in rows {
        assert!(rt;
            replays(rt.alloc(), input, want) == Some(*good),
            "of {input}"
        );
    }
}

pub const ONE_SIDE_STARTS_SCRIPT: &str = "\
peer A b.example 4
peer B a.example 4
start A
ack 0
deliver 0 B
deliver 0 A
";

pub const ONE_SIDE_STARTS: (&str, &str, bool) = (
    ONE_SIDE_STARTS_SCRIPT,
    "\
1 done A Wait-Conn-Ack i0 B Closed
2 done A Wait-I-CEA i0 B Closed
3 done A Wait-I-CEA i0 B R-Open r0
4 done A I-Open i0 B R-Open r0
end agreed=yes quiet=yes open=0
",
    true,
);

#[test]
fn one_side_starts(rt: HostRuntime) {
    assert_replayed(&rt, &[ONE_SIDE_STARTS]);
}

pub const BOTH_START_SCRIPT: &str = "\
peer A B.example 4
peer B a.example 4
start A
start B
ack 0
ack 1
deliver 0 B
deliver 1 A
deliver 1 B
deliver 0 B
deliver 0 A
";

pub const BOTH_START: (&str, &str, bool) = (
    BOTH_START_SCRIPT,
    "\
1 done A Wait-Conn-Ack i0 B Closed
2 done A Wait-Conn-Ack i0 B Wait-Conn-Ack i1
3 done A Wait-I-CEA i0 B Wait-Conn-Ack i1
4 done A Wait-I-CEA i0 B Wait-I-CEA i1
5 done A Wait-I-CEA i0 B Wait-Returns i1 r0
6 done A R-Open r1 B Wait-Returns i1 r0
7 done A R-Open r1 B I-Open i1
8 done A R-Open r1 B I-Open i1
9 done A R-Open r1 B I-Open i1
end agreed=yes quiet=yes open=1
",
    true,
);

#[test]
fn both_start(rt: HostRuntime) {
    assert_replayed(&rt, &[BOTH_START]);
}

pub const CROSSED_OPEN: (&str, &str, bool) = (
    "\
peer A B.example 4
peer B a.example 4
start A
start B
ack 0
ack 1
deliver 1 A
timeout B
deliver 0 B
deliver 0 B
deliver 1 A
",
    "\
1 done A Wait-Conn-Ack i0 B Closed
2 done A Wait-Conn-Ack i0 B Wait-Conn-Ack i1
3 done A Wait-I-CEA i0 B Wait-Conn-Ack i1
4 done A Wait-I-CEA i0 B Wait-I-CEA i1
5 done A R-Open r1 B Wait-I-CEA i1
6 done A R-Open r1 B Closed
7 done A R-Open r1 B R-Open r0
8 done A R-Open r1 B Closed
9 done A Closed B Closed
end agreed=yes quiet=no open=-
",
    true,
);

#[test]
fn crossed_open(rt: HostRuntime) {
    assert_replayed(&rt, &[CROSSED_OPEN]);
}

pub const CUT_ANSWER: (&str, &str, bool) = (
    "\
peer A b.example 4
peer B a.example 4
start A
ack 0
deliver 0 B
lose 0 50 0
deliver 0 A
deliver 0 B
",
    "\
1 done A Wait-Conn-Ack i0 B Closed
2 done A Wait-I-CEA i0 B Closed
3 done A Wait-I-CEA i0 B R-Open r0
4 done A Wait-I-CEA i0 B R-Open r0
5 done A Closed B R-Open r0
6 done A Closed B Closed
end agreed=yes quiet=yes open=-
",
    true,
);

#[test]
fn cut_answer(rt: HostRuntime) {
    assert_replayed(&rt, &[CUT_ANSWER]);
}

pub const STOPS: (&str, &str, bool) = (
    "\
peer A b.example 4
peer B a.example 4
start A
ack 0
deliver 0 B
deliver 0 A
stop A 0
stop B 0
deliver 0 A
deliver 0 B
deliver 0 B
deliver 0 A
deliver 0 A
deliver 0 B
",
    "\
1 done A Wait-Conn-Ack i0 B Closed
2 done A Wait-I-CEA i0 B Closed
3 done A Wait-I-CEA i0 B R-Open r0
4 done A I-Open i0 B R-Open r0
5 done A Closing i0 B R-Open r0
6 done A Closing i0 B Closing r0
7 done A Closing i0 B Closing r0
8 done A Closing i0 B Closing r0
9 done A Closing i0 B Closed
10 done A Closed B Closed
11 done A Closed B Closed
12 done A Closed B Closed
end agreed=yes quiet=yes open=-
",
    true,
);

pub const TICKS: (&str, &str, bool) = (
    "\
peer A b.example 4
peer B a.example 4
start A
ack 0
deliver 0 B
deliver 0 A
tick A
tick A
tick A
",
    "\
1 done A Wait-Conn-Ack i0 B Closed
2 done A Wait-I-CEA i0 B Closed
3 done A Wait-I-CEA i0 B R-Open r0
4 done A I-Open i0 B R-Open r0
5 done A I-Open i0 B R-Open r0
6 done A I-Open i0 B R-Open r0
7 done A Closed B R-Open r0
end agreed=yes quiet=no open=-
",
    true,
);

#[test]
fn stops_and_ticks(rt: HostRuntime) {
    assert_replayed(&rt, &[STOPS, TICKS]);
}

pub const RESTART_FRESH_END: (&str, &str, bool) = (
    "\
peer A b.example 4
peer B a.example 4
start A
ack 0
restart B
deliver 0 A
deliver 0 B
deliver 0 B
",
    "\
1 done A Wait-Conn-Ack i0 B Closed
2 done A Wait-I-CEA i0 B Closed
3 done A Wait-I-CEA i0 B Closed
4 done A Closed B Closed
5 done A Closed B Closed
6 done A Closed B Closed
end agreed=yes quiet=yes open=-
",
    true,
);

#[test]
fn restart_fresh_end(rt: HostRuntime) {
    assert_replayed(&rt, &[RESTART_FRESH_END]);
}

const REFUSALS: (&str, &str, bool) = (
    "\
peer A b.example 4
peer B a.example 4
start A
start A
nack 0
nack 0
deliver 0 A
ack 5
",
    "\
1 done A Wait-Conn-Ack i0 B Closed
2 ignored A Wait-Conn-Ack i0 B Closed
3 done A Closed B Closed
4 ignored A Closed B Closed
5 ignored A Closed B Closed
6 nolink
",
    false,
);

const NOTHING_COMMON: (&str, &str, bool) = (
    "\
peer A b.example 4
peer B a.example 5
",
    "\
fault NothingCommon
",
    false,
);

const SAME_HOST: (&str, &str, bool) = (
    "\
peer A A 4
peer B a 4
",
    "\
fault SameHost
",
    false,
);

#[test]
fn refusals(rt: HostRuntime) {
    assert_replayed(&rt, &[REFUSALS, NOTHING_COMMON, SAME_HOST]);
}

pub const SUBMIT_BETWEEN: (&str, &str, bool) = (
    "\
peer A b.example 4
peer B a.example 4
start A
ack 0
deliver 0 B
deliver 0 A
submit A 010000148000012c000000000000000100000001
deliver 0 B
",
    "\
1 done A Wait-Conn-Ack i0 B Closed
2 done A Wait-I-CEA i0 B Closed
3 done A Wait-I-CEA i0 B R-Open r0
4 done A I-Open i0 B R-Open r0
5 done A I-Open i0 B R-Open r0
6 done A I-Open i0 B R-Open r0
end agreed=yes quiet=yes open=0
",
    true,
);

#[test]
fn submit_between(rt: HostRuntime) {
    assert_replayed(&rt, &[SUBMIT_BETWEEN]);
}

pub const WINNER_FIRST_SCRIPT: &str = "\
peer A B.example 4
peer B a.example 4
start A
start B
ack 0
ack 1
deliver 1 A
deliver 1 B
deliver 0 B
deliver 0 B
deliver 0 A
";

pub const WINNER_FIRST: (&str, &str, bool) = (
    WINNER_FIRST_SCRIPT,
    "\
1 done A Wait-Conn-Ack i0 B Closed
2 done A Wait-Conn-Ack i0 B Wait-Conn-Ack i1
3 done A Wait-I-CEA i0 B Wait-Conn-Ack i1
4 done A Wait-I-CEA i0 B Wait-I-CEA i1
5 done A R-Open r1 B Wait-I-CEA i1
6 done A R-Open r1 B I-Open i1
7 done A R-Open r1 B I-Open i1
8 done A R-Open r1 B I-Open i1
9 done A R-Open r1 B I-Open i1
end agreed=yes quiet=yes open=1
",
    true,
);

#[test]
fn winner_first(rt: HostRuntime) {
    assert_replayed(&rt, &[WINNER_FIRST]);
}

pub const ELECT_BEFORE_ACK_SCRIPT: &str = "\
peer A B.example 4
peer B a.example 4
start A
ack 0
start B
deliver 0 B
ack 1
deliver 1 A
deliver 1 B
deliver 0 B
deliver 0 A
";

pub const ELECT_BEFORE_ACK: (&str, &str, bool) = (
    ELECT_BEFORE_ACK_SCRIPT,
    "\
1 done A Wait-Conn-Ack i0 B Closed
2 done A Wait-I-CEA i0 B Closed
3 done A Wait-I-CEA i0 B Wait-Conn-Ack i1
4 done A Wait-I-CEA i0 B Wait-Conn-Ack/Elect i1 r0
5 done A Wait-I-CEA i0 B Wait-Returns i1 r0
6 done A R-Open r1 B Wait-Returns i1 r0
7 done A R-Open r1 B I-Open i1
8 done A R-Open r1 B I-Open i1
9 done A R-Open r1 B I-Open i1
end agreed=yes quiet=yes open=1
",
    true,
);

#[test]
fn elect_before_ack(rt: HostRuntime) {
    assert_replayed(&rt, &[ELECT_BEFORE_ACK]);
}

const TWO_PEERS_ALONE: (&str, &str, bool) = (
    "\
peer A b.example 4
peer B a.example 4
",
    "\
end agreed=yes quiet=yes open=-
",
    true,
);

#[test]
fn two_peers_alone(rt: HostRuntime) {
    assert_replayed(&rt, &[TWO_PEERS_ALONE]);
}

const PIECES: (&str, &str, bool) = (
    "\
peer A b.example 4
peer B a.example 4
start A
ack 0
piece 0 B 1
piece 0 B 200
deliver 0 A
",
    "\
1 done A Wait-Conn-Ack i0 B Closed
2 done A Wait-I-CEA i0 B Closed
3 done A Wait-I-CEA i0 B Closed
4 done A Wait-I-CEA i0 B R-Open r0
5 done A I-Open i0 B R-Open r0
end agreed=yes quiet=yes open=0
",
    true,
);

#[test]
fn pieces(rt: HostRuntime) {
    assert_replayed(&rt, &[PIECES]);
}

const CUT_IN_PIECE: (&str, &str, bool) = (
    "\
peer A b.example 4
peer B a.example 4
start A
ack 0
piece 0 B 40
lose 0 0 71
deliver 0 B
deliver 0 A
",
    "\
1 done A Wait-Conn-Ack i0 B Closed
2 done A Wait-I-CEA i0 B Closed
3 done A Wait-I-CEA i0 B Closed
4 done A Wait-I-CEA i0 B Closed
5 done A Wait-I-CEA i0 B Closed
6 done A Closed B Closed
end agreed=yes quiet=yes open=-
",
    true,
);

#[test]
fn cut_in_piece(rt: HostRuntime) {
    assert_replayed(&rt, &[CUT_IN_PIECE]);
}

const KEPT_AFTER_PIECE: (&str, &str, bool) = (
    "\
peer A b.example 4
peer B a.example 4
start A
ack 0
piece 0 B 40
lose 0 0 72
deliver 0 B
deliver 0 A
deliver 0 B
",
    "\
1 done A Wait-Conn-Ack i0 B Closed
2 done A Wait-I-CEA i0 B Closed
3 done A Wait-I-CEA i0 B Closed
4 done A Wait-I-CEA i0 B Closed
5 done A Wait-I-CEA i0 B R-Open r0
6 done A Closed B R-Open r0
7 done A Closed B Closed
end agreed=yes quiet=yes open=-
",
    true,
);

#[test]
fn kept_after_piece(rt: HostRuntime) {
    assert_replayed(&rt, &[KEPT_AFTER_PIECE]);
}

const PIECE_IGNORED: (&str, &str, bool) = (
    "\
peer A b.example 4
peer B a.example 4
start A
ack 0
piece 0 B 1
piece 0 B 200
deliver 0 A
piece 0 B 0
piece 0 B 5
piece 1 B 5
",
    "\
1 done A Wait-Conn-Ack i0 B Closed
2 done A Wait-I-CEA i0 B Closed
3 done A Wait-I-CEA i0 B Closed
4 done A Wait-I-CEA i0 B R-Open r0
5 done A I-Open i0 B R-Open r0
6 ignored A I-Open i0 B R-Open r0
7 ignored A I-Open i0 B R-Open r0
8 nolink
",
    false,
);

#[test]
fn piece_ignored(rt: HostRuntime) {
    assert_replayed(&rt, &[PIECE_IGNORED]);
}

const RESTART_IN_A_PIECE: (&str, &str, bool) = (
    "\
peer A b.example 4
peer B a.example 4
start A
ack 0
piece 0 B 111
restart B
piece 0 B 0
piece 0 B 1
piece 0 B 1
deliver 0 B
deliver 0 A
deliver 0 B
",
    "\
1 done A Wait-Conn-Ack i0 B Closed
2 done A Wait-I-CEA i0 B Closed
3 done A Wait-I-CEA i0 B Closed
4 done A Wait-I-CEA i0 B Closed
5 ignored A Wait-I-CEA i0 B Closed
6 done A Wait-I-CEA i0 B Closed
7 ignored A Wait-I-CEA i0 B Closed
8 ignored A Wait-I-CEA i0 B Closed
9 done A Closed B Closed
10 done A Closed B Closed
end agreed=yes quiet=yes open=-
",
    true,
);

#[test]
fn restart_in_a_piece(rt: HostRuntime) {
    assert_replayed(&rt, &[RESTART_IN_A_PIECE]);
}
