//! Which messages something is said of: their numbers are those of all.
use crate::packets::Row;
use crate::told::{ALL, AMPLE, assert_said, looks};
use dm_trace_view::{Filter, Looks, Wanted};
use dm_view_lines::Task;

/// A Capabilities-Exchange-Request without AVPs, a watchdog of a.example, and an unknown command of the session s;1.
const ROWS: [Row; 3] = [
    (
        1,
        41_000,
        3868,
        "",
        100,
        "0100001480000101000000000000001100000022",
    ),
    (
        2,
        41_000,
        3868,
        "",
        120,
        "01000038800001180000000000000012000000230000010840000011612e6578616d706c65000000000001284000000f6578616d706c6500",
    ),
    (
        3,
        41_000,
        3868,
        "",
        176,
        "0100002080000113000000000000001300000024000001074000000b733b3100",
    ),
];

const FIRST: &str =
    "1: 2026-11-23T02:15:00.000001Z 10.0.0.1:41000 > 10.0.0.2:3868 tcp packet 1\nCER 257 request, application 0, hop-by-hop 17 (0x00000011), end-to-end 34 (0x00000022)\n";

const SECOND: &str =
    "2: 2026-11-23T02:15:00.000002Z 10.0.0.1:41000 > 10.0.0.2:3868 tcp packet 2\nDWR 280 request, application 0, hop-by-hop 18 (0x00000012), end-to-end 35 (0x00000023)\n  Origin-Host 264 -M- a.example\n  Origin-Realm 296 -M- example\n";

const THIRD: &str =
    "3: 2026-11-23T02:15:00.000003Z 10.0.0.1:41000 > 10.0.0.2:3868 tcp packet 3\n? 275 request, application 0, hop-by-hop 19 (0x00000013), end-to-end 36 (0x00000024)\n  Session-Id 263 -M- \"s;1\"\n";

/// Those that pass the filter.
fn by(filter: Filter<'static>) -> Looks<'static> {
    Looks {
        filter,
        ..looks(AMPLE)
    }
}

#[test]
fn by_command(rt: HostRuntime) {
    let code = Filter {
        command: Some(Wanted::Code(257)),
        ..ALL
    };
    assert_said(&rt, Task::Show, by(code), &ROWS, "", (FIRST, true));
    let named = Filter {
        command: Some(Wanted::Named(b"DWR")),
        ..ALL
    };
    assert_said(&rt, Task::Show, by(named), &ROWS, "", (SECOND, true));
    let other = Filter {
        command: Some(Wanted::Named(b"DWA")),
        ..ALL
    };
    assert_said(&rt, Task::Show, by(other), &ROWS, "", ("", true));
}

#[test]
fn by_host(rt: HostRuntime) {
    let host = Filter {
        host: Some(b"A.Example"),
        ..ALL
    };
    assert_said(&rt, Task::Show, by(host), &ROWS, "", (SECOND, true));
    let longer = Filter {
        host: Some(b"a.example2"),
        ..ALL
    };
    assert_said(&rt, Task::Show, by(longer), &ROWS, "", ("", true));
}

#[test]
fn by_session(rt: HostRuntime) {
    let session = Filter {
        session: Some(b"s;1"),
        ..ALL
    };
    assert_said(&rt, Task::Show, by(session), &ROWS, "", (THIRD, true));
    let both = Filter {
        session: Some(b"s;1"),
        host: Some(b"a.example"),
        ..ALL
    };
    assert_said(&rt, Task::Show, by(both), &ROWS, "", ("", true));
}

#[test]
fn bad_ones(rt: HostRuntime) {
    let bad = Filter {
        bad: true,
        command: Some(Wanted::Code(275)),
        ..ALL
    };
    assert_said(&rt, Task::Show, by(bad), &ROWS, "", (THIRD, true));
    let watchdogs = Filter {
        bad: true,
        command: Some(Wanted::Code(280)),
        ..ALL
    };
    assert_said(&rt, Task::Show, by(watchdogs), &ROWS, "", ("", true));
}

#[test]
fn counted(rt: HostRuntime) {
    let watchdogs = Filter {
        command: Some(Wanted::Code(280)),
        ..ALL
    };
    let want = (
        "2: 2026-11-23T02:15:00.000002Z 10.0.0.1:41000 > 10.0.0.2:3868 tcp packet 2\ngood DWR 280 request, application 0, hop-by-hop 18 (0x00000012), end-to-end 35 (0x00000023)\n1 connections, 1 messages, 1 good, 0 bad, 0 octets passed over, 0 octets of DTLS, 0 fragments, 0 cut packets\n",
        true,
    );
    assert_said(&rt, Task::Check, by(watchdogs), &ROWS, "", want);
}
