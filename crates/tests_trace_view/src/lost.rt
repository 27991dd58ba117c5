//! What is lost: octets that no message can be made of, and connections that are let go.
use crate::packets::Row;
use crate::told::{AMPLE, assert_said, looks};
use dm_connections::Limits;
use dm_view_lines::Task;

/// A watchdog request without AVPs.
const REQUEST: &str = "0100001480000118000000000000001200000023";

/// The header of one with AVPs.
const FRONT: &str = "0100001c80000118000000000000001200000023";

/// No message.
const OTHER: &str = "474554202f";

/// A connection whose beginning wasn't captured.
const MIDDLE: [Row; 2] = [
    (1, 41_000, 3868, "", 100, OTHER),
    (2, 41_000, 3868, "", 105, REQUEST),
];

/// Two connections, of which the first one waits for the rest of a message.
const TWO: [Row; 3] = [
    (1, 41_000, 3868, "", 100, FRONT),
    (2, 41_001, 3868, "S", 99, ""),
    (3, 41_001, 3868, "", 100, REQUEST),
];

/// One connection at a time.
const ONE_CONNECTION: Limits = Limits {
    connections: 1,
    octets: 100,
};

#[test]
fn octets_passed_over(rt: HostRuntime) {
    let want = (
        "packet 1 10.0.0.1:41000 > 10.0.0.2:3868: 5 octets passed over\n1: 2026-11-23T02:15:00.000002Z 10.0.0.1:41000 > 10.0.0.2:3868 tcp packet 2\nDWR 280 request, application 0, hop-by-hop 18 (0x00000012), end-to-end 35 (0x00000023)\n",
        true,
    );
    assert_said(&rt, Task::Show, looks(AMPLE), &MIDDLE, "", want);
}

#[test]
fn octets_passed_over_in_json(rt: HostRuntime) {
    let want = (
        "{\"packet\":1,\"from\":\"10.0.0.1:41000\",\"to\":\"10.0.0.2:3868\",\"passed\":5}\n{\"number\":1,\"time\":\"2026-11-23T02:15:00.000002Z\",\"from\":\"10.0.0.1:41000\",\"to\":\"10.0.0.2:3868\",\"transport\":\"tcp\",\"packet\":2,\"header\":{\"command\":\"DWR\",\"code\":280,\"flags\":[\"request\"],\"application\":0,\"hop_by_hop\":18,\"end_to_end\":35},\"avps\":[]}\n",
        true,
    );
    assert_said(&rt, Task::ShowJson, looks(AMPLE), &MIDDLE, "", want);
}

#[test]
fn connection_let_go(rt: HostRuntime) {
    let want = (
        "packet 2 10.0.0.1:41000 > 10.0.0.2:3868: connection let go, 20 octets held\n1: 2026-11-23T02:15:00.000003Z 10.0.0.1:41001 > 10.0.0.2:3868 tcp packet 3\nDWR 280 request, application 0, hop-by-hop 18 (0x00000012), end-to-end 35 (0x00000023)\n",
        true,
    );
    assert_said(&rt, Task::Show, looks(ONE_CONNECTION), &TWO, "", want);
}

#[test]
fn connection_let_go_in_json(rt: HostRuntime) {
    let want = (
        "{\"packet\":2,\"from\":\"10.0.0.1:41000\",\"to\":\"10.0.0.2:3868\",\"let_go\":20}\n{\"number\":1,\"time\":\"2026-11-23T02:15:00.000003Z\",\"from\":\"10.0.0.1:41001\",\"to\":\"10.0.0.2:3868\",\"transport\":\"tcp\",\"packet\":3,\"header\":{\"command\":\"DWR\",\"code\":280,\"flags\":[\"request\"],\"application\":0,\"hop_by_hop\":18,\"end_to_end\":35},\"avps\":[]}\n",
        true,
    );
    assert_said(&rt, Task::ShowJson, looks(ONE_CONNECTION), &TWO, "", want);
}

/// What is passed over each time, what is let go and what is held at the end are counted together.
#[test]
fn lost_octets_counted(rt: HostRuntime) {
    let rows = [
        (1, 41_000, 3868, "", 100, OTHER),
        (2, 41_000, 3868, "", 105, FRONT),
        (3, 41_001, 3868, "", 100, OTHER),
        (4, 41_001, 3868, "", 105, FRONT),
    ];
    let want = (
        "packet 1 10.0.0.1:41000 > 10.0.0.2:3868: 5 octets passed over\npacket 3 10.0.0.1:41001 > 10.0.0.2:3868: 5 octets passed over\npacket 3 10.0.0.1:41000 > 10.0.0.2:3868: connection let go, 20 octets held\n2 connections, 0 messages, 0 good, 0 bad, 50 octets passed over, 0 octets of DTLS, 0 fragments, 0 cut packets\n",
        true,
    );
    assert_said(&rt, Task::Check, looks(ONE_CONNECTION), &rows, "", want);
}

#[test]
fn too_many_octets_held(rt: HostRuntime) {
    let limits = Limits {
        connections: 8,
        octets: 39,
    };
    let rows = [
        (1, 41_000, 3868, "", 100, FRONT),
        (2, 41_001, 3868, "", 100, FRONT),
    ];
    let want = (
        "packet 2 10.0.0.1:41000 > 10.0.0.2:3868: connection let go, 20 octets held\n2 connections, 0 messages, 0 good, 0 bad, 40 octets passed over, 0 octets of DTLS, 0 fragments, 0 cut packets\n",
        true,
    );
    assert_said(&rt, Task::Check, looks(limits), &rows, "", want);
}
