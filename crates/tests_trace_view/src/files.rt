//! Faults of the file, packets that give no segment, and messages that are bad.
use crate::packets::Row;
use crate::told::{AMPLE, assert_said, assert_styled, looks};
use dm_view_lines::{Style, Task};

/// A watchdog request without AVPs.
const REQUEST: &str = "0100001480000118000000000000001200000023";

/// A request whose command has no definition.
const UNKNOWN: &str = "010000148000012b000000000000001200000023";

const ONE: [Row; 1] = [(1, 41_000, 3868, "", 100, REQUEST)];

#[test]
fn file_ends_inside_a_record(rt: HostRuntime) {
    let want = (
        "1: 2026-11-23T02:15:00.000001Z 10.0.0.1:41000 > 10.0.0.2:3868 tcp packet 1\nDWR 280 request, application 0, hop-by-hop 18 (0x00000012), end-to-end 35 (0x00000023)\noctet 100: file ends inside a record\n",
        false,
    );
    assert_said(
        &rt,
        Task::Show,
        looks(AMPLE),
        &ONE,
        "6b03a1a400000002",
        want,
    );
}

#[test]
fn record_too_long_in_json(rt: HostRuntime) {
    let want = (
        "{\"number\":1,\"time\":\"2026-11-23T02:15:00.000001Z\",\"from\":\"10.0.0.1:41000\",\"to\":\"10.0.0.2:3868\",\"transport\":\"tcp\",\"packet\":1,\"header\":{\"command\":\"DWR\",\"code\":280,\"flags\":[\"request\"],\"application\":0,\"hop_by_hop\":18,\"end_to_end\":35},\"avps\":[]}\n{\"octet\":100,\"error\":\"record too long\"}\n",
        false,
    );
    assert_said(
        &rt,
        Task::ShowJson,
        looks(AMPLE),
        &ONE,
        "6b03a1a4000000027fffffff7fffffff00",
        want,
    );
}

/// Nothing behind a fault is looked at, and the counts of a check stand behind it.
#[test]
fn fault_checked(rt: HostRuntime) {
    let want = (
        "octet 24: record too long\n0 connections, 0 messages, 0 good, 0 bad, 0 octets passed over, 0 octets of DTLS, 0 fragments, 0 cut packets\n",
        false,
    );
    assert_said(
        &rt,
        Task::Check,
        looks(AMPLE),
        &[],
        "6b03a1a4000000027fffffff7fffffff00",
        want,
    );
}

/// A fragment and a packet that was cut are counted; what is missing is passed over.
#[test]
fn fragment_and_cut_packet(rt: HostRuntime) {
    let rows = [
        (1, 41_000, 3868, "M", 100, REQUEST),
        (2, 41_000, 3868, "C", 100, REQUEST),
        (3, 41_000, 3868, "C", 100, REQUEST),
    ];
    let want = (
        "0 connections, 0 messages, 0 good, 0 bad, 0 octets passed over, 0 octets of DTLS, 1 fragments, 2 cut packets\n",
        true,
    );
    assert_said(&rt, Task::Check, looks(AMPLE), &rows, "", want);
    let want = (
        "{\"connections\":0,\"messages\":0,\"good\":0,\"bad\":0,\"passed\":0,\"secured\":0,\"fragments\":1,\"cut\":2}\n",
        true,
    );
    assert_said(&rt, Task::CheckJson, looks(AMPLE), &rows, "", want);
}

#[test]
fn bad_message(rt: HostRuntime) {
    let rows = [(1, 41_000, 3868, "", 100, UNKNOWN)];
    let want = (
        "1: 2026-11-23T02:15:00.000001Z 10.0.0.1:41000 > 10.0.0.2:3868 tcp packet 1\nbad ? 299 request, application 0, hop-by-hop 18 (0x00000012), end-to-end 35 (0x00000023)\n  3001 DIAMETER_COMMAND_UNSUPPORTED\n1 connections, 1 messages, 0 good, 1 bad, 0 octets passed over, 0 octets of DTLS, 0 fragments, 0 cut packets\n",
        false,
    );
    assert_said(&rt, Task::Check, looks(AMPLE), &rows, "", want);
}

/// The first lines of a message are bold, and a fault is red.
#[test]
fn bad_message_in_colours(rt: HostRuntime) {
    let rows = [(1, 41_000, 3868, "", 100, UNKNOWN)];
    let style = Style {
        task: Task::Check,
        coloured: true,
    };
    let want = (
        "\u{1b}[1m1: 2026-11-23T02:15:00.000001Z 10.0.0.1:41000 > 10.0.0.2:3868 tcp packet 1\u{1b}[0m\n\u{1b}[1mbad ? 299 request, application 0, hop-by-hop 18 (0x00000012), end-to-end 35 (0x00000023)\u{1b}[0m\n\u{1b}[31m  3001 DIAMETER_COMMAND_UNSUPPORTED\u{1b}[0m\n\u{1b}[1m1 connections, 1 messages, 0 good, 1 bad, 0 octets passed over, 0 octets of DTLS, 0 fragments, 0 cut packets\u{1b}[0m\n",
        false,
    );
    assert_styled(&rt, style, looks(AMPLE), &rows, "", want);
}
