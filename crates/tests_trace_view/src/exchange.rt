//! One connection with a Capabilities-Exchange (RFC 6733, 5.3): the request in two segments that come in the contrary
//! order, and the answer.
use crate::packets::Row;
use crate::told::{AMPLE, assert_said, looks};
use dm_view_lines::Task;

const ROWS: [Row; 5] = [
    (1, 41_000, 3868, "S", 99, ""),
    (2, 3868, 41_000, "S", 499, ""),
    (
        3,
        41_000,
        3868,
        "",
        130,
        "6578616d706c65000000000001284000000f6578616d706c6500000001014000000e00017f00000100000000010a4000000c000000000000010d0000000a646d0000000001024000000c00000004",
    ),
    (
        4,
        41_000,
        3868,
        "",
        100,
        "0100006c800001010000000000000011000000220000010840000011612e",
    ),
    (
        5,
        3868,
        41_000,
        "",
        500,
        "01000078000001010000000000000011000000220000010c4000000c000007d10000010840000011622e6578616d706c65000000000001284000000f6578616d706c6500000001014000000e00017f00000100000000010a4000000c000000000000010d0000000a646d0000000001024000000c00000004",
    ),
];

#[test]
fn exchange_shown(rt: HostRuntime) {
    let want = (
        "1: 2026-11-23T02:15:00.000004Z 10.0.0.1:41000 > 10.0.0.2:3868 tcp packet 4\nCER 257 request, application 0, hop-by-hop 17 (0x00000011), end-to-end 34 (0x00000022)\n  Origin-Host 264 -M- a.example\n  Origin-Realm 296 -M- example\n  Host-IP-Address 257 -M- 127.0.0.1\n  Vendor-Id 266 -M- 0\n  Product-Name 269 --- \"dm\"\n  Auth-Application-Id 258 -M- 4\n2: 2026-11-23T02:15:00.000005Z 10.0.0.2:3868 > 10.0.0.1:41000 tcp packet 5\nCEA 257 answer, application 0, hop-by-hop 17 (0x00000011), end-to-end 34 (0x00000022)\n  Result-Code 268 -M- 2001\n  Origin-Host 264 -M- b.example\n  Origin-Realm 296 -M- example\n  Host-IP-Address 257 -M- 127.0.0.1\n  Vendor-Id 266 -M- 0\n  Product-Name 269 --- \"dm\"\n  Auth-Application-Id 258 -M- 4\n",
        true,
    );
    assert_said(&rt, Task::Show, looks(AMPLE), &ROWS, "", want);
}

#[test]
fn exchange_in_json(rt: HostRuntime) {
    let want = (
        "{\"number\":1,\"time\":\"2026-11-23T02:15:00.000004Z\",\"from\":\"10.0.0.1:41000\",\"to\":\"10.0.0.2:3868\",\"transport\":\"tcp\",\"packet\":4,\"header\":{\"command\":\"CER\",\"code\":257,\"flags\":[\"request\"],\"application\":0,\"hop_by_hop\":17,\"end_to_end\":34},\"avps\":[{\"name\":\"Origin-Host\",\"code\":264,\"flags\":[\"mandatory\"],\"value\":\"a.example\"},{\"name\":\"Origin-Realm\",\"code\":296,\"flags\":[\"mandatory\"],\"value\":\"example\"},{\"name\":\"Host-IP-Address\",\"code\":257,\"flags\":[\"mandatory\"],\"value\":\"127.0.0.1\"},{\"name\":\"Vendor-Id\",\"code\":266,\"flags\":[\"mandatory\"],\"value\":0},{\"name\":\"Product-Name\",\"code\":269,\"flags\":[],\"value\":\"dm\"},{\"name\":\"Auth-Application-Id\",\"code\":258,\"flags\":[\"mandatory\"],\"value\":4}]}\n{\"number\":2,\"time\":\"2026-11-23T02:15:00.000005Z\",\"from\":\"10.0.0.2:3868\",\"to\":\"10.0.0.1:41000\",\"transport\":\"tcp\",\"packet\":5,\"header\":{\"command\":\"CEA\",\"code\":257,\"flags\":[\"answer\"],\"application\":0,\"hop_by_hop\":17,\"end_to_end\":34},\"avps\":[{\"name\":\"Result-Code\",\"code\":268,\"flags\":[\"mandatory\"],\"value\":2001},{\"name\":\"Origin-Host\",\"code\":264,\"flags\":[\"mandatory\"],\"value\":\"b.example\"},{\"name\":\"Origin-Realm\",\"code\":296,\"flags\":[\"mandatory\"],\"value\":\"example\"},{\"name\":\"Host-IP-Address\",\"code\":257,\"flags\":[\"mandatory\"],\"value\":\"127.0.0.1\"},{\"name\":\"Vendor-Id\",\"code\":266,\"flags\":[\"mandatory\"],\"value\":0},{\"name\":\"Product-Name\",\"code\":269,\"flags\":[],\"value\":\"dm\"},{\"name\":\"Auth-Application-Id\",\"code\":258,\"flags\":[\"mandatory\"],\"value\":4}]}\n",
        true,
    );
    assert_said(&rt, Task::ShowJson, looks(AMPLE), &ROWS, "", want);
}

#[test]
fn exchange_checked(rt: HostRuntime) {
    let want = (
        "1: 2026-11-23T02:15:00.000004Z 10.0.0.1:41000 > 10.0.0.2:3868 tcp packet 4\ngood CER 257 request, application 0, hop-by-hop 17 (0x00000011), end-to-end 34 (0x00000022)\n2: 2026-11-23T02:15:00.000005Z 10.0.0.2:3868 > 10.0.0.1:41000 tcp packet 5\ngood CEA 257 answer, application 0, hop-by-hop 17 (0x00000011), end-to-end 34 (0x00000022)\n1 connections, 2 messages, 2 good, 0 bad, 0 octets passed over, 0 octets of DTLS, 0 fragments, 0 cut packets\n",
        true,
    );
    assert_said(&rt, Task::Check, looks(AMPLE), &ROWS, "", want);
}

#[test]
fn exchange_checked_in_json(rt: HostRuntime) {
    let want = (
        "{\"number\":1,\"time\":\"2026-11-23T02:15:00.000004Z\",\"from\":\"10.0.0.1:41000\",\"to\":\"10.0.0.2:3868\",\"transport\":\"tcp\",\"packet\":4,\"verdict\":\"good\",\"header\":{\"command\":\"CER\",\"code\":257,\"flags\":[\"request\"],\"application\":0,\"hop_by_hop\":17,\"end_to_end\":34},\"faults\":[]}\n{\"number\":2,\"time\":\"2026-11-23T02:15:00.000005Z\",\"from\":\"10.0.0.2:3868\",\"to\":\"10.0.0.1:41000\",\"transport\":\"tcp\",\"packet\":5,\"verdict\":\"good\",\"header\":{\"command\":\"CEA\",\"code\":257,\"flags\":[\"answer\"],\"application\":0,\"hop_by_hop\":17,\"end_to_end\":34},\"faults\":[]}\n{\"connections\":1,\"messages\":2,\"good\":2,\"bad\":0,\"passed\":0,\"secured\":0,\"fragments\":0,\"cut\":0}\n",
        true,
    );
    assert_said(&rt, Task::CheckJson, looks(AMPLE), &ROWS, "", want);
}
