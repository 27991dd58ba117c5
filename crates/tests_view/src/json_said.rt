//! What is said in JSON.
use crate::dictionary::{assert_said, assert_streamed};
use dm_view_lines::Task;

#[test]
fn shown_in_json(rt: HostRuntime) {
    assert_said(
        &rt,
        Task::ShowJson,
        &[(
            "010000308000012c0000000400000011000000220000177540000010ffffffffffffffff000017794000000a220a0000\n",
            "{\"number\":1,\"header\":{\"command\":\"Thing\",\"code\":300,\"flags\":[\"request\"],\"application\":4,\"hop_by_hop\":17,\"end_to_end\":34},\"avps\":[{\"name\":\"Large\",\"code\":6005,\"flags\":[\"mandatory\"],\"value\":18446744073709551615},{\"name\":\"Words\",\"code\":6009,\"flags\":[\"mandatory\"],\"value\":\"\\\"\\n\"}]}\n",
            true,
        )],
    );
}

#[test]
fn checked_in_json(rt: HostRuntime) {
    assert_said(
        &rt,
        Task::CheckJson,
        &[(
            "010000148000012d000000040000001100000022\n0\n",
            "{\"number\":1,\"verdict\":\"bad\",\"header\":{\"command\":\"Strict\",\"code\":301,\"flags\":[\"request\"],\"application\":4,\"hop_by_hop\":17,\"end_to_end\":34},\"faults\":[{\"code\":5005,\"name\":\"DIAMETER_MISSING_AVP\",\"path\":[],\"avp\":{\"name\":\"Count\",\"code\":6004,\"flags\":[\"mandatory\"]},\"reason\":\"missing\"}]}\n{\"number\":2,\"verdict\":\"bad\",\"error\":\"no hexadecimal\"}\n{\"good\":0,\"bad\":2}\n",
            false,
        )],
    );
}

#[test]
fn streamed_in_json(rt: HostRuntime) {
    assert_streamed(
        &rt,
        Task::ShowJson,
        &[(
            "0100\nxyz\n",
            "{\"line\":2,\"error\":\"no hexadecimal\"}\n",
            false,
        )],
    );
}
