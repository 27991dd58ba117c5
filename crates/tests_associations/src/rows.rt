//! Packets of several associations.
use crate::packets::Chunks::{Abort, Complete, Data, Exchange, Init, InitAck, Two};
use crate::told::assert_rows;
use dm_connections::{Choice, DIAMETER_PORT};

const PORTS: [u16; 2] = [DIAMETER_PORT, 5868];

#[test]
fn both_directions(rt: HostRuntime) {
    let rows = [
        (41_000, 3868, 0, Init(7, 10), "41000-3868/1/0"),
        (3868, 41_000, 7, InitAck(9, 100), "41000-3868/1/0"),
        (
            41_000,
            3868,
            9,
            Data(10, "BE", 46, "abc"),
            "41000-3868>abc/1/0",
        ),
        (
            3868,
            41_000,
            7,
            Data(100, "BE", 46, "de"),
            "41000-3868<de/1/0",
        ),
        (41_001, 3868, 0, Init(3, 50), "41001-3868/2/0"),
        (41_000, 3868, 9, Two(11, "f", "gh"), "41000-3868>f>gh/2/0"),
        (
            3868,
            41_000,
            7,
            Data(101, "BE", 47, "secret"),
            "41000-3868/2/0",
        ),
        (41_000, 443, 9, Data(10, "BE", 46, "abc"), "none/2/0"),
    ];
    assert_rows(
        &rt,
        Choice::Ports(&PORTS),
        &rows,
        "41001-3868 0+0+0 41000-3868 0+6+0 /0/0",
    );
}

#[test]
fn fragments_and_order(rt: HostRuntime) {
    let rows = [
        (41_000, 3868, 0, Init(7, 10), "41000-3868/1/0"),
        (41_000, 3868, 9, Data(12, "E", 46, "ef"), "41000-3868/1/2"),
        (41_000, 3868, 9, Data(13, "BE", 46, "x"), "41000-3868>x/1/2"),
        (41_000, 3868, 9, Data(10, "B", 46, "ab"), "41000-3868/1/4"),
        (
            41_000,
            3868,
            9,
            Data(11, "", 46, "cd"),
            "41000-3868>abcdef/1/0",
        ),
        (41_000, 3868, 9, Data(11, "", 46, "cd"), "41000-3868/1/0"),
    ];
    assert_rows(&rt, Choice::Ports(&PORTS), &rows, "41000-3868 0+0+0 /0/0");
}

#[test]
fn begun_again_by_init(rt: HostRuntime) {
    let rows = [
        (41_000, 3868, 0, Init(7, 10), "41000-3868/1/0"),
        (3868, 41_000, 7, InitAck(9, 100), "41000-3868/1/0"),
        (41_000, 3868, 9, Data(10, "B", 46, "abc"), "41000-3868/1/3"),
        // The same again changes nothing, nor one in a packet with a tag.
        (41_000, 3868, 0, Init(7, 10), "41000-3868/1/3"),
        (41_000, 3868, 9, Init(8, 500), "41000-3868/1/3"),
        (41_000, 3868, 0, Init(8, 500), "41000-3868/1/0"),
        (3868, 41_000, 8, InitAck(19, 900), "41000-3868/1/0"),
        // A second answer isn't looked at.
        (3868, 41_000, 8, InitAck(29, 800), "41000-3868/1/0"),
        (
            41_000,
            3868,
            19,
            Data(500, "BE", 46, "d"),
            "41000-3868>d/1/0",
        ),
        (41_000, 3868, 9, Data(501, "BE", 46, "e"), "41000-3868/1/0"),
        (3868, 41_000, 7, Data(900, "BE", 46, "f"), "41000-3868/1/0"),
        (
            3868,
            41_000,
            8,
            Data(900, "BE", 46, "g"),
            "41000-3868<g/1/0",
        ),
    ];
    assert_rows(&rt, Choice::Ports(&PORTS), &rows, "41000-3868 3+0+0 /0/0");
}

#[test]
fn ended_by_abort(rt: HostRuntime) {
    let rows = [
        (41_000, 3868, 0, Init(7, 10), "41000-3868/1/0"),
        (3868, 41_000, 7, InitAck(9, 100), "41000-3868/1/0"),
        (41_000, 3868, 9, Data(10, "B", 46, "abc"), "41000-3868/1/3"),
        // Of another tag, and the other direction's without the T bit.
        (3868, 41_000, 6, Abort(0), "41000-3868/1/3"),
        (3868, 41_000, 9, Abort(0), "41000-3868/1/3"),
        (3868, 41_000, 7, Abort(1), "41000-3868/1/3"),
        (3868, 41_000, 7, Abort(0), "41000-3868/1/0"),
        (41_000, 3868, 9, Data(10, "BE", 46, "abc"), "41000-3868/1/0"),
        (41_000, 3868, 0, Init(7, 10), "41000-3868/1/0"),
        (41_000, 3868, 9, Data(10, "BE", 46, "d"), "41000-3868>d/1/0"),
    ];
    assert_rows(&rt, Choice::Ports(&PORTS), &rows, "41000-3868 3+0+0 /0/0");
}

#[test]
fn ended_by_shutdown_complete(rt: HostRuntime) {
    let rows = [
        (41_000, 3868, 0, Init(7, 10), "41000-3868/1/0"),
        (3868, 41_000, 7, InitAck(9, 100), "41000-3868/1/0"),
        (3868, 41_000, 9, Complete(1), "41000-3868/1/0"),
        (41_000, 3868, 9, Data(10, "BE", 46, "abc"), "41000-3868/1/0"),
    ];
    assert_rows(&rt, Choice::Ports(&PORTS), &rows, "41000-3868 0+0+0 /0/0");
}

#[test]
fn come_upon_in_the_middle(rt: HostRuntime) {
    let rows = [
        (3868, 41_000, 7, Data(99, "E", 46, "xyz"), "3868-41000/1/0"),
        (
            3868,
            41_000,
            7,
            Data(100, "BE", 46, "ab"),
            "3868-41000>ab/1/0",
        ),
        (3868, 41_000, 8, Data(101, "BE", 46, "cd"), "3868-41000/1/0"),
        (41_000, 3868, 9, Data(5, "BE", 0, "ef"), "3868-41000<ef/1/0"),
        (41_000, 3868, 7, Data(6, "BE", 0, "gh"), "3868-41000/1/0"),
        (41_000, 3868, 9, Data(6, "BE", 60, "ij"), "3868-41000/1/0"),
    ];
    assert_rows(&rt, Choice::Ports(&PORTS), &rows, "3868-41000 5+0+0 /0/0");
}

#[test]
fn any_with_an_exchange(rt: HostRuntime) {
    let rows = [
        (1_000, 2_000, 0, Init(7, 10), "none/0/0"),
        (1_000, 2_000, 9, Data(10, "BE", 46, "abc"), "none/0/0"),
        (1_000, 2_000, 9, Exchange(11, "E", 46), "none/0/0"),
        (1_000, 2_000, 9, Exchange(11, "BE", 47), "none/0/0"),
        (1_000, 2_000, 9, Exchange(11, "BE", 46), "1000-2000>CER/1/0"),
        (2_000, 1_000, 7, Data(5, "BE", 46, "de"), "1000-2000<de/1/0"),
        (3_000, 2_000, 4, Exchange(8, "BE", 0), "3000-2000>CER/2/0"),
    ];
    assert_rows(
        &rt,
        Choice::Any,
        &rows,
        "1000-2000 0+0+0 3000-2000 0+0+0 /0/0",
    );
}

#[test]
fn the_idlest_goes_first(rt: HostRuntime) {
    let rows = [
        (1, 3868, 9, Data(10, "B", 46, "abc"), "1-3868/1/3"),
        (2, 3868, 9, Data(10, "B", 46, "de"), "2-3868/2/5"),
        (3868, 1, 7, Data(99, "B", 46, "f"), "1-3868/2/6"),
    ];
    assert_rows(
        &rt,
        Choice::Ports(&PORTS),
        &rows,
        "2-3868 0+0+2 1-3868 0+0+4 /0/0",
    );
}
