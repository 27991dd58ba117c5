//! Segments of several connections.
use crate::told::assert_rows;
use dm_connections::{Choice, DIAMETER_PORT};

const PORTS: [u16; 2] = [DIAMETER_PORT, 5868];

#[test]
fn two_connections(rt: HostRuntime) {
    let rows = [
        (41_000, 3868, "S", 99, 0, 0, "41000-3868/1/0"),
        (3868, 41_000, "S", 499, 0, 0, "41000-3868/1/0"),
        (41_001, 3868, "S", 7, 0, 0, "41001-3868/2/0"),
        (41_000, 3868, "", 100, 0, 20, "41000-3868>a/2/0"),
        (41_001, 3868, "", 8, 20, 45, "41001-3868>b/2/5"),
        (3868, 41_000, "", 500, 40, 60, "41000-3868<c/2/5"),
        (41_001, 3868, "", 33, 45, 60, "41001-3868>c/2/0"),
    ];
    assert_rows(
        &rt,
        Choice::Ports(&PORTS),
        &rows,
        "41000-3868 0+0 41001-3868 0+0 /0/0",
    );
}

#[test]
fn ports_of_either_end(rt: HostRuntime) {
    let rows = [
        (41_000, 5868, "S", 9, 0, 0, "41000-5868/1/0"),
        (3868, 41_000, "S", 9, 0, 0, "3868-41000/2/0"),
        (41_000, 443, "", 9, 0, 20, "none/2/0"),
        (5868, 41_000, "", 9, 0, 20, "41000-5868<a/2/0"),
    ];
    assert_rows(
        &rt,
        Choice::Ports(&PORTS),
        &rows,
        "3868-41000 0+0 41000-5868 0+0 /0/0",
    );
}

#[test]
fn any_with_an_exchange_in_front(rt: HostRuntime) {
    let rows = [
        (1_000, 2_000, "S", 99, 0, 0, "none/0/0"),
        (1_000, 2_000, "", 100, 4, 24, "none/0/0"),
        (1_000, 2_000, "", 100, 0, 20, "1000-2000>a/1/0"),
        (2_000, 1_000, "", 5, 20, 40, "1000-2000<b/1/0"),
    ];
    assert_rows(&rt, Choice::Any, &rows, "1000-2000 0+0 /0/0");
}

#[test]
fn what_is_missing_is_held(rt: HostRuntime) {
    // Of 60 octets 20 came; then 30 more, of which a message is 20.
    let rows = [
        (41_000, 3868, "S", 99, 0, 0, "41000-3868/1/0"),
        (41_000, 3868, "", 140, 40, 60, "41000-3868/1/60"),
        (41_000, 3868, "", 100, 0, 30, "41000-3868>a/1/40"),
    ];
    assert_rows(&rt, Choice::Ports(&PORTS), &rows, "41000-3868 0+30 /0/0");
}

#[test]
fn what_is_passed_over_is_not_held(rt: HostRuntime) {
    let rows = [
        (41_000, 3868, "", 500, 30, 45, "41000-3868/1/0"),
        (3868, 41_000, "", 900, 20, 45, "41000-3868<b/1/5"),
    ];
    assert_rows(&rt, Choice::Ports(&PORTS), &rows, "41000-3868 15+5 /0/0");
}

#[test]
fn the_idlest_goes_first(rt: HostRuntime) {
    let rows = [
        (1, 3868, "S", 9, 0, 0, "1-3868/1/0"),
        (2, 3868, "S", 9, 0, 0, "2-3868/2/0"),
        (3, 3868, "S", 9, 0, 0, "3-3868/3/0"),
        (1, 3868, "", 10, 0, 20, "1-3868>a/3/0"),
        (3868, 2, "S", 9, 0, 0, "2-3868/3/0"),
    ];
    assert_rows(
        &rt,
        Choice::Ports(&PORTS),
        &rows,
        "3-3868 0+0 1-3868 0+0 2-3868 0+0 /0/0",
    );
}
