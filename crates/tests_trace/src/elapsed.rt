//! Times as seconds since a first one: before and behind it, of several resolutions, and as far apart as times are.
use crate::told::{assert_times, binary, decimal};
use dm_capture::Time;
use dm_trace::Clock;
use std::process::Abort;

/// This is said of each time since a first one.
fn assert_since(
    rt: &(impl Abort + AllocGlobal),
    first: Option<Time>,
    rows: &[(Option<Time>, &str)],
) {
    if let Some(first) = first {
        assert_times(rt, Clock::Since(first), rows);
    } else {
        assert!(rt; false, "no first time");
    }
}

#[test]
fn seconds_since_a_first_time(rt: HostRuntime) {
    assert_since(
        &rt,
        decimal(1795400100, 6, 123456),
        &[
            (decimal(1795400100, 6, 123456), "0.000000000"),
            (decimal(1795400100, 9, 123456001), "0.000000001"),
            (decimal(1795400100, 9, 123455999), "-0.000000001"),
            (decimal(1795400101, 0, 0), "0.876544000"),
            (decimal(1795400102, 3, 7), "1.883544000"),
            (decimal(1795400090, 6, 123455), "-10.000001000"),
            (binary(1795400100, 10, 1023), "0.875567437"),
            (None, "-"),
        ],
    );
}

#[test]
fn each_time_is_rounded_down(rt: HostRuntime) {
    assert_since(
        &rt,
        binary(0, 30, 1),
        &[
            (binary(0, 30, 1), "0.000000000"),
            (binary(0, 30, 2), "0.000000001"),
            (decimal(0, 12, 1999), "0.000000001"),
            (decimal(-1, 12, 999999999999), "-0.000000001"),
            (binary(0, 63, 4611686018427387903), "0.499999999"),
        ],
    );
}

#[test]
fn times_far_apart(rt: HostRuntime) {
    assert_since(
        &rt,
        decimal(i64::MIN, 0, 0),
        &[(decimal(i64::MAX, 9, 1), "18446744073709551615.000000001")],
    );
    assert_since(
        &rt,
        decimal(i64::MAX, 1, 9),
        &[(decimal(i64::MIN, 0, 0), "-18446744073709551615.900000000")],
    );
}
