//! Times as date and time of day: both ends of the dates that are told, days at the ends of months and years, and
//! fractions of each kind.
use crate::told::{assert_times, binary, decimal};
use dm_trace::Clock;

#[test]
fn dates_and_times_of_day(rt: HostRuntime) {
    assert_times(
        &rt,
        Clock::Utc,
        &[
            (
                decimal(1795400100, 6, 123456),
                "2026-11-23T02:15:00.123456Z",
            ),
            (decimal(0, 0, 0), "1970-01-01T00:00:00Z"),
            (decimal(-1, 6, 999999), "1969-12-31T23:59:59.999999Z"),
            (decimal(-31536001, 0, 0), "1968-12-31T23:59:59Z"),
            (decimal(68169600, 0, 0), "1972-02-29T00:00:00Z"),
            (decimal(951868799, 0, 0), "2000-02-29T23:59:59Z"),
            (decimal(2085978495, 0, 0), "2036-02-07T06:28:15Z"),
            (decimal(2085978496, 0, 0), "2036-02-07T06:28:16Z"),
            (decimal(3981355200, 0, 0), "2096-02-29T12:00:00Z"),
            (decimal(4107542399, 0, 0), "2100-02-28T23:59:59Z"),
            (decimal(4107542400, 0, 0), "2100-03-01T00:00:00Z"),
            (None, "-"),
        ],
    );
}

#[test]
fn ends_of_the_dates(rt: HostRuntime) {
    assert_times(
        &rt,
        Clock::Utc,
        &[
            (decimal(-61505152, 3, 4), "1968-01-20T03:14:08.004Z"),
            (decimal(-61505153, 3, 4), "-61505153.004"),
            (
                decimal(4233462143, 6, 999999),
                "2104-02-26T09:42:23.999999Z",
            ),
            (decimal(4233462144, 0, 0), "4233462144"),
            (binary(4233462144, 1, 1), "4233462144.500000000"),
            (decimal(i64::MAX, 1, 9), "9223372036854775807.9"),
            (decimal(i64::MIN, 0, 0), "-9223372036854775808"),
        ],
    );
}

#[test]
fn fractions_of_powers_of_ten(rt: HostRuntime) {
    assert_times(
        &rt,
        Clock::Utc,
        &[
            (decimal(0, 1, 0), "1970-01-01T00:00:00.0Z"),
            (decimal(0, 3, 5), "1970-01-01T00:00:00.005Z"),
            (decimal(0, 6, 7), "1970-01-01T00:00:00.000007Z"),
            (decimal(0, 9, 999999999), "1970-01-01T00:00:00.999999999Z"),
            (
                decimal(0, 12, 999999999999),
                "1970-01-01T00:00:00.999999999999Z",
            ),
            (
                decimal(0, 19, u64::MAX),
                "1970-01-01T00:00:00.8446744073709551615Z",
            ),
            (
                decimal(0, 20, u64::MAX),
                "1970-01-01T00:00:00.18446744073709551615Z",
            ),
            (
                decimal(0, 127, 12),
                "1970-01-01T00:00:00.0000000000000000000000000000000000000000000000000000000000000000000000000000000000000000000000000000000000000000000000000000012Z",
            ),
        ],
    );
}

#[test]
fn fractions_of_powers_of_two(rt: HostRuntime) {
    assert_times(
        &rt,
        Clock::Utc,
        &[
            (binary(0, 0, 0), "1970-01-01T00:00:00.000000000Z"),
            (binary(0, 1, 1), "1970-01-01T00:00:00.500000000Z"),
            (binary(0, 10, 5), "1970-01-01T00:00:00.004882812Z"),
            (binary(0, 10, 1023), "1970-01-01T00:00:00.999023437Z"),
            (binary(0, 64, u64::MAX), "1970-01-01T00:00:00.999999999Z"),
            (binary(0, 127, u64::MAX), "1970-01-01T00:00:00.000000000Z"),
        ],
    );
}
