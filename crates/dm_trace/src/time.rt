//! When a packet was captured, as text.
ghost use Rattle.std.specs.Prelude.{◌≡◌, ◌++◌, codes, OnOk};
ghost use Rattle.std.specs.Fmt.{signed_decimal};
ghost use Rattle.std.specs.String.{string_bytes};
ghost use Rattle.dm_trace.specs.Digits.{last_digits};
ghost use Rattle.dm_trace.specs.Times.{fraction_text, instant_text, clock_text, when_text};

use crate::date::{
    fits_diameter_time, put_date_and_time, seconds_since_1900, utc_of_seconds_since_1900,
};
use crate::digits::put_last_digits;
use crate::nanoseconds::{fraction_nanoseconds, put_elapsed_seconds};
use dm_capture::{Resolution, Time};
use dm_text::put_decimal;
use std::alloc::AllocError;

/// How times are said.
#[derive(Clone, Copy, Debug, PartialEq, Eq)]
pub enum Clock {
    /// As date and time of day, UTC.
    Utc,
    /// As seconds since this time, in nanoseconds.
    Since(Time),
}

/// Appends a point, and so many last digits of a number.
fn put_point_and_digits(text: &mut String, count: u8, number: u64) -> Result<(), AllocError>
    ensures { OnOk result (string_bytes text.new ≡ string_bytes text.old ++ codes "." ++ last_digits count number) }
{
    text.push_str(".")?;
    put_last_digits(text, count, number)
}

/// Appends a point and the fraction of a second: as many digits as the power of ten that the resolution is, and nothing
/// where that is 0; of a power of two nine digits.
fn put_fraction(text: &mut String, time: Time) -> Result<(), AllocError>
    ensures { OnOk result (string_bytes text.new ≡ string_bytes text.old ++ fraction_text time) }
{
    match time.resolution {
        Resolution::Decimal(0) => Ok(()),
        Resolution::Decimal(power) => put_point_and_digits(text, power, time.fraction),
        Resolution::Binary(_) => put_point_and_digits(
            text,
            9,
            (fraction_nanoseconds(time) % 1_000_000_000) as u64,
        ),
    }
}

/// Appends seconds since 1970 in decimal, behind `-` where they are below 0.
fn put_seconds_since_1970(text: &mut String, seconds: i64) -> Result<(), AllocError>
    ensures { OnOk result (string_bytes text.new ≡ string_bytes text.old ++ signed_decimal seconds) }
{
    if seconds < 0 {
        text.push_str("-")?;
    }
    put_decimal(text, seconds.unsigned_abs())
}

/// Appends a time as date and time of day, where a value of type Time has its seconds, else as seconds since 1970.
fn put_instant(text: &mut String, time: Time) -> Result<(), AllocError>
    ensures { OnOk result (string_bytes text.new ≡ string_bytes text.old ++ instant_text time) }
{
    let seconds = seconds_since_1900(time.seconds);
    if fits_diameter_time(seconds) {
        put_date_and_time(text, &utc_of_seconds_since_1900(seconds))?;
        put_fraction(text, time)?;
        text.push_str("Z")
    } else {
        put_seconds_since_1970(text, time.seconds)?;
        put_fraction(text, time)
    }
}

/// Appends a time as the clock has it: as date and time of day, or as seconds since a first time.
fn put_time_by_clock(text: &mut String, clock: Clock, time: Time) -> Result<(), AllocError>
    ensures { OnOk result (string_bytes text.new ≡ string_bytes text.old ++ clock_text clock time) }
{
    match clock {
        Clock::Utc => put_instant(text, time),
        Clock::Since(first) => put_elapsed_seconds(text, first, time),
    }
}

/// Appends when a packet was captured, as `2026-11-23T02:15:00.123456Z` or as `-1.000000500`, and `-` where that isn't
/// known.
///
/// The fraction has all digits of its resolution where that is a power of ten, and is left out where it is whole
/// seconds; of a power of two it has nine digits, rounded down. The date is told from 1968-01-20 03:14:08 to
/// 2104-02-26 09:42:23 UTC, as of a value of type Time (RFC 6733, 4.3.1). Before and behind, the time is told without a
/// `Z`, as seconds since 1970 with the fraction that counts on from them: -61505153 and a half later is `-61505153.5`.
pub fn put_time_or_dash(
    text: &mut String,
    clock: Clock,
    time: Option<Time>,
) -> Result<(), AllocError>
    ensures { OnOk result (string_bytes text.new ≡ string_bytes text.old ++ when_text clock time) }
{
    match time {
        Some(time) => put_time_by_clock(text, clock, time),
        None => text.push_str("-"),
    }
}
