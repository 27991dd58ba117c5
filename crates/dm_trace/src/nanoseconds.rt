//! Times in nanoseconds, and the time from one to another.
ghost use Rattle.std.specs.Prelude.{◌≡◌, ◌^◌, ◌<◌, ◌≤◌, ◌++◌, ◌≤ℤ◌, ◌-ℤ◌, pos, neg_ℤ, OnOk};
ghost use Rattle.std.specs.Option.{SomeIff};
ghost use Rattle.std.specs.String.{string_bytes};
ghost use Rattle.dm_capture.specs.Times.{units_per_second};
ghost use Rattle.dm_trace.specs.Elapsed.{nanoseconds_of, instant_of, seconds_text, signed_seconds_text, elapsed_text};

use crate::digits::put_last_digits;
use dm_capture::{Resolution, Time};
use std::alloc::AllocError;

/// Nanoseconds in a second.
const SECOND: u64 = 1_000_000_000;

/// How many units a second has; None where they are 2^128 or more.
fn units_in_second(resolution: Resolution) -> Option<u128>
    ensures { SomeIff result (units_per_second resolution < 2 ^ 128) (units_per_second resolution) }
{
    match resolution {
        Resolution::Decimal(power) => 10u128.checked_pow(power as u32),
        Resolution::Binary(power) => 2u128.checked_pow(power as u32),
    }
}

/// The units of a time on top of its seconds, in nanoseconds, rounded down: a second or more where there are so many.
pub(crate) fn fraction_nanoseconds(time: Time) -> u128
    ensures { result ≡ nanoseconds_of time }
{
    let units = u128::from(time.fraction) * u128::from(SECOND);
    match units_in_second(time.resolution) {
        Some(second) => units / second,
        None => 0,
    }
}

/// A time in nanoseconds since 1970, rounded down.
fn nanoseconds_since_1970(time: Time) -> i128
    ensures value { result ≡ instant_of time }
    ensures least { neg_ℤ (pos (2 ^ 126)) ≤ℤ result }
    ensures greatest { result ≤ℤ pos (2 ^ 126) }
{
    i128::from(time.seconds) * i128::from(SECOND) + fraction_nanoseconds(time).cast_signed()
}

/// Appends nanoseconds as seconds, with nine digits of a fraction.
fn put_nanoseconds_as_seconds(text: &mut String, nanoseconds: u128) -> Result<(), AllocError>
    ensures { OnOk result (string_bytes text.new ≡ string_bytes text.old ++ seconds_text nanoseconds) }
{
    let second = u128::from(SECOND);
    write!(text, "{}.", nanoseconds / second)?;
    put_last_digits(text, 9, (nanoseconds % second) as u64)
}

/// Appends nanoseconds as seconds, with nine digits of a fraction, behind `-` where they are below 0.
fn put_signed_nanoseconds_as_seconds(text: &mut String, nanoseconds: i128) -> Result<(), AllocError>
    ensures { OnOk result (string_bytes text.new ≡ string_bytes text.old ++ signed_seconds_text nanoseconds) }
{
    if nanoseconds < 0 {
        text.push_str("-")?;
    }
    put_nanoseconds_as_seconds(text, nanoseconds.unsigned_abs())
}

/// The nanoseconds from a first time to another one, below 0 where that one is before.
fn nanoseconds_between(first: Time, time: Time) -> i128
    ensures { result ≡ instant_of time -ℤ instant_of first }
{
    nanoseconds_since_1970(time) - nanoseconds_since_1970(first)
}

/// Appends the seconds from a first time to another one, with nine digits of a fraction, behind `-` where that one is
/// before.
pub(crate) fn put_elapsed_seconds(
    text: &mut String,
    first: Time,
    time: Time,
) -> Result<(), AllocError>
    ensures { OnOk result (string_bytes text.new ≡ string_bytes text.old ++ elapsed_text first time) }
{
    put_signed_nanoseconds_as_seconds(text, nanoseconds_between(first, time))
}
