//! The date and the time of day of a time (RFC 3339, 5.6).
ghost use Rattle.std.specs.Prelude.{◌≡◌, ◌++◌, IsTrue, OnOk};
ghost use Rattle.std.specs.String.{string_bytes};
ghost use Rattle.dm_value.specs.Dates.{two_digits, utc_at};
ghost use Rattle.dm_trace.specs.Dates.{since_1900, is_dated, full_date, time_of_day, date_and_time};

use dm_text::put_decimal;
use dm_value::{Utc, utc_date};
use std::alloc::AllocError;

/// The seconds from 1900-01-01 to 1970-01-01, 00:00 UTC.
const TO_1970: u64 = 2_208_988_800;

/// The seconds since 1900 of an instant that is told in seconds since 1970; 0 where it was before 1900.
pub(crate) fn seconds_since_1900(seconds: i64) -> u64
    ensures { result ≡ since_1900 seconds }
{
    let count = seconds.unsigned_abs();
    if seconds < 0 {
        TO_1970.saturating_sub(count)
    } else {
        count + TO_1970
    }
}

/// Whether a value of type Time has these seconds since 1900 (RFC 6733, 4.3.1).
pub(crate) fn fits_diameter_time(seconds: u64) -> bool
    ensures { result ≡ is_dated seconds }
{
    seconds >= 0x8000_0000 && seconds < 0x1_8000_0000
}

/// The date and the time of day of an instant that is told in seconds since 1900, where a value of type Time has these.
pub(crate) fn utc_of_seconds_since_1900(seconds: u64) -> Utc
    requires { IsTrue (is_dated seconds) }
    ensures { result ≡ utc_at seconds }
{
    utc_date((seconds % 0x1_0000_0000) as u32)
}

/// Appends a number below 100 in two digits.
#[tactic(auto, unfolding(dm_value::specs::Dates::two_digits))]
fn put_two_digits(text: &mut String, number: u32) -> Result<(), AllocError>
    ensures { OnOk result (string_bytes text.new ≡ string_bytes text.old ++ two_digits number) }
{
    put_decimal(text, u64::from(number / 10))?;
    put_decimal(text, u64::from(number % 10))
}

/// Appends a separator, and a number below 100 in two digits.
fn put_separated_two_digits(
    text: &mut String,
    separator: &str,
    number: u32,
) -> Result<(), AllocError>
    ensures { OnOk result (string_bytes text.new ≡ string_bytes text.old ++ separator.now ++ two_digits number) }
{
    text.push_str(separator)?;
    put_two_digits(text, number)
}

/// Appends a date.
fn put_full_date(text: &mut String, utc: &Utc) -> Result<(), AllocError>
    ensures { OnOk result (string_bytes text.new ≡ string_bytes text.old ++ full_date utc.now) }
{
    put_decimal(text, u64::from(utc.year))?;
    put_separated_two_digits(text, "-", utc.month)?;
    put_separated_two_digits(text, "-", utc.day)?;
    Ok(())
}

/// Appends a time of day.
fn put_time_of_day(text: &mut String, utc: &Utc) -> Result<(), AllocError>
    ensures { OnOk result (string_bytes text.new ≡ string_bytes text.old ++ time_of_day utc.now) }
{
    put_two_digits(text, utc.hour)?;
    put_separated_two_digits(text, ":", utc.minute)?;
    put_separated_two_digits(text, ":", utc.second)?;
    Ok(())
}

/// Appends a date and a time of day, up to the seconds.
#[tactic(auto, unfolding(crate::specs::Dates::date_and_time))]
pub(crate) fn put_date_and_time(text: &mut String, utc: &Utc) -> Result<(), AllocError>
    ensures { OnOk result (string_bytes text.new ≡ string_bytes text.old ++ date_and_time utc.now) }
{
    put_full_date(text, utc)?;
    text.push_str("T")?;
    put_time_of_day(text, utc)
}
