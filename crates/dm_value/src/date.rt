//! The date and the time of day of times (RFC 6733, 4.3.1), by the Gregorian calendar.
ghost use Rattle.std.specs.Prelude.{◌≡◌, Some};
ghost use Rattle.dm_value.specs.Dates.{is_leap, is_short, days_of_year, days_of_month, from_1900};
ghost use Rattle.dm_value.specs.Dates.{year_at, month_at, utc_at, IsInstant, two_digits, utc_text};

use std::fmt;

/// A date and a time of day in UTC. A Time tells those from 1968-01-20 03:14:08 to 2104-02-26 09:42:23.
#[derive(Clone, Copy, Debug, PartialEq, Eq)]
pub struct Utc {
    /// The year.
    pub year: u32,
    /// The month, from 1.
    pub month: u32,
    /// The day of the month, from 1.
    pub day: u32,
    /// The hour, below 24.
    pub hour: u32,
    /// The minute, below 60.
    pub minute: u32,
    /// The second, below 60.
    pub second: u32,
}

/// The date and time of day of a value of type Time, whose 32 bits count seconds (RFC 6733, 4.3.1): with the top bit
/// set from 1900-01-01 00:00 UTC, without it from 2036-02-07 06:28:16 UTC. It never answers want of memory.
pub fn utc_date(seconds: u32) -> Utc
    ensures value { result ≡ utc_at (from_1900 seconds) }
    ensures instant { IsInstant (from_1900 seconds) result }
{
    let instant = seconds_since_1900(seconds);
    let time = (instant % 86_400) as u32;
    let (year, of_year) = year_and_days_into_year((instant / 86_400) as u32);
    let (month, of_month) = month_and_days_into_month(year, of_year);
    Utc {
        year,
        month,
        day: of_month + 1,
        hour: time / 3600,
        minute: time / 60 % 60,
        second: time % 60,
    }
}

/// The seconds since 1900 that the 32 bits of a Time tell: without the top bit they count on from 2036.
fn seconds_since_1900(seconds: u32) -> u64
    ensures { result ≡ from_1900 seconds }
{
    if seconds < 0x8000_0000 {
        u64::from(seconds) + 0x1_0000_0000
    } else {
        u64::from(seconds)
    }
}

/// The year of the day so many days after 1900-01-01, and how many days of that year come before it.
fn year_and_days_into_year(days: u32) -> (u32, u32)
    ensures { result ≡ year_at days }
{
    let mut left = days;
    for year in 1900..2104 {
        let length = days_in_year(year);
        if left < length {
            return (year, left);
        }
        left -= length;
    }
    (2104, left)
}

/// The month of the day so many days after the first of the year, and how many days of that month come before it.
fn month_and_days_into_month(year: u32, days: u32) -> (u32, u32)
    ensures { result ≡ month_at year days }
{
    let mut left = days;
    for month in 1..12 {
        let length = days_in_month(year, month);
        if left < length {
            return (month, left);
        }
        left -= length;
    }
    (12, left)
}

fn days_in_year(year: u32) -> u32
    ensures { result ≡ days_of_year year }
{
    if is_leap_year(year) { 366 } else { 365 }
}

fn days_in_month(year: u32, month: u32) -> u32
    ensures { result ≡ days_of_month year month }
{
    if month == 2 {
        if is_leap_year(year) { 29 } else { 28 }
    } else {
        if has_thirty_days(month) { 30 } else { 31 }
    }
}

/// Whether the month has thirty days: April, June, September or November.
fn has_thirty_days(month: u32) -> bool
    ensures { result ≡ is_short month }
{
    month == 4 || month == 6 || month == 9 || month == 11
}

fn is_leap_year(year: u32) -> bool
    ensures { result ≡ is_leap year }
{
    year % 4 == 0 && (year % 100 != 0 || year % 400 == 0)
}

/// As `2026-11-23T02:15:00Z` (RFC 3339, 5.6).
impl fmt::Display for Utc {
    ghost output = { λ utc. Some (utc_text utc) };

    fn fmt<W: fmt::Write>(&self, f: &mut fmt::Formatter<W>) -> fmt::Result {
        let (year, month, day) = (self.year, TwoDigits(self.month), TwoDigits(self.day));
        let (hour, minute) = (TwoDigits(self.hour), TwoDigits(self.minute));
        let second = TwoDigits(self.second);
        write!(f, "{year}-{month}-{day}T{hour}:{minute}:{second}Z")
    }
}

/// A number below 100 in two digits.
#[derive(Clone, Copy)]
struct TwoDigits(u32);

impl fmt::Display for TwoDigits {
    ghost output = { λ n. Some (two_digits n.0) };

    #[tactic(auto, unfolding(crate::specs::Dates::two_digits))]
    fn fmt<W: fmt::Write>(&self, f: &mut fmt::Formatter<W>) -> fmt::Result {
        write!(f, "{}{}", self.0 / 10, self.0 % 10)
    }
}
