//! When a packet was captured.
ghost use Rattle.std.specs.Prelude.{◌≡◌, ◌/◌, ◌%◌, ◌^◌, ◌<◌};
ghost use Rattle.std.specs.Option.{SomeIff};
ghost use Rattle.dm_capture.specs.Times.{units_per_second, time_of, resolution_of};

/// Into how many units a second is cut.
#[derive(Clone, Copy, Debug, PartialEq, Eq)]
pub enum Resolution {
    /// 10 to this power.
    Decimal(u8),
    /// 2 to this power.
    Binary(u8),
}

/// A time in seconds since 1970-01-01 00:00:00 UTC, and units of a second.
#[derive(Clone, Copy, Debug, PartialEq, Eq)]
pub struct Time {
    /// Whole seconds.
    pub seconds: i64,
    /// Units of the resolution, on top of the seconds.
    pub fraction: u64,
    pub resolution: Resolution,
}

/// The resolution that an octet of `if_tsresol` stands for.
pub(crate) fn resolution_from_octet(octet: u8) -> Resolution
    ensures { result ≡ resolution_of octet }
{
    if octet < 128 {
        Resolution::Decimal(octet)
    } else {
        Resolution::Binary(octet - 128)
    }
}

/// How many units a second has; None where they are 2^64 or more.
fn units_in_second(resolution: Resolution) -> Option<u64>
    ensures { SomeIff result (units_per_second resolution < 2 ^ 64) (units_per_second resolution) }
{
    match resolution {
        Resolution::Decimal(power) => 10u64.checked_pow(power as u32),
        Resolution::Binary(power) => 2u64.checked_pow(power as u32),
    }
}

/// The whole seconds of so many units, and the units on top of them.
fn seconds_and_units(resolution: Resolution, units: u64) -> (u64, u64)
    ensures { result ≡ (units / units_per_second resolution, units % units_per_second resolution) }
{
    match units_in_second(resolution) {
        Some(second) => (units / second, units % second),
        None => (0, units),
    }
}

/// The time that is these units after the offset, in seconds as two's complement.
pub(crate) fn wrapping_time_after_offset(resolution: Resolution, offset: u64, units: u64) -> Time
    ensures { result ≡ time_of resolution offset units }
{
    let (seconds, fraction) = seconds_and_units(resolution, units);
    Time {
        seconds: offset.wrapping_add(seconds).cast_signed(),
        fraction,
        resolution,
    }
}
