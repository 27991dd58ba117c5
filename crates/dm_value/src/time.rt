//! The seconds since 1970 of a value of type Time (RFC 6733, 4.3.1).
ghost use Rattle.std.specs.Prelude.{◌≡◌};
ghost use Rattle.dm_value.specs.Times.{unix_time};

/// The seconds since 1970-01-01 00:00 UTC of a value of type Time (RFC 6733, 4.3.1): with the top bit set it counts
/// from 1900-01-01 00:00 UTC, without it from 2036-02-07 06:28:16 UTC. It never answers want of memory.
pub fn unix_seconds(seconds: u32) -> i64
    ensures { result ≡ unix_time seconds }
{
    let count = i64::from(seconds);
    if seconds >= 0x8000_0000 {
        count - 2_208_988_800
    } else {
        count + 2_085_978_496
    }
}
