//! How times are said, and since which first one.
ghost use Rattle.std.specs.Prelude.{◌≡◌};
ghost use Rattle.dm_trace_view.specs.Traces.{first_time_of, clock_of};

use dm_capture::Time;
use dm_trace::Clock;

/// How times are said.
#[derive(Clone, Copy, Debug, PartialEq, Eq)]
pub enum Times {
    /// As date and time of day, UTC.
    Utc,
    /// As seconds since the first packet that has a time.
    Relative,
}

/// The first of both times that is known; None where neither is.
pub(crate) fn first_known_time(first: Option<Time>, time: Option<Time>) -> Option<Time>
    ensures { result ≡ first_time_of first time }
{
    match first {
        Some(first) => Some(first),
        None => time,
    }
}

impl Times {
    /// The clock by which times are said: seconds since the first time, where times are relative and it is known, else
    /// date and time of day.
    pub(crate) fn clock_since(self, first: Option<Time>) -> Clock
        ensures { result ≡ clock_of self first }
    {
        match (self, first) {
            (Times::Relative, Some(first)) => Clock::Since(first),
            _ => Clock::Utc,
        }
    }
}
