//! When, between whom and in which packet a message was seen.
ghost use Rattle.std.specs.Prelude.{◌≡◌, ◌++◌, OnOk};
ghost use Rattle.std.specs.String.{string_bytes};
ghost use Rattle.dm_trace.specs.Fronts.{transport_word, ends_text, place_text, front_text};

use crate::endpoint::put_endpoint;
use crate::time::{Clock, put_time_or_dash};
use dm_capture::Time;
use dm_flows::Endpoint;
use dm_text::put_decimal;
use std::alloc::AllocError;

/// What carries Diameter messages (RFC 6733, 2.1).
#[derive(Clone, Copy, Debug, PartialEq, Eq)]
pub enum Transport {
    Tcp,
    Sctp,
}

/// When, between whom and in which packet a message was seen.
#[derive(Clone, Copy, Debug, PartialEq, Eq)]
pub struct Seen {
    /// When the packet was captured, where that is known.
    pub time: Option<Time>,
    /// Who sent the message.
    pub from: Endpoint,
    /// To whom it was sent.
    pub to: Endpoint,
    /// What carried it.
    pub transport: Transport,
    /// The packet's place among those of the file, from 1.
    pub packet: u64,
}

impl Transport {
    /// Its name: `tcp` or `sctp`.
    pub fn name(self) -> &'static str
        ensures { result.now ≡ transport_word self }
    {
        match self {
            Transport::Tcp => "tcp",
            Transport::Sctp => "sctp",
        }
    }
}

/// Appends between whom a message was seen: ` FROM > TO`.
fn put_spaced_from_and_to(text: &mut String, from: Endpoint, to: Endpoint) -> Result<(), AllocError>
    ensures { OnOk result (string_bytes text.new ≡ string_bytes text.old ++ ends_text from to) }
{
    text.push_str(" ")?;
    put_endpoint(text, from)?;
    text.push_str(" > ")?;
    put_endpoint(text, to)?;
    Ok(())
}

/// Appends what carried a message, and in which packet: ` tcp packet 17`.
fn put_spaced_transport_and_packet(
    text: &mut String,
    transport: Transport,
    packet: u64,
) -> Result<(), AllocError>
    ensures { OnOk result (string_bytes text.new ≡ string_bytes text.old ++ place_text transport packet) }
{
    text.push_str(" ")?;
    text.push_str(transport.name())?;
    text.push_str(" packet ")?;
    put_decimal(text, packet)
}

/// Appends when, between whom and in which packet a message was seen, without an end of line:
/// `2026-11-23T02:15:00.123456Z 10.0.0.1:41234 > [2001:db8::1]:3868 tcp packet 17`.
///
/// Where memory is wanted, what is appended is of no use.
pub fn put_seen(text: &mut String, clock: Clock, seen: &Seen) -> Result<(), AllocError>
    ensures { OnOk result (string_bytes text.new ≡ string_bytes text.old ++ front_text clock seen.now) }
{
    put_time_or_dash(text, clock, seen.time)?;
    put_spaced_from_and_to(text, seen.from, seen.to)?;
    put_spaced_transport_and_packet(text, seen.transport, seen.packet)?;
    Ok(())
}
