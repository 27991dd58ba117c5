//! The commands of the base messages (RFC 6733, 5.3 to 5.5).
ghost use Rattle.std.specs.Prelude.{◌≡◌};
ghost use Rattle.dm_base.specs.Commands.{is_base_command};

use crate::codes::{CAPABILITIES_EXCHANGE, DEVICE_WATCHDOG, DISCONNECT_PEER};

/// A command of the base messages, which is both a request's and an answer's (RFC 6733, 5.3 to 5.5).
#[derive(Clone, Copy, Debug, PartialEq, Eq)]
pub enum BaseCommand {
    /// Capabilities-Exchange, 257 (5.3).
    CapabilitiesExchange,
    /// Device-Watchdog, 280 (5.5).
    DeviceWatchdog,
    /// Disconnect-Peer, 282 (5.4).
    DisconnectPeer,
}

impl BaseCommand {
    ghost use Rattle.dm_base.specs.Commands.{base_command};

    /// The base command of this Command Code. None for a code of no base message. It never answers want of memory.
    pub fn of(code: u32) -> Option<BaseCommand>
        ensures { result ≡ base_command code }
    {
        if code == CAPABILITIES_EXCHANGE {
            Some(BaseCommand::CapabilitiesExchange)
        } else if code == DEVICE_WATCHDOG {
            Some(BaseCommand::DeviceWatchdog)
        } else if code == DISCONNECT_PEER {
            Some(BaseCommand::DisconnectPeer)
        } else {
            None
        }
    }
}

/// Whether the command is that of base messages: 257 (Capabilities-Exchange), 280 (Device-Watchdog) or 282
/// (Disconnect-Peer) (RFC 6733, 5.3, 5.5 and 5.4). It never answers want of memory.
pub fn is_base_command(command: u32) -> bool
    ensures { result ≡ is_base_command command }
{
    BaseCommand::of(command).is_some()
}
