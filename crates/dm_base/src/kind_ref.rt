//! The kinds of messages, with their parts where they lie (RFC 6733, 5.3 to 5.5).
use crate::CapsRef;

/// What a message is, with its parts where they lie (RFC 6733, 5.3 to 5.5).
#[derive(Clone, Copy, Debug)]
pub enum KindRef<'a> {
    /// Capabilities-Exchange-Request: what the other side says of itself.
    Cer(CapsRef<'a>),
    /// Capabilities-Exchange-Answer: the Result-Code.
    Cea(u32),
    /// Device-Watchdog-Request.
    Dwr,
    /// Device-Watchdog-Answer.
    Dwa,
    /// Disconnect-Peer-Request: the Disconnect-Cause.
    Dpr(i32),
    /// Disconnect-Peer-Answer.
    Dpa,
    /// A message of another command, which isn't checked.
    Other,
}
