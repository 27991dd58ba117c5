//! What a peer is told: commands of its user, ticks of the watchdog, and what happens on connections.

use crate::connection::Conn;

/// A message by what it says, as far as the state machine asks (RFC 6733, 5.3 to 5.6).
///
/// `Bad` is a message that fails its check.
#[derive(Clone, Copy, Debug, PartialEq, Eq)]
pub enum Word {
    /// Octets that spell no message.
    Unreadable,
    /// A CER that may be accepted.
    Cer,
    /// A CER that is refused, by its check or by what it offers.
    CerRefused,
    /// A CEA that passes its check, with a Result-Code of 2000 to 2999.
    Cea,
    /// Any other CEA.
    CeaFailed,
    /// A DWR.
    Dwr,
    /// A DWR that fails its check.
    DwrBad,
    /// A DWA.
    Dwa,
    /// A DWA that fails its check.
    DwaBad,
    /// A DPR.
    Dpr,
    /// A DPR that fails its check.
    DprBad,
    /// A DPA.
    Dpa,
    /// A DPA that fails its check.
    DpaBad,
    /// A message of any other command.
    Other,
}

/// One thing that happens to a peer (RFC 6733, 5.6).
#[derive(Clone, Copy, Debug, PartialEq, Eq)]
pub enum Input {
    /// Open a connection, under this new number.
    Start(Conn),
    /// Disconnect.
    Stop,
    /// The state's time is over.
    Timeout,
    /// The watchdog's time is over (RFC 3539, 3.4.1).
    Tick,
    /// The connection that was asked for is made.
    Ack(Conn),
    /// The connection that was asked for can't be made.
    Nack(Conn),
    /// The other side closed the connection, or it was lost.
    Gone(Conn),
    /// Send a message of the user.
    Submit,
    /// A message came.
    Heard(Conn, Word),
}
