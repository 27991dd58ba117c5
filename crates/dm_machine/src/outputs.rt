//! What a peer orders, messages and connections, and why an input is refused.
ghost use Rattle.std.specs.Prelude.{◌≡◌, [], ◌∷◌};

use crate::connection::Conn;
use arrayvec::ArrayVec;
use thiserror::Error;

/// One order of the state machine (RFC 6733, 5.6).
#[derive(Clone, Copy, Debug, PartialEq, Eq)]
pub enum Command {
    /// Open a connection to the peer.
    Connect(Conn),
    /// Send a CER.
    SendCer(Conn),
    /// Send a CEA that accepts.
    SendCea(Conn),
    /// Answer the message just heard with its refusal.
    SendRefusal(Conn),
    /// Send a DWR.
    SendDwr(Conn),
    /// Send a DWA.
    SendDwa(Conn),
    /// Send a DPR.
    SendDpr(Conn),
    /// Send a DPA.
    SendDpa(Conn),
    /// Send the message of the user.
    SendSubmit(Conn),
    /// Close the connection.
    Close(Conn),
    /// Hand the message just heard to the user.
    Up,
}

impl Default for Command {
    ghost use Rattle.std.specs.Prelude.{◌≡◌};
    ghost use Rattle.dm_machine.specs.Defaults.{IsDefaultCommand};

    ghost is_default = { IsDefaultCommand };

    /// The blank of an `ArrayVec`.
    fn default() -> Self {
        Command::Close(Conn(0))
    }
}

/// The orders of one step, in the order in which they are to be carried out.
pub type Commands = ArrayVec<Command, 4>;

/// Why an input was refused.
#[derive(Clone, Copy, Debug, PartialEq, Eq, Error)]
pub enum Refusal {
    /// A Start outside Closed.
    #[error("the peer is not closed")]
    NotClosed,
    /// A Stop or Submit outside R-Open and I-Open.
    #[error("the peer is not open")]
    NotOpen,
}

/// The orders of a step that gives none.
pub fn no_commands() -> Commands
    ensures { result.items ≡ [] }
{
    ArrayVec::new()
}

/// The one order of a step.
pub fn one_command(first: Command) -> Commands
    ensures { result.items ≡ first ∷ [] }
{
    let mut commands = ArrayVec::new();
    commands.push(first);
    commands
}

/// The two orders of a step, in the order in which they are to be carried out.
pub fn two_commands(first: Command, second: Command) -> Commands
    ensures { result.items ≡ first ∷ second ∷ [] }
{
    let mut commands = one_command(first);
    commands.push(second);
    commands
}

/// The three orders of a step, in the order in which they are to be carried out.
pub fn three_commands(first: Command, second: Command, third: Command) -> Commands
    ensures { result.items ≡ first ∷ second ∷ third ∷ [] }
{
    let mut commands = two_commands(first, second);
    commands.push(third);
    commands
}
