//! States, connections and orders as text.
ghost use Rattle.std.specs.Prelude.{◌≡◌, Some};
ghost use Rattle.std.specs.Fmt.{decimal};
ghost use Rattle.dm_machine.specs.Printed.{state_text, command_text};

use crate::connection::Conn;
use crate::outputs::Command;
use crate::state_name::State;
use std::fmt;

/// The number.
impl fmt::Display for Conn {
    ghost output = { λ conn. Some (decimal conn.0) };

    fn fmt<W: fmt::Write>(&self, f: &mut fmt::Formatter<W>) -> fmt::Result {
        write!(f, "{}", self.0)
    }
}

impl State {
    /// The name of RFC 6733 (5.6), as `Wait-I-CEA`. It never answers want of memory.
    pub fn name(&self) -> &'static str
        ensures { result.now ≡ state_text self.now }
    {
        match self {
            State::Closed => "Closed",
            State::WaitConnAck => "Wait-Conn-Ack",
            State::WaitICea => "Wait-I-CEA",
            State::WaitConnAckElect => "Wait-Conn-Ack/Elect",
            State::WaitReturns => "Wait-Returns",
            State::ROpen => "R-Open",
            State::IOpen => "I-Open",
            State::Closing => "Closing",
        }
    }
}

/// The name of RFC 6733 (5.6), as `Wait-I-CEA`.
impl fmt::Display for State {
    ghost output = { λ state. Some (state_text state) };

    fn fmt<W: fmt::Write>(&self, f: &mut fmt::Formatter<W>) -> fmt::Result {
        f.write_str(self.name())
    }
}

/// What is ordered and on which connection, as `send CER on 1`.
impl fmt::Display for Command {
    ghost output = { λ command. Some (command_text command) };

    fn fmt<W: fmt::Write>(&self, f: &mut fmt::Formatter<W>) -> fmt::Result {
        match self {
            Command::Connect(conn) => write!(f, "connect {conn}"),
            Command::SendCer(conn) => write!(f, "send CER on {conn}"),
            Command::SendCea(conn) => write!(f, "send CEA on {conn}"),
            Command::SendRefusal(conn) => write!(f, "send refusal on {conn}"),
            Command::SendDwr(conn) => write!(f, "send DWR on {conn}"),
            Command::SendDwa(conn) => write!(f, "send DWA on {conn}"),
            Command::SendDpr(conn) => write!(f, "send DPR on {conn}"),
            Command::SendDpa(conn) => write!(f, "send DPA on {conn}"),
            Command::SendSubmit(conn) => write!(f, "send submitted on {conn}"),
            Command::Close(conn) => write!(f, "close {conn}"),
            Command::Up => f.write_str("up"),
        }
    }
}
