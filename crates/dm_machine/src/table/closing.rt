//! Closing, with the one connection `x` in its role.
ghost use Rattle.std.specs.Prelude.{Bool};
ghost use Rattle.dm_machine.specs.Phases.{PhaseSteps};

use super::Stepped;
use crate::connection::Conn;
use crate::inputs::{Input, Word};
use crate::outputs::{Command, Refusal, no_commands, one_command};
use crate::phase::{Phase, Role};

pub fn step_from_closing(role: Role, x: Conn, input: Input) -> Stepped
    ensures { (wins : Bool) → PhaseSteps (Phase.Closing role x) input wins result }
{
    let same = Phase::Closing(role, x);
    match input {
        Input::Heard(conn, word) if x == conn => match word {
            // x-Rcv-DPA, x-Peer-Disc: x-Disc, Closed
            Word::Dpa | Word::Unreadable => Ok((Phase::Closed, one_command(Command::Close(x)))),
            // (own) x-Rcv-DPR: x-Snd-DPA, same. RFC 6733, 5.6 has no row: where two DPRs cross, each side awaits a DPA
            Word::Dpr => Ok((same, one_command(Command::SendDpa(x)))),
            // (own) another message: none, same. 5.6 has no row, and the connection is given up anyway
            Word::Cer
            | Word::CerRefused
            | Word::Cea
            | Word::CeaFailed
            | Word::Dwr
            | Word::DwrBad
            | Word::Dwa
            | Word::DwaBad
            | Word::DprBad
            | Word::DpaBad
            | Word::Other => Ok((same, no_commands())),
        },
        Input::Gone(conn) if x == conn => Ok((Phase::Closed, one_command(Command::Close(x)))),
        // (own) a first message: R-Reject, same, as 5.6 has it in the open states
        Input::Heard(conn, _) => Ok((same, one_command(Command::Close(conn)))),
        // Timeout: Error, Closed
        Input::Timeout => Ok((Phase::Closed, one_command(Command::Close(x)))),
        // (own) Start, Stop, Send-Message: refused
        Input::Start(_) => Err(Refusal::NotClosed),
        Input::Stop | Input::Submit => Err(Refusal::NotOpen),
        // (own) all else: none, same
        Input::Tick | Input::Ack(_) | Input::Nack(_) | Input::Gone(_) => Ok((same, no_commands())),
    }
}
