//! Closed, where no connection is held.
ghost use Rattle.std.specs.Prelude.{Bool};
ghost use Rattle.dm_machine.specs.Phases.{PhaseSteps};

use super::Stepped;
use crate::inputs::{Input, Word};
use crate::outputs::{Command, Refusal, no_commands, one_command, two_commands};
use crate::phase::{Phase, Role};

pub fn step_from_closed(input: Input) -> Stepped
    ensures { (wins : Bool) → PhaseSteps Phase.Closed input wins result }
{
    match input {
        // Start: I-Snd-Conn-Req, Wait-Conn-Ack
        Input::Start(conn) => Ok((
            Phase::WaitConnAck(conn),
            one_command(Command::Connect(conn)),
        )),
        // R-Conn-CER: R-Accept, R-Snd-CEA, R-Open
        Input::Heard(conn, Word::Cer) => Ok((
            Phase::Open(Role::Accepted, conn, 0),
            one_command(Command::SendCea(conn)),
        )),
        // (own) a refused CER: its answer, R-Reject, same. RFC 6733, 5.6 has "R-Accept, Process-CER, R-Snd-CEA" and
        // R-Open for every CER; one that is refused opens nothing (5.3)
        Input::Heard(conn, Word::CerRefused) => {
            Ok((
                Phase::Closed,
                two_commands(Command::SendRefusal(conn), Command::Close(conn)),
            ))
        }
        // (own) another first message: R-Reject, same, as 5.6.1 has it outside the table
        Input::Heard(conn, _) => Ok((Phase::Closed, one_command(Command::Close(conn)))),
        // (own) Stop, Send-Message: refused
        Input::Stop | Input::Submit => Err(Refusal::NotOpen),
        // (own) all else: none, same
        Input::Timeout | Input::Tick | Input::Ack(_) | Input::Nack(_) | Input::Gone(_) => {
            Ok((Phase::Closed, no_commands()))
        }
    }
}
