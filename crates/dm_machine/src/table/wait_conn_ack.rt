//! Wait-Conn-Ack, with the initiated connection `i`.
ghost use Rattle.std.specs.Prelude.{Bool};
ghost use Rattle.dm_machine.specs.Phases.{PhaseSteps};

use super::Stepped;
use crate::connection::Conn;
use crate::inputs::{Input, Word};
use crate::outputs::{Command, Refusal, no_commands, one_command, two_commands};
use crate::phase::Phase;

pub fn step_from_wait_conn_ack(i: Conn, input: Input) -> Stepped
    ensures { (wins : Bool) → PhaseSteps (Phase.WaitConnAck i) input wins result }
{
    let same = Phase::WaitConnAck(i);
    match input {
        // I-Rcv-Conn-Ack: I-Snd-CER, Wait-I-CEA
        Input::Ack(conn) if i == conn => Ok((Phase::WaitICea(i), one_command(Command::SendCer(i)))),
        // I-Rcv-Conn-Nack: Cleanup, Closed
        Input::Nack(conn) if i == conn => Ok((Phase::Closed, no_commands())),
        // (own) the end of I counts as Nack, "that the transport connection was not established" (RFC 6733, 5.6.2)
        Input::Gone(conn) if i == conn => Ok((Phase::Closed, no_commands())),
        // (own) a message on I before its Ack: none, same. 5.6 has no row: to I no CER is sent yet, so that nothing
        // answers one
        Input::Heard(conn, _) if i == conn => Ok((same, no_commands())),
        // R-Conn-CER: R-Accept, Wait-Conn-Ack/Elect
        Input::Heard(conn, Word::Cer) => Ok((Phase::WaitConnAckElect(i, conn), no_commands())),
        // (own) a refused CER: its answer, R-Reject, same. 5.6 accepts every CER here
        Input::Heard(conn, Word::CerRefused) => {
            Ok((
                same,
                two_commands(Command::SendRefusal(conn), Command::Close(conn)),
            ))
        }
        // (own) another first message: R-Reject, same
        Input::Heard(conn, _) => Ok((same, one_command(Command::Close(conn)))),
        // Timeout: Error, Closed
        Input::Timeout => Ok((Phase::Closed, one_command(Command::Close(i)))),
        // (own) Start, Stop, Send-Message: refused
        Input::Start(_) => Err(Refusal::NotClosed),
        Input::Stop | Input::Submit => Err(Refusal::NotOpen),
        // (own) all else: none, same
        Input::Tick | Input::Ack(_) | Input::Nack(_) | Input::Gone(_) => Ok((same, no_commands())),
    }
}
