//! Wait-Conn-Ack/Elect, with the initiated connection `i` and the accepted one `r`.
ghost use Rattle.dm_machine.specs.Phases.{IsShapedPhase, PhaseSteps};

use super::Stepped;
use crate::connection::Conn;
use crate::inputs::Input;
use crate::outputs::{Command, Refusal, no_commands, one_command, three_commands, two_commands};
use crate::phase::{Phase, Role};

pub fn step_from_wait_conn_ack_elect(i: Conn, r: Conn, input: Input, wins: bool) -> Stepped
    requires { IsShapedPhase (Phase.WaitConnAckElect i r) }
    ensures { PhaseSteps (Phase.WaitConnAckElect i r) input wins result }
{
    let same = Phase::WaitConnAckElect(i, r);
    let opened = Phase::Open(Role::Accepted, r, 0);
    match input {
        // I-Rcv-Conn-Ack: I-Snd-CER, Elect, Wait-Returns
        Input::Ack(conn) if i == conn => {
            if wins {
                // Win-Election: I-Disc, R-Snd-CEA, R-Open, in the same step (RFC 6733, 5.6.4: it "is issued locally"),
                // so that no other event comes between
                let sent = three_commands(
                    Command::SendCer(i),
                    Command::Close(i),
                    Command::SendCea(r),
                );
                Ok((opened, sent))
            } else {
                Ok((Phase::WaitReturns(i, r), one_command(Command::SendCer(i))))
            }
        }
        // I-Rcv-Conn-Nack: R-Snd-CEA, R-Open
        Input::Nack(conn) if i == conn => Ok((opened, one_command(Command::SendCea(r)))),
        // (own) the end of I counts as Nack
        Input::Gone(conn) if i == conn => Ok((opened, one_command(Command::SendCea(r)))),
        // (own) a message on I before its Ack: none, same
        Input::Heard(conn, _) if i == conn => Ok((same, no_commands())),
        // R-Peer-Disc: R-Disc, Wait-Conn-Ack; (own) so is any message on R, for which 5.6 has no row: a peer that waits
        // for its CEA has nothing to say
        Input::Heard(conn, _) if r == conn => {
            Ok((Phase::WaitConnAck(i), one_command(Command::Close(r))))
        }
        Input::Gone(conn) if r == conn => {
            Ok((Phase::WaitConnAck(i), one_command(Command::Close(r))))
        }
        // R-Conn-CER: R-Reject, same; (own) so is any other first message
        Input::Heard(conn, _) => Ok((same, one_command(Command::Close(conn)))),
        // Timeout: Error, Closed
        Input::Timeout => Ok((
            Phase::Closed,
            two_commands(Command::Close(i), Command::Close(r)),
        )),
        // (own) Start, Stop, Send-Message: refused
        Input::Start(_) => Err(Refusal::NotClosed),
        Input::Stop | Input::Submit => Err(Refusal::NotOpen),
        // (own) all else: none, same
        Input::Tick | Input::Ack(_) | Input::Nack(_) | Input::Gone(_) => Ok((same, no_commands())),
    }
}
