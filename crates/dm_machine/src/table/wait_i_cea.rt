//! Wait-I-CEA, with the initiated connection `i`.
ghost use Rattle.dm_machine.specs.Phases.{PhaseSteps};

use super::Stepped;
use crate::connection::Conn;
use crate::inputs::{Input, Word};
use crate::outputs::{Command, Refusal, no_commands, one_command, two_commands};
use crate::phase::{Phase, Role};

pub fn step_from_wait_i_cea(i: Conn, input: Input, wins: bool) -> Stepped
    ensures { PhaseSteps (Phase.WaitICea i) input wins result }
{
    let same = Phase::WaitICea(i);
    match input {
        // I-Rcv-CEA: none, I-Open. RFC 6733, 5.6 has "Process-CEA" and I-Open for every CEA; one that refuses, or fails
        // its check, opens nothing, since the other side isn't open either: it goes as I-Peer-Disc
        Input::Heard(conn, Word::Cea) if i == conn => Ok((
            Phase::Open(Role::Initiated, i, 0),
            no_commands(),
        )),
        // I-Peer-Disc: I-Disc, Closed; I-Rcv-Non-CEA: Error, Closed
        Input::Heard(conn, _) if i == conn => Ok((Phase::Closed, one_command(Command::Close(i)))),
        Input::Gone(conn) if i == conn => Ok((Phase::Closed, one_command(Command::Close(i)))),
        // R-Conn-CER: R-Accept, Elect, Wait-Returns
        Input::Heard(conn, Word::Cer) => {
            if wins {
                // Win-Election: I-Disc, R-Snd-CEA, R-Open, in the same step (5.6.4: it "is issued locally")
                Ok((
                    Phase::Open(Role::Accepted, conn, 0),
                    two_commands(Command::Close(i), Command::SendCea(conn)),
                ))
            } else {
                Ok((Phase::WaitReturns(i, conn), no_commands()))
            }
        }
        // (own) a refused CER: its answer, R-Reject, same. 5.6 accepts every CER here
        Input::Heard(conn, Word::CerRefused) => {
            Ok((
                same,
                two_commands(Command::SendRefusal(conn), Command::Close(conn)),
            ))
        }
        // (own) another first message: R-Reject, same
        Input::Heard(conn, _) => Ok((same, one_command(Command::Close(conn)))),
        // Timeout: Error, Closed
        Input::Timeout => Ok((Phase::Closed, one_command(Command::Close(i)))),
        // (own) Start, Stop, Send-Message: refused
        Input::Start(_) => Err(Refusal::NotClosed),
        Input::Stop | Input::Submit => Err(Refusal::NotOpen),
        // (own) all else: none, same
        Input::Tick | Input::Ack(_) | Input::Nack(_) | Input::Gone(_) => Ok((same, no_commands())),
    }
}
