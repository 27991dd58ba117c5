//! Wait-Returns, with the initiated connection `i` and the accepted one `r`.
ghost use Rattle.std.specs.Prelude.{Bool};
ghost use Rattle.dm_machine.specs.Phases.{IsShapedPhase, PhaseSteps};

use super::Stepped;
use crate::connection::Conn;
use crate::inputs::{Input, Word};
use crate::outputs::{Command, Refusal, no_commands, one_command, two_commands};
use crate::phase::{Phase, Role};

pub fn step_from_wait_returns(i: Conn, r: Conn, input: Input) -> Stepped
    requires { IsShapedPhase (Phase.WaitReturns i r) }
    ensures { (wins : Bool) → PhaseSteps (Phase.WaitReturns i r) input wins result }
{
    let same = Phase::WaitReturns(i, r);
    let opened = Phase::Open(Role::Accepted, r, 0);
    match input {
        // I-Rcv-CEA: R-Disc, I-Open
        Input::Heard(conn, Word::Cea) if i == conn => {
            Ok((
                Phase::Open(Role::Initiated, i, 0),
                one_command(Command::Close(r)),
            ))
        }
        // I-Peer-Disc: I-Disc, R-Snd-CEA, R-Open; (own) so is any other message on I. RFC 6733, 5.6 has I-Rcv-Non-CEA
        // in Wait-I-CEA alone; here R is left to open on
        Input::Heard(conn, _) if i == conn => {
            Ok((opened, two_commands(Command::Close(i), Command::SendCea(r))))
        }
        Input::Gone(conn) if i == conn => {
            Ok((opened, two_commands(Command::Close(i), Command::SendCea(r))))
        }
        // R-Peer-Disc: R-Disc, Wait-I-CEA; (own) so is any message on R, for which 5.6 has no row: a peer that waits
        // for its CEA has nothing to say
        Input::Heard(conn, _) if r == conn => {
            Ok((Phase::WaitICea(i), one_command(Command::Close(r))))
        }
        Input::Gone(conn) if r == conn => Ok((Phase::WaitICea(i), one_command(Command::Close(r)))),
        // R-Conn-CER: R-Reject, same; (own) so is any other first message
        Input::Heard(conn, _) => Ok((same, one_command(Command::Close(conn)))),
        // Timeout: Error, Closed
        Input::Timeout => Ok((
            Phase::Closed,
            two_commands(Command::Close(i), Command::Close(r)),
        )),
        // (own) Start, Stop, Send-Message: refused
        Input::Start(_) => Err(Refusal::NotClosed),
        Input::Stop | Input::Submit => Err(Refusal::NotOpen),
        // (own) all else: none, same
        Input::Tick | Input::Ack(_) | Input::Nack(_) | Input::Gone(_) => Ok((same, no_commands())),
    }
}
