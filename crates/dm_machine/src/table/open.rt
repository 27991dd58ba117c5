//! R-Open and I-Open, which differ in the role alone: with the connection `x` in its role and the watchdog's count.
ghost use Rattle.std.specs.Prelude.{◌≡◌, Bool};
ghost use Rattle.dm_machine.specs.declared.phase.Role.TheVariants.{Initiated, Accepted};
ghost use Rattle.dm_machine.specs.Phases.{IsShapedPhase, PhaseSteps};

use super::Stepped;
use crate::connection::Conn;
use crate::inputs::{Input, Word};
use crate::outputs::{Command, Refusal, no_commands, one_command};
use crate::phase::{Phase, Role};

pub fn step_from_open(role: Role, x: Conn, count: u8, input: Input) -> Stepped
    requires { IsShapedPhase (Phase.Open role x count) }
    ensures accepted { role ≡ Accepted → (wins : Bool) → PhaseSteps (Phase.Open Accepted x count) input wins result }
    ensures initiated { role ≡ Initiated → (wins : Bool) → PhaseSteps (Phase.Open Initiated x count) input wins result }
{
    let same = Phase::Open(role, x, count);
    let heard = Phase::Open(role, x, 0);
    match input {
        // Send-Message: x-Snd-Message, same
        Input::Submit => Ok((same, one_command(Command::SendSubmit(x)))),
        Input::Heard(conn, word) if x == conn => match word {
            // x-Rcv-Message: Up, same
            Word::Other => Ok((heard, one_command(Command::Up))),
            // x-Rcv-DWR: x-Snd-DWA, same
            Word::Dwr => Ok((heard, one_command(Command::SendDwa(x)))),
            // x-Rcv-DWA: none, same; (own) so is one that fails its check
            Word::Dwa | Word::DwaBad => Ok((heard, no_commands())),
            // (own) a DWR or DPR that fails its check: its answer, same
            Word::DwrBad | Word::DprBad => Ok((heard, one_command(Command::SendRefusal(x)))),
            // x-Rcv-DPR: x-Snd-DPA, Closing
            Word::Dpr => Ok((Phase::Closing(role, x), one_command(Command::SendDpa(x)))),
            // x-Peer-Disc: x-Disc, Closed; (own) so is a CER, CEA or DPA, for which RFC 6733, 5.6 has no row in the
            // open states: whoever sends one takes this side for being in another state
            Word::Unreadable
            | Word::Cer
            | Word::CerRefused
            | Word::Cea
            | Word::CeaFailed
            | Word::Dpa
            | Word::DpaBad => Ok((Phase::Closed, one_command(Command::Close(x)))),
        },
        // R-Conn-CER: R-Reject, same; (own) so is any other first message
        Input::Heard(conn, _) => Ok((same, one_command(Command::Close(conn)))),
        // Stop: x-Snd-DPR, Closing
        Input::Stop => Ok((Phase::Closing(role, x), one_command(Command::SendDpr(x)))),
        // x-Peer-Disc: x-Disc, Closed
        Input::Gone(conn) if x == conn => Ok((Phase::Closed, one_command(Command::Close(x)))),
        Input::Tick => step_from_open_at_tick(role, x, count),
        // (own) Start: refused
        Input::Start(_) => Err(Refusal::NotClosed),
        // (own) all else: none, same
        Input::Timeout | Input::Ack(_) | Input::Nack(_) | Input::Gone(_) => {
            Ok((same, no_commands()))
        }
    }
}

/// A tick of the watchdog behind `count` others since something was heard: the first sends a DWR, the second nothing,
/// the third closes. RFC 6733, 5.6 says no more of it than that RFC 3539 "requires the use of watchdog messages to
/// probe connections".
fn step_from_open_at_tick(role: Role, x: Conn, count: u8) -> Stepped
    requires { IsShapedPhase (Phase.Open role x count) }
    ensures accepted { role ≡ Accepted → (wins : Bool)
        → PhaseSteps (Phase.Open Accepted x count) Input.Tick wins result }
    ensures initiated { role ≡ Initiated → (wins : Bool)
        → PhaseSteps (Phase.Open Initiated x count) Input.Tick wins result }
{
    match count {
        // (own) the first Tick: x-Snd-DWR, same
        0 => Ok((Phase::Open(role, x, 1), one_command(Command::SendDwr(x)))),
        // (own) the second Tick, the peer is suspect: none, same
        1 => Ok((Phase::Open(role, x, 2), no_commands())),
        // (own) the third Tick: x-Disc, Closed
        _ => Ok((Phase::Closed, one_command(Command::Close(x)))),
    }
}
