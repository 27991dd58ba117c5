//! The state table: one function for each state, with the table's row in words above each arm.
ghost use Rattle.dm_machine.specs.Phases.{IsShapedPhase, PhaseSteps};

mod closed;
mod closing;
mod open;
mod wait_conn_ack;
mod wait_conn_ack_elect;
mod wait_i_cea;
mod wait_returns;

use crate::inputs::Input;
use crate::outputs::{Commands, Refusal};
use crate::phase::Phase;
use closed::step_from_closed;
use closing::step_from_closing;
use open::step_from_open;
use wait_conn_ack::step_from_wait_conn_ack;
use wait_conn_ack_elect::step_from_wait_conn_ack_elect;
use wait_i_cea::step_from_wait_i_cea;
use wait_returns::step_from_wait_returns;

/// The next state with its commands, or the refusal of the input.
pub type Stepped = Result<(Phase, Commands), Refusal>;

/// One step of the state table.
pub fn step_from_phase(phase: Phase, input: Input, wins: bool) -> Stepped
    requires { IsShapedPhase phase }
    ensures { PhaseSteps phase input wins result }
{
    match phase {
        Phase::Closed => step_from_closed(input),
        Phase::WaitConnAck(i) => step_from_wait_conn_ack(i, input),
        Phase::WaitICea(i) => step_from_wait_i_cea(i, input, wins),
        Phase::WaitConnAckElect(i, r) => step_from_wait_conn_ack_elect(i, r, input, wins),
        Phase::WaitReturns(i, r) => step_from_wait_returns(i, r, input),
        Phase::Open(role, x, count) => step_from_open(role, x, count, input),
        Phase::Closing(role, x) => step_from_closing(role, x, input),
    }
}
