//! A peer's core: its state with the connections, and one step.
ghost use Rattle.std.specs.Prelude.{◌≡◌, [], IfOk, IfErr, IsTrue};
ghost use Rattle.dm_machine.specs.declared.phase.Role.TheVariants.{Initiated, Accepted};
ghost use Rattle.dm_machine.specs.Node.{node_at, held_as, is_shaped};
ghost use Rattle.dm_machine.specs.Moves.{Moves, MachineRefuses, node_refusal};

use crate::connection::Conn;
use crate::inputs::Input;
use crate::outputs::{Commands, Refusal};
use crate::phase::{Phase, Role};
use crate::state_name::State;
use crate::table::step_from_phase;
use std::fmt::{self, Debug, Formatter, Write};
use std::marker::Model;

/// A peer's state, the connections that it holds and the watchdog's count (RFC 6733, 5.5 and 5.6).
#[derive(Clone, Copy, PartialEq, Eq)]
pub struct Core {
    phase: Phase,
}

impl Model for Core {
    ghost use Rattle.std.proofs.Common.{ap};
    ghost use Rattle.dm_machine.specs.Node.{Node};

    ghost Value = { Node };

    ghost use Rattle.dm_machine.specs.declared.phase.Phase.{Phase};
    ghost use Rattle.dm_machine.specs.Phases.{IsShapedPhase, node_of, phase_of, phase_of-node_of};

    ghost view = { λ a. node_of a.phase };

    ghost invariant = { λ a. IsShapedPhase a.phase };

    ghost inverse = { λ n. record { phase = phase_of n } };

    ghost inverse_ok = { λ a h. ap (λ (p : Phase). record { phase = p }) (phase_of-node_of a.phase) };
}

impl Core {
    /// A closed core.
    pub fn new() -> Self
        ensures { result ≡ node_at State.Closed [] 0 }
    {
        Core {
            phase: Phase::Closed,
        }
    }

    /// The state.
    pub fn state(&self) -> State
        ensures value { result ≡ self.now.state }
        ensures shaped { IsTrue (is_shaped self.now) }
    {
        match self.phase {
            Phase::Closed => State::Closed,
            Phase::WaitConnAck(_) => State::WaitConnAck,
            Phase::WaitICea(_) => State::WaitICea,
            Phase::WaitConnAckElect(_, _) => State::WaitConnAckElect,
            Phase::WaitReturns(_, _) => State::WaitReturns,
            Phase::Open(Role::Accepted, _, _) => State::ROpen,
            Phase::Open(Role::Initiated, _, _) => State::IOpen,
            Phase::Closing(_, _) => State::Closing,
        }
    }

    /// The connection that this peer opened, where it holds one.
    #[inline(always)]
    pub fn initiated(&self) -> Option<Conn>
        ensures { result ≡ held_as Initiated self.now.held }
    {
        match self.phase {
            Phase::WaitConnAck(i)
            | Phase::WaitICea(i)
            | Phase::WaitConnAckElect(i, _)
            | Phase::WaitReturns(i, _)
            | Phase::Open(Role::Initiated, i, _)
            | Phase::Closing(Role::Initiated, i) => Some(i),
            Phase::Closed | Phase::Open(Role::Accepted, _, _) | Phase::Closing(Role::Accepted, _) =>
                None,
        }
    }

    /// The connection that the other side opened, where it holds one.
    #[inline(always)]
    pub fn accepted(&self) -> Option<Conn>
        ensures { result ≡ held_as Accepted self.now.held }
    {
        match self.phase {
            Phase::WaitConnAckElect(_, r)
            | Phase::WaitReturns(_, r)
            | Phase::Open(Role::Accepted, r, _)
            | Phase::Closing(Role::Accepted, r) => Some(r),
            Phase::Closed
            | Phase::WaitConnAck(_)
            | Phase::WaitICea(_)
            | Phase::Open(Role::Initiated, _, _)
            | Phase::Closing(Role::Initiated, _) => None,
        }
    }

    /// How many ticks have passed since the last message came: 0, 1 or 2, and 0 where the peer isn't open.
    pub fn count(&self) -> u8
        ensures { result ≡ self.now.count }
    {
        match self.phase {
            Phase::Open(_, _, count) => count,
            _ => 0,
        }
    }
}

impl Debug for Core {
    /// The state alone.
    fn fmt<W: Write>(&self, f: &mut Formatter<W>) -> fmt::Result {
        self.state().fmt(f)
    }
}

impl Default for Core {
    ghost use Rattle.std.specs.Prelude.{◌≡◌, []};
    ghost use Rattle.dm_machine.specs.declared.state_name.State.TheVariants.{Closed};
    ghost use Rattle.dm_machine.specs.Node.{node_at};

    ghost is_default = { λ n. n ≡ node_at Closed [] 0 };

    fn default() -> Self {
        Self::new()
    }
}

/// One step by the state table (RFC 6733, 5.6). `wins` says whether this peer would win an election (5.6.4).
///
/// # Errors
/// `NotClosed` for a Start outside Closed, `NotOpen` for a Stop or Submit outside R-Open and I-Open.
pub fn step(core: &Core, input: Input, wins: bool) -> Result<(Core, Commands), Refusal>
    ensures moves { IfOk result (λ r. Moves core.now input wins r.1.items r.0) }
    ensures refuses { IfErr result (MachineRefuses core.now input wins) }
    ensures ok_unless_refused { IfOk result (λ _. node_refusal core.now.state input ≡ None) }
    ensures refused { IfErr result (λ e. node_refusal core.now.state input ≡ Some e) }
    ensures shaped { IfOk result (λ r. IsTrue (is_shaped r.0)) }
{
    let (phase, commands) = step_from_phase(core.phase, input, wins)?;
    Ok((Core { phase }, commands))
}
