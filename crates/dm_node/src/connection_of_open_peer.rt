//! The connection on which a peer is open.
ghost use Rattle.std.specs.Prelude.{◌≡◌, ℕ, true, false, Some, IfSome, IfNone};
ghost use Rattle.dm_machine.specs.declared.connection.Conn.{Conn};
ghost use Rattle.dm_machine.specs.Connection.{hold_of};
ghost use Rattle.dm_machine.specs.Moves.{is_open};
ghost use Rattle.dm_machine.specs.Upward.{is_open_hold};
ghost use Rattle.dm_node.specs.Holding.{holds};
ghost use Rattle.dm_node.specs.Owning.{has, one_held};
ghost use Rattle.dm_slots.specs.Intakes.{Intakes, raised_at};
ghost use Rattle.dm_slots.specs.Raised.{raised};

use dm_machine::laws::shaped_cores_have_eight_forms;
use dm_machine::{Conn, State};
use dm_peer::Peer;

/// The connection on which the peer is open, in R-Open or I-Open (RFC 6733, 5.6), which it holds and no other; None
/// where it isn't open.
#[inline(always)]
pub(crate) fn connection_of_open_peer(peer: &Peer) -> Option<Conn>
    ensures found { IfSome result (λ conn. is_open_hold (hold_of peer.now.standing.core conn) ≡ true) }
    ensures none { IfNone result ((conn : Conn)
        → is_open_hold (hold_of peer.now.standing.core conn) ≡ false) }
    ensures state { IfSome result (λ conn. is_open peer.now.standing.core.state ≡ true) }
    ensures held { IfSome result (λ conn. (c : Conn) → has (one_held conn) c ≡ holds c peer.now) }
    ensures raised { IfSome result (λ conn. (most : ℕ) (f : Intakes)
        → raised most peer.now f ≡ raised_at most (Some conn) f) }
{
    shaped_cores_have_eight_forms();
    match peer.state() {
        State::IOpen => peer.initiated(),
        State::ROpen => peer.accepted(),
        _ => None,
    }
}
