//! Which octets that come are looked at, by the state and by how their connection stands to the peer, and which answers
//! are dropped.
ghost use Rattle.std.specs.Prelude.{◌≡◌, ◌&&◌};
ghost use Rattle.dm_machine.specs.Connection.{hold_of};
ghost use Rattle.dm_machine.specs.Unread.{reads_first};
ghost use Rattle.dm_peer.specs.Acts.{is_unread_on, is_unawaited};
ghost use Rattle.dm_peer.specs.Places.{is_on, before_ack, footing_of, has_made};

use crate::standing::Awaited;
use dm_base::is_base_command;
use dm_machine::laws::shaped_cores_have_eight_forms;
use dm_machine::{Conn, Core, State};
use dm_wire::Header;

/// How a connection stands to a peer, as far as what comes on it asks.
#[derive(Clone, Copy)]
pub(crate) enum Footing {
    /// The peer doesn't hold it.
    New,
    /// The peer opens it, and it isn't made yet.
    Unmade,
    /// The peer holds it, and it is made.
    Made,
}

/// Whether the connection is the one held.
pub(crate) fn is_held_connection(held: Option<Conn>, conn: Conn) -> bool
    ensures { result ≡ is_on held conn }
{
    match held {
        Some(held) => held.0 == conn.0,
        None => false,
    }
}

/// Whether the initiated connection isn't made yet.
fn awaits_conn_ack(state: State) -> bool
    ensures { result ≡ before_ack state }
{
    match state {
        State::WaitConnAck | State::WaitConnAckElect => true,
        _ => false,
    }
}

/// How the connection stands to the core.
pub(crate) fn connection_footing(core: &Core, conn: Conn) -> Footing
    ensures { result ≡ footing_of (hold_of core.now conn) }
{
    shaped_cores_have_eight_forms();
    let state = core.state();
    if is_held_connection(core.initiated(), conn) {
        if awaits_conn_ack(state) {
            Footing::Unmade
        } else {
            Footing::Made
        }
    } else if is_held_connection(core.accepted(), conn) {
        Footing::Made
    } else {
        Footing::New
    }
}

/// Whether the first message of a new connection is read.
fn reads_first_message(state: State) -> bool
    ensures { result ≡ reads_first state }
{
    match state {
        State::Closed | State::WaitConnAck | State::WaitICea => true,
        _ => false,
    }
}

/// Whether octets on a connection that stands so aren't looked at.
pub(crate) fn leaves_octets_unread(state: State, footing: Footing) -> bool
    ensures { result ≡ is_unread_on state footing }
{
    match footing {
        Footing::New => !reads_first_message(state),
        Footing::Unmade => true,
        Footing::Made => false,
    }
}

/// Whether an answer of this header is one that nothing awaits.
fn is_unawaited_base_answer(awaited: &Awaited, header: &Header) -> bool
    ensures { result ≡ is_unawaited awaited.now header.now }
{
    if header.request || !is_base_command(header.command) {
        return false;
    }
    awaited.awaited_hop_id(header.command) != Some(header.hop_id)
}

/// Whether a message of this header is dropped on a connection that stands so.
pub(crate) fn is_answer_dropped(awaited: &Awaited, footing: Footing, header: &Header) -> bool
    ensures { result ≡ (has_made footing && is_unawaited awaited.now header.now) }
{
    match footing {
        Footing::Made => is_unawaited_base_answer(awaited, header),
        Footing::New | Footing::Unmade => false,
    }
}
