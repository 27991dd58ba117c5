//! The calls of a peer are the steps of its history: each function here is a call and no more, and its contract says
//! which step it is.
ghost use Rattle.std.specs.Prelude.{◌≡◌, List, ◌∷◌, IfOk, OnErr};
ghost use Rattle.dm_peer.specs.declared.peer.Peer.{Peer};
ghost use Rattle.dm_peer.specs.Events.{event_told};
ghost use Rattle.dm_history.specs.History.{Happened, Became, new_peer, done_at, declined_at};

use dm_peer::{Actions, Config, Event, Peer, PeerFault};
use std::alloc::Global;

/// `Peer::new`: a history begins, with the configuration's first number. It never answers want of memory.
pub fn begin(config: Config) -> Peer
    ensures { result ≡ new_peer config config.first_id }
{
    Peer::new(config)
}

/// `Peer::reset`: a history begins anew, with the number that comes next. It never answers want of memory.
pub fn begin_anew(peer: &mut Peer)
    ensures { peer.new ≡ new_peer peer.old.config peer.old.standing.next }
{
    peer.reset();
}

/// `Peer::on`: the history goes on by the event, and by what the peer does at it.
///
/// # Errors
/// Those of `Peer::on`; the event is then declined.
pub fn go_on(peer: &mut Peer, alloc: Global, event: Event<'_>) -> Result<Actions, PeerFault>
    ensures done { IfOk result (λ actions. (first : Peer) (past : List Happened) → Became first past peer.old
        → Became first (done_at (event_told event.entry) actions.items ∷ past) peer.new) }
    ensures declined { OnErr result ((first : Peer) (past : List Happened) → Became first past peer.old
        → Became first (declined_at (event_told event.entry) ∷ past) peer.new) }
{
    peer.on(alloc, event)
}
