//! The peer of the neighbour that has a number.
ghost use Rattle.std.specs.Prelude.{◌≡◌};
ghost use Rattle.std.specs.Option.{option_copied};
ghost use Rattle.dm_node.specs.Holding.{peer_at};

use dm_peer::Peer;

/// The peer of the neighbour that has this number; None where none has it.
pub(crate) fn peer_at(peers: &[Option<Peer>], index: usize) -> Option<&Peer>
    ensures { option_copied result ≡ peer_at peers.now index }
{
    if index < peers.len() {
        peers[index].as_ref()
    } else {
        None
    }
}
