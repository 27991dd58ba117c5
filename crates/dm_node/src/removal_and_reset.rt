//! Peers in the list of neighbours, taken out by number or set back to Closed.
ghost use Rattle.std.specs.Prelude.{◌≡◌, option_map};
ghost use Rattle.dm_node.specs.Emptying.{without_peer, set_back, with_set_back, all_set_back};
ghost use Rattle.dm_node.specs.Holding.{peer_at};

use dm_peer::Peer;

/// Takes the neighbour of the number out and returns it; None where there is none.
pub(crate) fn take_peer_out(peers: &mut Vec<Option<Peer>>, index: usize) -> Option<Peer>
    ensures gone { result ≡ peer_at peers.old.items index }
    ensures without { peers.new.items ≡ without_peer peers.old.items index }
{
    if index < peers.len() {
        peers[index].take()
    } else {
        None
    }
}

/// Sets the peer back to Closed, with no connections; nothing where there is none.
fn reset_if_any(peer: &mut Option<Peer>)
    ensures { peer.new ≡ option_map set_back peer.old }
{
    if let Some(peer) = peer {
        peer.reset();
    }
}

/// Sets the neighbour of the number back, where there is one.
pub(crate) fn reset_one_peer(peers: &mut Vec<Option<Peer>>, index: usize)
    ensures { peers.new.items ≡ with_set_back peers.old.items index }
{
    if index < peers.len() {
        reset_if_any(&mut peers[index]);
    }
}

/// Sets each neighbour back.
pub(crate) fn reset_all_peers(peers: &mut Vec<Option<Peer>>)
    ensures { peers.new.items ≡ all_set_back peers.old.items }
{
    for peer in peers.iter_mut() {
        reset_if_any(peer);
    }
}
