//! Room for what a side's peer sends, made before the peer is asked.
ghost use Rattle.std.specs.Prelude.{◌≡◌, ℕ, IsTrue, OnOk};
ghost use Rattle.dm_world.specs.Rooms.{HasRoom, is_conn, HasRoomToSend};
ghost use Rattle.dm_world.specs.Seen.{as_side, as_links};

use crate::link::Link;
use crate::{Side, links};
use dm_dict::NoMemory;
use dm_peer::{Conn, Peer};

/// How many messages a peer sends at one event at most.
const MAX_SENDS: usize = 4;

/// Makes room for what a peer sends at one event on the link of a connection, if there is one.
fn make_room_on_link(links: &mut Vec<Link>, side: Side, conn: Option<Conn>) -> Result<(), NoMemory>
    ensures same { as_links links.new.items ≡ as_links links.old.items }
    ensures room { OnOk result ((c : ℕ) → IsTrue (is_conn conn c) → HasRoom (as_side side) links.new.items 4 c) }
    ensures kept { (n c : ℕ) → HasRoom (as_side side) links.old.items n c → HasRoom (as_side side) links.new.items n c }
{
    match conn {
        Some(conn) => match links::reserve_on_link(links, side, conn.0 as usize, MAX_SENDS) {
            Ok(()) => Ok(()),
            Err(_) => Err(NoMemory),
        },
        None => Ok(()),
    }
}

/// Makes room for what the side's peer sends at one event, on the links that it holds, and on the one that is named.
pub(crate) fn make_room_for_sends(
    links: &mut Vec<Link>,
    side: Side,
    peer: &Peer,
    named: Option<Conn>,
) -> Result<(), NoMemory>
    ensures same { as_links links.new.items ≡ as_links links.old.items }
    ensures room { OnOk result (HasRoomToSend (as_side side) links.new.items peer.now.standing.core named) }
{
    make_room_on_link(links, side, peer.initiated())?;
    make_room_on_link(links, side, peer.accepted())?;
    make_room_on_link(links, side, named)
}
