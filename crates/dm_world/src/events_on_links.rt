//! An event that a side's peer took is followed on the links: it reaches the one that it names, what the peer asks for
//! is done, and a fresh end is settled.
ghost use Rattle.std.specs.Prelude.{◌≡◌, ℕ, ◌+◌, IsTrue, false, [], ◌∷◌};
ghost use Rattle.dm_peer.specs.Events.{event_told};
ghost use Rattle.dm_two_peers.specs.Peers.{deed_in, sends_at};
ghost use Rattle.dm_two_peers.specs.Worlds.{enter, perform};
ghost use Rattle.dm_octet_peers.specs.Frames.{SendFrames};
ghost use Rattle.dm_octet_peers.specs.Octets.{as_action, as_actions, as_event};
ghost use Rattle.dm_world.specs.Rooms.{HasRoom, HasRoomFor, CanSend, named};
ghost use Rattle.dm_world.specs.Seen.{as_side, as_links};
ghost use Rattle.dm_world.specs.Telling.{is_start, FramerFits, links_after};

use crate::link::Link;
use crate::pair::holds;
use crate::{Side, links};
use dm_framer::Framer;
use dm_peer::{Action, Actions, Conn, Event, Peer};

/// The link that the event names; None where it names none.
pub(crate) fn named_link(event: Event<'_>) -> Option<Conn>
    ensures { result ≡ named (as_event (event_told event.entry)) }
{
    match event {
        Event::Start(conn)
        | Event::Ack(conn)
        | Event::Nack(conn)
        | Event::Arrived(conn, _)
        | Event::Gone(conn) => Some(conn),
        Event::Stop(_) | Event::Timeout | Event::Tick | Event::Submit(_) => None,
    }
}

/// The event reaches the side's end of the link that it names, if there is one. Where a message arrived the framer
/// takes the place of the one that holds octets of it.
pub(crate) fn receive_event_on_link(
    links: &mut Vec<Link>,
    side: Side,
    event: Event<'_>,
    framer: Option<Framer>,
)
    requires known { is_start (event_told event) ≡ false }
    requires framer { FramerFits (event_told event) framer }
    ensures entered { as_links links.new.items ≡ enter (as_side side) (as_event (event_told event.entry))
        (as_links links.old.items) }
    ensures room { (n c : ℕ) → HasRoom (as_side side) links.old.items n c →
        HasRoom (as_side side) links.new.items n c }
{
    match named_link(event) {
        Some(conn) => {
            let index = conn.0 as usize;
            if index < links.len() {
                links[index].receive_event(side, event, framer);
            }
        }
        None => {}
    }
}

/// Does one action of the side's peer on the links: a Send or a Close. A Connect and an Up ask nothing of them.
fn perform_send_or_close(links: &mut Vec<Link>, side: Side, action: Action)
    requires room { (c : ℕ) → IsTrue (sends_at c (deed_in (as_action action) ∷ [])) →
        HasRoom (as_side side) links.old.items 1 c }
    requires frames { SendFrames (as_action action ∷ []) }
    ensures performed { as_links links.new.items
        ≡ perform (as_side side) (as_action action ∷ []) (as_links links.old.items) }
    ensures room { (n c : ℕ) → HasRoom (as_side side) links.old.items (n + 1) c →
        HasRoom (as_side side) links.new.items n c }
{
    match action {
        Action::Send(conn, message) => links::send_on_link(links, side, conn.0 as usize, message),
        Action::Close(conn) => links::close_link(links, side, conn.0 as usize),
        Action::Connect(_) | Action::Up(_) => {}
    }
}

/// Does the actions of the side's peer on the links, in order: its Sends and Closes.
pub(crate) fn perform_sends_and_closes(links: &mut Vec<Link>, side: Side, mut actions: Actions)
    requires room { HasRoomFor (as_side side) links.old.items (as_actions actions.items) }
    requires frames { SendFrames (as_actions actions.items) }
    ensures { as_links links.new.items
        ≡ perform (as_side side) (as_actions actions.items) (as_links links.old.items) }
{
    while let Some(action) = actions.pop_at(0) {
        perform_send_or_close(links, side, action);
    }
}

/// The event reaches its link, and the actions of the side's peer, which stands as it does behind the event, are done;
/// where something arrived on a fresh end, that is open then, or shut.
pub(crate) fn follow_event_on_links(
    links: &mut Vec<Link>,
    side: Side,
    peer: &Peer,
    event: Event<'_>,
    framer: Option<Framer>,
    actions: Actions,
)
    requires known { is_start (event_told event) ≡ false }
    requires framer { FramerFits (event_told event) framer }
    requires sends { CanSend (as_side side) links.old.items actions.items }
    ensures { as_links links.new.items ≡ links_after (as_side side)
        (as_event (event_told event.entry)) actions.items peer.now
        (as_links links.old.items) }
{
    receive_event_on_link(links, side, event, framer);
    perform_sends_and_closes(links, side, actions);
    if let Event::Arrived(conn, _) = event {
        links::open_or_shut_fresh_end_at(links, side, conn.0 as usize, holds(peer, conn));
    }
}
