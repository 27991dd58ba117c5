//! The links of a world, by number.
ghost use Rattle.std.specs.Prelude.{◌≡◌, ℕ, ◌+◌, OnOk, slice_get};
ghost use Rattle.std.specs.List.{list_all};
ghost use Rattle.dm_framer.specs.Frames.{IsFrame};
ghost use Rattle.dm_two_peers.specs.Links.{by_side};
ghost use Rattle.dm_two_peers.specs.Machine.{HeardOnLink};
ghost use Rattle.dm_two_peers.specs.Quiet.{is_quiet_link};
ghost use Rattle.dm_two_peers.specs.Steps.{with_sent, with_close, settled_view};
ghost use Rattle.dm_two_peers.specs.Worlds.{change_at};
ghost use Rattle.dm_world.specs.Agreeing.{is_coming_at};
ghost use Rattle.dm_world.specs.Rooms.{HasRoom};
ghost use Rattle.dm_world.specs.Seen.{as_side, as_links, restart_link};
ghost use Rattle.dm_wire.specs.Codes.{max_message_len};

use crate::Side;
use crate::direction::Mark;
use crate::link::Link;
use dm_wire::Octets;
use std::alloc::AllocError;

/// Makes room for so many messages that the side sends on the link, if there is one.
pub(crate) fn reserve_on_link(
    links: &mut Vec<Link>,
    side: Side,
    index: usize,
    count: usize,
) -> Result<(), AllocError>
    ensures same { as_links links.new.items ≡ as_links links.old.items }
    ensures room { OnOk result (HasRoom (as_side side) links.new.items count index) }
    ensures kept { (n c : ℕ) → HasRoom (as_side side) links.old.items n c →
        HasRoom (as_side side) links.new.items n c }
{
    if index < links.len() {
        links[index].reserve(side, count)
    } else {
        Ok(())
    }
}

/// The side sends a message on the link, if there is one.
pub(crate) fn send_on_link(links: &mut Vec<Link>, side: Side, index: usize, message: Octets)
    requires room { HasRoom (as_side side) links.old.items 1 index }
    requires frame { IsFrame max_message_len message }
    ensures said { as_links links.new.items
        ≡ change_at index (by_side (as_side side) (with_sent message)) (as_links links.old.items) }
    ensures room { (n c : ℕ) → HasRoom (as_side side) links.old.items (n + 1) c →
        HasRoom (as_side side) links.new.items n c }
{
    if index < links.len() {
        links[index].send_message(side, message);
    }
}

/// The side closes the link, if there is one.
pub(crate) fn close_link(links: &mut Vec<Link>, side: Side, index: usize)
    ensures closed { as_links links.new.items
        ≡ change_at index (by_side (as_side side) with_close) (as_links links.old.items) }
    ensures room { (n c : ℕ) → HasRoom (as_side side) links.old.items n c →
        HasRoom (as_side side) links.new.items n c }
{
    if index < links.len() {
        links[index].close(side);
    }
}

/// A fresh end of the side that was heard on is open where its peer holds the link, if there is one, else shut: fresh
/// it doesn't stay.
pub(crate) fn open_or_shut_fresh_end_at(
    links: &mut Vec<Link>,
    side: Side,
    index: usize,
    holds: bool,
)
    ensures { as_links links.new.items
        ≡ change_at index (by_side (as_side side) (settled_view HeardOnLink holds)) (as_links links.old.items) }
{
    if index < links.len() {
        links[index].open_or_shut_fresh_end(side, holds);
    }
}

/// The side starts anew, as far as the link goes, if there is one.
pub(crate) fn close_link_at_restart(links: &mut Vec<Link>, side: Side, index: usize)
    ensures { as_links links.new.items ≡ change_at index (restart_link (as_side side)) (as_links links.old.items) }
{
    if index < links.len() {
        links[index].close_unless_other_is_connecting(side);
    }
}

/// Whether nothing is under way on any link.
pub(crate) fn are_quiet(links: &[Link]) -> bool
    ensures { result ≡ list_all is_quiet_link (as_links links.now) }
{
    for link in links {
        if !link.is_quiet() {
            return false;
        }
    }
    true
}

/// Whether a disconnect is coming to the side on the link.
pub(crate) fn is_disconnect_coming(links: &[Link], side: Side, index: usize) -> bool
    ensures { result ≡ is_coming_at (as_side side) (slice_get (as_links links.now) index) }
{
    match links.get(index) {
        Some(link) => match link.direction_to(side).disconnect_mark() {
            Mark::Coming => true,
            _ => false,
        },
        None => false,
    }
}
