//! A link: what a connection is to both sides.
ghost use Rattle.std.specs.Prelude.{◌≡◌, ◌+◌, ◌<◌, ◌≤◌, [], length, OnOk, OnErr};
ghost use Rattle.dm_framer.specs.Frames.{IsFrame};
ghost use Rattle.dm_peer.specs.Events.{event_told};
ghost use Rattle.dm_two_peers.specs.Facts.{is_pending};
ghost use Rattle.dm_two_peers.specs.Happens.{take_part, lost_link, own_view};
ghost use Rattle.dm_two_peers.specs.Links.{new_link, opens, by_side};
ghost use Rattle.dm_two_peers.specs.Machine.{MakesLink, EndsLink, HeardOnLink};
ghost use Rattle.dm_two_peers.specs.Quiet.{is_quiet_link};
ghost use Rattle.dm_two_peers.specs.Steps.{with_sent, with_close, entered, settled_view};
ghost use Rattle.dm_world.specs.Fed.{holding};
ghost use Rattle.dm_world.specs.Next.{next_to, octets_to_come_to, is_past_loss};
ghost use Rattle.dm_world.specs.Seen.{as_side, as_end, as_link, out_room, restart_link};
ghost use Rattle.dm_world.specs.Telling.{FramerFits, concern_in};
ghost use Rattle.dm_wire.specs.Codes.{max_message_len};

use crate::Side;
use crate::direction::{Direction, Next};
use dm_dict::NoMemory;
use dm_framer::Framer;
use dm_peer::Event;
use dm_wire::Octets;
use std::alloc::{AllocError, Global};

/// How far a link has come.
#[derive(Clone, Copy)]
pub(crate) enum Phase {
    /// Its connect is pending.
    Pending,
    /// It is up.
    Up,
    /// It is cancelled.
    Cancelled,
}

/// An end of a link that is up.
#[derive(Clone, Copy)]
pub(crate) enum End {
    /// No message came yet.
    Fresh,
    /// It is open.
    Open,
    /// It is shut. So is written too what is no end yet, or never was.
    Shut,
}

/// A link: its two ends, the end of its opener and the other one, and a direction to each.
#[derive(Drop)]
pub(crate) struct Link {
    pub(crate) opener: Side,
    pub(crate) phase: Phase,
    opener_end: End,
    other_end: End,
    to_opener: Direction,
    to_other: Direction,
}

impl Link {
    /// A link whose connect is pending.
    pub(crate) fn new(alloc: Global, opener: Side) -> Link
        ensures { as_link result ≡ new_link (as_side opener) }
    {
        Link {
            opener,
            phase: Phase::Pending,
            opener_end: End::Shut,
            other_end: End::Shut,
            to_opener: Direction::new(alloc),
            to_other: Direction::new(alloc),
        }
    }

    /// Whether the side opened the link.
    fn is_opener(&self, side: Side) -> bool
        ensures { result ≡ opens (as_side side) (as_side self.now.opener) }
    {
        match (side, self.opener) {
            (Side::A, Side::A) | (Side::B, Side::B) => true,
            _ => false,
        }
    }

    /// Makes room for so many messages that the side sends.
    pub(crate) fn reserve(&mut self, side: Side, count: usize) -> Result<(), AllocError>
        ensures same { as_link self.new ≡ as_link self.old }
        ensures room { OnOk result (count ≤ out_room (as_side side) self.new) }
        ensures kept { out_room (as_side side) self.old ≤ out_room (as_side side) self.new }
    {
        if self.is_opener(side) {
            self.to_other.reserve(count)
        } else {
            self.to_opener.reserve(count)
        }
    }

    /// The side sends a message, which goes nowhere where the link isn't up.
    pub(crate) fn send_message(&mut self, side: Side, message: Octets)
        requires room { 0 < out_room (as_side side) self.old }
        requires frame { IsFrame max_message_len message }
        ensures said { as_link self.new ≡ by_side (as_side side) (with_sent message) (as_link self.old) }
        ensures room { out_room (as_side side) self.old ≤ out_room (as_side side) self.new + 1 }
    {
        let mine = self.is_opener(side);
        match (self.phase, mine) {
            (Phase::Up, true) => self.to_other.add_message_unless_disconnected(message),
            (Phase::Up, false) => self.to_opener.add_message_unless_disconnected(message),
            _ => {}
        }
    }

    /// The side closes the link.
    pub(crate) fn close(&mut self, side: Side)
        ensures closed { as_link self.new ≡ by_side (as_side side) with_close (as_link self.old) }
        ensures room { out_room (as_side side) self.old ≤ out_room (as_side side) self.new }
    {
        let mine = self.is_opener(side);
        match (self.phase, mine) {
            (Phase::Up, true) => {
                self.opener_end = End::Shut;
                self.to_other.add_disconnect();
            }
            (Phase::Up, false) => {
                self.other_end = End::Shut;
                self.to_opener.add_disconnect();
            }
            (Phase::Pending, _) => self.phase = Phase::Cancelled,
            _ => {}
        }
    }

    /// The end of the side.
    pub(crate) fn own_end(&self, side: Side) -> End
        ensures { as_end result ≡ (own_view (as_side side) (as_link self.now)).own }
    {
        if self.is_opener(side) {
            self.opener_end
        } else {
            self.other_end
        }
    }

    /// The direction towards the side.
    pub(crate) fn direction_to(&self, side: Side) -> &Direction
        ensures { result.now.direction ≡ (own_view (as_side side) (as_link self.now)).incoming }
    {
        if self.is_opener(side) {
            &self.to_opener
        } else {
            &self.to_other
        }
    }

    /// So many octets of the front message come to the side, and not its last. Where memory is wanted, nothing changes.
    pub(crate) fn deliver_octets_to(&mut self, side: Side, count: usize) -> Result<(), NoMemory>
        requires { count < octets_to_come_to (as_side side) (as_link self.old) }
        ensures taken { OnOk result (as_link self.new ≡ by_side (as_side side) (take_part count) (as_link self.old)) }
        ensures unchanged { OnErr result (as_link self.new ≡ as_link self.old) }
    {
        if self.is_opener(side) {
            self.to_opener.deliver_octets(count)
        } else {
            self.to_other.deliver_octets(count)
        }
    }

    /// An event that names the link reaches the side's end of it. Where a message arrived the framer takes the place of
    /// the one that holds octets of it.
    #[tactic(auto, using(crate::proofs::Hearing::not_entered, crate::proofs::Hearing::not_started_on))]
    pub(crate) fn receive_event(&mut self, side: Side, event: Event<'_>, framer: Option<Framer>)
        requires { FramerFits (event_told event) framer }
        ensures entered { as_link self.new
            ≡ by_side (as_side side) (entered (concern_in (event_told event.entry))) (as_link self.old) }
        ensures room { out_room (as_side side) self.old ≤ out_room (as_side side) self.new }
    {
        match event {
            Event::Ack(_) => self.receive_ack(side),
            Event::Nack(_) => self.phase = Phase::Cancelled,
            Event::Gone(_) => self.receive_disconnect(side),
            Event::Arrived(_, _) => match framer {
                Some(framer) => self.receive_front_message(side, framer),
                None => unreachable!(),
            },
            _ => {}
        }
    }

    /// The connect came about: both ends are made, and that of the side, the opener, is open.
    fn receive_ack(&mut self, side: Side)
        ensures entered { as_link self.new ≡ by_side (as_side side) (entered MakesLink) (as_link self.old) }
        ensures room { out_room (as_side side) self.old ≤ out_room (as_side side) self.new }
    {
        self.phase = Phase::Up;
        if self.is_opener(side) {
            self.opener_end = End::Open;
            self.other_end = End::Fresh;
        } else {
            self.other_end = End::Open;
            self.opener_end = End::Fresh;
        }
    }

    /// The front message comes to the side. The framer takes the place of the one that holds octets of it.
    fn receive_front_message(&mut self, side: Side, framer: Framer)
        requires { framer ≡ holding [] }
        ensures entered { as_link self.new ≡ by_side (as_side side) (entered HeardOnLink) (as_link self.old) }
        ensures room { out_room (as_side side) self.old ≤ out_room (as_side side) self.new }
    {
        if self.is_opener(side) {
            self.to_opener.remove_front_message(framer);
        } else {
            self.to_other.remove_front_message(framer);
        }
    }

    /// The disconnect comes to the side: its end is shut. Where that was fresh, a disconnect goes back.
    fn receive_disconnect(&mut self, side: Side)
        ensures entered { as_link self.new ≡ by_side (as_side side) (entered EndsLink) (as_link self.old) }
        ensures room { out_room (as_side side) self.old ≤ out_room (as_side side) self.new }
    {
        let mine = self.is_opener(side);
        if mine {
            self.to_opener.deliver_disconnect();
            if let End::Fresh = self.opener_end {
                self.to_other.add_disconnect();
            }
            self.opener_end = End::Shut;
        } else {
            self.to_other.deliver_disconnect();
            if let End::Fresh = self.other_end {
                self.to_opener.add_disconnect();
            }
            self.other_end = End::Shut;
        }
    }

    /// A fresh end that was heard on is open where its peer holds the link, else shut: fresh it doesn't stay.
    pub(crate) fn open_or_shut_fresh_end(&mut self, side: Side, holds: bool)
        ensures { as_link self.new ≡ by_side (as_side side) (settled_view HeardOnLink holds) (as_link self.old) }
    {
        let settled = if holds { End::Open } else { End::Shut };
        let mine = self.is_opener(side);
        match (mine, self.opener_end, self.other_end) {
            (true, End::Fresh, _) => self.opener_end = settled,
            (false, _, End::Fresh) => self.other_end = settled,
            _ => {}
        }
    }

    /// The link is lost: of the messages to come towards A and towards B those stay that lie wholly in so many first
    /// octets of them.
    pub(crate) fn lose_messages_beyond_octets(&mut self, to_a: u32, to_b: u32)
        ensures { as_link self.new ≡ lost_link length to_a to_b (as_link self.old) }
    {
        match self.opener {
            Side::A => {
                self.to_opener.lose_messages_beyond_octets(to_a);
                self.to_other.lose_messages_beyond_octets(to_b);
            }
            Side::B => {
                self.to_opener.lose_messages_beyond_octets(to_b);
                self.to_other.lose_messages_beyond_octets(to_a);
            }
        }
    }

    /// The side starts anew: it closes the link, and cancels a connect that it asked for; one that the other side asked
    /// for stays pending.
    pub(crate) fn close_unless_other_is_connecting(&mut self, side: Side)
        ensures { as_link self.new ≡ restart_link (as_side side) (as_link self.old) }
    {
        let mine = self.is_opener(side);
        match (self.phase, mine) {
            (Phase::Pending, false) => {}
            _ => self.close(side),
        }
    }

    /// Whether nothing is under way: the link isn't pending, and both directions are still.
    pub(crate) fn is_quiet(&self) -> bool
        ensures { result ≡ is_quiet_link (as_link self.now) }
    {
        match self.phase {
            Phase::Pending => false,
            _ => self.to_opener.is_quiet() && self.to_other.is_quiet(),
        }
    }

    /// What comes next to the side.
    pub(crate) fn coming_next_to(&self, side: Side) -> Next
        ensures { result ≡ next_to (as_side side) (as_link self.now) }
    {
        match self.phase {
            Phase::Up => self.direction_to(side).coming_next(),
            _ => Next::Nothing,
        }
    }

    /// Whether a loss changes nothing: the link isn't up, or both ends are shut.
    pub(crate) fn ignores_loss(&self) -> bool
        ensures { result ≡ is_past_loss (as_link self.now) }
    {
        match (self.phase, self.opener_end, self.other_end) {
            (Phase::Up, End::Fresh | End::Open, _) | (Phase::Up, _, End::Fresh | End::Open) =>
                false,
            _ => true,
        }
    }

    /// Whether its connect is pending.
    pub(crate) fn is_pending(&self) -> bool
        ensures { result ≡ is_pending (as_link self.now).phase }
    {
        match self.phase {
            Phase::Pending => true,
            _ => false,
        }
    }
}
