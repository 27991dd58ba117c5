//! One direction of a link: what was sent and not delivered, in order, with the framer that is fed it, and the
//! disconnect behind it.
ghost use Rattle.std.specs.Prelude.{◌≡◌, ◌+◌, ◌<◌, ◌≤◌, [], length, take, slice_get};
ghost use Rattle.std.specs.Prelude.{IfOk, IfErr, IfSome, OnOk, OnErr, option_map};
ghost use Rattle.dm_framer.specs.declared.fault.FrameFault.{FrameFault};
ghost use Rattle.dm_framer.specs.Frames.{IsFrame};
ghost use Rattle.dm_two_peers.specs.Happens.{whole_in, lost, next_in};
ghost use Rattle.dm_two_peers.specs.Links.{empty_direction};
ghost use Rattle.dm_two_peers.specs.Quiet.{is_still};
ghost use Rattle.dm_two_peers.specs.Steps.{without_front};
ghost use Rattle.dm_world.specs.Fed.{holding, octets_to_come};
ghost use Rattle.dm_world.specs.Next.{next_kind};
ghost use Rattle.dm_world.specs.Ways.{with_message, with_disconnect, with_taken, as_mark};
ghost use Rattle.dm_world.specs.Ways.{with_disconnect_delivered};
ghost use Rattle.dm_wire.specs.Codes.{max_message_len};

use dm_dict::NoMemory;
use dm_framer::laws::frames_in_a_row_stay_themselves;
use dm_framer::{FrameFault, Framer};
use dm_wire::Octets;
use dm_wire::codes::limits::MAX_MESSAGE_LEN;
use std::alloc::{AllocError, Global};
use std::collections::VecDeque;
use std::marker::Model;

/// Whether a disconnect is in a direction.
#[derive(Clone, Copy)]
pub(crate) enum Mark {
    /// None is in.
    Absent,
    /// One is in, and comes behind the messages.
    Coming,
    /// One was in, and was delivered.
    Delivered,
}

/// What comes next in a direction.
#[derive(Clone, Copy)]
pub(crate) enum Next {
    /// A message.
    Message,
    /// The disconnect.
    Disconnect,
    /// Nothing.
    Nothing,
}

/// One direction of a link: the messages as they were sent, and a framer with the octets of the front one that were
/// delivered, so many.
#[derive(Drop)]
pub(crate) struct Direction {
    queue: VecDeque<Octets>,
    framer: Framer,
    taken: usize,
    mark: Mark,
}

/// A message that a framer handed out, and the framer as it stands then.
#[derive(Drop)]
pub(crate) struct Handed {
    pub(crate) message: Vec<u8>,
    pub(crate) framer: Framer,
}

impl Model for Direction {
    ghost use Rattle.dm_world.specs.Way.{Way};

    ghost Value = { Way };

    ghost use Rattle.dm_world.specs.WayOf.{way_of, IsFedWay};

    ghost view = { way_of };

    ghost invariant = { IsFedWay };
}

/// A framer that holds nothing, for messages of any size. It never answers want of memory.
pub(crate) fn empty_framer(alloc: Global) -> Framer
    ensures { result ≡ holding [] }
{
    Framer::new(alloc, MAX_MESSAGE_LEN)
}

/// The message that a framer hands out which is fed the rest of it, behind the first octets that it holds. The framer
/// that is handed in stays as it is.
fn frame_rest_in_copy(framer: &Framer, message: &[u8], taken: usize) -> Result<Handed, FrameFault>
    requires frame { IsFrame max_message_len message.now }
    requires within { taken ≤ length message.now }
    requires held { framer.now ≡ holding (take taken message.now) }
    ensures message { IfOk result (λ handed. handed.message.items ≡ message.now) }
    ensures framer { IfOk result (λ handed. handed.framer ≡ holding []) }
    ensures memory { IfErr result (λ fault. fault ≡ FrameFault.NoMemory) }
{
    frames_in_a_row_stay_themselves();
    let mut framer = framer.copy()?;
    framer.feed(&message[taken..])?;
    match framer.next()? {
        Some(message) => Ok(Handed { message, framer }),
        None => unreachable!(),
    }
}

/// The front message; None where there is none.
fn front_message(queue: &VecDeque<Octets>) -> Option<&[u8]>
    ensures { option_map (λ octets. octets.now) result ≡ slice_get queue.now.items 0 }
{
    match queue.front() {
        Some(message) => Some(message.as_slice()),
        None => None,
    }
}

/// How many of the messages lie wholly in so many first octets.
fn count_whole_messages(queue: &VecDeque<Octets>, kept: usize) -> usize
    ensures { take result queue.now.items ≡ whole_in length kept queue.now.items }
{
    let mut rest = kept;
    for index in 0..queue.len() {
        let size = queue[index].as_slice().len();
        if size > rest {
            return index;
        }
        rest -= size;
    }
    queue.len()
}

impl Direction {
    /// Nothing was sent.
    pub(crate) fn new(alloc: Global) -> Direction
        ensures { result.direction ≡ empty_direction }
    {
        Direction {
            queue: VecDeque::new(alloc),
            framer: empty_framer(alloc),
            taken: 0,
            mark: Mark::Absent,
        }
    }

    /// Makes room for so many more messages.
    pub(crate) fn reserve(&mut self, count: usize) -> Result<(), AllocError>
        ensures same { self.new.direction ≡ self.old.direction }
        ensures room { OnOk result (count ≤ self.new.room) }
        ensures kept { self.old.room ≤ self.new.room }
    {
        self.queue.reserve(count)
    }

    /// Puts a message in behind the others. Where the disconnect is in, it goes nowhere.
    pub(crate) fn add_message_unless_disconnected(&mut self, message: Octets)
        requires room { 0 < self.old.room }
        requires frame { IsFrame max_message_len message }
        ensures put { self.new.direction ≡ with_message message self.old.direction }
        ensures room { self.old.room ≤ self.new.room + 1 }
    {
        match self.mark {
            Mark::Absent => self.queue.push_back_reserved(message),
            _ => {}
        }
    }

    /// Puts a disconnect in behind what was sent, where none is in.
    pub(crate) fn add_disconnect(&mut self)
        ensures put { self.new.direction ≡ with_disconnect self.old.direction }
        ensures room { self.new.room ≡ self.old.room }
    {
        match self.mark {
            Mark::Absent => self.mark = Mark::Coming,
            _ => {}
        }
    }

    /// The front message, as a framer hands it out which was fed the octets that were delivered, and then the rest;
    /// None where there is none. The direction stays as it is.
    pub(crate) fn copy_front_message(&self) -> Result<Option<Handed>, NoMemory>
        ensures message { IfOk result (λ found.
            option_map (λ handed. handed.message.items) found ≡ slice_get self.now.direction.messages 0) }
        ensures framer { IfOk result (λ found. IfSome found (λ handed. handed.framer ≡ holding [])) }
    {
        let message = match front_message(&self.queue) {
            Some(message) => message,
            None => return Ok(None),
        };
        match frame_rest_in_copy(&self.framer, message, self.taken) {
            Ok(handed) => Ok(Some(handed)),
            Err(FrameFault::NoMemory) => Err(NoMemory),
            Err(_) => unreachable!(),
        }
    }

    /// Takes the front message away, with its octets that were delivered. The framer takes the place of the one that
    /// holds them.
    pub(crate) fn remove_front_message(&mut self, framer: Framer)
        requires { framer ≡ holding [] }
        ensures taken { self.new.direction ≡ without_front self.old.direction }
        ensures room { self.old.room ≤ self.new.room }
    {
        let _front = self.queue.pop_front();
        self.framer = framer;
        self.taken = 0;
    }

    /// How many octets of the front message are still to come; 0 where there is none.
    pub(crate) fn front_octets_left(&self) -> usize
        ensures { result ≡ octets_to_come self.now.direction.messages self.now.direction.taken }
    {
        match front_message(&self.queue) {
            Some(message) => message.len() - self.taken,
            None => 0,
        }
    }

    /// Delivers so many octets of the front message, and not its last: they go to the framer. Where memory is wanted,
    /// nothing changes.
    pub(crate) fn deliver_octets(&mut self, count: usize) -> Result<(), NoMemory>
        requires { count < octets_to_come self.old.direction.messages self.old.direction.taken }
        ensures taken { OnOk result (self.new.direction ≡ with_taken count self.old.direction) }
        ensures unchanged { OnErr result (self.new.direction ≡ self.old.direction) }
    {
        let end = self.taken + count;
        match front_message(&self.queue) {
            Some(message) => match self.framer.feed(&message[self.taken..end]) {
                Ok(()) => {
                    self.taken = end;
                    Ok(())
                }
                Err(FrameFault::NoMemory) => Err(NoMemory),
                Err(_) => unreachable!(),
            },
            None => unreachable!(),
        }
    }

    /// The disconnect was delivered.
    pub(crate) fn deliver_disconnect(&mut self)
        ensures delivered { self.new.direction ≡ with_disconnect_delivered self.old.direction }
        ensures room { self.new.room ≡ self.old.room }
    {
        self.mark = Mark::Delivered;
    }

    /// Keeps the messages that lie wholly in so many of the octets to come, and puts a disconnect behind them. A front
    /// message that goes takes its octets with it that were delivered. Where the disconnect was delivered, nothing
    /// changes.
    pub(crate) fn lose_messages_beyond_octets(&mut self, kept: u32)
        ensures { self.new.direction ≡ lost length kept self.old.direction }
    {
        match self.mark {
            Mark::Delivered => {}
            _ => {
                let count = count_whole_messages(&self.queue, kept as usize + self.taken);
                self.queue.truncate(count);
                if count == 0 {
                    self.framer = empty_framer(*self.queue.allocator());
                    self.taken = 0;
                }
                self.mark = Mark::Coming;
            }
        }
    }

    /// Whether a disconnect is in, was delivered, or neither.
    pub(crate) fn disconnect_mark(&self) -> Mark
        ensures { as_mark result ≡ self.now.direction.mark }
    {
        self.mark
    }

    /// What comes next.
    pub(crate) fn coming_next(&self) -> Next
        ensures { result ≡ next_kind (next_in self.now.direction.messages self.now.direction.mark) }
    {
        match (self.queue.is_empty(), self.mark) {
            (false, _) => Next::Message,
            (true, Mark::Coming) => Next::Disconnect,
            _ => Next::Nothing,
        }
    }

    /// Whether nothing is under way: no message, and no disconnect.
    pub(crate) fn is_quiet(&self) -> bool
        ensures { result ≡ is_still self.now.direction }
    {
        match self.mark {
            Mark::Coming => false,
            _ => self.queue.is_empty(),
        }
    }
}
