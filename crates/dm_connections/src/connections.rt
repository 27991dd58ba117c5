//! Connections by their ends.
ghost use Rattle.std.specs.Prelude.{◌≡◌, ◌⊎◌, ◌↔◌, ◌<◌, ◌-◌, ◌^◌, ◌++◌, ◌∷◌, [], min, length, None, true};
ghost use Rattle.std.specs.Prelude.{IsTrue, OnOk, OnErr, IfOk, IfSome, IfNone, option_map, option_copied};
ghost use Rattle.dm_connections.specs.declared.ends.Ends.{Ends};
ghost use Rattle.dm_connections.specs.Choices.{WantsBetween};
ghost use Rattle.dm_connections.specs.Held.{connection_of, holds_ends, found_ends, with_newest, with_one, all_octets};
ghost use Rattle.dm_connections.specs.Held.{ConnectionGoesOn, OneWayGoesOn, HasPlaceBetween, HasNoPlaceBetween};
ghost use Rattle.dm_connections.specs.Held.{SentGoesIn};

use crate::choice::{Choice, is_connection_wanted};
use crate::ends::Ends;
use crate::limits::Limits;
use crate::octet_sum::{next_message_keeping_sum, sum_with_part_replaced, take_sent_keeping_sum};
use crate::table_traits::{Takes, TwoWay};
use dm_flows::{Connection, Endpoint};
use lru::LruCache;
use std::alloc::{AllocError, Global};
use std::hash::RandomState;
use std::marker::Model;

/// A connection that was let go: its ends, and the connection as it was, which tells how many of its octets were passed
/// over and how many are lost with it: [`Connection::octets_passed_over_both_ways`] and
/// [`Connection::octets_held_that_came_both_ways`], say.
#[derive(Debug, Drop)]
pub struct LetGo<C = Connection> {
    pub ends: Ends,
    pub connection: C,
}

/// The connections that are held, by their ends: those of TCP, if nothing else is said.
///
/// A contract sees them in the order in which they were heard, the one that was heard last first. One is found by a
/// hash under keys that nobody knows who chooses ports and addresses, so each call takes a constant number of steps
/// beside those of the connection itself, however many are held.
#[derive(Debug, Drop)]
pub struct Connections<C: TwoWay = Connection> {
    alloc: Global,
    max: u32,
    held: LruCache<Ends, C, RandomState>,
    /// How many octets they hold in all.
    octets: u128,
}

impl<C: TwoWay> Model for Connections<C> {
    ghost use Rattle.dm_connections.specs.Held.{HeldTable, AreSummed};

    ghost Value = { HeldTable C };

    ghost view = { λ c. record { max = c.max; held = c.held.entries } };

    ghost invariant = { λ c. AreSummed C.held_in c.octets c.held.cap c.held.entries };
}

#[tactic(auto, using(crate::proofs::Sums::last_cut, crate::proofs::Sums::no_last))]
/// Takes out the last of the connections, which was idle longest, with its ends; None where none is held.
fn pop_idlest<C: TwoWay>(held: &mut LruCache<Ends, C, RandomState>) -> Option<(Ends, C)>
    ensures last { IfSome result (λ entry. held.old.entries ≡ held.new.entries ++ entry ∷ []) }
    ensures none { IfNone result ((held.old.entries ≡ []) × (held.new.entries ≡ [])) }
    ensures cap { held.new.cap ≡ held.old.cap }
{
    held.pop_lru()
}

impl<C: TwoWay> Connections<C> {
    /// No connections, for messages of at most `max` octets. Their hashes go by these keys.
    pub fn new(alloc: Global, keys: RandomState, max: u32) -> Result<Connections<C>, AllocError>
        ensures { IfOk result (λ connections. connections ≡ record { max = max; held = [] }) }
    {
        let held = LruCache::unbounded_with_hasher(alloc, keys)?;
        Ok(Connections {
            alloc,
            max,
            held,
            octets: 0,
        })
    }

    /// How many connections are held. It never answers want of memory.
    pub fn len(&self) -> usize
        ensures { result ≡ length self.now.held }
    {
        self.held.len()
    }

    /// How many octets the connections hold in all, as [`TwoWay::octets_held`] counts them, up to 2^64 - 1. It takes
    /// one step, and never answers want of memory.
    pub fn total_octets_held(&self) -> u64
        ensures { result ≡ min (all_octets C.held_in self.now.held) (2 ^ 64 - 1) }
    {
        if self.octets < u64::MAX as u128 {
            self.octets as u64
        } else {
            u64::MAX
        }
    }

    /// Whether more connections are held than may be, or more octets. It never answers want of memory.
    pub fn exceeds(&self, limits: Limits) -> bool
        ensures { IsTrue result
            ↔ (limits.connections < length self.now.held) ⊎ (limits.octets < all_octets C.held_in self.now.held) }
    {
        limits.connections < self.held.len() || (limits.octets as u128) < self.octets
    }

    /// Whether a connection of these ends is held, in this order.
    fn holds_in_this_order(&self, ends: Ends) -> bool
        ensures { result ≡ holds_ends self.now.held ends }
    {
        self.held.contains(&ends)
    }

    /// The ends of the connection of two, if it is held: in that order, or else in the other one; None where it isn't.
    /// It never answers want of memory.
    pub fn find_held_ends(&self, source: Endpoint, destination: Endpoint) -> Option<Ends>
        ensures { result ≡ found_ends self.now.held source destination }
    {
        let forth = Ends {
            first: source,
            second: destination,
        };
        if self.holds_in_this_order(forth) {
            return Some(forth);
        }
        let back = Ends {
            first: destination,
            second: source,
        };
        if self.holds_in_this_order(back) {
            Some(back)
        } else {
            None
        }
    }

    /// The connection of these ends; None where none is held. It never answers want of memory.
    pub fn get(&self, ends: Ends) -> Option<&C>
        ensures { option_copied result ≡ connection_of self.now.held ends }
    {
        self.held.peek(&ends)
    }

    /// How many octets of the connection of these ends were passed over so far, as [`TwoWay::octets_passed_over`]
    /// counts them; None where none is held. It never answers want of memory.
    pub fn octets_passed_over_of(&self, ends: Ends) -> Option<u64>
        ensures { result ≡ option_map C.passed_in (connection_of self.now.held ends) }
    {
        match self.held.peek(&ends) {
            Some(connection) => Some(connection.octets_passed_over()),
            None => None,
        }
    }

    /// Holds a new connection of these ends, of which none is held. Where memory is wanted nothing changes.
    fn hold_new_connection(&mut self, ends: Ends) -> Result<(), AllocError>
        requires { connection_of self.old.held ends ≡ None }
        ensures put { OnOk result
            (self.new ≡ record self.old { held = with_newest C.new_of self.old.max ends self.old.held }) }
        ensures unchanged { OnErr result (self.new ≡ self.old) }
    {
        // Asked for its clause: fewer than 2^63 are held.
        let _count = self.held.len();
        let connection = C::new_between(self.alloc, ends, self.max);
        match self.held.put(ends, connection) {
            Ok(_) => Ok(()),
            Err(_) => Err(AllocError),
        }
    }

    /// Holds a connection of these ends: the one that is held, in whichever order of them, or else a new one. Where
    /// memory is wanted nothing changes.
    pub fn add_unless_held(&mut self, ends: Ends) -> Result<(), AllocError>
        ensures added { OnOk result
            (self.new ≡ record self.old { held = with_one C.new_of self.old.max ends self.old.held }) }
        ensures unchanged { OnErr result (self.new ≡ self.old) }
    {
        match self.find_held_ends(ends.first, ends.second) {
            Some(_) => Ok(()),
            None => self.hold_new_connection(ends),
        }
    }

    /// The connection of these ends takes what one of them sent, as [`Takes::take_sent`] does; where none is held in
    /// this order nothing changes. Where memory is wanted the connection was heard, and is left as that call leaves it.
    pub fn take_if_held_in_this_order<S: Copy>(
        &mut self,
        ends: Ends,
        sent: S,
    ) -> Result<(), AllocError>
    where
        C: Takes<S>,
        ensures heard { OnOk result (holds_ends self.old.held ends ≡ true
            → ConnectionGoesOn self.old.held ends self.new.held (λ before after. C.TakesSent before sent after)) }
        ensures none { connection_of self.old.held ends ≡ None → self.new ≡ self.old }
        ensures left { OnErr result (ConnectionGoesOn self.old.held ends self.new.held
            (λ before after. C.LeavesSent before sent after)) }
        ensures max { self.new.max ≡ self.old.max }
    {
        // Asked for its clause: fewer than 2^63 are held.
        let _count = self.held.len();
        match self.held.get_mut(&ends) {
            Some(connection) => take_sent_keeping_sum(connection, &mut self.octets, sent),
            None => Ok(()),
        }
    }

    /// Hands out the next whole message of the connection of these ends, from its first end or else from its second
    /// one, as [`TwoWay::next_message`] does; None too where no such connection is held. Where memory is wanted nothing
    /// changes.
    pub fn next_message_of(
        &mut self,
        ends: Ends,
        from_first: bool,
    ) -> Result<Option<Vec<u8>>, AllocError>
        ensures message { IfOk result (λ found. IfSome found
            (λ message. OneWayGoesOn C.one_way C.with_way self.old.held ends from_first self.new.held
            (λ before after. C.Hands before message.items after))) }
        ensures none { IfOk result (λ found. IfNone found
            (((connection_of self.old.held ends ≡ None) × (self.new ≡ self.old))
            ⊎ OneWayGoesOn C.one_way C.with_way self.old.held ends from_first self.new.held C.HandsNone)) }
        ensures unchanged { OnErr result (self.new ≡ self.old) }
        ensures max { self.new.max ≡ self.old.max }
    {
        // Asked for its clause: fewer than 2^63 are held.
        let _count = self.held.len();
        match self.held.peek_mut(&ends) {
            Some(connection) => next_message_keeping_sum(connection, &mut self.octets, from_first),
            None => Ok(None),
        }
    }

    #[tactic(auto, using(crate::proofs::Sums::sum_append))]
    /// Lets the connection go that was idle longest, with all that it holds; None where none is held. It never answers
    /// want of memory.
    pub fn let_idlest_go(&mut self) -> Option<LetGo<C>>
        ensures last { IfSome result
            (λ gone. self.old.held ≡ self.new.held ++ (gone.ends, gone.connection) ∷ []) }
        ensures none { IfNone result ((self.old.held ≡ []) × (self.new ≡ self.old)) }
        ensures max { self.new.max ≡ self.old.max }
    {
        match pop_idlest(&mut self.held) {
            Some((ends, connection)) => {
                self.octets = sum_with_part_replaced(self.octets, connection.octets_held(), 0);
                Some(LetGo { ends, connection })
            }
            None => None,
        }
    }

    /// The ends of the connection of what is sent: of the one that is held, or of a new one where it is wanted, which
    /// is held from here on; else None. Where memory is wanted nothing changes.
    fn find_or_hold_wanted<S: Copy>(
        &mut self,
        choice: Choice<'_>,
        sent: S,
    ) -> Result<Option<Ends>, AllocError>
    where
        C: Takes<S>,
        ensures place { IfOk result (λ found. IfSome found (λ ends.
            HasPlaceBetween C.new_of self.old.held self.old.max (C.between sent)
            (WantsBetween choice.entry (C.between sent) (C.BeginsExchange sent)) ends self.new.held)) }
        ensures held { IfOk result (λ found. IfSome found (λ ends. holds_ends self.new.held ends ≡ true)) }
        ensures none { IfOk result (λ found. IfNone found (HasNoPlaceBetween self.old.held (C.between sent)
            (WantsBetween choice.entry (C.between sent) (C.BeginsExchange sent)) × (self.new ≡ self.old))) }
        ensures unchanged { OnErr result (self.new ≡ self.old) }
        ensures max { self.new.max ≡ self.old.max }
    {
        let ends = C::sender_and_receiver_of(sent);
        if let Some(ends) = self.find_held_ends(ends.first, ends.second) {
            return Ok(Some(ends));
        }
        if !is_connection_wanted::<S, C>(choice, sent) {
            return Ok(None);
        }
        match self.hold_new_connection(ends) {
            Ok(()) => Ok(Some(ends)),
            Err(error) => Err(error),
        }
    }

    /// The connection of what is sent takes it: the one that is held, or a new one where it is wanted. Answers its
    /// ends, or None where it is neither held nor wanted.
    ///
    /// Where memory is wanted either nothing changed, or the connection is held, a new one too, was heard, and is left
    /// as [`Takes::take_sent`] leaves it.
    pub fn take_if_held_or_wanted<S: Copy>(
        &mut self,
        choice: Choice<'_>,
        sent: S,
    ) -> Result<Option<Ends>, AllocError>
    where
        C: Takes<S>,
        ensures taken { IfOk result (λ found. IfSome found (λ ends.
            SentGoesIn C.new_of self.old.held self.old.max (C.between sent)
            (WantsBetween choice.entry (C.between sent) (C.BeginsExchange sent)) ends self.new.held
            (λ before after. C.TakesSent before sent after))) }
        ensures none { IfOk result (λ found. IfNone found (HasNoPlaceBetween self.old.held (C.between sent)
            (WantsBetween choice.entry (C.between sent) (C.BeginsExchange sent)) × (self.new ≡ self.old))) }
        ensures left { OnErr result ((self.new ≡ self.old) ⊎ ((ends : Ends) ×
            SentGoesIn C.new_of self.old.held self.old.max (C.between sent)
            (WantsBetween choice.entry (C.between sent) (C.BeginsExchange sent)) ends self.new.held
            (λ before after. C.LeavesSent before sent after))) }
        ensures max { self.new.max ≡ self.old.max }
    {
        match self.find_or_hold_wanted(choice, sent) {
            Ok(Some(ends)) => match self.take_if_held_in_this_order(ends, sent) {
                Ok(()) => Ok(Some(ends)),
                Err(error) => Err(error),
            },
            Ok(None) => Ok(None),
            Err(error) => Err(error),
        }
    }
}
