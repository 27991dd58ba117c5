//! One direction of a connection: octets by number, handed out in order (RFC 9293, 3.4).
ghost use Rattle.std.specs.Prelude.{◌≡◌, ◌≤◌, ◌++◌, [], length, None, IfErr, OnOk, OnErr};
ghost use Rattle.dm_flows.specs.Windows.{slot, known_octets, place_ahead, passed_of, lies_far_behind, arrival_from};
ghost use Rattle.dm_flows.specs.Windows.{IsTooFar, TakesOctets, HandsTo, HandsStraight, TakesThrough, LeavesThrough};
ghost use Rattle.dm_flows.specs.Windows.{sequence_behind};

use crate::octet_slices::without_first_octets;
use crate::slots::{count_filled_slots, fill_empty_slots, grow_slots};
use std::alloc::{AllocError, Global};
use std::collections::VecDeque;
use std::marker::Model;
use thiserror::Error;

/// The most octets that wait, from the next one on.
pub const WINDOW: usize = 1_048_576;

/// Half of the sequence numbers.
const HALF: u32 = 2_147_483_648;

/// How many sequence numbers there are.
const ALL_NUMBERS: usize = 4_294_967_296;

/// Why octets aren't taken.
#[derive(Clone, Copy, Debug, PartialEq, Eq, Error)]
pub enum WindowFault {
    /// They reach further ahead than may be held.
    #[error("too far ahead")]
    TooFar,
    /// A growth was refused.
    #[error("out of memory")]
    NoMemory,
}

/// What came of one direction of a connection and wasn't handed out.
///
/// A contract sees it as the sequence number of the next octet, and what came of the octets from it on.
#[derive(Debug, Drop)]
pub struct Window {
    next: u32,
    slots: VecDeque<Option<u8>>,
}

impl Model for Window {
    ghost use Rattle.std.specs.Prelude.{◌≤◌, length};
    ghost use Rattle.dm_flows.specs.Windows.{WindowState};

    ghost Value = { WindowState };

    ghost view = { λ w. record { next = w.next; held = w.slots.items } };

    ghost invariant = { λ w. length w.slots.items ≤ 1048576 };
}

/// Where octets stand: how many of them are before the next one, and how far behind it the others begin.
#[derive(Clone, Copy, Debug)]
struct Place {
    passed: usize,
    at: usize,
}

/// The place of octets whose first has this sequence number. Numbers are compared modulo 2^32.
fn place_of_sequence(next: u32, sequence: u32) -> Place
    ensures at { result.at ≡ place_ahead next sequence }
    ensures passed { result.passed ≡ passed_of next sequence }
{
    let ahead = sequence.wrapping_sub(next);
    if ahead < HALF {
        Place {
            passed: 0,
            at: ahead as usize,
        }
    } else {
        Place {
            passed: next.wrapping_sub(sequence) as usize,
            at: 0,
        }
    }
}

/// How many octets there are from the one with this sequence number up to the end, `fin`, which is a FIN's number; none
/// where that is before it. Numbers are compared modulo 2^32.
pub(crate) fn count_octets_before_fin(number: u32, fin: u32) -> usize
    ensures { result ≡ place_ahead number fin }
{
    let room = fin.wrapping_sub(number);
    if room < HALF { room as usize } else { 0 }
}

/// The sequence number behind so many octets, of which the first has this number.
pub(crate) fn sequence_number_behind(number: u32, octets: usize) -> u32
    ensures { result ≡ sequence_behind number octets }
{
    number.wrapping_add((octets % ALL_NUMBERS) as u32)
}

impl Window {
    /// Nothing came; the first octet will have this sequence number. It never answers want of memory.
    pub fn new(alloc: Global, next: u32) -> Window
        ensures { result ≡ record { next = next; held = [] } }
    {
        Window {
            next,
            slots: VecDeque::new(alloc),
        }
    }

    /// Takes octets whose first has this sequence number. Of each number what came first stays; what is before the next
    /// number was handed out, and is passed by. It refuses what reaches more than [`WINDOW`] octets ahead. An `Err`
    /// changes nothing.
    pub fn take_octets(&mut self, sequence: u32, octets: &[u8]) -> Result<(), WindowFault>
        ensures taken { OnOk result (TakesOctets self.old sequence octets.now self.new) }
        ensures err { OnErr result (self.new ≡ self.old) }
        ensures near { OnOk result (IsTooFar (arrival_from self.old.next sequence octets.now) → ⊥) }
        ensures far { IfErr result (λ fault. fault ≡ WindowFault.TooFar
            → IsTooFar (arrival_from self.old.next sequence octets.now)) }
    {
        let place = place_of_sequence(self.next, sequence);
        let fresh = without_first_octets(octets, place.passed);
        if fresh.is_empty() {
            return Ok(());
        }
        if WINDOW < fresh.len() || WINDOW - fresh.len() < place.at {
            return Err(WindowFault::TooFar);
        }
        if grow_slots(&mut self.slots, place.at + fresh.len()).is_err() {
            return Err(WindowFault::NoMemory);
        }
        fill_empty_slots(&mut self.slots, place.at, fresh);
        Ok(())
    }

    /// Whether octets, of which the first has this sequence number, begin more than [`WINDOW`] octets before the next
    /// one. It never answers want of memory.
    pub fn is_far_before_next(&self, sequence: u32) -> bool
        ensures { result ≡ lies_far_behind self.now.next sequence }
    {
        WINDOW < place_of_sequence(self.next, sequence).passed
    }

    /// How many octets there are from the next one to the last that waits. It never answers want of memory.
    pub fn span_to_last(&self) -> usize
        ensures { result ≡ length self.now.held }
    {
        self.slots.len()
    }

    /// How many octets wait. It never answers want of memory.
    pub fn octets_waiting(&self) -> usize
        ensures waiting { result ≡ known_octets self.now.held }
        ensures most { result ≤ 1048576 }
    {
        count_filled_slots(&self.slots)
    }

    /// The next octet, if it came.
    fn front_octet(&self) -> Option<u8>
        ensures { result ≡ slot self.now.held 0 }
    {
        match self.slots.front() {
            Some(octet) => *octet,
            None => None,
        }
    }

    /// Appends the octets that are whole up to the first that is missing. Where memory is wanted those before are
    /// appended, and the others stay.
    pub fn hand_out_octets(&mut self, output: &mut Vec<u8>) -> Result<(), AllocError>
        ensures handed { HandsTo self.old output.old.items self.new output.new.items }
        ensures all { OnOk result (slot self.new.held 0 ≡ None) }
    {
        'octets: while let Some(octet) = self.front_octet() {
            output.push(octet)?;
            let _ = self.slots.pop_front();
            self.next = self.next.wrapping_add(1);
        }
        Ok(())
    }
    /// Takes octets and hands out what is whole then, as `take_octets` and `hand_out_octets` do. Where nothing waits
    /// and the octets begin at the next number they go straight to the output.
    ///
    /// `TooFar` changes nothing. Where memory is wanted nothing changed, or the octets were taken, and those that are
    /// whole appended up to some.
    pub fn take_and_hand_out(
        &mut self,
        sequence: u32,
        octets: &[u8],
        output: &mut Vec<u8>,
    ) -> Result<(), WindowFault>
        ensures through { OnOk result
            (TakesThrough self.old sequence octets.now output.old.items self.new output.new.items) }
        ensures all { OnOk result (slot self.new.held 0 ≡ None) }
        ensures left { OnErr result
            (LeavesThrough self.old sequence octets.now output.old.items self.new output.new.items) }
        ensures near { OnOk result (IsTooFar (arrival_from self.old.next sequence octets.now) → ⊥) }
        ensures far { IfErr result (λ fault. fault ≡ WindowFault.TooFar → (self.new ≡ self.old)
            × (output.new.items ≡ output.old.items)
            × IsTooFar (arrival_from self.old.next sequence octets.now)) }
    {
        if self.slots.is_empty() && self.next == sequence && octets.len() <= WINDOW {
            return self.hand_octets_straight_on(octets, output);
        }
        match self.take_octets(sequence, octets) {
            Ok(()) => match self.hand_out_octets(output) {
                Ok(()) => Ok(()),
                Err(_) => Err(WindowFault::NoMemory),
            },
            Err(fault) => Err(fault),
        }
    }

    /// Appends octets that begin at the next number to the output, where nothing waits. Where memory is wanted nothing
    /// changes.
    fn hand_octets_straight_on(
        &mut self,
        octets: &[u8],
        output: &mut Vec<u8>,
    ) -> Result<(), WindowFault>
        requires none { self.old.held ≡ [] }
        requires most { length octets.now ≤ 1048576 }
        ensures passed { OnOk result (HandsStraight self.old octets.now self.new) }
        ensures put { OnOk result (output.new.items ≡ output.old.items ++ octets.now) }
        ensures err { OnErr result (self.new ≡ self.old) }
        ensures kept { OnErr result (output.new.items ≡ output.old.items) }
        ensures memory { IfErr result (λ fault. fault ≡ WindowFault.NoMemory) }
    {
        if octets.is_empty() {
            return Ok(());
        }
        if output.extend_from_slice(octets).is_err() {
            return Err(WindowFault::NoMemory);
        }
        self.next = self.next.wrapping_add(octets.len() as u32);
        Ok(())
    }
}
