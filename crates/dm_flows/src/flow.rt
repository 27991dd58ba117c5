//! One direction of a connection: Diameter messages out of its segments, by their sequence numbers.
ghost use Rattle.std.specs.Prelude.{◌≡◌, ◌≤◌, ◌⊎◌, ◌++◌, [], None, true, false, Ok, length};
ghost use Rattle.std.specs.Prelude.{OnOk, OnErr, IfOk, IfSome, IfNone};
ghost use Rattle.dm_flows.specs.Flows.{more_passed, known_waiting, stream_left, begun_by_syn, begun_by_header};
ghost use Rattle.dm_flows.specs.Flows.{known_span, held_octets, pending_octets};
ghost use Rattle.dm_flows.specs.Flows.{new_flow, begun_unseen, closing_by_fin, octets_within, IsAstrayAt, FlowTakes};
ghost use Rattle.dm_flows.specs.Flows.{BeginsAnew, TakesWithin, TakesPayload, LeavesPayload};
ghost use Rattle.dm_flows.specs.Flows.{HandsMessage, HandsNoMessage};

use crate::closing::Closing;
use crate::header::begins_with_whole_header;
use crate::octet_slices::first_octets;
use crate::window::{Window, WindowFault, count_octets_before_fin, sequence_number_behind};
use dm_framer::Framer;
use std::alloc::{AllocError, Global};
use std::marker::Model;

/// One direction of a connection: segments go in, Diameter messages come out.
///
/// Octets are taken by number, as [`Window`] does it, where the place in the stream is known: behind a SYN, or behind a
/// segment at whose front a header may stand. Where octets are further away than [`WINDOW`](crate::WINDOW), or what is
/// in order is no message, the stream is left: what waits is passed over, and a stream begins anew with the next
/// segment that has such a front.
#[derive(Debug, Drop)]
pub struct Flow {
    alloc: Global,
    syn: Option<u32>,
    closing: Closing,
    window: Option<Window>,
    framer: Framer,
    /// Octets in order behind those of the framer.
    fresh: Vec<u8>,
    passed: u64,
}

impl Model for Flow {
    ghost use Rattle.std.specs.Prelude.{◌≡◌, ◌++◌, None};
    ghost use Rattle.dm_flows.specs.Flows.{FlowState};

    ghost Value = { FlowState };

    ghost view = { λ f. record {
      syn = f.syn;
      closing = f.closing;
      window = f.window;
      ready = f.framer.octets ++ f.fresh.items;
      passed = f.passed;
      max = f.framer.max;
    } };

    ghost invariant = { λ f. f.framer.fault ≡ None };
}

/// The octets that were counted and so many more, 2^64 - 1 at most.
fn capped_octet_sum(passed: u64, octets: usize) -> u64
    ensures { result ≡ more_passed passed octets }
{
    passed.saturating_add(octets as u64)
}

/// The octets, the first of which has this number, up to the end of the direction: all where nothing ended it, none
/// behind a RST.
fn octets_before_end(closing: Closing, number: u32, octets: &[u8]) -> &[u8]
    ensures within { result.now ≡ octets_within closing number octets.now }
    ensures most { length result.now ≤ length octets.now }
{
    match closing {
        Closing::Open => octets,
        Closing::Fin(fin) => first_octets(octets, count_octets_before_fin(number, fin)),
        Closing::Reset => &octets[..0],
    }
}

/// How many octets wait behind one that is missing; none where the place in the stream isn't known.
fn octets_waiting_in(window: &Option<Window>) -> usize
    ensures waiting { result ≡ known_waiting window.now }
    ensures most { result ≤ 1048576 }
{
    match window {
        Some(window) => window.octets_waiting(),
        None => 0,
    }
}

/// How many octets there are from the next one to the last that waits; none where the place in the stream isn't known.
fn span_to_last_in(window: &Option<Window>) -> usize
    ensures { result ≡ known_span window.now }
{
    match window {
        Some(window) => window.span_to_last(),
        None => 0,
    }
}

/// Hands the octets in `fresh` to the framer, and empties it. Where memory is wanted both stay as they were.
fn feed_framer_and_clear(framer: &mut Framer, fresh: &mut Vec<u8>) -> Result<(), AllocError>
    requires { framer.old.fault ≡ None }
    ensures fed { OnOk result (framer.new
        ≡ record framer.old { octets = framer.old.octets ++ fresh.old.items }) }
    ensures none { OnOk result (fresh.new.items ≡ []) }
    ensures framer { OnErr result (framer.new ≡ framer.old) }
    ensures fresh { OnErr result (fresh.new.items ≡ fresh.old.items) }
{
    if fresh.is_empty() {
        return Ok(());
    }
    if framer.feed(fresh).is_err() {
        return Err(AllocError);
    }
    fresh.clear();
    Ok(())
}

impl Flow {
    /// A direction of which nothing came, for messages of at most `max` octets. It never answers want of memory.
    pub fn new(alloc: Global, max: u32) -> Flow
        ensures { result ≡ new_flow max }
    {
        Flow {
            alloc,
            syn: None,
            closing: Closing::Open,
            window: None,
            framer: Framer::new(alloc, max),
            fresh: Vec::new(alloc),
            passed: 0,
        }
    }

    /// How many octets were passed over, up to 2^64 - 1. It never answers want of memory.
    pub fn octets_passed_over(&self) -> u64
        ensures { result ≡ self.now.passed }
    {
        self.passed
    }

    /// How many octets are held, up to 2^64 - 1: those from the next one to the last that waits, with those that are
    /// missing between, and those in order that weren't handed out. It takes one step, and never answers want of
    /// memory.
    pub fn octets_held(&self) -> usize
        ensures { result ≡ held_octets self.now }
    {
        let in_order = self.framer.len().saturating_add(self.fresh.len());
        span_to_last_in(&self.window).saturating_add(in_order)
    }

    /// How many octets came that were neither handed out nor passed over, up to 2^64 - 1: those that wait, and those in
    /// order. It takes a step for each octet of the window, and never answers want of memory.
    pub fn octets_held_that_came(&self) -> u64
        ensures { result ≡ pending_octets self.now }
    {
        let pending = capped_octet_sum(octets_waiting_in(&self.window) as u64, self.framer.len());
        capped_octet_sum(pending, self.fresh.len())
    }

    /// The number of the SYN with which the connection began, where it was seen. It never answers want of memory.
    pub fn syn_number(&self) -> Option<u32>
        ensures { result ≡ self.now.syn }
    {
        self.syn
    }

    /// What ended the direction. It never answers want of memory.
    pub fn why_closed(&self) -> Closing
        ensures { result ≡ self.now.closing }
    {
        self.closing
    }

    /// Leaves the stream: what waits, and what is in order and wasn't handed out, is passed over.
    fn leave_stream(&mut self)
        ensures { self.new ≡ stream_left self.old }
    {
        let passed = capped_octet_sum(self.passed, octets_waiting_in(&self.window));
        let passed = capped_octet_sum(passed, self.framer.len());
        self.passed = capped_octet_sum(passed, self.fresh.len());
        self.window = None;
        self.framer = Framer::new(self.alloc, self.framer.max());
        self.fresh = Vec::new(self.alloc);
    }

    /// A SYN with this number begins a new connection. It never answers want of memory.
    ///
    /// What waits, and the messages that weren't handed out, are passed over.
    pub fn begin_at_syn(&mut self, number: u32)
        ensures { self.new ≡ begun_by_syn self.old number }
    {
        self.leave_stream();
        self.syn = Some(number);
        self.closing = Closing::Open;
        self.window = Some(Window::new(self.alloc, number.wrapping_add(1)));
    }

    /// A new connection begins, of which nothing came in this direction. It never answers want of memory.
    ///
    /// What waits, and the messages that weren't handed out, are passed over.
    pub fn begin_with_nothing_seen(&mut self)
        ensures { self.new ≡ begun_unseen self.old }
    {
        self.leave_stream();
        self.syn = None;
        self.closing = Closing::Open;
    }

    /// A FIN has this number: octets are taken up to it, unless something ended the direction before. It never answers
    /// want of memory.
    pub fn end_at_fin_unless_ended(&mut self, number: u32)
        ensures { self.new ≡ record self.old { closing = closing_by_fin self.old.closing number } }
    {
        if let Closing::Open = self.closing {
            self.closing = Closing::Fin(number);
        }
    }

    /// A RST came: no octets are taken until a new connection begins. It never answers want of memory.
    pub fn end_at_rst(&mut self)
        ensures { self.new ≡ record self.old { closing = Closing.Reset } }
    {
        self.closing = Closing::Reset;
    }

    /// Takes the octets of a segment, of which the first has this number.
    ///
    /// What is behind the end is passed over. The others are taken by number; where the place in the stream isn't
    /// known, or they are too far ahead or behind, the stream is left and begins anew with them, or they are passed
    /// over too.
    /// Where memory is wanted nothing changed, or the octets were taken, and those in order kept up to some.
    pub fn take_payload_or_pass(&mut self, number: u32, octets: &[u8]) -> Result<(), AllocError>
        ensures taken { OnOk result (TakesPayload self.old number octets.now self.new) }
        ensures left { OnErr result (LeavesPayload self.old number octets.now self.new) }
    {
        let inside = octets_before_end(self.closing, number, octets);
        self.take_octets_before_end(number, inside)?;
        self.passed = capped_octet_sum(self.passed, octets.len() - inside.len());
        Ok(())
    }

    /// Takes octets that are before the end: they go on with the stream, or a new one begins with them, or they are
    /// passed over.
    fn take_octets_before_end(&mut self, number: u32, octets: &[u8]) -> Result<(), AllocError>
        ensures taken { OnOk result (TakesWithin self.old number octets.now self.new) }
        ensures left { OnErr result ((self.new ≡ self.old) ⊎ FlowTakes self.old number octets.now self.new) }
    {
        match self.continue_stream(number, octets) {
            Ok(true) => Ok(()),
            Ok(false) => self.restart_or_leave_stream(number, octets),
            Err(error) => Err(error),
        }
    }

    /// Takes octets where the place in the stream is known and they aren't too far away; else it answers false, and
    /// changes nothing.
    fn continue_stream(&mut self, number: u32, octets: &[u8]) -> Result<bool, AllocError>
        ensures on { result ≡ Ok true → (IsAstrayAt self.old.window number octets.now → ⊥)
            × FlowTakes self.old number octets.now self.new }
        ensures astray { result ≡ Ok false → IsAstrayAt self.old.window number octets.now × (self.new ≡ self.old) }
        ensures left { OnErr result ((self.new ≡ self.old) ⊎ FlowTakes self.old number octets.now self.new) }
    {
        let Some(window) = &mut self.window else {
            return Ok(false);
        };
        if !octets.is_empty() && window.is_far_before_next(number) {
            return Ok(false);
        }
        match window.take_and_hand_out(number, octets, &mut self.fresh) {
            Ok(()) => return Ok(true),
            Err(WindowFault::TooFar) => return Ok(false),
            Err(WindowFault::NoMemory) => return Err(AllocError),
        }
    }

    /// Leaves the stream, and begins one with the octets where a header may stand in front; else they are passed over.
    fn restart_or_leave_stream(&mut self, number: u32, octets: &[u8]) -> Result<(), AllocError>
        ensures begun { OnOk result (BeginsAnew self.old number octets.now self.new) }
        ensures unchanged { OnErr result (self.new ≡ self.old) }
    {
        if !begins_with_whole_header(octets) {
            self.leave_stream();
            self.passed = capped_octet_sum(self.passed, octets.len());
            return Ok(());
        }
        let front = Vec::from_slice(self.alloc, octets)?;
        self.begin_stream(number, front);
        Ok(())
    }

    /// Leaves the stream, and begins one with these octets, of which the first has this number.
    fn begin_stream(&mut self, number: u32, front: Vec<u8>)
        ensures { self.new ≡ begun_by_header self.old number front.items }
    {
        self.leave_stream();
        self.window = Some(Window::new(self.alloc, sequence_number_behind(number, front.len())));
        self.fresh = front;
    }

    /// Hands out the next whole message; None where it isn't whole yet, or where what is in order is no message, and
    /// the stream is left. Where memory is wanted nothing changes.
    pub fn next_message_or_leave_stream(&mut self) -> Result<Option<Vec<u8>>, AllocError>
        ensures message { IfOk result (λ found. IfSome found
            (λ message. HandsMessage self.old message.items self.new)) }
        ensures none { IfOk result (λ found. IfNone found (HandsNoMessage self.old self.new)) }
        ensures unchanged { OnErr result (self.new ≡ self.old) }
    {
        feed_framer_and_clear(&mut self.framer, &mut self.fresh)?;
        match self.framer.front() {
            Ok(Some(message)) => {
                let message = Vec::from_slice(self.alloc, message)?;
                self.framer.skip();
                Ok(Some(message))
            }
            Ok(None) => Ok(None),
            Err(_) => {
                self.leave_stream();
                Ok(None)
            }
        }
    }
}
