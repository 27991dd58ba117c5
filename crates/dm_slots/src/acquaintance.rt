//! Whom a peer met: what the other side said of itself (RFC 6733, 5.3 and 8.16).
ghost use Rattle.std.specs.Prelude.{◌≡◌, None};
ghost use Rattle.std.specs.Option.{MatchOption};
ghost use Rattle.dm_wire.specs.declared.message.Message.{Message};
ghost use Rattle.dm_base.specs.Senders.{HasAvps};
ghost use Rattle.dm_slots.specs.Acquaintances.{exchange_in, is_exchange_to};

use dm_base::SenderRef;
use dm_machine::{Conn, State};
use dm_peer::{Peer, read_message};
use dm_wire::Octets;
use std::alloc::Global;
use std::marker::Model;

/// The CER or CEA that the octets spell, as what it says of its sender; None where they spell neither. It never answers
/// want of memory.
fn exchange_sender(octets: &[u8]) -> Option<SenderRef<'_>>
    ensures { MatchOption result (exchange_in octets.now ≡ None)
        (λ r. (m : Message) × (exchange_in octets.now ≡ Some m) × HasAvps r m.avps) }
{
    match read_message(octets) {
        Some(message) => dm_base::sender(&message),
        None => None,
    }
}

/// Whether the octets spell a CER or CEA and are told in a state that isn't open. It never answers want of memory.
pub fn is_exchange_before_open(state: State, octets: &[u8]) -> bool
    ensures { result ≡ is_exchange_to state octets.now }
{
    !state.is_open() && exchange_sender(octets).is_some()
}

/// What the other side said of itself: the CER or CEA by which a peer was opened, of the last time that it was. It
/// stays when the connection ends, so that the next one can be told from it.
#[derive(Debug, Drop)]
pub struct Acquaintance {
    octets: Octets,
    waiting: Option<Octets>,
    before: Option<u32>,
}

impl Model for Acquaintance {
    ghost use Rattle.dm_slots.specs.Acquaintances.{Acquaintance};

    ghost Value = { Acquaintance };

    ghost view = { λ a. record { octets = a.octets; waiting = a.waiting; before = a.before } };
}

impl Acquaintance {
    ghost use Rattle.std.specs.Prelude.{◌≡◌};
    ghost use Rattle.dm_slots.specs.Acquaintances.{nobody, exchange_in, state_in, began_anew};
    ghost use Rattle.dm_slots.specs.Acquaintances.{met_by, with_waiting, met_waiting, known_opened, known_by};
    ghost use Rattle.dm_slots.specs.Acquaintances.{known_after, known_if_any};

    /// Nobody was met. It never answers want of memory.
    pub fn new(alloc: Global) -> Acquaintance
        ensures { result ≡ nobody }
    {
        Acquaintance {
            octets: Octets::empty(alloc),
            waiting: None,
            before: None,
        }
    }

    /// What the other side said of itself (RFC 6733, 5.3); None where nobody was met. It never answers want of memory.
    pub fn sender(&self) -> Option<SenderRef<'_>>
        ensures { MatchOption result (exchange_in self.now.octets ≡ None)
            (λ r. (m : Message) × (exchange_in self.now.octets ≡ Some m) × HasAvps r m.avps) }
    {
        exchange_sender(self.octets.as_slice())
    }

    /// The Origin-State-Id that it said (8.16), where it did. It never answers want of memory.
    pub fn state(&self) -> Option<u32>
        ensures { result ≡ state_in self.now.octets }
    {
        match self.sender() {
            Some(sender) => sender.state_id(),
            None => None,
        }
    }

    /// The Origin-State-Id that was said the time before, where one was. It never answers want of memory.
    pub fn state_before(&self) -> Option<u32>
        ensures { result ≡ self.now.before }
    {
        self.before
    }

    /// Whether the other side has begun anew, and lost its sessions: it said another Origin-State-Id than the time
    /// before, and neither was 0, by which it says nothing (8.16). It never answers want of memory.
    pub fn is_anew(&self) -> bool
        ensures { result ≡ began_anew (state_in self.now.octets) self.now.before }
    {
        match (self.state(), self.before) {
            (Some(now), Some(before)) => now != 0 && before != 0 && now != before,
            _ => false,
        }
    }

    /// Notes that the other side was met by this CER or CEA. It never answers want of memory.
    fn meet_by_exchange(&mut self, exchange: Octets)
        ensures { self.new ≡ met_by exchange self.old }
    {
        self.before = self.state();
        self.octets = exchange;
        self.waiting = None;
    }

    /// Notes that this CER waits for its CEA. It never answers want of memory.
    fn set_waiting_cer(&mut self, exchange: Octets)
        ensures { self.new ≡ with_waiting exchange self.old }
    {
        self.waiting = Some(exchange);
    }

    /// Notes that the other side was met by the CER that waited, if one did. It never answers want of memory.
    fn meet_by_waiting_cer(&mut self)
        ensures { self.new ≡ met_waiting self.old.waiting self.old }
    {
        if let Some(exchange) = self.waiting.take() {
            self.meet_by_exchange(exchange);
        }
    }

    /// Notes by what a peer was opened that is open now, and wasn't before this CER or CEA of the connection: by that
    /// where it holds the connection, and else by the CER that waited.
    fn meet_by_exchange_or_waiting_cer(&mut self, exchange: Octets, conn: Conn, peer: &Peer)
        ensures { self.new ≡ known_opened conn peer.now exchange self.old }
    {
        if peer.holds(conn) {
            self.meet_by_exchange(exchange);
        } else {
            self.meet_by_waiting_cer();
        }
    }

    /// What is known behind a CER or CEA of the connection, which was told in this state, that isn't open.
    fn meet_by_exchange_or_set_waiting(
        &mut self,
        exchange: Octets,
        conn: Conn,
        before: State,
        peer: &Peer,
    )
        ensures { self.new ≡ known_by conn before peer.now exchange self.old }
    {
        if peer.is_open() {
            self.meet_by_exchange_or_waiting_cer(exchange, conn, peer);
        } else if !before.holds_cer() && peer.state().holds_cer() {
            self.set_waiting_cer(exchange);
        }
    }

    /// What is known behind what was told in this state to the peer and is no CER or CEA: where the peer wasn't open
    /// and is, as an election is over (RFC 6733, 5.6.4), it was opened by the CER that waited. It never answers want of
    /// memory.
    pub fn meet_if_opened_by_event(&mut self, before: State, peer: &Peer)
        ensures { self.new ≡ known_after before peer.now self.old }
    {
        if !before.is_open() && peer.is_open() {
            self.meet_by_waiting_cer();
        }
    }

    /// What is known behind what came on the connection and was told in this state to the peer: of a CER or CEA and a
    /// state that isn't open `exchange` is a copy, else no octets. Where the peer wasn't open and is, it was opened by
    /// that message, if it holds the connection, and else by the CER that waited, as where an election is over (RFC
    /// 6733, 5.6.4); and where a CER waits and none did before, it is this one. It never answers want of memory.
    pub fn meet_or_set_waiting_cer(
        &mut self,
        exchange: Octets,
        conn: Conn,
        before: State,
        peer: &Peer,
    )
        ensures { self.new ≡ known_if_any exchange conn before peer.now self.old }
    {
        if exchange.is_empty() {
            self.meet_if_opened_by_event(before, peer);
        } else {
            self.meet_by_exchange_or_set_waiting(exchange, conn, before, peer);
        }
    }
}
