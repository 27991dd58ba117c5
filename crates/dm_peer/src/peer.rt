//! Peers: one event is one step.
ghost use Rattle.std.specs.Prelude.{◌≡◌, ℕ, ◌<◌, ◌^◌, ◌⊎◌, IfOk, IfErr, OnOk, OnErr, IsTrue, true};
ghost use Rattle.std.specs.Prelude.{[], Some, Err, List, All};
ghost use Rattle.dm_machine.specs.Moves as moves;
ghost use Rattle.dm_machine.specs.Node.{held_as, is_shaped};
ghost use Rattle.dm_machine.specs.declared.connection.Conn.{Conn};
ghost use Rattle.dm_machine.specs.declared.phase.Role.TheVariants.{Initiated, Accepted};
ghost use Rattle.dm_peer.specs.Acts.{Moved, Refused, acts, standing_at, IsRefused};
ghost use Rattle.dm_peer.specs.After.{awaited_of, fresh_standing};
ghost use Rattle.dm_peer.specs.Events.{Arrived, event_told};
ghost use Rattle.dm_peer.specs.Holding.{holds};
ghost use Rattle.dm_peer.specs.Refusing.{refusal_of};
ghost use Rattle.dm_peer.specs.Silence.{is_silent};
ghost use Rattle.dm_peer.specs.Spelled.{SendsSpelling};
ghost use Rattle.dm_peer.specs.Strangers.{AreStrange, TurnsAway};
ghost use Rattle.dm_peer.specs.declared.fault.PeerFault.{PeerFault};
ghost use Rattle.dm_peer.specs.declared.fault.PeerFault.TheVariants.{NoMemory};

use crate::actions::drop_actions;
use crate::arrivals::is_held_connection;
use crate::kept_peer::handle_event_of_kept_peer;
use crate::laws::{event_refusals_go_by_rule, starts_timeouts_drops_take_no_memory};
use crate::standing::Kept;
use crate::{Actions, Config, Event, PeerFault};
use arrayvec::ArrayVec;
use dm_machine::laws::shaped_cores_have_eight_forms;
use dm_machine::{Conn, State};
use std::alloc::Global;

/// A peer: its configuration, and where it stands (RFC 6733, 5.6). What holds of each is said by
/// `laws::peers_are_settled_with_encodable_numbers`.
#[derive(Debug, Drop)]
pub struct Peer {
    pub(crate) config: Config,
    pub(crate) standing: Kept,
}

impl Peer {
    /// A closed peer of the configuration. It never answers want of memory.
    pub fn new(config: Config) -> Peer
        ensures config { result.config ≡ config }
        ensures standing { result.standing ≡ fresh_standing config.first_id }
        // The first number is one of four octets.
        ensures number { config.first_id < 2 ^ 32 }
    {
        let standing = Kept::fresh(config.first_id);
        Peer { config, standing }
    }

    /// Back to Closed, with no connections and awaiting nothing. The numbers go on. It never answers want of memory.
    pub fn reset(&mut self)
        ensures { self.new ≡ standing_at self.old (fresh_standing self.old.standing.next) }
    {
        self.standing = Kept::fresh(self.standing.get().next);
    }

    /// What the peer does at the event (RFC 6733, 5.6): at most four actions, in the order in which they are to be
    /// done.
    ///
    /// # Errors
    /// `NotClosed` for a Start outside Closed, `NotOpen` for a Stop or Submit outside R-Open and I-Open, `BadSubmit`
    /// for octets that are no message, or one of command 257, 280 or 282, and `NoMemory`, which comes only where
    /// something is sent or handed up. The peer is as it was after each.
    pub fn on(&mut self, alloc: Global, event: Event<'_>) -> Result<Actions, PeerFault>
        ensures acts { IfOk result (λ actions. acts self.old (event_told event.entry) ≡ Moved actions.items self.new) }
        ensures refused { IfErr result (IsRefused (acts self.old (event_told event.entry))) }
        ensures unchanged { OnErr result (self.new ≡ self.old) }
        // But for want of memory the rules alone refuse, and what they refuse is refused so.
        ensures ruled { IfErr result (λ f. (f ≡ NoMemory)
            ⊎ (refusal_of self.old.standing.core.state (event_told event.entry) ≡ Some f)) }
        ensures refuses { (f : PeerFault) → refusal_of self.old.standing.core.state (event_told event.entry) ≡ Some f
            → result ≡ Err f }
        // A Start, a Timeout, octets that aren't looked at and an answer that is dropped never want memory.
        ensures silent { is_silent self.old (event_told event.entry) ≡ true
            → IfErr result (λ f. acts self.old (event_told event.entry) ≡ Refused f) }
        // The octets of each Send spell a message.
        ensures spelled { IfOk result (λ actions. All SendsSpelling actions.items) }
        // A stranger changes nothing: its connection is closed, behind an answer or none, and no more is done.
        ensures stranger { (conn : Conn) (octets : List ℕ) → event_told event.entry ≡ Arrived conn octets
            → AreStrange self.old conn octets
            → IfOk result (λ actions. TurnsAway conn actions.items × (self.new ≡ self.old)) }
    {
        let mut actions = ArrayVec::new();
        if let Err(fault) = self.on_into(alloc, event, &mut actions) {
            drop_actions(actions);
            return Err(fault);
        }
        Ok(actions)
    }

    /// What the peer does at the event, as [`on`](Peer::on) does it, put into `actions`, which are none before. Behind
    /// an `Err` what is in them is of no use.
    ///
    /// # Errors
    /// Those of `on`. The peer is as it was after each.
    // (It is a call of what fills the list, and no more: in its caller it takes no further one.)
    #[inline(always)]
    pub fn on_into(
        &mut self,
        alloc: Global,
        event: Event<'_>,
        actions: &mut Actions,
    ) -> Result<(), PeerFault>
        requires none { actions.old.items ≡ [] }
        ensures acts { OnOk result (acts self.old (event_told event.entry) ≡ Moved actions.new.items self.new) }
        ensures refused { IfErr result (IsRefused (acts self.old (event_told event.entry))) }
        ensures unchanged { OnErr result (self.new ≡ self.old) }
        ensures ruled { IfErr result (λ f. (f ≡ NoMemory)
            ⊎ (refusal_of self.old.standing.core.state (event_told event.entry) ≡ Some f)) }
        ensures refuses { (f : PeerFault) → refusal_of self.old.standing.core.state (event_told event.entry) ≡ Some f
            → result ≡ Err f }
        ensures silent { is_silent self.old (event_told event.entry) ≡ true
            → IfErr result (λ f. acts self.old (event_told event.entry) ≡ Refused f) }
        ensures spelled { OnOk result (All SendsSpelling actions.new.items) }
        ensures stranger { (conn : Conn) (octets : List ℕ) → event_told event.entry ≡ Arrived conn octets
            → AreStrange self.old conn octets
            → OnOk result (TurnsAway conn actions.new.items × (self.new ≡ self.old)) }
    {
        starts_timeouts_drops_take_no_memory();
        event_refusals_go_by_rule();
        let _shaped = self.state();
        handle_event_of_kept_peer(alloc, self, event, actions)
    }

    /// The configuration. It never answers want of memory.
    pub fn config(&self) -> &Config
        ensures { result.now ≡ self.now.config }
    {
        &self.config
    }

    /// The state. It never answers want of memory.
    pub fn state(&self) -> State
        ensures value { result ≡ self.now.standing.core.state }
        ensures shaped { IsTrue (is_shaped self.now.standing.core) }
    {
        self.standing.get().core.state()
    }

    /// The connection that this peer opened. It never answers want of memory.
    #[inline(always)]
    pub fn initiated(&self) -> Option<Conn>
        ensures { result ≡ held_as Initiated self.now.standing.core.held }
    {
        self.standing.get().core.initiated()
    }

    /// The connection that the other side opened. It never answers want of memory.
    #[inline(always)]
    pub fn accepted(&self) -> Option<Conn>
        ensures { result ≡ held_as Accepted self.now.standing.core.held }
    {
        self.standing.get().core.accepted()
    }

    /// Whether the peer holds the connection, which it opened or accepted. It never answers want of memory.
    pub fn holds(&self, conn: Conn) -> bool
        ensures { result ≡ holds conn self.now }
    {
        shaped_cores_have_eight_forms();
        let _shaped = self.state();
        is_held_connection(self.initiated(), conn) || is_held_connection(self.accepted(), conn)
    }

    /// Whether the state is R-Open or I-Open. It never answers want of memory.
    pub fn is_open(&self) -> bool
        ensures { result ≡ moves.is_open self.now.standing.core.state }
    {
        self.state().is_open()
    }

    /// The Hop-by-Hop Identifier of the last request of the command, 257, 280 or 282, that awaits its answer. None for
    /// other commands. It never answers want of memory.
    pub fn awaited(&self, command: u32) -> Option<u32>
        ensures { result ≡ awaited_of self.now.standing.awaited command }
    {
        self.standing.get().awaited.awaited_hop_id(command)
    }
}
