//! A node with its neighbours and connections.
ghost use Rattle.dm_slots.specs.Held.{intakes_of, owners_of};
ghost use Rattle.dm_node.specs.Owning.{AreOwned};
ghost use Rattle.dm_node.specs.NodeHeld.{AllHeldAreThere, AreRaised};
ghost use Rattle.dm_node.specs.NodeKnown.{known_of, AreKnown};

use crate::acquaintances::Acquaintances;
use crate::concerned_neighbour::holding_neighbour;
use crate::connection_of_open_peer::connection_of_open_peer;
use crate::neighbours::Neighbours;
use crate::settling::settle_connections;
use crate::telling::{tell_event, tell_message};
use crate::{Answer, NodeEvent, Strangers, Told};
use dm_machine::{Conn, State};
use dm_peer::Peer;
use dm_slots::laws::connections_stay_until_closed;
use dm_slots::{Acquaintance, Arrival, Front, Slots};
use std::alloc::{AllocError, Global};
use std::slice;

/// A node of one neighbour or of many with its connections: what came on each and wasn't told yet, and whom each
/// neighbour met.
/// What holds of each is said by `laws::each_held_connection_is_there` and
/// `laws::connections_of_open_neighbours_take_longer_messages`.
#[derive(Drop)]
pub struct Node {
    pub(crate) own: dm_base::Node,
    pub(crate) neighbours: Neighbours,
    pub(crate) known: Acquaintances,
    pub(crate) intakes: Slots,
    pub(crate) first_max: u32,
    pub(crate) most: u32,
    ghost held: { AllHeldAreThere neighbours (intakes_of intakes) },
    ghost raised: { AreRaised most neighbours (intakes_of intakes) },
    ghost owned: { AreOwned (owners_of intakes) neighbours },
    ghost met: { AreKnown neighbours (known_of known) },
}

impl Node {
    ghost use Rattle.std.specs.Prelude.{◌≡◌, ◌⊎◌, ℕ, true, false, All, [], Option, Some, is_some, option_map};
    ghost use Rattle.std.specs.Prelude.{IfSome, IfNone, IfOk, OnOk, OnErr, take};
    ghost use Rattle.std.specs.Option.{option_copied};
    ghost use Rattle.std.specs.Slice.Iter.{iter_rest};
    ghost use Rattle.std.specs.Iterator.Adapters.{IterYieldsInOrder};
    ghost use Rattle.dm_base.specs.Before.{lower};
    ghost use Rattle.dm_peer.specs.Spelled.{SendsSpelling};
    ghost use Rattle.dm_peer.specs.declared.peer.Peer.{Peer};
    ghost use Rattle.dm_node.specs.Holding.{peer_at, host_at, holds_at, is_open_at};
    ghost use Rattle.dm_node.specs.Telling.{IsFree, IsHolder};
    ghost use Rattle.dm_slots.specs.Acquaintances.{known_after};
    ghost use Rattle.dm_slots.specs.Hearing.{IsWholeAt, IsNotWhole, TakesFrontAt};
    ghost use Rattle.dm_slots.specs.Intakes.{Intake, IsFaulty, none_there, is_there};
    ghost use Rattle.dm_node.specs.NodeKnown.{acquaintance_at, MeetsAny, NodeKnownBehind, AwaitsExchangeAt};
    ghost use Rattle.dm_node.specs.NodeOrders.{node_opened, node_shut};
    ghost use Rattle.dm_node.specs.NodeSeen.{node_state_of, node_known_of};
    ghost use Rattle.dm_node.specs.NodeStates.{NodeTellsNext, NodeIsOut, NodeNextTakesMemory};
    ghost use Rattle.dm_node.specs.NodeStates.{NodeTellsFault, TakesMemoryAt, node_fed, node_unfed};
    ghost use Rattle.dm_node.specs.Answers.{IsUntold, as_answer, turn_in};
    ghost use Rattle.dm_node.specs.declared.answer.Told.TheVariants.{Fault};

    /// No neighbours and no connections. The node answers strangers. A message takes at most `first_max` octets before
    /// the capabilities exchange, and `most` behind it. It never answers want of memory.
    pub fn new(alloc: Global, node: dm_base::Node, first_max: u32, most: u32) -> Node
        ensures node { (node_state_of result).node ≡ node }
        ensures empty { (node_state_of result).peers ≡ [] }
        ensures none { (node_state_of result).intakes ≡ none_there }
        ensures first_max { (node_state_of result).first_max ≡ first_max }
        ensures most { (node_state_of result).most ≡ most }
        ensures nobody { node_known_of result ≡ [] }
    {
        Node {
            own: node,
            neighbours: Neighbours::new(alloc),
            known: Acquaintances::new(alloc),
            intakes: Slots::new(alloc),
            first_max,
            most,
        }
    }

    /// The number of the neighbour of this host, upper and lower case taken as one. It never answers want of memory.
    pub fn find(&self, host: &[u8]) -> Option<usize>
        ensures found { IfSome result (λ i. host_at (node_state_of self.now).peers i ≡ Some (lower host.now)) }
        ensures none { IfNone result ((j : ℕ)
            → host_at (node_state_of self.now).peers j ≡ Some (lower host.now) → ⊥) }
    {
        self.neighbours.find(host)
    }

    /// The number of the neighbour that holds the connection. It never answers want of memory.
    pub fn holder(&self, conn: Conn) -> Option<usize>
        ensures found { IfSome result (λ i. holds_at (node_state_of self.now).peers conn i ≡ true) }
        ensures none { IfNone result ((j : ℕ) → holds_at (node_state_of self.now).peers conn j ≡ false) }
    {
        self.intakes.owner(conn)
    }

    /// The neighbour of this number. It never answers want of memory.
    pub fn peer(&self, index: usize) -> Option<&Peer>
        ensures { option_copied result ≡ peer_at (node_state_of self.now).peers index }
    {
        self.neighbours.peer(index)
    }

    /// The state of the neighbour of this number. It never answers want of memory.
    pub fn state_of(&self, index: usize) -> Option<State>
        ensures { result
            ≡ option_map (λ p. p.standing.core.state) (peer_at (node_state_of self.now).peers index) }
    {
        self.neighbours.state_of(index)
    }

    /// The connection on which the neighbour of this number is open, in R-Open or I-Open (RFC 6733, 5.6); None where it
    /// isn't open, and where no neighbour has the number. It never answers want of memory.
    pub fn open_on(&self, index: usize) -> Option<Conn>
        ensures found { IfSome result (λ conn. is_open_at (node_state_of self.now).peers conn index ≡ true) }
        ensures none { IfNone result ((conn : Conn)
            → is_open_at (node_state_of self.now).peers conn index ≡ false) }
    {
        match self.neighbours.peer(index) {
            Some(peer) => connection_of_open_peer(peer),
            None => None,
        }
    }

    /// The neighbours in order of adding; None where one was removed. It never answers want of memory.
    pub fn iter(&self) -> slice::Iter<'_, Option<Peer>>
        ensures rest { iter_rest result ≡ (node_state_of self.now).peers }
        ensures runs { IterYieldsInOrder (Option Peer) }
    {
        self.neighbours.iter()
    }

    /// What the other side said of itself by which the neighbour of the number was opened last (RFC 6733, 5.3): nobody
    /// where it wasn't yet. It stays when the connection ends, and where the neighbour is set back. None where no
    /// neighbour has the number. It never answers want of memory.
    pub fn known(&self, index: usize) -> Option<&Acquaintance>
        ensures known { option_copied result ≡ acquaintance_at (node_known_of self.now) index }
        ensures there { is_some result ≡ is_some (peer_at (node_state_of self.now).peers index) }
    {
        self.known.get(index)
    }

    /// Whether the connection is there. It never answers want of memory.
    pub fn has(&self, conn: Conn) -> bool
        ensures { result ≡ is_there conn.0 (node_state_of self.now).intakes }
    {
        self.intakes.has(conn)
    }

    /// The connection is there from now on.
    pub(crate) fn add_connection_unless_there(
        &mut self,
        alloc: Global,
        conn: Conn,
    ) -> Result<(), AllocError>
        ensures opened { OnOk result (node_state_of self.new ≡ node_opened conn (node_state_of self.old)) }
        ensures unchanged { OnErr result (node_state_of self.new ≡ node_state_of self.old) }
        ensures memory { OnErr result (is_there conn.0 (node_state_of self.old).intakes ≡ false) }
        ensures known { node_known_of self.new ≡ node_known_of self.old }
    {
        connections_stay_until_closed();
        match self.intakes.add_unless_there(alloc, conn, self.first_max) {
            Ok(()) => Ok(()),
            Err(error) => Err(error),
        }
    }

    /// The connection, which nobody holds, is no more there. It never answers want of memory.
    pub(crate) fn shut(&mut self, conn: Conn)
        requires { IsFree (node_state_of self.old).peers conn }
        ensures shut { node_state_of self.new ≡ node_shut conn (node_state_of self.old) }
        ensures known { node_known_of self.new ≡ node_known_of self.old }
    {
        connections_stay_until_closed();
        self.intakes.shut(conn);
    }

    /// Who holds the connection, and how many octets the whole message has with which the piece that came on it begins.
    /// Notes where the connection stands, to look at it first. It never answers want of memory.
    #[inline(always)]
    pub(crate) fn look_at_arrival(&mut self, conn: Conn, piece: &[u8]) -> Arrival
        ensures holder { IsHolder (node_state_of self.new).peers conn result.owner }
        ensures whole { IfSome result.message_len
            (λ size. IsWholeAt ((node_state_of self.new).intakes conn.0) piece.now size) }
        ensures none { IfNone result.message_len
            (IfSome ((node_state_of self.new).intakes conn.0) (λ i. IsNotWhole i piece.now)) }
        ensures state { node_state_of self.new ≡ node_state_of self.old }
        ensures known { node_known_of self.new ≡ node_known_of self.old }
    {
        self.intakes.look_at_arrival(conn, piece)
    }

    /// Keeps a piece that came on the connection, cut anyhow, to be told message by message by [`next`](Node::next).
    /// What comes behind a fault, and on a connection that isn't there, is thrown away. Where memory is wanted the node
    /// is as it was. Who need not keep it has [`hear`](Node::hear).
    pub fn keep(&mut self, conn: Conn, piece: &[u8]) -> Result<(), AllocError>
        ensures fed { OnOk result (node_state_of self.new ≡ node_fed conn piece.now (node_state_of self.old)) }
        ensures unchanged { OnErr result (node_state_of self.new ≡ node_state_of self.old) }
        ensures memory { OnErr result (is_there conn.0 (node_state_of self.old).intakes ≡ true) }
        ensures known { node_known_of self.new ≡ node_known_of self.old }
    {
        connections_stay_until_closed();
        self.intakes.feed(conn, piece)
    }

    /// Keeps of a piece that came on the connection what its first message wants, and answers how many octets were
    /// taken. Behind a fault, and on a connection that isn't there, none are kept and all are taken.
    pub(crate) fn keep_front_or_discard(
        &mut self,
        conn: Conn,
        piece: &[u8],
    ) -> Result<usize, AllocError>
        ensures fed { IfOk result (λ size.
            node_state_of self.new ≡ node_fed conn (take size piece.now) (node_state_of self.old)) }
        ensures taken { IfOk result (TakesFrontAt ((node_state_of self.old).intakes conn.0) piece.now) }
        ensures unchanged { OnErr result (node_state_of self.new ≡ node_state_of self.old) }
        ensures memory { OnErr result ((i : Intake) × ((node_state_of self.old).intakes conn.0 ≡ Some i)
            × (i.is_broken ≡ false)) }
        ensures known { node_known_of self.new ≡ node_known_of self.old }
    {
        connections_stay_until_closed();
        self.intakes.feed_front_or_discard(conn, piece)
    }

    /// Takes so many of the octets away again that came last on the connection. It never answers want of memory.
    pub(crate) fn take_back(&mut self, conn: Conn, size: usize)
        ensures back { node_state_of self.new ≡ node_unfed conn size (node_state_of self.old) }
        ensures known { node_known_of self.new ≡ node_known_of self.old }
    {
        connections_stay_until_closed();
        self.intakes.take_back(conn, size);
    }

    /// Tells the fault that stands at the front of the connection's stream, and throws away what came and what comes.
    fn tell_fault_and_discard_rest<S: Strangers>(
        &mut self,
        alloc: Global,
        strangers: &S,
        conn: Conn,
        answer: &mut Answer,
    ) -> Result<(), AllocError>
        requires fault { (i : Intake) × ((node_state_of self.old).intakes conn.0 ≡ Some i) × IsFaulty i }
        requires none { answer.old.actions.items ≡ [] }
        ensures arrived { OnOk result (answer.new.told ≡ Fault) }
        ensures told { OnOk result (NodeTellsFault (S.policy strangers.now) conn (node_state_of self.old)
            (as_answer answer.new) (node_state_of self.new)) }
        ensures unchanged { OnErr result (node_state_of self.new ≡ node_state_of self.old) }
        ensures memory { OnErr result
            (TakesMemoryAt (S.policy strangers.now) conn [] (node_state_of self.old).peers) }
        ensures met { OnOk result (MeetsAny known_after answer.new.neighbour (node_state_of self.old).peers
            (node_state_of self.new).peers (node_known_of self.old) (node_known_of self.new)) }
        ensures same { OnErr result (node_known_of self.new ≡ node_known_of self.old) }
        ensures spelled { OnOk result (All SendsSpelling answer.new.actions.items) }
        ensures cleared { OnErr result (IsUntold answer.new) }
    {
        connections_stay_until_closed();
        let event = NodeEvent::Arrived(conn, &[]);
        match tell_event(
            alloc,
            &self.own,
            &mut self.neighbours,
            &mut self.known,
            &self.intakes,
            strangers,
            event,
            answer,
        ) {
            Ok(told) => {
                self.intakes.discard_rest_of_stream(alloc, conn);
                settle_connections(&self.neighbours, &mut self.intakes, told, self.most, answer);
                answer.told = Told::Fault;
                Ok(())
            }
            Err(_) => {
                answer.clear();
                Err(AllocError)
            }
        }
    }

    /// Tells the next whole message that came on the connection, or the fault of its stream, to the neighbour that it
    /// concerns: the one that holds the connection, or whose host's CER it is, or else the porter, where `strangers`
    /// have one and it is there. What concerns none goes by the policy for unknown hosts (RFC 6733, 5.3): a CER of a
    /// host for which `strangers` have a template, where there are fewer neighbours than there may be, is told to a
    /// neighbour of the template's configuration for it, which is added behind the others and holds the connection. It
    /// is not added where it would be Closed behind its CER, as at one that it refuses. To all else the connection is
    /// closed, behind an answer 3010 (DIAMETER_UNKNOWN_PEER) to a CER. By `()` each stranger is turned away so.
    ///
    /// A neighbour that was taken in so stays until it is removed ([`remove`](Node::remove)).
    ///
    /// Where the neighbour wasn't open and is open behind it, what is known of it ([`known`](Node::known)) is
    /// from then on the CER or CEA by which it was opened: the message that was told, where it holds the connection
    /// then, else the CER that waited for its CEA in an election (5.6.4). A CER that waits is kept as such.
    ///
    /// `answer` says which of the two was told, if either was, of which neighbour it is and what it asks for. Where
    /// memory is wanted nothing changes and nothing is asked for, and it can be told again.
    pub fn next<S: Strangers>(
        &mut self,
        alloc: Global,
        strangers: &S,
        conn: Conn,
        answer: &mut Answer,
    ) -> Result<(), AllocError>
        ensures turn { OnOk result (IfSome (turn_in conn answer.new) (λ turn. NodeTellsNext (S.policy strangers.now)
            conn (node_state_of self.old) turn (node_state_of self.new))) }
        ensures none { OnOk result (IfNone (turn_in conn answer.new) (
            NodeIsOut conn (node_state_of self.old) × (node_state_of self.new ≡ node_state_of self.old))) }
        ensures unchanged { OnErr result (node_state_of self.new ≡ node_state_of self.old) }
        // Memory is wanted only for what the message or the fault asks of its neighbour, for a stranger's CER, or for
        // the copy of a CER or CEA that concerns no open neighbour.
        ensures memory { OnErr result (NodeNextTakesMemory (S.policy strangers.now) conn (node_state_of self.old)
            ⊎ AwaitsExchangeAt (S.policy strangers.now) conn (node_state_of self.old)) }
        ensures met { OnOk result (IfSome (turn_in conn answer.new) (λ turn. NodeKnownBehind conn
            (node_state_of self.old) turn (node_state_of self.new) (node_known_of self.old)
            (node_known_of self.new))) }
        ensures unmet { OnOk result (IfNone (turn_in conn answer.new)
            (node_known_of self.new ≡ node_known_of self.old)) }
        ensures same { OnErr result (node_known_of self.new ≡ node_known_of self.old) }
        // The octets of each Send spell a message, an answer to a stranger too.
        ensures spelled { OnOk result (All SendsSpelling answer.new.actions.items) }
        // Behind an `Err` nothing is asked for.
        ensures cleared { OnErr result (IsUntold answer.new) }
    {
        connections_stay_until_closed();
        answer.clear();
        match self.intakes.front(conn) {
            Front::Nothing => Ok(()),
            Front::Message(message) => {
                let holder = holding_neighbour(&self.neighbours, &self.intakes, conn);
                match tell_message(
                    alloc,
                    &self.own,
                    &mut self.neighbours,
                    &mut self.known,
                    strangers,
                    holder,
                    conn,
                    message,
                    answer,
                ) {
                    Ok(told) => {
                        self.intakes.skip_front_message(conn);
                        settle_connections(
                            &self.neighbours,
                            &mut self.intakes,
                            told,
                            self.most,
                            answer,
                        );
                        answer.told = Told::Message;
                        Ok(())
                    }
                    Err(error) => {
                        answer.clear();
                        Err(error)
                    }
                }
            }
            Front::Fault => self.tell_fault_and_discard_rest(alloc, strangers, conn, answer),
        }
    }
}
