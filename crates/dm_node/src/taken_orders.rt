//! Orders that a node takes, and what each comes to.
ghost use Rattle.std.specs.Prelude.{◌≡◌, ◌⊎◌, ℕ, [], Some, Err, All, IfErr, OnOk, OnErr};
ghost use Rattle.dm_node.specs.Answers.{IsUntold, asks_of};
ghost use Rattle.dm_node.specs.Declining.{IsDeclinedHere, IsRuledOut, IsDirected, IsByRule, GoesByAllRules};
ghost use Rattle.dm_node.specs.Declining.{EventTakesMemory};
ghost use Rattle.dm_node.specs.NodeKnown.{KnownAfterOrder};
ghost use Rattle.dm_node.specs.NodeOrders.{IsTakenOrRefused, OrderIsTakenOrRefused, NodeTakes, NodeTellsOnce};
ghost use Rattle.dm_node.specs.NodeOrders.{NodeTellsIfThere, NodeRefuses, NodeRefusesOnce, NodeRefusesIfThere};
ghost use Rattle.dm_node.specs.NodeOrders.{event_ordered, told_there, ToldTakesMemory, OrderTakesMemory, ShutsUnheld};
ghost use Rattle.dm_node.specs.NodeSeen.{node_state_of, node_known_of};
ghost use Rattle.dm_node.specs.Policies.{no_strangers};
ghost use Rattle.dm_node.specs.Telling.{Concerns, IsMisdirected, IsStrangeCer, StartsFree, told_of};
ghost use Rattle.dm_node.specs.declared.events.NodeEvent.{NodeEvent as OneEvent};
ghost use Rattle.dm_node.specs.declared.fault.OrderFault.{OrderFault};
ghost use Rattle.dm_node.specs.declared.fault.OrderFault.TheVariants as faults;
ghost use Rattle.dm_node.specs.declared.order.Order.TheVariants as orders;
ghost use Rattle.dm_peer.specs.Spelled.{SendsSpelling};
ghost use Rattle.dm_peer.specs.declared.fault.PeerFault.{PeerFault};
ghost use Rattle.dm_peer.specs.declared.fault.PeerFault.TheVariants as peer_faults;
ghost use Rattle.dm_slots.specs.Naming.{NamesThere, NamesAtMost};

use crate::neighbours::neighbours_are_apart_and_sound;
use crate::settling::settle_connections;
use crate::telling::tell_event;
use crate::{Answer, Node, NodeEvent, Order, OrderFault, Told};
use dm_machine::{Conn, State};
use dm_peer::PeerFault;
use dm_peer::laws::{event_refusals_go_by_rule, events_take_named_release_closed_connections};
use dm_slots::laws::connections_stay_until_closed;
use std::alloc::Global;

impl Node {
    ghost use Rattle.dm_node.specs.declared.events.NodeEvent.TheVariants.{Start};

    /// Takes an order: `answer` says what it asks for, and of which neighbour, or that no event is told. What comes on
    /// a connection is heard by [`Node::hear`]. Where the neighbour wasn't open and is open behind the event, which
    /// ends an election (RFC 6733, 5.6.4), what is known of it is from then on the CER that waited; else what is known
    /// stays, also where the neighbour begins anew.
    ///
    /// # Errors
    /// `NoNeighbour` for a number that no neighbour has, but not of a Reset, nor of a Start whose connection is there:
    /// these do nothing then. What the neighbour's peer refuses, and `NoMemory`. The node is as it was after each, and
    /// the order can be told again.
    pub fn order(
        &mut self,
        alloc: Global,
        order: Order<'_>,
        answer: &mut Answer,
    ) -> Result<(), OrderFault>
        ensures taken { OnOk result (NodeTakes order.entry (node_state_of self.old) (asks_of answer.new)
            (node_state_of self.new)) }
        ensures refused { IfErr result (λ fault. (fault ≡ faults.Peer peer_faults.NoMemory)
            ⊎ NodeRefuses order.entry (node_state_of self.old) fault) }
        ensures unchanged { OnErr result (node_state_of self.new ≡ node_state_of self.old) }
        ensures met { OnOk result (KnownAfterOrder (asks_of answer.new) (node_state_of self.old)
            (node_state_of self.new) (node_known_of self.old) (node_known_of self.new)) }
        ensures same { OnErr result (node_known_of self.new ≡ node_known_of self.old) }
        // But for want of memory an order whose event is misdirected, or is ruled out at the neighbour that it
        // concerns, is refused so, and no other is.
        ensures misdirected { (e : OneEvent) (f : OrderFault)
            → event_ordered order.entry (node_state_of self.old) ≡ Some e
            → IsMisdirected (node_state_of self.old).peers e f → result ≡ Err f }
        ensures refuses { (e : OneEvent) (i : ℕ) (f : PeerFault)
            → event_ordered order.entry (node_state_of self.old) ≡ Some e → IsDirected (node_state_of self.old).peers e
            → Concerns no_strangers (node_state_of self.old).peers e i
            → IsRuledOut (node_state_of self.old).peers i (told_of e) f → result ≡ Err (faults.Peer f) }
        ensures ruled { IfErr result (λ f. (f ≡ faults.Peer peer_faults.NoMemory)
            ⊎ ((e : OneEvent) × (event_ordered order.entry (node_state_of self.old) ≡ Some e)
            × IsByRule no_strangers (node_state_of self.old).peers e f)) }
        // Memory is wanted only for a connection that is new, and for what the neighbour sends or hands up.
        ensures memory { result ≡ Err (faults.Peer peer_faults.NoMemory)
            → OrderTakesMemory order.entry (node_state_of self.old) }
        // The octets of each Send spell a message.
        ensures spelled { OnOk result (All SendsSpelling answer.new.actions.items) }
        // Behind an `Err` nothing is asked for.
        ensures cleared { OnErr result (IsUntold answer.new) }
    {
        answer.clear();
        let done = self.take_order(alloc, order, answer);
        if done.is_err() {
            answer.clear();
        }
        done
    }

    /// Takes an order, and puts what it asks for into `answer`, which says before that nothing was told. Behind an
    /// `Err` the node is as it was.
    #[inline(always)]
    fn take_order(
        &mut self,
        alloc: Global,
        order: Order<'_>,
        answer: &mut Answer,
    ) -> Result<(), OrderFault>
        requires { IsUntold answer.old }
        ensures { OrderIsTakenOrRefused order.entry self.old result answer.new self.new }
    {
        match order {
            Order::Start(index, conn) => {
                self.add_and_start_unless_there(alloc, index, conn, answer)
            }
            Order::Ack(conn) => self.tell_event_if_there(alloc, conn, NodeEvent::Ack(conn), answer),
            Order::Nack(conn) => {
                self.tell_event_if_there(alloc, conn, NodeEvent::Nack(conn), answer)?;
                self.shut_unless_held(conn);
                Ok(())
            }
            Order::Accept(conn) => match self.add_connection_unless_there(alloc, conn) {
                Ok(()) => Ok(()),
                Err(_) => Err(OrderFault::Peer(PeerFault::NoMemory)),
            },
            Order::Gone(conn) => {
                events_take_named_release_closed_connections();
                neighbours_are_apart_and_sound(&self.neighbours);
                self.tell_event_if_there(alloc, conn, NodeEvent::Gone(conn), answer)?;
                self.shut(conn);
                Ok(())
            }
            Order::Timeout(index) => {
                self.tell_order_event(alloc, NodeEvent::Timeout(index), answer)
            }
            Order::Tick(index) => self.tell_order_event(alloc, NodeEvent::Tick(index), answer),
            Order::Stop(index, cause) => self.tell_order_event(
                alloc,
                NodeEvent::Stop(index, cause),
                answer,
            ),
            Order::Submit(index, octets) => {
                self.tell_order_event(alloc, NodeEvent::Submit(index, octets), answer)
            }
            Order::Reset(index) => {
                self.reset_peer_and_shut_held(index);
                Ok(())
            }
            Order::ResetAll => {
                self.reset_peers_and_shut_all();
                Ok(())
            }
        }
    }

    /// Tells an event of an order, which names no connection that isn't there.
    #[inline(always)]
    fn tell_order_event(
        &mut self,
        alloc: Global,
        event: NodeEvent<'_>,
        answer: &mut Answer,
    ) -> Result<(), OrderFault>
        requires there { NamesThere (told_of event) (node_state_of self.old).intakes }
        requires calm { IsStrangeCer event → ⊥ }
        requires free { StartsFree (node_state_of self.old).peers event }
        requires none { answer.old.actions.items ≡ [] }
        ensures { IsTakenOrRefused (NodeTellsOnce event.entry) (NodeRefusesOnce event.entry) (λ s. Some event.entry)
            (λ s. EventTakesMemory no_strangers s.peers event.entry) self.old result answer.new self.new }
    {
        match tell_event(
            alloc,
            &self.own,
            &mut self.neighbours,
            &mut self.known,
            &self.intakes,
            &(),
            event,
            answer,
        ) {
            Ok(told) => {
                settle_connections(&self.neighbours, &mut self.intakes, told, self.most, answer);
                answer.told = Told::Event;
                Ok(())
            }
            Err(fault) => Err(fault),
        }
    }

    /// Tells an event of the connection, which names no other. Where the connection isn't there nothing is told, and
    /// that is no fault.
    fn tell_event_if_there(
        &mut self,
        alloc: Global,
        conn: Conn,
        event: NodeEvent<'_>,
        answer: &mut Answer,
    ) -> Result<(), OrderFault>
        requires conn { NamesAtMost (told_of event) conn }
        requires calm { IsStrangeCer event → ⊥ }
        requires free { StartsFree (node_state_of self.old).peers event }
        requires empty { IsUntold answer.old }
        ensures { IsTakenOrRefused (NodeTellsIfThere conn event.entry) (NodeRefusesIfThere conn event.entry)
            (told_there conn event.entry) (λ s. ToldTakesMemory (told_there conn event.entry s) s)
            self.old result answer.new self.new }
    {
        if self.has(conn) {
            self.tell_order_event(alloc, event, answer)
        } else {
            Ok(())
        }
    }

    /// Forgets the connection, unless a neighbour holds it. It never answers want of memory.
    fn shut_unless_held(&mut self, conn: Conn)
        ensures shut { ShutsUnheld conn (node_state_of self.old) (node_state_of self.new) }
        ensures known { node_known_of self.new ≡ node_known_of self.old }
    {
        match self.intakes.owner(conn) {
            Some(_) => {}
            None => self.shut(conn),
        }
    }

    /// Whether the rules allow a Start of the connection: they refuse it where nobody has the number, and where the
    /// neighbour isn't Closed. Whether the connection is there isn't asked.
    fn check_start(&self, index: usize, conn: Conn) -> Result<(), OrderFault>
        ensures declined { IfErr result (IsDeclinedHere no_strangers (node_state_of self.now).peers
            (Start index conn)) }
        ensures rules { GoesByAllRules no_strangers (node_state_of self.now).peers (Start index conn) result }
    {
        event_refusals_go_by_rule();
        neighbours_are_apart_and_sound(&self.neighbours);
        match self.neighbours.peer(index) {
            Some(peer) => match peer.state() {
                State::Closed => Ok(()),
                _ => Err(OrderFault::Peer(PeerFault::NotClosed)),
            },
            None => Err(OrderFault::NoNeighbour),
        }
    }

    /// Tells a Start of the connection to the neighbour of the number, and the connection is there from then on. Where
    /// it is there already nothing is told, and that is no fault.
    fn add_and_start_unless_there(
        &mut self,
        alloc: Global,
        index: usize,
        conn: Conn,
        answer: &mut Answer,
    ) -> Result<(), OrderFault>
        requires { IsUntold answer.old }
        ensures { OrderIsTakenOrRefused (orders.Start index conn) self.old result answer.new self.new }
    {
        connections_stay_until_closed();
        if self.has(conn) {
            return Ok(());
        }
        if let Err(fault) = self.check_start(index, conn) {
            return Err(fault);
        }
        match self.add_connection_unless_there(alloc, conn) {
            Ok(()) => match self.tell_order_event(alloc, NodeEvent::Start(index, conn), answer) {
                Ok(()) => Ok(()),
                Err(fault) => {
                    self.shut(conn);
                    Err(fault)
                }
            },
            Err(_) => Err(OrderFault::Peer(PeerFault::NoMemory)),
        }
    }
}
