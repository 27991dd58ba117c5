//! Neighbours that come, go, or begin anew, with the connections that they hold.
ghost use Rattle.std.specs.Prelude.{◌≡◌, ◌⊎◌, ◌↔◌, ◌++◌, ℕ, Option, None, Some, length, is_some};
ghost use Rattle.std.specs.Prelude.{IsErrOf, OnOk, OnErr, IfOk, IfErr, ◌<◌, if◌then◌else◌};
ghost use Rattle.dm_machine.specs.declared.connection.Conn.{Conn};
ghost use Rattle.dm_node.specs.Adding.{with_new};
ghost use Rattle.dm_node.specs.Holding.{peer_at, holds_it, IsKnown};
ghost use Rattle.dm_node.specs.declared.fault.AddFault.TheVariants as add_faults;
ghost use Rattle.dm_peer.specs.Places.{is_on};
ghost use Rattle.dm_peer.specs.declared.peer.Peer.{Peer};
ghost use Rattle.dm_slots.specs.Held.{intakes_of, owners_of};
ghost use Rattle.dm_node.specs.Owning.{has};
ghost use Rattle.dm_node.specs.NodeOrders.{left_by_peer, close_if_any, closes_of_any};
ghost use Rattle.dm_node.specs.declared.answer.Told.TheVariants.{Nothing};
ghost use Rattle.dm_node.specs.NodeOrders.{node_set_back, node_closed, node_without};
ghost use Rattle.dm_node.specs.NodeKnown.{with_nobody, without_known};
ghost use Rattle.dm_node.specs.NodeSeen.{node_state_of, node_known_of};
ghost use Rattle.dm_node.specs.NodeStates.{with_node_peers};

use crate::neighbours::{Neighbours, neighbours_are_apart_and_sound};
use crate::owners::Holding;
use crate::{AddFault, Answer, Node};
use dm_machine::Conn;
use dm_peer::{Action, Actions, Config};
use dm_slots::Slots;

/// Forgets the connection, if there is one.
fn shut_if_any(intakes: &mut Slots, conn: Option<Conn>)
    ensures owners { (c : Conn) → owners_of intakes.new c.0
        ≡ (if is_on conn c then None else owners_of intakes.old c.0) }
    ensures shut { (c : ℕ) → intakes_of intakes.new c
        ≡ (if is_on conn (record { 0 = c }) then None else intakes_of intakes.old c) }
{
    if let Some(conn) = conn {
        intakes.shut(conn);
    }
}

/// Forgets the connections that are held.
fn shut_held(intakes: &mut Slots, held: Holding)
    ensures owners { (c : Conn) → owners_of intakes.new c.0
        ≡ (if has held c then None else owners_of intakes.old c.0) }
    ensures shut { (p : Option Peer) → ((c : Conn) → has held c ≡ holds_it c p)
        → intakes_of intakes.new ≡ left_by_peer p (intakes_of intakes.old) }
{
    shut_if_any(intakes, held.initiated);
    shut_if_any(intakes, held.accepted);
}

/// Appends a Close of the connection; nothing where there is none.
fn push_close_if_any(actions: &mut Actions, conn: Option<Conn>)
    requires { length actions.old.items < 3 }
    ensures { actions.new.items ≡ actions.old.items ++ close_if_any conn }
{
    if let Some(conn) = conn {
        actions.push(Action::Close(conn));
    }
}

/// Why a neighbour of this configuration isn't added where memory is wanted: `Known` where a neighbour has its host,
/// else `NoMemory`.
fn fault_of_adding(neighbours: &Neighbours, config: &Config) -> AddFault
    ensures known { (result ≡ add_faults.Known) ↔ IsKnown neighbours.now config.now.peer }
    ensures refuses { (result ≡ add_faults.Known) ⊎ (result ≡ add_faults.NoMemory) }
{
    match neighbours.find(config.peer_host()) {
        Some(_) => AddFault::Known,
        None => AddFault::NoMemory,
    }
}

impl Node {
    /// Adds a closed neighbour of this configuration, and answers its number.
    ///
    /// # Errors
    /// `Known` just where a neighbour has its host, upper and lower case taken as one, whatever memory there is; else
    /// `NoMemory`. The node is as it was after each, and the configuration is dropped.
    pub fn add(&mut self, config: Config) -> Result<usize, AddFault>
        ensures number { IfOk result (λ i. i ≡ length (node_state_of self.old).peers) }
        ensures added { OnOk result (node_state_of self.new
            ≡ with_node_peers (with_new (node_state_of self.old).peers config) (node_state_of self.old)) }
        ensures known { IsErrOf result add_faults.Known ↔ IsKnown (node_state_of self.old).peers config.peer }
        ensures refuses { IfErr result (λ f. (f ≡ add_faults.Known) ⊎ (f ≡ add_faults.NoMemory)) }
        ensures unchanged { OnErr result (node_state_of self.new ≡ node_state_of self.old) }
        // Nobody was met.
        ensures unmet { OnOk result (node_known_of self.new ≡ with_nobody (node_known_of self.old)) }
        ensures same { OnErr result (node_known_of self.new ≡ node_known_of self.old) }
    {
        match self.known.reserve_place() {
            Ok(()) => match self.neighbours.push_new_peer(config) {
                Ok(index) => {
                    self.known.push_place();
                    Ok(index)
                }
                Err(fault) => Err(fault),
            },
            Err(_) => Err(fault_of_adding(&self.neighbours, &config)),
        }
    }

    /// Takes the neighbour of this number out, and answers whether there was one. `answer` says of which neighbour it
    /// is, and asks for a Close of what this one held, which is no more there. Its number stays unused, whom it met is
    /// forgotten, and the others keep theirs. It never answers want of memory.
    pub fn remove(&mut self, index: usize, answer: &mut Answer) -> bool
        ensures there { result ≡ is_some (peer_at (node_state_of self.old).peers index) }
        ensures told { answer.new.told ≡ Nothing }
        ensures neighbour { answer.new.neighbour
            ≡ (if is_some (peer_at (node_state_of self.old).peers index) then Some index else None) }
        ensures closes { answer.new.actions.items ≡ closes_of_any (peer_at (node_state_of self.old).peers index) }
        ensures without { node_state_of self.new ≡ node_without index (node_state_of self.old) }
        ensures forgotten { node_known_of self.new ≡ without_known (node_known_of self.old) index }
    {
        neighbours_are_apart_and_sound(&self.neighbours);
        answer.clear();
        let held = self.neighbours.held_connections(index);
        let gone = self.neighbours.remove(index);
        self.known.vacate_place(index);
        shut_held(&mut self.intakes, held);
        push_close_if_any(&mut answer.actions, held.initiated);
        push_close_if_any(&mut answer.actions, held.accepted);
        match gone {
            Some(_) => {
                answer.neighbour = Some(index);
                true
            }
            None => false,
        }
    }

    /// The neighbour of the number is Closed, and what it held is no more there; whom it met stays. It never answers
    /// want of memory.
    pub(crate) fn reset_peer_and_shut_held(&mut self, index: usize)
        ensures back { node_state_of self.new ≡ node_set_back index (node_state_of self.old) }
        ensures known { node_known_of self.new ≡ node_known_of self.old }
    {
        neighbours_are_apart_and_sound(&self.neighbours);
        let held = self.neighbours.held_connections(index);
        self.neighbours.reset_neighbour(index);
        shut_held(&mut self.intakes, held);
    }

    /// Each neighbour is Closed, and no connection is there; whom they met stays. It never answers want of memory.
    pub(crate) fn reset_peers_and_shut_all(&mut self)
        ensures back { node_state_of self.new ≡ node_closed (node_state_of self.old) }
        ensures known { node_known_of self.new ≡ node_known_of self.old }
    {
        self.neighbours.reset_all_neighbours();
        self.intakes.clear();
    }
}
