//! What came on a node's connection, heard as it comes.
ghost use Rattle.std.specs.Prelude.{◌≡◌, All, take, IfOk, IfSome, IfNone, OnOk, OnErr};
ghost use Rattle.dm_node.specs.NodeHearing.{NodeHears, NodeHearsNothing, NodeHearTakesMemory, IsKeptFirst};
ghost use Rattle.dm_node.specs.NodeKnown.{NodeKnownBehind};
ghost use Rattle.dm_node.specs.NodeStates.{node_fed};
ghost use Rattle.dm_peer.specs.Spelled.{SendsSpelling};
ghost use Rattle.dm_node.specs.NodeSeen.{node_state_of, node_known_of};
ghost use Rattle.dm_node.specs.Answers.{IsUntold, turn_in};
ghost use Rattle.dm_slots.specs.Hearing.{TakesFrontAt, IsNotWhole};

use crate::settling::settle_connections;
use crate::telling::tell_message;
use crate::{Answer, Node, Strangers, Told};
use dm_machine::Conn;
use dm_slots::laws::{feed_front_takes_whole_message_len, taking_back_undoes_feeding};
use std::alloc::{AllocError, Global};

impl Node {
    /// Hears a piece that came on the connection, cut anyhow: tells one turn, as [`next`](Node::next) tells it, and
    /// answers how many octets of the piece it took. No more are taken than its first message wants behind what is
    /// kept; what is left is heard by the next call. Where that message isn't whole yet, where the octets are no
    /// message, and on a connection that isn't there, all of them are taken. So who hears each piece until nothing is
    /// left of it heard all of it
    /// ([`heard_pieces_are_told_as_kept_ones`](crate::laws::heard_pieces_are_told_as_kept_ones)).
    ///
    /// A whole message behind nothing is told where it lies, and of what is kept first just what it wants is copied.
    ///
    /// `answer` says what was told, if anything was, of which neighbour it is and what it asks for. Where memory is
    /// wanted nothing changes, nothing is asked for, and the piece can be heard again.
    pub fn hear<S: Strangers>(
        &mut self,
        alloc: Global,
        strangers: &S,
        conn: Conn,
        piece: &[u8],
        answer: &mut Answer,
    ) -> Result<usize, AllocError>
        // How many octets are taken.
        ensures taken { IfOk result (TakesFrontAt ((node_state_of self.old).intakes conn.0) piece.now) }
        ensures turn { IfOk result (λ size. IfSome (turn_in conn answer.new) (λ turn. NodeHears (S.policy strangers.now)
            conn piece.now size (node_state_of self.old) turn (node_state_of self.new))) }
        ensures none { IfOk result (λ size. IfNone (turn_in conn answer.new)
            (NodeHearsNothing conn piece.now size (node_state_of self.old) (node_state_of self.new))) }
        ensures unchanged { OnErr result (node_state_of self.new ≡ node_state_of self.old) }
        // Memory is wanted only for what the message asks of its neighbour, for a stranger's CER, for the copy of a CER
        // or CEA that concerns no open neighbour, and for octets that are kept.
        ensures memory { OnErr result
            (NodeHearTakesMemory (S.policy strangers.now) conn piece.now (node_state_of self.old)) }
        ensures met { IfOk result (λ size. IfSome (turn_in conn answer.new) (λ turn. NodeKnownBehind conn
            (node_fed conn (take size piece.now) (node_state_of self.old)) turn (node_state_of self.new)
            (node_known_of self.old) (node_known_of self.new))) }
        ensures unmet { OnOk result (IfNone (turn_in conn answer.new)
            (node_known_of self.new ≡ node_known_of self.old)) }
        ensures same { OnErr result (node_known_of self.new ≡ node_known_of self.old) }
        ensures spelled { OnOk result (All SendsSpelling answer.new.actions.items) }
        // Behind an `Err` nothing is asked for.
        ensures cleared { OnErr result (IsUntold answer.new) }
    {
        feed_front_takes_whole_message_len();
        answer.clear();
        let arrival = self.look_at_arrival(conn, piece);
        let Some(size) = arrival.message_len else {
            return self.keep_front_and_tell(alloc, strangers, conn, piece, answer);
        };
        match tell_message(
            alloc,
            &self.own,
            &mut self.neighbours,
            &mut self.known,
            strangers,
            arrival.owner,
            conn,
            &piece[..size],
            answer,
        ) {
            Ok(told) => {
                settle_connections(&self.neighbours, &mut self.intakes, told, self.most, answer);
                answer.told = Told::Message;
                Ok(size)
            }
            Err(error) => {
                answer.clear();
                Err(error)
            }
        }
    }

    /// Keeps of the piece what its first message wants, and tells what stands at the front then, if anything does.
    fn keep_front_and_tell<S: Strangers>(
        &mut self,
        alloc: Global,
        strangers: &S,
        conn: Conn,
        piece: &[u8],
        answer: &mut Answer,
    ) -> Result<usize, AllocError>
        requires not_whole { IfSome ((node_state_of self.old).intakes conn.0) (λ i. IsNotWhole i piece.now) }
        requires untold { IsUntold answer.old }
        ensures taken { IfOk result (TakesFrontAt ((node_state_of self.old).intakes conn.0) piece.now) }
        ensures turn { IfOk result (λ size. IfSome (turn_in conn answer.new) (λ turn. NodeHears (S.policy strangers.now)
            conn piece.now size (node_state_of self.old) turn (node_state_of self.new))) }
        ensures none { IfOk result (λ size. IfNone (turn_in conn answer.new)
            (NodeHearsNothing conn piece.now size (node_state_of self.old) (node_state_of self.new))) }
        ensures unchanged { OnErr result (node_state_of self.new ≡ node_state_of self.old) }
        ensures memory { OnErr result (IsKeptFirst conn piece.now (node_state_of self.old)) }
        ensures met { IfOk result (λ size. IfSome (turn_in conn answer.new) (λ turn. NodeKnownBehind conn
            (node_fed conn (take size piece.now) (node_state_of self.old)) turn (node_state_of self.new)
            (node_known_of self.old) (node_known_of self.new))) }
        ensures unmet { OnOk result (IfNone (turn_in conn answer.new)
            (node_known_of self.new ≡ node_known_of self.old)) }
        ensures same { OnErr result (node_known_of self.new ≡ node_known_of self.old) }
        ensures spelled { OnOk result (All SendsSpelling answer.new.actions.items) }
        ensures cleared { OnErr result (IsUntold answer.new) }
    {
        taking_back_undoes_feeding();
        let size = match self.keep_front_or_discard(conn, piece) {
            Ok(size) => size,
            Err(error) => return Err(error),
        };
        match self.next(alloc, strangers, conn, answer) {
            Ok(()) => Ok(size),
            Err(error) => {
                self.take_back(conn, size);
                Err(error)
            }
        }
    }
}
