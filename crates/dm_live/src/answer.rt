//! What a line asks, told and answered, and which neighbour that concerned.
ghost use Rattle.std.specs.Prelude.{◌≡◌, ◌++◌, ℕ, List, None, IfOk, IfSome, IfNone, OnOk};
ghost use Rattle.std.specs.String.{string_bytes};
ghost use Rattle.dm_node.specs.NodeStates.{NodeTurn as OneTurn, NodeIsOut};
ghost use Rattle.dm_node.specs.Answers.{turn_in};
ghost use Rattle.dm_live.specs.Answers.{TakesOrder, MeetsNext, MeetsOut, Answers};
ghost use Rattle.dm_live.specs.Answers.{turns_lines, whom_last, refuser, policy_of};
ghost use Rattle.dm_live.specs.Meetings.{meeting_of};

use crate::answer_lines::{
    put_action_lines, put_answer_states, put_ignored_unless_accept_or_reset,
    put_neighbour_line_if_any, put_order_refusal_line, put_turn,
};
use crate::asked::Asked;
use crate::form::Form;
use dm_machine::Conn;
use dm_node::{Alone, Answer, Node, Order, OrderFault, Told};
use std::alloc::{AllocError, Global};

/// Tells the node, of so many peers, what a line asks of it, and appends the line's answer, but for the dot behind it.
///
/// Behind a piece all that came on its connection is told, message by message. Where memory is wanted some of it may be
/// told, and a front of the answer may stand in the text.
pub fn answer_asked_without_dot(
    alloc: Global,
    form: Form,
    node: &mut Node,
    asked: Asked<'_>,
    answer: &mut Answer,
    text: &mut String,
) -> Result<(), AllocError>
    ensures { OnOk result ((more : List ℕ)
        × Answers form asked.entry (meeting_of node.old) (meeting_of node.new) more
        × (string_bytes text.new ≡ string_bytes text.old ++ more)) }
{
    match asked {
        Asked::Order(order) => {
            let who = answer_order(alloc, form, node, order, answer, text)?;
            put_answer_states(text, form, node, asked, who)
        }
        Asked::Piece(conn, piece) => {
            node.keep(conn, piece)?;
            let last = tell_all_that_came(alloc, form, node, conn, answer, text)?;
            put_answer_states(text, form, node, asked, last)
        }
    }
}

/// Appends what an order comes to, and answers whom it concerns.
fn answer_order(
    alloc: Global,
    form: Form,
    node: &mut Node,
    order: Order<'_>,
    answer: &mut Answer,
    text: &mut String,
) -> Result<Option<usize>, AllocError>
    ensures { IfOk result (λ who. (own : List ℕ)
        × TakesOrder form order.entry (meeting_of node.old) who (meeting_of node.new) own
        × (string_bytes text.new ≡ string_bytes text.old ++ own)) }
{
    match node.order(alloc, order, answer) {
        Ok(()) => match answer.told {
            Told::Nothing => put_ignored_unless_accept_or_reset(text, order),
            _ => {
                put_neighbour_line_if_any(text, form, answer.neighbour)?;
                put_action_lines(text, answer.actions.as_slice())?;
                Ok(answer.neighbour)
            }
        },
        Err(fault) => {
            let who = refusing_neighbour(order, fault);
            put_neighbour_line_if_any(text, form, who)?;
            put_order_refusal_line(text, fault)?;
            Ok(who)
        }
    }
}

/// The neighbour that refuses an order with this fault: the one that the order names; none where nobody has the number.
fn refusing_neighbour(order: Order<'_>, fault: OrderFault) -> Option<usize>
    ensures { result ≡ refuser order.entry fault }
{
    match (fault, order) {
        (OrderFault::NoNeighbour, _) => None,
        (
            OrderFault::Peer(_),
            Order::Start(index, _)
            | Order::Timeout(index)
            | Order::Tick(index)
            | Order::Stop(index, _)
            | Order::Submit(index, _)
            | Order::Reset(index),
        ) => Some(index),
        (OrderFault::Peer(_), _) => None,
    }
}

/// Tells all that came on the connection, and appends what that comes to. Answers whom it concerned last.
fn tell_all_that_came(
    alloc: Global,
    form: Form,
    node: &mut Node,
    conn: Conn,
    answer: &mut Answer,
    text: &mut String,
) -> Result<Option<usize>, AllocError>
    ensures { IfOk result (λ last. (turns : List OneTurn)
        × MeetsOut (policy_of form) conn (meeting_of node.old) turns (meeting_of node.new)
        × (last ≡ whom_last None turns)
        × (string_bytes text.new ≡ string_bytes text.old ++ turns_lines form turns)) }
{
    let mut last = None;
    'turn: for _ in 0..u64::MAX {
        tell_turn_if_any(alloc, form, node, conn, answer)?;
        if let Told::Nothing = answer.told {
            return Ok(last);
        }
        put_turn(text, form, conn, answer)?;
        last = answer.neighbour.or(last);
    }
    // More octets than any memory holds.
    Err(AllocError)
}

/// Tells the next message that came on the connection, or a fault, if there is one. What strangers send is told a peer
/// that is alone.
fn tell_turn_if_any(
    alloc: Global,
    form: Form,
    node: &mut Node,
    conn: Conn,
    answer: &mut Answer,
) -> Result<(), AllocError>
    ensures told { OnOk result (IfSome (turn_in conn answer.new) (λ turn. MeetsNext (policy_of form) conn
        (meeting_of node.old) turn (meeting_of node.new))) }
    ensures out { OnOk result (IfNone (turn_in conn answer.new) (NodeIsOut conn (meeting_of node.old).node
        × ((meeting_of node.new).node ≡ (meeting_of node.old).node))) }
    ensures unmet { OnOk result (IfNone (turn_in conn answer.new) (
        (meeting_of node.new).known ≡ (meeting_of node.old).known)) }
{
    match form {
        Form::Alone => node.next(alloc, &Alone, conn, answer),
        Form::Several => node.next(alloc, &(), conn, answer),
    }
}
