//! The lines of an answer.
ghost use Rattle.std.specs.Prelude.{◌≡◌, ◌≢◌, ◌++◌, None, IfOk, IfSome, OnOk};
ghost use Rattle.std.specs.Option.{option_copied};
ghost use Rattle.std.specs.String.{string_bytes};
ghost use Rattle.dm_live.specs.AnswerLines.{action_line, action_lines, held_words, standing_words};
ghost use Rattle.dm_node.specs.declared.fault.OrderFault.TheVariants as faults;
ghost use Rattle.dm_peer.specs.declared.fault.PeerFault.TheVariants as peer_faults;
ghost use Rattle.dm_node.specs.NodeSeen.{node_state_of};
ghost use Rattle.dm_node.specs.Answers.{turn_in};
ghost use Rattle.dm_live.specs.Answers.{ignored_line, neighbour_line, turn_lines, event_refusal_line};
ghost use Rattle.dm_live.specs.Answers.{state_line, states_lines, states_behind, whom_asked};
ghost use Rattle.dm_live.specs.Served.{fault_answer};

use crate::asked::Asked;
use crate::form::Form;
use crate::line_ends::{put_number_line, put_octets_line};
use dm_machine::Conn;
use dm_node::{Answer, Node, Order, OrderFault, Told};
use dm_peer::{Action, Peer, PeerFault};
use dm_text::put_decimal;
use std::alloc::AllocError;

/// Appends the line of an action.
#[tactic(auto, unfolding(crate::specs::AnswerLines::action_line, crate::specs::SenderLines::octets_line))]
fn put_action_line(text: &mut String, action: &Action) -> Result<(), AllocError>
    ensures { OnOk result (string_bytes text.new ≡ string_bytes text.old ++ action_line action.now) }
{
    match action {
        Action::Connect(conn) => put_number_line(text, "connect ", conn.0),
        Action::Send(conn, octets) => {
            text.push_str("send ")?;
            put_decimal(text, conn.0)?;
            put_octets_line(text, " ", octets.as_slice())
        }
        Action::Close(conn) => put_number_line(text, "close ", conn.0),
        Action::Up(octets) => put_octets_line(text, "up ", octets.as_slice()),
    }
}

/// Appends the lines of actions, in order.
pub(crate) fn put_action_lines(text: &mut String, actions: &[Action]) -> Result<(), AllocError>
    ensures { OnOk result (string_bytes text.new ≡ string_bytes text.old ++ action_lines actions.now) }
{
    for action in actions {
        put_action_line(text, action)?;
    }
    Ok(())
}

/// Appends that the line of this number has this fault, and the dot that ends its answer.
pub(crate) fn put_fault_line_and_dot(
    text: &mut String,
    number: u64,
    name: &str,
) -> Result<(), AllocError>
    ensures { OnOk result (string_bytes text.new ≡ string_bytes text.old ++ fault_answer number name.now) }
{
    text.push_str("fault ")?;
    put_decimal(text, number)?;
    text.push_str(" ")?;
    text.push_str(name)?;
    text.push_str("\n.\n")
}

/// Appends the connection behind its letter; nothing where none is held.
#[tactic(auto, unfolding(crate::specs::AnswerLines::held_words))]
fn put_connection_if_held(
    text: &mut String,
    letter: &str,
    held: Option<Conn>,
) -> Result<(), AllocError>
    ensures { OnOk result (string_bytes text.new ≡ string_bytes text.old ++ held_words letter.now held) }
{
    if let Some(conn) = held {
        text.push_str(letter)?;
        put_decimal(text, conn.0)?;
    }
    Ok(())
}

/// Appends the peer's state, the connections that it holds, and the end of the line.
fn put_standing_and_line_end(text: &mut String, peer: &Peer) -> Result<(), AllocError>
    ensures { OnOk result (string_bytes text.new ≡ string_bytes text.old ++ standing_words peer.now) }
{
    text.push_str(peer.state().name())?;
    put_connection_if_held(text, " i", peer.initiated())?;
    put_connection_if_held(text, " r", peer.accepted())?;
    text.push_str("\n")?;
    Ok(())
}

/// Appends which neighbour of several an event concerned, where it concerned one; nothing about a peer alone.
#[tactic(auto, unfolding(crate::specs::Answers::neighbour_line))]
pub(crate) fn put_neighbour_line_if_any(
    text: &mut String,
    form: Form,
    index: Option<usize>,
) -> Result<(), AllocError>
    ensures { OnOk result (string_bytes text.new ≡ string_bytes text.old ++ neighbour_line form index) }
{
    match (form, index) {
        (Form::Several, Some(index)) => put_number_line(text, "neighbour ", index as u64),
        (Form::Several, None) => Ok(()),
        (Form::Alone, _) => Ok(()),
    }
}

/// Appends the lines of a message of the connection that was told, or of a fault.
#[tactic(auto, unfolding(crate::specs::AnswerLines::arrival_line))]
pub(crate) fn put_turn(
    text: &mut String,
    form: Form,
    conn: Conn,
    turn: &Answer,
) -> Result<(), AllocError>
    ensures { OnOk result (IfSome (turn_in conn turn.now) (λ told. string_bytes text.new
        ≡ string_bytes text.old ++ turn_lines form told)) }
{
    put_neighbour_line_if_any(text, form, turn.neighbour)?;
    if let Told::Message = turn.told {
        put_number_line(text, "arrived ", conn.0)?;
    }
    put_action_lines(text, turn.actions.as_slice())
}

/// Appends that an order told no event, where it is one of those that tell one: all but an accept and the resets.
/// Answers whom the order concerns: the neighbour that a reset has begin anew.
#[tactic(auto, unfolding(crate::specs::Answers::ignored_line))]
pub(crate) fn put_ignored_unless_accept_or_reset(
    text: &mut String,
    order: Order<'_>,
) -> Result<Option<usize>, AllocError>
    ensures who { IfOk result (λ who. who ≡ whom_asked order.entry None) }
    ensures text { OnOk result (string_bytes text.new
        ≡ string_bytes text.old ++ ignored_line order.entry) }
{
    match order {
        Order::Accept(_) | Order::ResetAll => Ok(None),
        Order::Reset(index) => Ok(Some(index)),
        _ => {
            text.push_str("ignored\n")?;
            Ok(None)
        }
    }
}

/// Appends the line of why an order was refused. Want of memory has no words, and is answered as such.
#[tactic(auto, unfolding(crate::specs::Answers::event_refusal_line, crate::specs::AnswerLines::refusal_line))]
pub(crate) fn put_order_refusal_line(text: &mut String, fault: OrderFault) -> Result<(), AllocError>
    ensures words { OnOk result (string_bytes text.new ≡ string_bytes text.old ++ event_refusal_line fault) }
    ensures known { OnOk result (fault ≢ faults.Peer peer_faults.NoMemory) }
{
    match fault {
        OrderFault::NoNeighbour => text.push_str("refused NoNeighbour\n"),
        OrderFault::Peer(PeerFault::NotClosed) => text.push_str("refused NotClosed\n"),
        OrderFault::Peer(PeerFault::NotOpen) => text.push_str("refused NotOpen\n"),
        OrderFault::Peer(PeerFault::BadSubmit) => text.push_str("refused BadSubmit\n"),
        OrderFault::Peer(PeerFault::NoMemory) => Err(AllocError),
    }
}

/// Appends how the neighbour of the number stands, where it is there. One that is alone is told without its number.
#[tactic(auto, unfolding(crate::specs::Answers::state_line))]
fn put_state_line_if_there(
    text: &mut String,
    form: Form,
    index: usize,
    peer: Option<&Peer>,
) -> Result<(), AllocError>
    ensures { OnOk result (string_bytes text.new
        ≡ string_bytes text.old ++ state_line form index (option_copied peer.entry)) }
{
    let Some(peer) = peer else {
        return Ok(());
    };
    text.push_str("state ")?;
    if let Form::Several = form {
        put_decimal(text, index as u64)?;
        text.push_str(" ")?;
    }
    put_standing_and_line_end(text, peer)
}

/// Appends how each neighbour stands, in order.
fn put_all_states(text: &mut String, places: &[Option<Peer>]) -> Result<(), AllocError>
    ensures { OnOk result (string_bytes text.new ≡ string_bytes text.old ++ states_lines 0 places.now) }
{
    'place: for index in 0..places.len() {
        put_state_line_if_there(text, Form::Several, index, places[index].as_ref())?;
    }
    Ok(())
}

/// Appends how each of several stands behind an order that concerned all, or else the one that was concerned last; and
/// how a peer stands that is alone, behind each order.
pub(crate) fn put_answer_states(
    text: &mut String,
    form: Form,
    node: &Node,
    asked: Asked<'_>,
    last: Option<usize>,
) -> Result<(), AllocError>
    ensures { OnOk result (string_bytes text.new
        ≡ string_bytes text.old ++ states_behind form asked.entry last (node_state_of node.now).peers) }
{
    match (form, asked, last) {
        (Form::Alone, _, _) => put_state_line_if_there(text, form, 0, node.peer(0)),
        (Form::Several, Asked::Order(Order::ResetAll), _) => {
            put_all_states(text, node.iter().as_slice())
        }
        (Form::Several, _, Some(index)) => {
            put_state_line_if_there(text, form, index, node.peer(index))
        }
        (Form::Several, _, None) => Ok(()),
    }
}
