//! The lines of orders, read.
ghost use Rattle.std.specs.Prelude.{◌≡◌, ◌≢◌, IfOk, MatchOption};
ghost use Rattle.dm_text.specs.Words.{words};
ghost use Rattle.dm_live.specs.declared.order_line.OrderLine.{OrderLine as OneOrder};
ghost use Rattle.dm_live.specs.OrderLines.{node_asked, ReadsNamed, TellsOrder};

use crate::asked::Asked;
use crate::form::Form;
use crate::order_name::{OrderName, read_order_name};
use crate::order_words::{next_neighbour, only_conn_left, only_neighbour_left};
use dm_base::Cause;
use dm_machine::Conn;
use dm_node::Order;
use dm_text::{Words, read_hex_word, read_long_number};
use dm_wire::Octets;
use dm_words::{next_long_number, only_word_left, read_disconnect_cause_by_number};
use std::alloc::{AllocError, Global};

/// An order as a line tells it, with its octets. A peer is named by its number, which is 0 where it is alone.
#[derive(Debug, Drop)]
pub enum OrderLine {
    Start(usize, Conn),
    Ack(Conn),
    Nack(Conn),
    Accept(Conn),
    Octets(Conn, Octets),
    Gone(Conn),
    Timeout(usize),
    Tick(usize),
    Stop(usize, Cause),
    Submit(usize, Octets),
    Reset(usize),
    ResetAll,
}

impl OrderLine {
    /// What it asks of a node. It never answers want of memory.
    pub fn as_order_or_piece(&self) -> Asked<'_>
        ensures { node_asked result ≡ self.now }
    {
        match self {
            OrderLine::Start(index, conn) => Asked::Order(Order::Start(*index, *conn)),
            OrderLine::Ack(conn) => Asked::Order(Order::Ack(*conn)),
            OrderLine::Nack(conn) => Asked::Order(Order::Nack(*conn)),
            OrderLine::Accept(conn) => Asked::Order(Order::Accept(*conn)),
            OrderLine::Octets(conn, piece) => Asked::Piece(*conn, piece.as_slice()),
            OrderLine::Gone(conn) => Asked::Order(Order::Gone(*conn)),
            OrderLine::Timeout(index) => Asked::Order(Order::Timeout(*index)),
            OrderLine::Tick(index) => Asked::Order(Order::Tick(*index)),
            OrderLine::Stop(index, cause) => Asked::Order(Order::Stop(*index, *cause)),
            OrderLine::Submit(index, octets) => Asked::Order(Order::Submit(
                *index,
                octets.as_slice(),
            )),
            OrderLine::Reset(index) => Asked::Order(Order::Reset(*index)),
            OrderLine::ResetAll => Asked::Order(Order::ResetAll),
        }
    }
}

/// The order that a line tells; None where it tells none.
pub fn read_order_line(
    alloc: Global,
    form: Form,
    line: &[u8],
) -> Result<Option<OrderLine>, AllocError>
    ensures { IfOk result (λ read. MatchOption read ((o : OneOrder) → TellsOrder form o line.now → ⊥)
        (λ o. TellsOrder form o line.now)) }
{
    let mut left = Words::new(line);
    let Some(word) = left.next() else {
        return Ok(None);
    };
    match read_order_name(word) {
        Some(OrderName::Octets) => read_piece(alloc, form, &mut left),
        Some(OrderName::Submit) => read_submit(alloc, form, &mut left),
        Some(name) => Ok(read_order_of_name(form, name, &mut left)),
        None => Ok(None),
    }
}

/// The order of this name and of the words behind that; None where these are others.
fn read_order_of_name(form: Form, name: OrderName, left: &mut Words<'_>) -> Option<OrderLine>
    requires octets { name ≢ OrderName.Octets }
    requires submit { name ≢ OrderName.Submit }
    ensures { ReadsNamed form name (words left.old) result }
{
    match name {
        OrderName::Start => {
            let index = next_neighbour(form, left)?;
            let conn = only_conn_left(left)?;
            Some(OrderLine::Start(index, conn))
        }
        OrderName::Ack => Some(OrderLine::Ack(only_conn_left(left)?)),
        OrderName::Nack => Some(OrderLine::Nack(only_conn_left(left)?)),
        OrderName::Accept => Some(OrderLine::Accept(only_conn_left(left)?)),
        OrderName::Gone => Some(OrderLine::Gone(only_conn_left(left)?)),
        OrderName::Timeout => Some(OrderLine::Timeout(only_neighbour_left(form, left)?)),
        OrderName::Tick => Some(OrderLine::Tick(only_neighbour_left(form, left)?)),
        OrderName::Stop => {
            let index = next_neighbour(form, left)?;
            let cause = read_disconnect_cause_by_number(only_word_left(left)?)?;
            Some(OrderLine::Stop(index, cause))
        }
        OrderName::Reset => match (left.next(), form) {
            (None, _) => Some(OrderLine::ResetAll),
            (Some(_), Form::Alone) => None,
            (Some(word), Form::Several) => {
                let index = read_long_number(word)?;
                if left.next().is_some() {
                    return None;
                }
                Some(OrderLine::Reset(index as usize))
            }
        },
        OrderName::Octets | OrderName::Submit => None,
    }
}

/// The piece that came on a connection, in hexadecimal; None where the words tell none.
fn read_piece(
    alloc: Global,
    form: Form,
    left: &mut Words<'_>,
) -> Result<Option<OrderLine>, AllocError>
    ensures { IfOk result (λ read. ReadsNamed form OrderName.Octets (words left.old) read) }
{
    let (Some(conn), Some(word)) = (next_long_number(left).map(Conn), only_word_left(left)) else {
        return Ok(None);
    };
    match read_hex_word(alloc, word)? {
        Some(piece) => Ok(Some(OrderLine::Octets(conn, Octets::from_vec(piece)))),
        None => Ok(None),
    }
}

/// The order to send a neighbour a message of the user, in hexadecimal; None where the words tell none.
fn read_submit(
    alloc: Global,
    form: Form,
    left: &mut Words<'_>,
) -> Result<Option<OrderLine>, AllocError>
    ensures { IfOk result (λ read. ReadsNamed form OrderName.Submit (words left.old) read) }
{
    let (Some(index), Some(word)) = (next_neighbour(form, left), only_word_left(left)) else {
        return Ok(None);
    };
    match read_hex_word(alloc, word)? {
        Some(octets) => Ok(Some(OrderLine::Submit(index, Octets::from_vec(octets)))),
        None => Ok(None),
    }
}
