//! What happens to a server, told by lines.
use anyhow::{Context, Result, bail};
use dm_node::{Conn, Order};
use dm_text::{Words, read_hex_word};
use dm_words::{next_long_number, next_number, read_disconnect_cause_by_number};
use std::alloc::{AllocError, Global};

/// What happened.
pub enum Happened {
    /// These octets came on the connection.
    Came(Conn, Vec<u8>),
    /// What this order tells.
    Ordered(Order<'static>),
}

/// What a line tells.
pub fn read_happened(alloc: Global, line: &[u8]) -> Result<Happened> {
    let mut left = Words::new(line);
    match left.next() {
        Some(b"came") => read_came(alloc, &mut left)?.context("reading octets"),
        Some(name) => {
            let order = read_order(name, &mut left).context("reading what happened")?;
            Ok(Happened::Ordered(order))
        }
        None => bail!("an empty line"),
    }
}

fn read_came(alloc: Global, left: &mut Words<'_>) -> Result<Option<Happened>, AllocError> {
    let Some(conn) = next_long_number(left) else {
        return Ok(None);
    };
    let Some(word) = left.next() else {
        return Ok(None);
    };
    let octets = read_hex_word(alloc, word)?;
    Ok(octets.map(|octets| Happened::Came(Conn(conn), octets)))
}

fn read_order(name: &[u8], left: &mut Words<'_>) -> Option<Order<'static>> {
    match name {
        b"start" => Some(Order::Start(read_neighbour(left)?, read_conn(left)?)),
        b"ack" => Some(Order::Ack(read_conn(left)?)),
        b"nack" => Some(Order::Nack(read_conn(left)?)),
        b"accept" => Some(Order::Accept(read_conn(left)?)),
        b"gone" => Some(Order::Gone(read_conn(left)?)),
        b"timeout" => Some(Order::Timeout(read_neighbour(left)?)),
        b"tick" => Some(Order::Tick(read_neighbour(left)?)),
        b"stop" => Some(Order::Stop(
            read_neighbour(left)?,
            read_disconnect_cause_by_number(left.next()?)?,
        )),
        _ => None,
    }
}

fn read_neighbour(left: &mut Words<'_>) -> Option<usize> {
    next_number(left).map(|number| number as usize)
}

fn read_conn(left: &mut Words<'_>) -> Option<Conn> {
    next_long_number(left).map(Conn)
}
