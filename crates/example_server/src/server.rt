//! The loop of a server.
use crate::happened::{Happened, read_happened};
use anyhow::Result;
use dm_node::{Action, Answer, Conn, Node, Strangers};

pub fn serve<S: Strangers>(
    rt: &(impl Input + Print + AllocGlobal),
    strangers: &S,
    node: &mut Node,
    answer: &mut Answer,
) -> Result<()> {
    for line in rt.lines(rt.alloc()) {
        match read_happened(rt.alloc(), line?.as_bytes())? {
            Happened::Came(conn, piece) => hear(
                rt,
                strangers,
                node,
                conn,
                piece.as_slice(),
                answer,
            )?,
            Happened::Ordered(order) => match node.order(rt.alloc(), order, answer) {
                Ok(()) => perform(rt, answer)?,
                // Nothing has changed: the order can be given again.
                Err(fault) => println!(rt; "refused: {fault}")?,
            },
        }
    }
    Ok(())
}

fn hear<S: Strangers>(
    rt: &(impl Print + AllocGlobal),
    strangers: &S,
    node: &mut Node,
    conn: Conn,
    piece: &[u8],
    answer: &mut Answer,
) -> Result<()> {
    let mut rest = piece;
    // Each call takes an octet at least, where `keep` kept none.
    for _ in 0..piece.len() {
        if rest.is_empty() {
            break;
        }
        // A message that is whole, told its neighbour. At want of memory nothing is taken of `rest`.
        let taken = node.hear(rt.alloc(), strangers, conn, rest, answer)?;
        perform(rt, answer)?;
        rest = rest.get(taken..).unwrap_or_default();
    }
    Ok(())
}

/// Does what is asked for; for the neighbour `answer.neighbour`, or a stranger.
fn perform(rt: &impl Print, answer: &Answer) -> Result<()> {
    for action in answer.actions.iter() {
        match action {
            Action::Connect(conn) => println!(rt; "connect {}", conn.0)?,
            Action::Send(conn, octets) => println!(rt; "send {} {octets}", conn.0)?,
            Action::Close(conn) => println!(rt; "close {}", conn.0)?,
            Action::Up(octets) => println!(rt; "up {octets}")?,
        }
    }
    Ok(())
}
