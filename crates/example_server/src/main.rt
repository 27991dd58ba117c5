//! A server over a node, with lines in place of sockets and clocks.
//!
//! The first line says who may call: `two`, the neighbours 0 and 1, b.example and c.example; `one`, b.example alone,
//! which is told whatever strangers send; or `open`, each host that calls, ten of them at most. Each further line is
//! what happened to a neighbour N or on a connection C: `start N C`, `ack C`, `nack C`, `accept C`, `gone C`,
//! `timeout N`, `tick N`, `stop N CAUSE`, and `came C HEX`, octets. What is to be done is printed, a line each.
#![tactic(auto)]

mod happened;
mod nodes;
mod server;

use crate::nodes::{node_of, strangers_up_to_ten};
use crate::server::serve;
use anyhow::{Result, bail};
use dm_node::{Alone, Answer};

/// Two neighbours, and nobody else.
fn serve_two(rt: &(impl Input + Print + AllocGlobal), answer: &mut Answer) -> Result<()> {
    let mut node = node_of(rt.alloc(), &[b"b.example", b"c.example"])?;
    let served = serve(rt, &(), &mut node, answer);
    drop(node);
    served
}

/// One peer, which is told whatever strangers send.
fn serve_one_told_of_strangers(
    rt: &(impl Input + Print + AllocGlobal),
    answer: &mut Answer,
) -> Result<()> {
    let mut node = node_of(rt.alloc(), &[b"b.example"])?;
    let served = serve(rt, &Alone, &mut node, answer);
    drop(node);
    served
}

/// A policy for strangers: each is taken in, while there are less than ten.
fn serve_strangers_up_to_ten(
    rt: &(impl Input + Print + AllocGlobal),
    answer: &mut Answer,
) -> Result<()> {
    let strangers = strangers_up_to_ten(rt.alloc())?;
    let mut node = node_of(rt.alloc(), &[])?;
    let served = serve(rt, &strangers, &mut node, answer);
    drop(node);
    served
}

fn main(rt: HostRuntime) -> Result<()> {
    let mut answer = Answer::new();
    let mut first = String::new(rt.alloc());
    rt.read_line(&mut first)?;
    match first.trim() {
        "two" => serve_two(&rt, &mut answer),
        "one" => serve_one_told_of_strangers(&rt, &mut answer),
        "open" => serve_strangers_up_to_ten(&rt, &mut answer),
        _ => bail!("the first line is two, one or open"),
    }
}
