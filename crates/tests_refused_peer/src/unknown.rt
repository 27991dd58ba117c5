//! A host that is no neighbour and becomes one, with one request for memory refused.
use crate::each::each;
use crate::peers::{config, node};
use crate::rows::CER_OF_B;
use dm_node::{Answer, Node, Open, Order, Strangers};
use dm_peer::{Config, Conn, State};
use dm_refusal::{
    End, Subject, end_of_answered_call, end_of_repeated_call, refuse_nth_request,
    was_request_refused_and_stop,
};
use std::alloc::{AllocError, Global};
use std::process::Abort;

/// Permits each host by this template, while there is no neighbour.
#[derive(Drop)]
struct Permits {
    template: Config,
}

impl Strangers for Permits {
    ghost use Rattle.std.specs.Prelude.{None, Some};

    ghost policy = { λ permits. record { template = λ host. Some permits.template; most = 1; porter = None } };

    fn most(&self) -> usize {
        1
    }

    fn porter(&self) -> Option<usize> {
        None
    }

    fn template(&self, _host: &[u8]) -> Option<&Config> {
        Some(&self.template)
    }
}

/// The connection on which the host calls.
const CONN: Conn = Conn(9);

/// How many octets are told where they lie of what comes on the connection.
type Heard = Result<usize, AllocError>;

/// Whether the host was taken in, and is open.
fn is_taken(node: &Node, heard: &Heard, answer: &Answer) -> bool {
    match heard {
        Ok(_) => {
            answer.neighbour == Some(0)
                && answer.actions.len() == 1
                && node.find(b"b.example") == Some(0)
                && node.state_of(0) == Some(State::ROpen)
        }
        Err(_) => false,
    }
}

fn is_empty(node: &Node) -> bool {
    node.iter().len() == 0 && node.find(b"b.example").is_none() && node.has(CONN)
}

/// The node hears the CER with the nth request refused, and once more where memory was wanted.
fn hear_twice<S: Strangers>(
    alloc: Global,
    node: &mut Node,
    strangers: &S,
    octets: &[u8],
    nth: u32,
    answer: &mut Answer,
) -> End {
    refuse_nth_request(alloc, nth);
    let heard = node.hear(alloc, strangers, CONN, octets, answer);
    let refused = was_request_refused_and_stop(alloc);
    if heard.is_err() {
        let same = is_empty(node);
        let again = node.hear(alloc, strangers, CONN, octets, answer);
        return end_of_repeated_call(refused, same && is_taken(node, &again, answer));
    }
    let right = is_taken(node, &heard, answer);
    // Where the look-up of connections can't grow, the answer is the same.
    if refused {
        end_of_repeated_call(refused, right)
    } else {
        end_of_answered_call(refused, right)
    }
}

/// The same, with an answer that is lent to both calls.
fn hear<S: Strangers>(
    alloc: Global,
    node: &mut Node,
    strangers: &S,
    octets: &[u8],
    nth: u32,
) -> End {
    let mut answer = Answer::new();
    let end = hear_twice(alloc, node, strangers, octets, nth, &mut answer);
    drop(answer);
    end
}

/// Somebody makes the connection.
fn accept(rt: &(impl Abort + AllocGlobal), node: &mut Node) {
    let mut answer = Answer::new();
    let accepted = node.order(rt.alloc(), Order::Accept(CONN), &mut answer);
    drop(answer);
    assert!(rt; accepted.is_ok());
}

/// A node a.example without neighbours, to which somebody made the connection.
fn called(rt: &(impl Abort + AllocGlobal)) -> Node {
    let mut node = Node::new(rt.alloc(), node(rt, b"a.example", 4), 1000, 16_777_212);
    accept(rt, &mut node);
    node
}

/// The CER of an unknown host.
#[derive(Clone, Copy)]
struct Calling<'a> {
    octets: &'a [u8],
}

impl<R: Abort + AllocGlobal> Subject<R> for Calling<'_> {
    fn end_when_refused(&self, rt: &R, nth: u32) -> End {
        let mut node = called(rt);
        let template = config(rt, b"a.example", b"c.example", 4);
        let permits = Permits { template };
        let end = hear(rt.alloc(), &mut node, &permits, self.octets, nth);
        drop(permits);
        drop(node);
        end
    }
}

/// The same, where a template of a.example for c.example takes one neighbour.
#[derive(Clone, Copy)]
struct Alike<'a> {
    octets: &'a [u8],
}

impl<R: Abort + AllocGlobal> Subject<R> for Alike<'_> {
    fn end_when_refused(&self, rt: &R, nth: u32) -> End {
        let mut node = called(rt);
        let open = Open::new(config(rt, b"a.example", b"c.example", 4), 1);
        let end = hear(rt.alloc(), &mut node, &open, self.octets, nth);
        drop(open);
        drop(node);
        end
    }
}

fn check_calling(rt: &(impl Abort + AllocGlobal)) {
    let octets = hex::decode(rt.alloc(), CER_OF_B.as_bytes()).expect(rt, "digits");
    let calling = Calling {
        octets: octets.as_slice(),
    };
    each(rt, &calling, "hear");
}

#[test]
fn unknown_hosts_taken(rt: HostRuntime) {
    check_calling(&rt);
}

fn check_alike(rt: &(impl Abort + AllocGlobal)) {
    let octets = hex::decode(rt.alloc(), CER_OF_B.as_bytes()).expect(rt, "digits");
    let alike = Alike {
        octets: octets.as_slice(),
    };
    each(rt, &alike, "hear by a template");
}

#[test]
fn unknown_hosts_taken_alike(rt: HostRuntime) {
    check_alike(&rt);
}
