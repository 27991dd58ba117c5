//! Nodes, with one request for memory refused. A twin, of which none is refused, is told the same.
use crate::each::each;
use crate::peers::{are_same, config, node};
use crate::rows::{CER, CER_OF_B, CER_OF_C, SUBMITTED, octets};
use dm_node::{AddFault, Answer, Config, Conn, Node, Open, Order, OrderFault, PeerFault};
use dm_refusal::{
    End, Subject, end_of_answered_call, end_of_repeated_call, refuse_nth_request,
    was_request_refused_and_stop, worse_end,
};
use std::alloc::{AllocError, Global};
use std::process::Abort;

/// The node a.example with the neighbour b.example.
fn of_one(rt: &(impl Abort + AllocGlobal)) -> Node {
    let mut node = Node::new(rt.alloc(), node(rt, b"a.example", 4), 1000, 16_777_212);
    let _number = node.add(config(rt, b"a.example", b"B.example", 4));
    node
}

/// A node, and the answer that is lent to each of its calls.
#[derive(Drop)]
pub struct Driven {
    node: Node,
    answer: Answer,
}

/// That node, which was told nothing.
pub fn make_driven(rt: &(impl Abort + AllocGlobal)) -> Driven {
    Driven {
        node: of_one(rt),
        answer: Answer::new(),
    }
}

/// A policy that takes each host, while there are fewer than two neighbours.
pub fn policy(rt: &(impl Abort + AllocGlobal)) -> Open {
    Open::new(config(rt, b"a.example", b"d.example", 4), 2)
}

/// A call of a node.
#[derive(Clone, Copy)]
pub enum Call<'a> {
    /// An order is given.
    Order(Order<'a>),
    /// What came on a connection is kept.
    Keep(Conn, &'a [u8]),
    /// It is told, by no policy or by one.
    Next(Conn),
    NextBy(Conn),
    /// What comes on a connection is heard, by no policy or by one.
    Hear(Conn, &'a [u8]),
    HearBy(Conn, &'a [u8]),
}

/// What a call answered, but for what it asks for.
#[derive(Clone, Copy, PartialEq, Eq)]
enum Reply {
    Memory,
    Fault(OrderFault),
    /// So many octets were taken.
    Done(usize),
}

fn ordered(done: Result<(), OrderFault>) -> Reply {
    match done {
        Ok(()) => Reply::Done(0),
        Err(OrderFault::Peer(PeerFault::NoMemory)) => Reply::Memory,
        Err(fault) => Reply::Fault(fault),
    }
}

fn told(done: Result<(), AllocError>) -> Reply {
    match done {
        Ok(()) => Reply::Done(0),
        Err(_) => Reply::Memory,
    }
}

fn heard(found: Result<usize, AllocError>) -> Reply {
    match found {
        Ok(length) => Reply::Done(length),
        Err(_) => Reply::Memory,
    }
}

fn respond(alloc: Global, it: &mut Driven, policy: &Open, call: Call<'_>) -> Reply {
    let (node, answer) = (&mut it.node, &mut it.answer);
    match call {
        Call::Order(order) => ordered(node.order(alloc, order, answer)),
        Call::Keep(conn, piece) => told(node.keep(conn, piece)),
        Call::Next(conn) => told(node.next(alloc, &(), conn, answer)),
        Call::NextBy(conn) => told(node.next(alloc, policy, conn, answer)),
        Call::Hear(conn, piece) => heard(node.hear(alloc, &(), conn, piece, answer)),
        Call::HearBy(conn, piece) => heard(node.hear(alloc, policy, conn, piece, answer)),
    }
}

/// Whether both ask for the same.
fn is_same_answer(one: &Answer, other: &Answer) -> bool {
    one.told == other.told
        && one.neighbour == other.neighbour
        && are_same(one.actions.as_slice(), other.actions.as_slice())
}

/// Whether the connection is there in both, and one neighbour of both holds it.
fn is_same_at(one: &Node, other: &Node, conn: Conn) -> bool {
    one.has(conn) == other.has(conn) && one.holder(conn) == other.holder(conn)
}

/// Whether both nodes tell the same of themselves.
fn is_same_node(one: &Node, other: &Node) -> bool {
    one.iter().len() == other.iter().len()
        && one.state_of(0) == other.state_of(0)
        && one.state_of(1) == other.state_of(1)
        && is_same_at(one, other, Conn(1))
        && is_same_at(one, other, Conn(7))
        && is_same_at(one, other, Conn(8))
        && is_same_at(one, other, Conn(9))
}

/// Whether both were told the same, ask for the same, and tell the same of themselves.
fn is_same(one: &Driven, other: &Driven) -> bool {
    is_same_answer(&one.answer, &other.answer) && is_same_node(&one.node, &other.node)
}

/// Both are called with memory, and do the same.
fn call_both(
    alloc: Global,
    one: &mut Driven,
    twin: &mut Driven,
    policy: &Open,
    call: Call<'_>,
) -> bool {
    let first = respond(alloc, one, policy, call);
    let second = respond(alloc, twin, policy, call);
    first != Reply::Memory && first == second && is_same(one, twin)
}

/// The node is called with the nth request refused, and once more where memory was wanted.
pub fn call_once(
    alloc: Global,
    one: &mut Driven,
    twin: &mut Driven,
    policy: &Open,
    call: Call<'_>,
    nth: u32,
) -> End {
    refuse_nth_request(alloc, nth);
    let first = respond(alloc, one, policy, call);
    let refused = was_request_refused_and_stop(alloc);
    if first == Reply::Memory {
        let same = is_same_node(&one.node, &twin.node);
        return end_of_repeated_call(refused, same && call_both(alloc, one, twin, policy, call));
    }
    // Where the look-up of connections can't grow, neighbours are asked one by one, and the answer is the same.
    let second = respond(alloc, twin, policy, call);
    let right = first == second && is_same(one, twin);
    if refused {
        end_of_repeated_call(refused, right)
    } else {
        end_of_answered_call(refused, right)
    }
}

/// The messages of a run: a stranger's CER, that of the neighbour, that of a host that is permitted, and a message of
/// an application. The host that is permitted is heard where its CER lies, or that is kept first. The call of this
/// place has a refusal.
#[derive(Clone, Copy)]
struct Run<'a> {
    strange: &'a [u8],
    known: &'a [u8],
    permitted: &'a [u8],
    message: &'a [u8],
    is_in_place: bool,
    place: usize,
}

/// How many calls a run has.
const CALLS: usize = 14;

/// The CER of the host that is permitted comes.
fn coming<'a>(run: &Run<'a>) -> Call<'a> {
    if run.is_in_place {
        Call::HearBy(Conn(8), run.permitted)
    } else {
        Call::Keep(Conn(8), run.permitted)
    }
}

/// A connect that can't be made; a stranger; b.example, which calls; c.example, which is permitted, and breaks off.
fn calls<'a>(run: &Run<'a>) -> [Call<'a>; CALLS] {
    let (front, back) = run.message.split_at(run.message.len() / 2);
    [
        Call::Order(Order::Start(0, Conn(1))),
        Call::Order(Order::Nack(Conn(1))),
        Call::Order(Order::Accept(Conn(7))),
        Call::Keep(Conn(7), run.strange),
        Call::Next(Conn(7)),
        Call::Order(Order::Accept(Conn(9))),
        Call::Hear(Conn(9), run.known),
        Call::Order(Order::Submit(0, run.message)),
        Call::Order(Order::Accept(Conn(8))),
        coming(run),
        Call::NextBy(Conn(8)),
        Call::HearBy(Conn(8), front),
        Call::HearBy(Conn(8), back),
        Call::Order(Order::Gone(Conn(9))),
    ]
}

/// One after the other, the one of the place with the nth request refused.
fn call_all(
    alloc: Global,
    one: &mut Driven,
    twin: &mut Driven,
    policy: &Open,
    run: &Run<'_>,
    nth: u32,
) -> End {
    let mut end = End::Whole;
    for (at, call) in calls(run).iter().enumerate() {
        let nth = if at == run.place { nth } else { 0 };
        end = worse_end(end, call_once(alloc, one, twin, policy, *call, nth));
    }
    end
}

impl<R: Abort + AllocGlobal> Subject<R> for Run<'_> {
    fn end_when_refused(&self, rt: &R, nth: u32) -> End {
        let mut one = make_driven(rt);
        let mut twin = make_driven(rt);
        let policy = policy(rt);
        let end = call_all(rt.alloc(), &mut one, &mut twin, &policy, self, nth);
        drop(policy);
        drop(twin);
        drop(one);
        end
    }
}

fn check_runs(rt: &(impl Abort + AllocGlobal), is_in_place: bool) {
    let strange = octets(rt, CER);
    let known = octets(rt, CER_OF_B);
    let permitted = octets(rt, CER_OF_C);
    let message = octets(rt, SUBMITTED);
    for place in 0..CALLS {
        let run = Run {
            strange: strange.as_slice(),
            known: known.as_slice(),
            permitted: permitted.as_slice(),
            message: message.as_slice(),
            is_in_place,
            place,
        };
        each(rt, &run, "a node");
    }
}

#[test]
fn nodes_told(rt: HostRuntime) {
    check_runs(&rt, false);
}

#[test]
fn nodes_told_in_place(rt: HostRuntime) {
    check_runs(&rt, true);
}

/// A fifth neighbour, of this host: the list of four has no room for it.
#[derive(Clone, Copy)]
struct Adding<'a> {
    host: &'a [u8],
}

fn added_end(node: &mut Node, again: Config, added: Result<usize, AddFault>, refused: bool) -> End {
    match added {
        Err(AddFault::NoMemory) => {
            let same = node.iter().len() == 4;
            end_of_repeated_call(refused, node.add(again) == Ok(4) && same)
        }
        added => {
            let known = node.add(again) == Err(AddFault::Known);
            end_of_answered_call(refused, added == Ok(4) && known)
        }
    }
}

impl<R: Abort + AllocGlobal> Subject<R> for Adding<'_> {
    fn end_when_refused(&self, rt: &R, nth: u32) -> End {
        let mut node = of_one(rt);
        for host in [b"d.example", b"e.example", b"f.example"] {
            let _added = node.add(config(rt, b"a.example", host, 4));
        }
        let first = config(rt, b"a.example", self.host, 4);
        let second = config(rt, b"a.example", self.host, 4);
        refuse_nth_request(rt.alloc(), nth);
        let added = node.add(first);
        let refused = was_request_refused_and_stop(rt.alloc());
        let end = added_end(&mut node, second, added, refused);
        drop(node);
        end
    }
}

fn check_adding(rt: &(impl Abort + AllocGlobal)) {
    let adding = Adding { host: b"c.example" };
    each(rt, &adding, "add");
}

#[test]
fn neighbours_join(rt: HostRuntime) {
    check_adding(&rt);
}
