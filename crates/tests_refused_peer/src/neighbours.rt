//! Neighbours of a node, with one request for memory refused. A twin, of which none is refused, is told the same.
use crate::each::each;
use crate::nodes::{Call, Driven, call_once, make_driven, policy};
use crate::rows::{CER, CER_OF_B, SUBMITTED, octets};
use dm_node::{Open, Order};
use dm_peer::Conn;
use dm_refusal::{End, Subject, worse_end};
use std::alloc::Global;
use std::process::Abort;

/// A stranger's CER, that of the neighbour, and a message of an application; the call of this place with a refusal.
#[derive(Clone, Copy)]
struct Telling<'a> {
    strange: &'a [u8],
    known: &'a [u8],
    message: &'a [u8],
    place: usize,
}

/// How many calls there are.
const CALLS: usize = 7;

/// Each connection is accepted first.
fn calls<'a>(telling: &Telling<'a>) -> [Call<'a>; CALLS] {
    [
        Call::Order(Order::Start(0, Conn(1))),
        Call::Order(Order::Accept(Conn(7))),
        Call::Hear(Conn(7), telling.strange),
        Call::Order(Order::Nack(Conn(1))),
        Call::Order(Order::Accept(Conn(9))),
        Call::Hear(Conn(9), telling.known),
        Call::Order(Order::Submit(0, telling.message)),
    ]
}

/// One after the other, the one of this place with the nth request refused.
fn tell_all(
    alloc: Global,
    one: &mut Driven,
    twin: &mut Driven,
    policy: &Open,
    telling: &Telling<'_>,
    nth: u32,
) -> End {
    let mut end = End::Whole;
    for (at, call) in calls(telling).iter().enumerate() {
        let nth = if at == telling.place { nth } else { 0 };
        end = worse_end(end, call_once(alloc, one, twin, policy, *call, nth));
    }
    end
}

impl<R: Abort + AllocGlobal> Subject<R> for Telling<'_> {
    fn end_when_refused(&self, rt: &R, nth: u32) -> End {
        let mut one = make_driven(rt);
        let mut twin = make_driven(rt);
        let policy = policy(rt);
        let end = tell_all(rt.alloc(), &mut one, &mut twin, &policy, self, nth);
        drop(policy);
        drop(twin);
        drop(one);
        end
    }
}

fn check_places(rt: &(impl Abort + AllocGlobal)) {
    let strange = octets(rt, CER);
    let known = octets(rt, CER_OF_B);
    let message = octets(rt, SUBMITTED);
    for place in 0..CALLS {
        let telling = Telling {
            strange: strange.as_slice(),
            known: known.as_slice(),
            message: message.as_slice(),
            place,
        };
        each(rt, &telling, "a neighbour");
    }
}

#[test]
fn neighbours_told(rt: HostRuntime) {
    check_places(&rt);
}
