//! Runs of one peer: where memory is wanted a run stops, and what wasn't told can be told in a further one.
use crate::each::each;
use crate::peers::{are_same, peer};
use crate::rows::{CER, SUBMITTED};
use dm_history::running::run;
use dm_peer::{Actions, Conn, Event, Peer, PeerFault};
use dm_refusal::{
    End, Subject, end_of_answered_call, end_of_repeated_call, refuse_nth_request,
    was_request_refused_and_stop,
};
use std::process::Abort;

fn is_same_reply(one: &Result<Actions, PeerFault>, other: &Result<Actions, PeerFault>) -> bool {
    match (one, other) {
        (Ok(actions), Ok(others)) => are_same(actions.as_slice(), others.as_slice()),
        (Err(one), Err(other)) => one == other,
        _ => false,
    }
}

/// Whether the replies stand among all, from this place on.
fn stand_at(
    replies: &[Result<Actions, PeerFault>],
    all: &[Result<Actions, PeerFault>],
    place: usize,
) -> bool {
    for (reply, other) in replies.iter().zip(all.iter().skip(place)) {
        if !is_same_reply(reply, other) {
            return false;
        }
    }
    true
}

/// Whether the replies of two runs are those of one, one behind the other.
fn are_cut(
    first: &[Result<Actions, PeerFault>],
    rest: &[Result<Actions, PeerFault>],
    all: &[Result<Actions, PeerFault>],
) -> bool {
    all.len().checked_sub(first.len()) == Some(rest.len())
        && stand_at(first, all, 0)
        && stand_at(rest, all, first.len())
}

/// The octets that a run brings.
#[derive(Clone, Copy)]
struct Brought<'a> {
    cer: &'a [u8],
    message: &'a [u8],
}

/// A run with the nth request refused, and a further one where it stopped, beside one with memory.
fn end_beside(
    rt: &(impl Abort + AllocGlobal),
    one: &mut Peer,
    twin: &mut Peer,
    events: &[Event<'_>],
    nth: u32,
) -> End {
    let all = run(twin, rt.alloc(), events);
    refuse_nth_request(rt.alloc(), nth);
    let first = run(one, rt.alloc(), events);
    let refused = was_request_refused_and_stop(rt.alloc());
    let count = first.replies.len();
    let rest = run(one, rt.alloc(), &events[count..]);
    let right = are_cut(
        first.replies.as_slice(),
        rest.replies.as_slice(),
        all.replies.as_slice(),
    );
    drop(first);
    drop(rest);
    drop(all);
    if count == events.len() {
        end_of_answered_call(refused, right)
    } else {
        end_of_repeated_call(refused, right)
    }
}

impl<R: Abort + AllocGlobal> Subject<R> for Brought<'_> {
    fn end_when_refused(&self, rt: &R, nth: u32) -> End {
        let events = [
            Event::Arrived(Conn(7), self.cer),
            Event::Start(Conn(8)),
            Event::Arrived(Conn(7), self.message),
            Event::Submit(self.message),
            Event::Tick,
            Event::Gone(Conn(7)),
        ];
        let mut one = peer(rt, b"B.example", b"a.example", 4);
        let mut twin = peer(rt, b"B.example", b"a.example", 4);
        let end = end_beside(rt, &mut one, &mut twin, &events, nth);
        drop(twin);
        drop(one);
        end
    }
}

fn check_run(rt: &(impl Abort + AllocGlobal)) {
    let cer = hex::decode(rt.alloc(), CER.as_bytes()).expect(rt, "digits");
    let message = hex::decode(rt.alloc(), SUBMITTED.as_bytes()).expect(rt, "digits");
    let brought = Brought {
        cer: cer.as_slice(),
        message: message.as_slice(),
    };
    each(rt, &brought, "run");
    drop(message);
    drop(cer);
}

#[test]
fn runs_stop_and_go_on(rt: HostRuntime) {
    check_run(&rt);
}
