//! The law of deliveries: each message once, and in order, whatever is lost.
use super::pair::{Beside, Pair, number_of};
use dm_peer::State;
use std::process::Abort;

/// Whether the law holds of both sides, and whether the turned one does.
///
/// What was handed up to a side is a front of what the other side submitted; where the side is open and the link wasn't
/// lost, the rest is under way. Turned: .. if the link was lost or not.
pub(super) fn judge_delivery(rt: &(impl Abort + AllocGlobal), pair: &Pair) -> (bool, bool) {
    let (a, left) = judge_side(rt, &pair.a);
    let (b, right) = judge_side(rt, &pair.b);
    (a && b, left && right)
}

fn judge_side(rt: &(impl Abort + AllocGlobal), side: &Beside) -> (bool, bool) {
    let front = side
        .submitted
        .as_slice()
        .starts_with(side.handed.as_slice());
    let rest = is_rest(rt, side);
    let idle = !is_open(side);
    (
        front && (idle || side.lost || rest),
        front && (idle || rest),
    )
}

fn is_open(side: &Beside) -> bool {
    match side.peer.state() {
        State::IOpen | State::ROpen => !side.shut,
        _ => false,
    }
}

/// What was submitted is what was handed up, and then the messages of users that are under way.
fn is_rest(rt: &(impl Abort + AllocGlobal), side: &Beside) -> bool {
    let mut all = Vec::new(rt.alloc());
    all.extend_from_slice(side.handed.as_slice())
        .expect(rt, "memory");
    for (place, octets) in side.sent.iter().enumerate() {
        let number = number_of(octets.as_slice());
        if place >= side.past && is_of_a_user(octets.as_slice()) {
            all.push(number).expect(rt, "memory");
        }
    }
    let same = all == side.submitted;
    drop(all);
    same
}

/// The octets are a message of another command than the base ones.
fn is_of_a_user(octets: &[u8]) -> bool {
    octets.get(5) == Some(&0) && octets.get(6) == Some(&1) && octets.get(7) == Some(&44)
}
