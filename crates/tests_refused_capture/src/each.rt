//! Each request of a call refused in turn.
use dm_refusal::{End, Subject, refuse_in_turn_until_not_again};
use std::process::Abort;

/// The call ends well whichever of its requests is refused.
pub fn each<R: Abort>(rt: &R, subject: &impl Subject<R>, name: &str) {
    let (nth, end) = refuse_in_turn_until_not_again(rt, subject);
    assert!(rt; end == End::Whole, "{name}: {end:?} at request {nth}");
}
