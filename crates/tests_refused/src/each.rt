//! Each request of a call refused in turn.
use dm_refusal::{
    End, Making, Subject, refuse_in_turn_until_not_again, refuse_making_until_not_again,
};
use std::process::Abort;

/// The call ends well whichever of its requests is refused.
pub fn each<R: Abort>(rt: &R, subject: &impl Subject<R>, name: &str) {
    let (nth, end) = refuse_in_turn_until_not_again(rt, subject);
    assert!(rt; end == End::Whole, "{name}: {end:?} at request {nth}");
}

/// The same of a call that makes something.
pub fn each_made(rt: &(impl Abort + AllocGlobal), making: &impl Making, name: &str) {
    let (nth, end) = refuse_making_until_not_again(rt.alloc(), making);
    assert!(rt; end == End::Whole, "{name}: {end:?} at request {nth}");
}
