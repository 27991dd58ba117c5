//! Calls that make something of what they borrow, with their requests for memory refused in turn.
use crate::subject::MOST;
use crate::{
    End, end_of_answered_call, end_of_repeated_call, refuse_nth_request,
    was_request_refused_and_stop,
};
use std::alloc::Global;

/// A call that makes something, with what it borrows.
pub trait Making {
    /// What it makes.
    type Made: Drop;
    /// What it refuses with.
    type Fault: Drop;

    /// The call.
    fn call(&self, alloc: Global) -> Result<Self::Made, Self::Fault>;

    /// Whether the fault is want of memory.
    fn is_want_of_memory(&self, fault: &Self::Fault) -> bool;

    /// Whether this is what the call makes where there is memory.
    fn is_as_expected(&self, alloc: Global, made: &Self::Made) -> bool;
}

/// Whether the call, done with memory, makes its row.
fn makes_as_expected<M: Making>(alloc: Global, making: &M) -> bool {
    match making.call(alloc) {
        Ok(made) => making.is_as_expected(alloc, &made),
        Err(_) => false,
    }
}

/// Makes the call with its nth request for memory refused, and tells how it ends.
fn call_with_nth_refused<M: Making>(alloc: Global, making: &M, nth: u32) -> End {
    refuse_nth_request(alloc, nth);
    let first = making.call(alloc);
    let refused = was_request_refused_and_stop(alloc);
    match first {
        Ok(made) => end_of_answered_call(refused, making.is_as_expected(alloc, &made)),
        Err(fault) => {
            if making.is_want_of_memory(&fault) {
                end_of_repeated_call(refused, makes_as_expected(alloc, making))
            } else {
                End::Fault
            }
        }
    }
}

/// The first request of a call that makes something is refused, then the second, and so on, until it doesn't end
/// `Again`: the number of the last, and how the call ended then. It is `Whole` where all is well.
pub fn refuse_making_until_not_again<M: Making>(alloc: Global, making: &M) -> (u32, End) {
    for nth in 1..MOST {
        let end = call_with_nth_refused(alloc, making, nth);
        if end != End::Again {
            return (nth, end);
        }
    }
    (MOST, End::Again)
}
