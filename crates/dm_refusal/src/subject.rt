//! Calls on an object that may be changed, with their requests for memory refused in turn.
use crate::End;

/// More requests than any call makes.
pub const MOST: u32 = 10_000;

/// A call with what stands round it, under a runtime of type `R`.
pub trait Subject<R> {
    /// How the call ends when its nth request is refused.
    fn end_when_refused(&self, rt: &R, nth: u32) -> End;
}

/// The first request of the call is refused, then the second, and so on, until it doesn't end `Again`: the number of
/// the last, and how the call ended then. It is `Whole` where all is well.
pub fn refuse_in_turn_until_not_again<R, S: Subject<R>>(rt: &R, subject: &S) -> (u32, End) {
    for nth in 1..MOST {
        let end = subject.end_when_refused(rt, nth);
        if end != End::Again {
            return (nth, end);
        }
    }
    (MOST, End::Again)
}
