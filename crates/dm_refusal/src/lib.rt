//! What tests of refused memory share: orders to the shim `tools/refuse.c`, how a call ended of which a request may
//! have been refused, and its requests refused one after the other.
#![tactic(auto)]

mod ends;
mod making;
mod orders;
mod subject;

pub use ends::{End, end_of_answered_call, end_of_repeated_call, worse_end};
pub use making::{Making, refuse_making_until_not_again};
pub use orders::{
    refuse_each_request, refuse_nth_request, stop_refusing, was_request_larger_than,
    was_request_made_and_stop, was_request_refused_and_stop,
};
pub use subject::{Subject, refuse_in_turn_until_not_again};
