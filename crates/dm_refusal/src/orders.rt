//! Orders to the shim `tools/refuse.c`, and its answers.
//!
//! No block of 2^62 octets or more is ever to be had. Where the shim is loaded before the C library, a request for one
//! is an order or a question to it. Elsewhere all of them are refused, nothing else is, and each question is answered
//! no.
use std::alloc::{AllocError, Global};

/// An order: the request of this number from here on is refused, none at 0.
const ORDER: usize = 1 << 62;

/// An order: each request from that of this number on is refused.
const EACH: usize = ORDER | 1 << 61;

/// Whether a request was refused since the last order.
const REFUSED: usize = ORDER | 1 << 60;

/// Whether a request was made since the last order.
const ASKED: usize = ORDER | 1 << 59;

/// Whether a request for more than so many octets was made since the last order.
const LARGER: usize = ORDER | 1 << 58;

/// Whether a block of so many octets is to be had.
fn try_allocate(alloc: Global, size: usize) -> bool {
    let block: Result<Vec<u8>, AllocError> = Vec::with_capacity(alloc, size);
    block.is_ok()
}

/// The nth request from here on, counted from 1, is refused; at 0 none is.
pub fn refuse_nth_request(alloc: Global, nth: u32) {
    try_allocate(alloc, ORDER | (nth as usize));
}

/// No request from here on is refused.
pub fn stop_refusing(alloc: Global) {
    refuse_nth_request(alloc, 0);
}

/// Each request from here on is refused.
pub fn refuse_each_request(alloc: Global) {
    try_allocate(alloc, EACH | 1);
}

/// Whether a request was refused since the last order. This is an order too: none is refused from here on.
pub fn was_request_refused_and_stop(alloc: Global) -> bool {
    let refused = try_allocate(alloc, REFUSED);
    stop_refusing(alloc);
    refused
}

/// Whether a request was made since the last order, refused or not. This is an order too: none is refused from here on.
pub fn was_request_made_and_stop(alloc: Global) -> bool {
    let asked = try_allocate(alloc, ASKED);
    stop_refusing(alloc);
    asked
}

/// Whether more than so many octets were asked for at once since the last order.
pub fn was_request_larger_than(alloc: Global, octets: u32) -> bool {
    try_allocate(alloc, LARGER | (octets as usize))
}
