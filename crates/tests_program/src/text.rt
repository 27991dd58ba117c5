//! Texts that are put together.
use std::process::Abort;

/// The pieces, one behind the other.
pub fn joined(rt: &(impl Abort + AllocGlobal), pieces: &[&str]) -> String {
    let mut text = String::new(rt.alloc());
    for piece in pieces {
        text.push_str(piece).expect(rt, "memory");
    }
    text
}

/// The piece so many times, between a head and a tail.
pub fn repeated(
    rt: &(impl Abort + AllocGlobal),
    head: &str,
    piece: &str,
    count: usize,
    tail: &str,
) -> String {
    let mut text = String::from_str(rt.alloc(), head).expect(rt, "memory");
    for _ in 0..count {
        text.push_str(piece).expect(rt, "memory");
    }
    text.push_str(tail).expect(rt, "memory");
    text
}
