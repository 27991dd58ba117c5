//! A token of the text.

use crate::symbol::Symbol;

/// A token: what it is, its octets, and the line on which it stands, from 1.
#[derive(Clone, Copy)]
pub struct Token<'a> {
    pub symbol: Symbol,
    pub text: &'a [u8],
    pub line: usize,
}
