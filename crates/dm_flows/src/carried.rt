//! What an IP packet carries.
use crate::address::Address;

/// What an IP packet carries, where it lies.
#[derive(Clone, Copy, Debug)]
pub(crate) struct Carried<'a> {
    pub(crate) source: Address,
    pub(crate) destination: Address,
    pub(crate) protocol: u8,
    /// What was captured of it.
    pub(crate) payload: &'a [u8],
    /// Whether that is all.
    pub(crate) whole: bool,
}
