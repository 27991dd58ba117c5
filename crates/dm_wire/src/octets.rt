//! Runs of octets.
ghost use Rattle.std.specs.Prelude.{◌≡◌, ◌↔◌, IfOk, IfSome, IsSome};
ghost use Rattle.std.specs.Str.{IsUtf8};

use crate::Listed;
use std::alloc::{AllocError, Global};
use std::str;

/// A run of octets, as the data of an AVP (RFC 6733, 4.1).
pub type Octets = Listed<u8>;

impl Listed<u8> {
    /// A copy of the octets, or want of memory.
    pub fn from_slice(alloc: Global, octets: &[u8]) -> Result<Octets, AllocError>
        ensures { IfOk result (λ copy. copy ≡ octets.now) }
    {
        Ok(Octets::from_vec(Vec::from_slice(alloc, octets)?))
    }

    /// The octets as text, as those of a name; None where they aren't UTF-8. It never answers want of memory.
    pub fn as_str(&self) -> Option<&str>
        ensures text { IfSome result (λ text. text.now ≡ self.now) }
        ensures utf8 { IsSome result ↔ IsUtf8 self.now }
    {
        str::from_utf8(self.as_slice()).ok()
    }
}
