//! AVPs whose data lies where it is held or was read (RFC 6733, 4.1).
ghost use Rattle.std.specs.Prelude.{◌≡◌, IfOk};
ghost use Rattle.dm_wire.specs.Borrowed.{avp_of};

use crate::{Avp, Octets};
use std::alloc::{AllocError, Global};

/// An AVP whose data lies where it is held or was read (RFC 6733, 4.1).
#[derive(Clone, Copy, Debug)]
pub struct AvpRef<'a> {
    /// The AVP Code.
    pub code: u32,
    /// The Vendor-ID, where the V bit is set.
    pub vendor: Option<u32>,
    /// The M bit.
    pub mandatory: bool,
    /// The P bit.
    pub protected: bool,
    /// The data, without padding.
    pub bytes: &'a [u8],
}

impl AvpRef<'_> {
    /// The AVP with a copy of its data, or want of memory.
    pub fn copied(&self, alloc: Global) -> Result<Avp, AllocError>
        ensures { IfOk result (λ avp. avp ≡ avp_of self.now) }
    {
        Ok(Avp {
            code: self.code,
            vendor: self.vendor,
            mandatory: self.mandatory,
            protected: self.protected,
            bytes: Octets::from_slice(alloc, self.bytes)?,
        })
    }
}

impl Avp {
    /// The AVP with its data where it lies. It never answers want of memory.
    pub fn borrowed(&self) -> AvpRef<'_>
        ensures { avp_of result ≡ self.now }
    {
        AvpRef {
            code: self.code,
            vendor: self.vendor,
            mandatory: self.mandatory,
            protected: self.protected,
            bytes: self.bytes.as_slice(),
        }
    }
}
