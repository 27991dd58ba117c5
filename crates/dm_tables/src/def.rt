//! Definitions of vendors, of AVPs and of commands.
ghost use Rattle.std.specs.Prelude.{◌≡◌};

use crate::{AvpType, Rule, Values};
use dm_wire::Octets;
use std::alloc::AllocError;

/// A vendor: the name that a dictionary text may write for its Vendor-ID (RFC 6733, 4.1; names are own).
#[derive(Debug, Drop, PartialEq, Eq)]
pub struct VendorDef {
    /// The name.
    pub name: Octets,
    /// The Vendor-ID.
    pub number: u32,
}

impl Clone for VendorDef {
    ghost is_clone = { λ vendor copy. copy ≡ vendor };

    fn clone(&self) -> Result<VendorDef, AllocError> {
        Ok(VendorDef {
            name: self.name.clone()?,
            number: self.number,
        })
    }
}

/// The definition of an AVP (RFC 6733, 4.4 and 4.5).
#[derive(Debug, Drop, PartialEq, Eq)]
pub struct AvpDef {
    /// The name.
    pub name: Octets,
    /// The AVP Code.
    pub code: u32,
    /// The Vendor-ID, where the AVP has one.
    pub vendor: Option<u32>,
    /// The type of the data.
    pub kind: AvpType,
    /// The rule of a Grouped AVP. It is empty for the other types.
    pub rule: Rule,
    /// The values that an Enumerated AVP lists. They are empty where there is no list, and for the other types.
    pub values: Values,
}

impl Clone for AvpDef {
    ghost is_clone = { λ avp copy. copy ≡ avp };

    fn clone(&self) -> Result<AvpDef, AllocError> {
        Ok(AvpDef {
            name: self.name.clone()?,
            code: self.code,
            vendor: self.vendor,
            kind: self.kind,
            rule: self.rule.clone()?,
            values: self.values.clone()?,
        })
    }
}

/// The definition of a command (RFC 6733, 3.1 and 3.2).
#[derive(Debug, Drop, PartialEq, Eq)]
pub struct CommandDef {
    /// The name.
    pub name: Octets,
    /// The Command Code, at most 16777215.
    pub code: u32,
    /// REQ: a request, else an answer.
    pub request: bool,
    /// PXY: it may be proxied.
    pub proxiable: bool,
    /// ERR: an answer that reports an error.
    pub err: bool,
    /// The Application-ID.
    pub application: u32,
    /// The rule.
    pub rule: Rule,
}

impl Clone for CommandDef {
    ghost is_clone = { λ command copy. copy ≡ command };

    fn clone(&self) -> Result<CommandDef, AllocError> {
        Ok(CommandDef {
            name: self.name.clone()?,
            code: self.code,
            request: self.request,
            proxiable: self.proxiable,
            err: self.err,
            application: self.application,
            rule: self.rule.clone()?,
        })
    }
}
