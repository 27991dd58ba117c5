//! Rules: which AVPs a command or a Grouped AVP may hold.
ghost use Rattle.std.specs.Prelude.{◌≡◌};

use crate::Form;
use dm_wire::{Listed, Octets};
use std::alloc::AllocError;

/// An entry of a rule (RFC 6733, 3.2): how often an AVP may stand there.
#[derive(Debug, Drop, PartialEq, Eq)]
pub struct Entry {
    /// How the entry is bracketed.
    pub form: Form,
    /// The name of the AVP. `AVP` stands for every AVP that no other entry of the rule names.
    pub name: Octets,
    /// The least number of AVPs.
    pub min: u32,
    /// The greatest number of AVPs, where there is a bound.
    pub max: Option<u32>,
}

impl Clone for Entry {
    ghost is_clone = { λ entry copy. copy ≡ entry };

    fn clone(&self) -> Result<Entry, AllocError> {
        Ok(Entry {
            form: self.form,
            name: self.name.clone()?,
            min: self.min,
            max: self.max,
        })
    }
}

/// The entries of a command or of a Grouped AVP, in order (RFC 6733, 3.2).
pub type Rule = Listed<Entry>;
