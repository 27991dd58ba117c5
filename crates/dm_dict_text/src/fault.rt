//! What a dictionary text can have wrong.
ghost use Rattle.std.specs.Prelude.{◌≡◌};

use dm_grammar::ItemFault;
use dm_value::NoMemory;
use std::alloc::{AllocError, AllocFailed};
use thiserror::Error;

/// Why a text gives no dictionary (RFC 6733, 3.2). The number is a line, from 1.
#[derive(Clone, Copy, Debug, PartialEq, Eq, Error)]
pub enum DictFault {
    /// This token can't stand here; or the text ends too early, at its last line.
    #[error("line {0}: this can't stand here")]
    Syntax(usize),
    /// The number is too great, or the maximum is below the minimum.
    #[error("line {0}: number out of range")]
    Range(usize),
    /// The name, or the code, is there already.
    #[error("line {0}: there already")]
    Duplicate(usize),
    /// A fixed entry behind a required or optional one, or a required entry behind an optional one.
    #[error("line {0}: entry out of order")]
    Order(usize),
    /// Nothing defines the name or the type.
    #[error("line {0}: unknown name")]
    UnknownName(usize),
    /// A growth was refused.
    #[error("out of memory")]
    NoMemory,
}

impl From<AllocError> for DictFault {
    ghost use Rattle.dm_dict_text.specs.declared.fault.DictFault.TheVariants as faults;

    ghost from_gives = { λ _ fault. fault ≡ faults.NoMemory };

    fn from(_: AllocError) -> DictFault {
        DictFault::NoMemory
    }
}

impl<T: Drop> From<AllocFailed<T>> for DictFault {
    ghost use Rattle.dm_dict_text.specs.declared.fault.DictFault.TheVariants as faults;

    ghost from_gives = { λ _ fault. fault ≡ faults.NoMemory };

    fn from(_: AllocFailed<T>) -> DictFault {
        DictFault::NoMemory
    }
}

impl From<NoMemory> for DictFault {
    ghost use Rattle.dm_dict_text.specs.declared.fault.DictFault.TheVariants as faults;

    ghost from_gives = { λ _ fault. fault ≡ faults.NoMemory };

    fn from(_: NoMemory) -> DictFault {
        DictFault::NoMemory
    }
}

impl From<ItemFault> for DictFault {
    ghost use Rattle.dm_dict_text.specs.ItemFaults.{of_item_fault};

    ghost from_gives = { λ item fault. fault ≡ of_item_fault item };

    fn from(fault: ItemFault) -> DictFault {
        match fault {
            ItemFault::Syntax(line) => DictFault::Syntax(line),
            ItemFault::NoMemory => DictFault::NoMemory,
        }
    }
}
