//! The base dictionary, which many configurations have.
ghost use Rattle.std.specs.Prelude.{◌≡◌, IfOk};
ghost use Rattle.dm_tables.specs.Base.{base_definitions};

use dm_dict::{Dictionary, NoMemory};
use std::alloc::{AllocError, Global};
use std::fmt::{self, Debug, Formatter, Write};
use std::marker::Model;
use std::sync::Arc;

/// A dictionary that several have. A contract sees it as that dictionary.
#[derive(Drop)]
pub(crate) struct Shared {
    dictionary: Arc<Dictionary, Global>,
}

impl Model for Shared {
    ghost use Rattle.std.specs.Arc.{arc_value};
    ghost use Rattle.dm_tables.specs.Definitions.{Definitions};

    ghost Value = { Definitions };

    ghost view = { λ shared. arc_value shared.dictionary };
}

impl Shared {
    /// The base dictionary, or want of memory.
    pub(crate) fn base(alloc: Global) -> Result<Shared, NoMemory>
        ensures { IfOk result (λ shared. shared ≡ base_definitions) }
    {
        match Dictionary::base(alloc) {
            Ok(dictionary) => match Arc::new(alloc, dictionary) {
                Ok(dictionary) => Ok(Shared { dictionary }),
                Err(_) => Err(NoMemory),
            },
            Err(fault) => Err(fault),
        }
    }

    /// The dictionary.
    pub(crate) fn get(&self) -> &Dictionary
        ensures { result.now ≡ self.now }
    {
        &self.dictionary
    }
}

/// The same dictionary once more. It is no copy, and takes no memory.
impl Clone for Shared {
    ghost is_clone = { λ shared other. other ≡ shared };

    fn clone(&self) -> Result<Shared, AllocError> {
        Ok(Shared {
            dictionary: self.dictionary.clone()?,
        })
    }
}

impl Debug for Shared {
    /// The dictionary alone.
    fn fmt<W: Write>(&self, f: &mut Formatter<W>) -> fmt::Result {
        self.get().fmt(f)
    }
}
