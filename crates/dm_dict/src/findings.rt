//! Faults that are listed, with the groups round their AVPs or without (RFC 6733, 4.4 and 7.5).
ghost use Rattle.std.specs.Prelude.{◌≡◌, ◌∷◌, [], map, OnOk};
ghost use Rattle.std.specs.Option.{option_copied};
ghost use Rattle.dm_dict.specs.Listing.{all_told};
ghost use Rattle.dm_dict.specs.Located.{here};
ghost use Rattle.dm_dict.specs.Locating.{AddsAt};

use crate::fault::Fault;
use crate::located_fault::LocatedFault;
use crate::path::Path;
use dm_value::NoMemory;
use std::alloc::Global;

/// The faults of a walk that keeps no paths, or those of one that does.
#[derive(Drop)]
pub(crate) struct Findings<'a> {
    pub(crate) faults: Vec<Fault<'a>>,
    pub(crate) located: Vec<LocatedFault<'a>>,
}

impl<'a> Findings<'a> {
    /// No faults. It never answers want of memory.
    pub(crate) fn empty(alloc: Global) -> Findings<'a>
        ensures faults { result.faults.items ≡ [] }
        ensures located { result.located.items ≡ [] }
    {
        Findings {
            faults: Vec::new(alloc),
            located: Vec::new(alloc),
        }
    }

    /// Lists a fault in the groups of the path behind the others, or without them where none are kept.
    pub(crate) fn add_fault(
        &mut self,
        path: Option<&Path>,
        fault: Fault<'a>,
    ) -> Result<(), NoMemory>
        ensures { OnOk result (AddsAt self.old self.new (option_copied path.entry) (map here (all_told (fault.entry
            ∷ [])))) }
    {
        match path {
            None => self.faults.push(fault)?,
            Some(path) => self.located.push(LocatedFault { path: *path, fault })?,
        }
        Ok(())
    }

    /// Lists faults in the groups of the path behind the others.
    pub(crate) fn add_faults(
        &mut self,
        path: Option<&Path>,
        faults: &[Fault<'a>],
    ) -> Result<(), NoMemory>
        ensures { OnOk result (AddsAt self.old self.new (option_copied path.entry) (map here (all_told faults.now))) }
    {
        let mut left = faults;
        while let [fault, rest @ ..] = left {
            self.add_fault(path, *fault)?;
            left = rest;
        }
        Ok(())
    }
}
