//! The vendors of a dictionary, in order, and an index for each key.
ghost use Rattle.std.specs.Prelude.{◌≡◌, ◌++◌, [], ◌∷◌, OnOk, false, take, find};
ghost use Rattle.std.specs.List.{list_any};
ghost use Rattle.std.specs.Option.{option_copied};
ghost use Rattle.dm_tables.specs.Definitions.{is_vendor, has_vendor_number, vendor_number};
ghost use Rattle.dm_tables.specs.Vendored.{IsVendored};

use crate::tables::{member_at, set_place_of_name};
use crate::{NoMemory, VendorDef};
use indexmap::{IndexMap, IndexSet};
use std::alloc::Global;

/// The most vendors among which a name is sooner found one by one than by its hash.
const FEW_VENDORS: usize = 16;

/// Vendors in order, where each stands among them by its name, and their numbers.
#[derive(Debug, Drop)]
pub struct Vendors {
    pub items: Vec<VendorDef>,
    pub names: IndexMap<Vec<u8>, usize>,
    pub numbers: IndexSet<u32>,
}

/// The first of the vendors that has the name, found by looking at one after the other.
fn vendor_named_among<'a>(vendors: &'a [VendorDef], name: &[u8]) -> Option<&'a VendorDef>
    ensures { option_copied result ≡ find (is_vendor name.now) vendors.now }
{
    vendors.iter().find(|vendor| vendor.name.as_slice() == name)
}

/// Whether one of the first of the vendors, so many, has the name, found by looking at one after the other.
fn is_name_among_first(vendors: &[VendorDef], first: usize, name: &[u8]) -> bool
    ensures { result ≡ list_any (is_vendor name.now) (take first vendors.now) }
{
    vendors
        .iter()
        .take(first)
        .any(|vendor| vendor.name.as_slice() == name)
}

impl Vendors {
    /// No vendors. It never answers want of memory.
    pub fn empty(alloc: Global) -> Vendors
        ensures empty { result.items.items ≡ [] }
        ensures indexed { IsVendored result }
    {
        Vendors {
            items: Vec::new(alloc),
            names: IndexMap::new(alloc),
            numbers: IndexSet::new(alloc),
        }
    }

    /// Adds a vendor behind the others. After want of memory the vendors are of no use.
    pub fn add(&mut self, alloc: Global, vendor: VendorDef) -> Result<(), NoMemory>
        requires indexed { IsVendored self.old }
        requires name { list_any (is_vendor vendor.name) self.old.items.items ≡ false }
        requires number { list_any (has_vendor_number vendor.number) self.old.items.items ≡ false }
        ensures added { OnOk result (self.new.items.items ≡ self.old.items.items ++ vendor ∷ []) }
        ensures indexed { OnOk result (IsVendored self.new) }
    {
        let place = self.items.as_slice().len();
        let number = vendor.number;
        let noted = set_place_of_name(alloc, &mut self.names, vendor.name.as_slice(), place);
        self.items.push(vendor)?;
        self.numbers.insert(number)?;
        noted
    }

    /// The vendor of a name.
    fn vendor_by_name(&self, name: &[u8]) -> Option<&VendorDef>
        requires { IsVendored self.now }
        ensures { option_copied result ≡ find (is_vendor name.now) self.now.items.items }
    {
        if self.items.len() <= FEW_VENDORS {
            vendor_named_among(self.items.as_slice(), name)
        } else {
            self.indexed_vendor_by_name(name)
        }
    }

    /// The vendor of a name, by the index.
    fn indexed_vendor_by_name(&self, name: &[u8]) -> Option<&VendorDef>
        requires { IsVendored self.now }
        ensures { option_copied result ≡ find (is_vendor name.now) self.now.items.items }
    {
        let place = self.names.get(name).copied();
        member_at(self.items.as_slice(), place)
    }

    /// The number of the vendor of a name.
    pub fn number_of(&self, name: &[u8]) -> Option<u32>
        requires { IsVendored self.now }
        ensures { result ≡ vendor_number self.now.items.items name.now }
    {
        match self.vendor_by_name(name) {
            Some(vendor) => Some(vendor.number),
            None => None,
        }
    }

    /// Whether there is a vendor of the name.
    pub fn has_name(&self, name: &[u8]) -> bool
        requires { IsVendored self.now }
        ensures { result ≡ list_any (is_vendor name.now) self.now.items.items }
    {
        self.vendor_by_name(name).is_some()
    }

    /// Whether one of the first vendors, so many, has the name.
    pub fn has_name_among_first(&self, first: usize, name: &[u8]) -> bool
        requires { IsVendored self.now }
        ensures { result ≡ list_any (is_vendor name.now) (take first self.now.items.items) }
    {
        if self.items.len() <= FEW_VENDORS {
            is_name_among_first(self.items.as_slice(), first, name)
        } else {
            self.index_has_name_among_first(first, name)
        }
    }

    /// Whether one of the first of the vendors, so many, has the name, by the index.
    fn index_has_name_among_first(&self, first: usize, name: &[u8]) -> bool
        requires { IsVendored self.now }
        ensures { result ≡ list_any (is_vendor name.now) (take first self.now.items.items) }
    {
        match self.names.get(name).copied() {
            Some(place) => place < first,
            None => false,
        }
    }

    /// Whether there is a vendor of the number.
    pub fn has_number(&self, number: u32) -> bool
        requires { IsVendored self.now }
        ensures { result ≡ list_any (has_vendor_number number) self.now.items.items }
    {
        self.numbers.contains(&number)
    }
}
