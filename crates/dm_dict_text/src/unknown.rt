//! The names of a dictionary text that nothing defines, and those of vendors that nothing defines before their item
//! (RFC 6733, 3.2).
ghost use Rattle.std.specs.Prelude.{◌≡◌, ◌≤◌, ◌+◌, length, map, take, fold};
ghost use Rattle.dm_grammar.specs.Views.{view_word, view_reference_option, view_entry, view_item};
ghost use Rattle.dm_tables.specs.Guesses.{AreGuessed};
ghost use Rattle.dm_tables.specs.Tables.{IsTables};
ghost use Rattle.dm_dict_text.specs.Making.{making};
ghost use Rattle.dm_tables.specs.Vendored.{IsVendored};
ghost use Rattle.dm_dict_text.specs.Meaning.{vendor_count};
ghost use Rattle.dm_dict_text.specs.Faults.{first_dict_fault, entry_unknown, rule_unknown, reference_unknown};
ghost use Rattle.dm_dict_text.specs.Faults.{kind_unknown, unknown, vendors_with, items_unknown};

use crate::DictFault;
use crate::checks::is_avp_defined;
use crate::kind::ungrouped_type_named;
use dm_grammar::{EntryItem, Item, Token, VendorWord};
use dm_tables::{NameGuesses, Tables, VendorDef, Vendors};
use indexmap::IndexSet;

/// The fault of an entry that names no AVP; None where it names one.
fn unknown_entry_fault(
    tables: &Tables,
    guesses: &NameGuesses,
    strays: &IndexSet<&[u8]>,
    entry: &EntryItem<'_>,
) -> Option<DictFault>
    requires tables { IsTables tables.now }
    requires guesses { AreGuessed tables.now.avps.items guesses.now.places.items }
    ensures { result ≡ first_dict_fault (entry_unknown (making tables.now strays.now) (view_entry entry.now)) }
{
    let word = entry.name;
    if word.text == b"AVP".as_slice() || is_avp_defined(tables, guesses, strays, word.text) {
        None
    } else {
        Some(DictFault::UnknownName(word.line))
    }
}

/// The first fault of entries that name no AVP.
fn first_unknown_in_rule(
    tables: &Tables,
    guesses: &NameGuesses,
    strays: &IndexSet<&[u8]>,
    rule: &[EntryItem<'_>],
) -> Option<DictFault>
    requires tables { IsTables tables.now }
    requires guesses { AreGuessed tables.now.avps.items guesses.now.places.items }
    ensures { result ≡ first_dict_fault (rule_unknown (making tables.now strays.now) (map view_entry rule.now)) }
{
    for entry in rule {
        let fault = unknown_entry_fault(tables, guesses, strays, entry);
        if fault.is_some() {
            return fault;
        }
    }
    None
}

/// The fault of a name that none of the first vendors, so many, has; None where one has it, or none is written.
fn unknown_vendor_fault(
    vendors: &Vendors,
    first: usize,
    word: Option<VendorWord<'_>>,
) -> Option<DictFault>
    requires { IsVendored vendors.now }
    ensures { result ≡ first_dict_fault (reference_unknown (take first vendors.now.items.items)
        (view_reference_option word.entry)) }
{
    match word {
        Some(VendorWord::Named(word)) if !vendors.has_name_among_first(first, word.text) => {
            Some(DictFault::UnknownName(word.line))
        }
        _ => None,
    }
}

/// The fault of a name that no type has; None where one has it.
fn unknown_type_fault(word: Token<'_>) -> Option<DictFault>
    ensures { result ≡ first_dict_fault (kind_unknown (view_word word.entry)) }
{
    if ungrouped_type_named(word.text).is_some() {
        None
    } else {
        Some(DictFault::UnknownName(word.line))
    }
}

/// The first fault of a type, a vendor or an entry of an item that nothing defines. The item stands behind the
/// first vendors, so many.
fn first_unknown_in_item(
    tables: &Tables,
    guesses: &NameGuesses,
    strays: &IndexSet<&[u8]>,
    first: usize,
    item: &Item<'_>,
) -> Option<DictFault>
    requires tables { IsTables tables.now }
    requires guesses { AreGuessed tables.now.avps.items guesses.now.places.items }
    ensures { result ≡ first_dict_fault (unknown (making tables.now strays.now)
        (take first tables.now.vendors.items.items) (view_item item.now)) }
{
    match item {
        Item::Vendor(_) => None,
        Item::Avp(avp) => {
            unknown_type_fault(avp.kind).or(unknown_vendor_fault(
                &tables.vendors,
                first,
                avp.vendor,
            ))
        }
        Item::Group(group) => unknown_vendor_fault(&tables.vendors, first, group.vendor).or(
            first_unknown_in_rule(tables, guesses, strays, group.rule.as_slice()),
        ),
        Item::Command(command) => first_unknown_in_rule(
            tables,
            guesses,
            strays,
            command.rule.as_slice(),
        ),
    }
}

/// How many of the vendors are defined once the item is read, where so many were before it. `vendors` is for the
/// contract alone.
fn vendor_count_after_item(vendors: &[VendorDef], before: usize, item: &Item<'_>) -> usize
    requires { before + vendor_count (view_item item.now) ≤ length vendors.now }
    ensures { result ≡ before + vendor_count (view_item item.now) }
{
    match item {
        Item::Vendor(_) => before + 1,
        Item::Avp(_) | Item::Group(_) | Item::Command(_) => before,
    }
}

/// The first fault of a type, a vendor or an entry that nothing defines. The items stand behind the first
/// vendors, so many, and the others are theirs.
pub fn first_unknown_in_items(
    tables: &Tables,
    guesses: &NameGuesses,
    strays: &IndexSet<&[u8]>,
    first: usize,
    items: &[Item<'_>],
) -> Option<DictFault>
    requires tables { IsTables tables.now }
    requires guesses { AreGuessed tables.now.avps.items guesses.now.places.items }
    requires within { first ≤ length tables.now.vendors.items.items }
    requires theirs { fold vendors_with (take first tables.now.vendors.items.items) (map view_item items.now)
        ≡ tables.now.vendors.items.items }
    ensures { result ≡ first_dict_fault (items_unknown (making tables.now strays.now)
        (take first tables.now.vendors.items.items) (map view_item items.now)) }
{
    let mut seen = first;
    for item in items {
        let fault = first_unknown_in_item(tables, guesses, strays, seen, item);
        if fault.is_some() {
            return fault;
        }
        seen = vendor_count_after_item(tables.vendors.items.as_slice(), seen, item);
    }
    None
}
