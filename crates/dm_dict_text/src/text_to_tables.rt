//! A text read into tables, behind copies of the definitions of old ones (RFC 6733, 3.2).
ghost use Rattle.std.specs.Prelude.{◌≡◌, ◌≤◌, ◌+◌, ◌⊎◌, [], length, map, true, OnOk, IfOk, IfErr};
ghost use Rattle.std.specs.List.{list_all};
ghost use Rattle.dm_grammar.specs.Views.{view_item};
ghost use Rattle.dm_dict_text.specs.declared.fault.DictFault.TheVariants as faults;
ghost use Rattle.dm_tables.specs.Definitions.{nothing_defined};
ghost use Rattle.dm_tables.specs.Guesses.{AreGuessed};
ghost use Rattle.dm_tables.specs.Tables.{defined, IsTables, IsDictionary};
ghost use Rattle.dm_dict_text.specs.Worded.{is_worded};
ghost use Rattle.dm_dict_text.specs.Meaning.{with_no_strays, with_items};
ghost use Rattle.dm_dict_text.specs.Faults.{StopsAtFirst};
ghost use Rattle.dm_dict_text.specs.Outcome.{Defines, IsFirstFault, all_faults};

use crate::DictFault;
use crate::define::define_items;
use crate::unknown::first_unknown_in_items;
use dm_grammar::{Item, read_items};
use dm_tables::{NameGuesses, NoMemory, Tables};
use indexmap::IndexSet;
use std::alloc::Global;

/// How many AVPs and commands to make room for: those of the old tables and of the items, and no more.
fn avp_and_command_counts(old: &Tables, items: &[Item<'_>]) -> (usize, usize)
    ensures avps { result.0 ≤ length old.now.avps.items + length items.now }
    ensures commands { result.1 ≤ length old.now.commands.items + length items.now }
{
    let mut avps = old.avps.as_slice().len();
    let mut commands = old.commands.as_slice().len();
    for item in items {
        match item {
            Item::Vendor(_) => {}
            Item::Avp(_) | Item::Group(_) => avps = avps.saturating_add(1),
            Item::Command(_) => commands = commands.saturating_add(1),
        }
    }
    (avps, commands)
}

/// Adds the definitions of the items to copies of those of the old tables, and then looks for the first name in the
/// items that nothing defines; the names of strays are put into a set without any.
fn define_items_and_check_names<'a>(
    alloc: Global,
    tables: &mut Tables,
    guesses: &mut NameGuesses,
    strays: &mut IndexSet<&'a [u8]>,
    old: &Tables,
    items: &[Item<'a>],
) -> Result<(), DictFault>
    requires tables { IsTables tables.old }
    requires copy { defined tables.old ≡ defined old.now }
    requires guesses { AreGuessed tables.old.avps.items guesses.old.places.items }
    requires none { strays.old.keys ≡ [] }
    requires old { IsDictionary old.now }
    requires worded { list_all is_worded (map view_item items.now) ≡ true }
    ensures good { OnOk result (all_faults (defined old.now) (map view_item items.now) ≡ []) }
    ensures added { OnOk result (defined tables.new
        ≡ (with_items (with_no_strays (defined old.now)) (map view_item items.now)).definitions) }
    ensures dictionary { OnOk result (IsDictionary tables.new) }
    ensures fault { IfErr result (StopsAtFirst (all_faults (defined old.now) (map view_item items.now))) }
{
    define_items(alloc, tables, guesses, strays, items)?;
    let vendors = old.vendors.items.as_slice().len();
    match first_unknown_in_items(tables, guesses, strays, vendors, items) {
        Some(fault) => Err(fault),
        None => Ok(()),
    }
}

/// Copies of the definitions of the old tables, in tables without any, with room for so many in all; and the guesses of
/// their names.
fn copy_old_tables_with_guesses(
    alloc: Global,
    tables: &mut Tables,
    old: &Tables,
    avps: usize,
    commands: usize,
) -> Result<NameGuesses, NoMemory>
    requires tables { IsTables tables.old }
    requires empty { defined tables.old ≡ nothing_defined }
    requires old { IsDictionary old.now }
    ensures tables { OnOk result (IsTables tables.new) }
    ensures copy { OnOk result (defined tables.new ≡ defined old.now) }
    ensures guesses { IfOk result (λ guesses. AreGuessed tables.new.avps.items guesses.places.items) }
{
    tables.reserve(avps, commands)?;
    tables.fill_with_copies_of(alloc, old)?;
    let mut guesses = NameGuesses::empty_for(alloc, avps)?;
    guesses.note_names_of_all(tables.avps.as_slice());
    Ok(guesses)
}

/// Adds the definitions of the old tables and those of the items to tables without any; the names of strays
/// are put into a set without any.
fn add_old_and_new_definitions<'a>(
    alloc: Global,
    tables: &mut Tables,
    strays: &mut IndexSet<&'a [u8]>,
    old: &Tables,
    items: &[Item<'a>],
) -> Result<(), DictFault>
    requires tables { IsTables tables.old }
    requires empty { defined tables.old ≡ nothing_defined }
    requires none { strays.old.keys ≡ [] }
    requires old { IsDictionary old.now }
    requires worded { list_all is_worded (map view_item items.now) ≡ true }
    ensures good { OnOk result (all_faults (defined old.now) (map view_item items.now) ≡ []) }
    ensures added { OnOk result (defined tables.new
        ≡ (with_items (with_no_strays (defined old.now)) (map view_item items.now)).definitions) }
    ensures dictionary { OnOk result (IsDictionary tables.new) }
    ensures fault { IfErr result (StopsAtFirst (all_faults (defined old.now) (map view_item items.now))) }
{
    let (avps, commands) = avp_and_command_counts(old, items);
    let mut guesses = copy_old_tables_with_guesses(alloc, tables, old, avps, commands)?;
    let done = define_items_and_check_names(alloc, tables, &mut guesses, strays, old, items);
    drop(guesses);
    done
}

/// The definitions of the old tables, followed by those of the items.
fn extended_tables(alloc: Global, old: &Tables, items: &[Item<'_>]) -> Result<Tables, DictFault>
    requires old { IsDictionary old.now }
    requires worded { list_all is_worded (map view_item items.now) ≡ true }
    ensures good { IfOk result (λ _. all_faults (defined old.now) (map view_item items.now) ≡ []) }
    ensures added { IfOk result (λ new. defined new
        ≡ (with_items (with_no_strays (defined old.now)) (map view_item items.now)).definitions) }
    ensures dictionary { IfOk result IsDictionary }
    ensures fault { IfErr result (StopsAtFirst (all_faults (defined old.now) (map view_item items.now))) }
{
    let mut tables = Tables::empty(alloc);
    let mut strays = IndexSet::new(alloc);
    let done = add_old_and_new_definitions(alloc, &mut tables, &mut strays, old, items);
    drop(strays);
    done.and(Ok(tables))
}

/// The definitions of the old tables, followed by those of the text in the command code format (RFC 6733, 3.2), of
/// version 1 or 2; or the text's first fault, or want of memory.
pub fn read_tables(alloc: Global, text: &[u8], old: &Tables) -> Result<Tables, DictFault>
    requires { IsDictionary old.now }
    ensures defines { IfOk result (λ new. Defines text.now (defined old.now) (defined new)) }
    ensures dictionary { IfOk result IsDictionary }
    ensures fault { IfErr result (λ f. (f ≡ faults.NoMemory) ⊎ IsFirstFault text.now (defined old.now) f) }
{
    let found = read_items(alloc, text)?;
    let tables = extended_tables(alloc, old, found.as_slice());
    drop(found);
    tables
}
