//! The items of a dictionary text, defined one after the other (RFC 6733, 3.2).
ghost use Rattle.std.specs.Prelude.{◌≡◌, ℕ, [], map, nat_eq};
ghost use Rattle.std.specs.Prelude.{true, false, Option, Some, OnOk, IfErr};
ghost use Rattle.std.specs.List.{list_all, list_any};
ghost use Rattle.std.specs.Cmp.Lexicographic.{pointwise};
ghost use Rattle.dm_grammar.specs.Views.{view_vendor, view_avp, view_group, view_command, view_item};
ghost use Rattle.dm_dict_text.specs.declared.fault.DictFault.TheVariants as faults;
ghost use Rattle.dm_tables.specs.Definitions.{with_vendor, with_command};
ghost use Rattle.dm_tables.specs.Guesses.{AreGuessed};
ghost use Rattle.dm_tables.specs.Sound.{is_sound_avp};
ghost use Rattle.dm_tables.specs.Tables.{defined, IsTables};
ghost use Rattle.dm_dict_text.specs.Making.{making};
ghost use Rattle.dm_dict_text.specs.Worded.{is_worded_vendor, is_worded_avp};
ghost use Rattle.dm_dict_text.specs.Worded.{is_worded_group, is_worded_command, is_worded};
ghost use Rattle.dm_dict_text.specs.Meaning.{vendor_def_of, command_def_of, placed, with_item, with_items};
ghost use Rattle.dm_dict_text.specs.Faults.{StopsAtFirst, vendor_item_faults, avp_item_faults};
ghost use Rattle.dm_dict_text.specs.Faults.{group_item_faults, command_item_faults, item_faults, items_faults};
ghost use Rattle.dm_grammar.specs.Items.Written.{AvpIs, GroupIs};

use crate::DictFault;
use crate::checks::{
    check_avp_code_and_vendor, check_avp_name, check_command_code_and_read_application,
    check_command_name, check_vendor,
};
use crate::entries::rule_of_items;
use crate::kind::ungrouped_type_named;
use crate::value_list::value_list_of_items;
use dm_grammar::{AvpItem, CommandItem, GroupItem, Item, VendorItem};
use dm_tables::{AvpDef, CommandDef, NameGuesses, Rule, Tables, Values, VendorDef};
use dm_value::AvpType;
use dm_wire::Octets;
use indexmap::IndexSet;
use std::alloc::Global;

/// Defines a vendor.
fn define_vendor(alloc: Global, tables: &mut Tables, item: &VendorItem<'_>) -> Result<(), DictFault>
    requires tables { IsTables tables.old }
    requires worded { is_worded_vendor (view_vendor item.now) ≡ true }
    ensures good { OnOk result (vendor_item_faults tables.old.vendors.items.items (view_vendor item.now) ≡ []) }
    ensures added { OnOk result (defined tables.new
        ≡ with_vendor (defined tables.old) (vendor_def_of (view_vendor item.now))) }
    ensures tables { OnOk result (IsTables tables.new) }
    ensures fault { IfErr result (StopsAtFirst
        (vendor_item_faults tables.old.vendors.items.items (view_vendor item.now))) }
{
    let number = check_vendor(tables, item)?;
    let vendor = VendorDef {
        name: Octets::from_slice(alloc, item.name.text)?,
        number,
    };
    tables.add_vendor(alloc, vendor)?;
    Ok(())
}

/// Puts an AVP behind the others, or notes its name among the strays where its vendor isn't known.
fn add_avp_or_stray<'a>(
    alloc: Global,
    tables: &mut Tables,
    guesses: &mut NameGuesses,
    strays: &mut IndexSet<&'a [u8]>,
    name: &'a [u8],
    vendor: Option<Option<u32>>,
    avp: AvpDef,
) -> Result<(), DictFault>
    requires tables { IsTables tables.old }
    requires guesses { AreGuessed tables.old.avps.items guesses.old.places.items }
    requires named { avp.name ≡ name.now }
    requires new { list_any (pointwise nat_eq name.now) (making tables.old strays.old).strays ≡ false }
    requires sound { (v : Option ℕ) → vendor ≡ Some v → is_sound_avp tables.old.avps.items avp ≡ true }
    ensures added { OnOk result (making tables.new strays.new
        ≡ placed (making tables.old strays.old) name.now (λ _. avp) vendor) }
    ensures tables { OnOk result (IsTables tables.new) }
    ensures guesses { OnOk result (AreGuessed tables.new.avps.items guesses.new.places.items) }
    ensures fault { IfErr result (λ f. f ≡ faults.NoMemory) }
{
    match vendor {
        Some(_) => {
            guesses.note_name(name, tables.avps.as_slice().len());
            tables.add_avp(alloc, avp)?;
        }
        None => {
            drop(avp);
            strays.insert(name)?;
        }
    }
    Ok(())
}

/// Defines an AVP, or notes its name among the strays where its vendor isn't known. An unknown type is no
/// fault here.
fn define_avp<'a>(
    alloc: Global,
    tables: &mut Tables,
    guesses: &mut NameGuesses,
    strays: &mut IndexSet<&'a [u8]>,
    item: &AvpItem<'a>,
) -> Result<(), DictFault>
    requires tables { IsTables tables.old }
    requires guesses { AreGuessed tables.old.avps.items guesses.old.places.items }
    requires worded { is_worded_avp (view_avp item.now) ≡ true }
    ensures good { OnOk result (avp_item_faults (making tables.old strays.old) (view_avp item.now) ≡ []) }
    ensures added { OnOk result (making tables.new strays.new
        ≡ with_item (making tables.old strays.old) (AvpIs (view_avp item.now))) }
    ensures tables { OnOk result (IsTables tables.new) }
    ensures guesses { OnOk result (AreGuessed tables.new.avps.items guesses.new.places.items) }
    ensures fault { IfErr result (StopsAtFirst (avp_item_faults (making tables.old strays.old) (view_avp item.now))) }
{
    check_avp_name(tables, guesses, strays, item.name)?;
    let (code, vendor) = check_avp_code_and_vendor(tables, item.code, item.vendor)?;
    let name = Octets::from_slice(alloc, item.name.text)?;
    let values = value_list_of_items(alloc, item.values.as_slice())?;
    let avp = AvpDef {
        name,
        code,
        vendor: vendor.unwrap_or(None),
        kind: ungrouped_type_named(item.kind.text).unwrap_or(AvpType::OctetString),
        rule: Rule::empty(alloc),
        values,
    };
    add_avp_or_stray(alloc, tables, guesses, strays, item.name.text, vendor, avp)
}

/// Defines a Grouped AVP, or notes its name among the strays where its vendor isn't known.
fn define_group<'a>(
    alloc: Global,
    tables: &mut Tables,
    guesses: &mut NameGuesses,
    strays: &mut IndexSet<&'a [u8]>,
    item: &GroupItem<'a>,
) -> Result<(), DictFault>
    requires tables { IsTables tables.old }
    requires guesses { AreGuessed tables.old.avps.items guesses.old.places.items }
    requires worded { is_worded_group (view_group item.now) ≡ true }
    ensures good { OnOk result (group_item_faults (making tables.old strays.old) (view_group item.now) ≡ []) }
    ensures added { OnOk result (making tables.new strays.new
        ≡ with_item (making tables.old strays.old) (GroupIs (view_group item.now))) }
    ensures tables { OnOk result (IsTables tables.new) }
    ensures guesses { OnOk result (AreGuessed tables.new.avps.items guesses.new.places.items) }
    ensures fault { IfErr result (StopsAtFirst
        (group_item_faults (making tables.old strays.old) (view_group item.now))) }
{
    check_avp_name(tables, guesses, strays, item.name)?;
    let (code, vendor) = check_avp_code_and_vendor(tables, item.code, item.vendor)?;
    let name = Octets::from_slice(alloc, item.name.text)?;
    let rule = rule_of_items(alloc, item.rule.as_slice())?;
    let avp = AvpDef {
        name,
        code,
        vendor: vendor.unwrap_or(None),
        kind: AvpType::Grouped,
        rule,
        values: Values::empty(alloc),
    };
    add_avp_or_stray(alloc, tables, guesses, strays, item.name.text, vendor, avp)
}

/// Defines a command.
fn define_command(
    alloc: Global,
    tables: &mut Tables,
    item: &CommandItem<'_>,
) -> Result<(), DictFault>
    requires tables { IsTables tables.old }
    requires worded { is_worded_command (view_command item.now) ≡ true }
    ensures good { OnOk result (command_item_faults tables.old.commands.items (view_command item.now) ≡ []) }
    ensures added { OnOk result (defined tables.new
        ≡ with_command (defined tables.old) (command_def_of (view_command item.now))) }
    ensures tables { OnOk result (IsTables tables.new) }
    ensures fault { IfErr result (StopsAtFirst
        (command_item_faults tables.old.commands.items (view_command item.now))) }
{
    check_command_name(tables, item.name)?;
    let (code, application) = check_command_code_and_read_application(tables, item)?;
    let command = CommandDef {
        name: Octets::from_slice(alloc, item.name.text)?,
        code,
        request: item.request,
        proxiable: item.proxiable,
        err: item.error,
        application,
        rule: rule_of_items(alloc, item.rule.as_slice())?,
    };
    tables.add_command(alloc, command)?;
    Ok(())
}

/// Defines an item.
fn define_item<'a>(
    alloc: Global,
    tables: &mut Tables,
    guesses: &mut NameGuesses,
    strays: &mut IndexSet<&'a [u8]>,
    item: &Item<'a>,
) -> Result<(), DictFault>
    requires tables { IsTables tables.old }
    requires guesses { AreGuessed tables.old.avps.items guesses.old.places.items }
    requires worded { is_worded (view_item item.now) ≡ true }
    ensures good { OnOk result (item_faults (making tables.old strays.old) (view_item item.now) ≡ []) }
    ensures added { OnOk result (making tables.new strays.new
        ≡ with_item (making tables.old strays.old) (view_item item.now)) }
    ensures tables { OnOk result (IsTables tables.new) }
    ensures guesses { OnOk result (AreGuessed tables.new.avps.items guesses.new.places.items) }
    ensures fault { IfErr result (StopsAtFirst (item_faults (making tables.old strays.old) (view_item item.now))) }
{
    match item {
        Item::Vendor(item) => define_vendor(alloc, tables, item),
        Item::Avp(item) => define_avp(alloc, tables, guesses, strays, item),
        Item::Group(item) => define_group(alloc, tables, guesses, strays, item),
        Item::Command(item) => define_command(alloc, tables, item),
    }
}

/// Defines the items, in order.
pub fn define_items<'a>(
    alloc: Global,
    tables: &mut Tables,
    guesses: &mut NameGuesses,
    strays: &mut IndexSet<&'a [u8]>,
    items: &[Item<'a>],
) -> Result<(), DictFault>
    requires tables { IsTables tables.old }
    requires guesses { AreGuessed tables.old.avps.items guesses.old.places.items }
    requires worded { list_all is_worded (map view_item items.now) ≡ true }
    ensures good { OnOk result (items_faults (making tables.old strays.old) (map view_item items.now) ≡ []) }
    ensures added { OnOk result (making tables.new strays.new
        ≡ with_items (making tables.old strays.old) (map view_item items.now)) }
    ensures tables { OnOk result (IsTables tables.new) }
    ensures guesses { OnOk result (AreGuessed tables.new.avps.items guesses.new.places.items) }
    ensures fault { IfErr result (StopsAtFirst
        (items_faults (making tables.old strays.old) (map view_item items.now))) }
{
    for item in items {
        define_item(alloc, tables, guesses, strays, item)?;
    }
    Ok(())
}
