//! The tables of the base dictionary, made of its rows (RFC 6733, 4.5 and 5.3 to 7.5).
ghost use Rattle.std.specs.Prelude.{◌≡◌, ◌++◌, map, true, OnOk, IfOk};
ghost use Rattle.dm_tables.specs.Sound.{each_after, is_sound_avp, is_sound_command};
ghost use Rattle.dm_tables.specs.Definitions.{nothing_defined};
ghost use Rattle.dm_tables.specs.Tables.{defined, IsTables, IsDictionary};
ghost use Rattle.dm_tables.specs.Base.{base_definitions};
ghost use Rattle.dm_tables.specs.Rows.{row_entry, row_avp, row_command};

use crate::rows::{AVPS, AvpRow, COMMANDS, CommandRow, EntryRow};
use crate::tables::Tables;
use crate::{AvpDef, CommandDef, Entry, NoMemory, Rule, Values};
use dm_wire::Octets;
use std::alloc::Global;

/// The entry that a row tells; or want of memory.
fn entry_of_row(alloc: Global, row: &EntryRow) -> Result<Entry, NoMemory>
    ensures { IfOk result (λ entry. entry ≡ row_entry row.now) }
{
    Ok(Entry {
        form: row.form,
        name: Octets::from_slice(alloc, row.name)?,
        min: row.min,
        max: row.max,
    })
}

/// The rule whose entries the rows tell, in order; or want of memory.
fn rule_of_rows(alloc: Global, rows: &[EntryRow]) -> Result<Rule, NoMemory>
    ensures { IfOk result (λ rule. rule ≡ map row_entry rows.now) }
{
    let mut entries = Vec::with_capacity(alloc, rows.len())?;
    for row in rows {
        entries.push(entry_of_row(alloc, row)?)?;
    }
    Ok(Rule::from_vec(entries))
}

/// The definition of an AVP that a row tells; or want of memory.
fn avp_of_row(alloc: Global, row: &AvpRow) -> Result<AvpDef, NoMemory>
    ensures { IfOk result (λ avp. avp ≡ row_avp row.now) }
{
    Ok(AvpDef {
        name: Octets::from_slice(alloc, row.name)?,
        code: row.code,
        vendor: None,
        kind: row.kind,
        rule: rule_of_rows(alloc, row.rule)?,
        values: Values::empty(alloc),
    })
}

/// The definition of a command that a row tells; or want of memory.
fn command_of_row(alloc: Global, row: &CommandRow) -> Result<CommandDef, NoMemory>
    ensures { IfOk result (λ command. command ≡ row_command row.now) }
{
    Ok(CommandDef {
        name: Octets::from_slice(alloc, row.name)?,
        code: row.code,
        request: row.request,
        proxiable: false,
        err: row.err,
        application: 0,
        rule: rule_of_rows(alloc, row.rule)?,
    })
}

/// Adds the AVPs of the rows, in order.
fn add_avp_rows(alloc: Global, tables: &mut Tables, rows: &[AvpRow]) -> Result<(), NoMemory>
    requires tables { IsTables tables.old }
    requires sound { each_after is_sound_avp tables.old.avps.items (map row_avp rows.now) ≡ true }
    ensures vendors { OnOk result (tables.new.vendors.items.items ≡ tables.old.vendors.items.items) }
    ensures avps { OnOk result (tables.new.avps.items ≡ tables.old.avps.items ++ map row_avp rows.now) }
    ensures commands { OnOk result (tables.new.commands.items ≡ tables.old.commands.items) }
    ensures tables { OnOk result (IsTables tables.new) }
{
    for row in rows {
        tables.add_avp(alloc, avp_of_row(alloc, row)?)?;
    }
    Ok(())
}

/// Adds the commands of the rows, in order.
fn add_command_rows(alloc: Global, tables: &mut Tables, rows: &[CommandRow]) -> Result<(), NoMemory>
    requires tables { IsTables tables.old }
    requires sound { each_after is_sound_command tables.old.commands.items (map row_command rows.now) ≡ true }
    ensures vendors { OnOk result (tables.new.vendors.items.items ≡ tables.old.vendors.items.items) }
    ensures avps { OnOk result (tables.new.avps.items ≡ tables.old.avps.items) }
    ensures commands { OnOk result (tables.new.commands.items ≡ tables.old.commands.items ++ map row_command rows.now) }
    ensures tables { OnOk result (IsTables tables.new) }
{
    for row in rows {
        tables.add_command(alloc, command_of_row(alloc, row)?)?;
    }
    Ok(())
}

/// The rows of the AVPs of the base dictionary.
fn avp_rows() -> &'static [AvpRow]
    ensures { map row_avp result.now ≡ base_definitions.avps }
{
    &AVPS
}

/// The rows of the commands of the base dictionary.
fn command_rows() -> &'static [CommandRow]
    ensures { map row_command result.now ≡ base_definitions.commands }
{
    &COMMANDS
}

/// Adds the definitions of the base dictionary to tables without any.
fn add_base_definitions(alloc: Global, tables: &mut Tables) -> Result<(), NoMemory>
    requires tables { IsTables tables.old }
    requires empty { defined tables.old ≡ nothing_defined }
    ensures base { OnOk result (defined tables.new ≡ base_definitions) }
    ensures dictionary { OnOk result (IsDictionary tables.new) }
{
    add_avp_rows(alloc, tables, avp_rows())?;
    add_command_rows(alloc, tables, command_rows())?;
    Ok(())
}

/// Adds the definitions of the base dictionary to tables without any, which take room for them first.
fn reserve_and_add_base(alloc: Global, tables: &mut Tables) -> Result<(), NoMemory>
    requires tables { IsTables tables.old }
    requires empty { defined tables.old ≡ nothing_defined }
    ensures base { OnOk result (defined tables.new ≡ base_definitions) }
    ensures dictionary { OnOk result (IsDictionary tables.new) }
{
    tables.reserve(AVPS.len(), COMMANDS.len())?;
    add_base_definitions(alloc, tables)
}

/// The tables of the base dictionary; or want of memory.
pub fn base_tables(alloc: Global) -> Result<Tables, NoMemory>
    ensures base { IfOk result (λ tables. defined tables ≡ base_definitions) }
    ensures dictionary { IfOk result IsDictionary }
{
    let mut tables = Tables::empty(alloc);
    let done = reserve_and_add_base(alloc, &mut tables);
    done.and(Ok(tables))
}
