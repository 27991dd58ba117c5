//! The text of definitions, appended piece by piece, and the version that they want (RFC 6733, 3.2).
ghost use Rattle.std.specs.Prelude.{◌≡◌, ◌++◌, OnOk};
ghost use Rattle.std.specs.List.{flat_map, list_all};
ghost use Rattle.dm_dict_text.specs.Printed.{type_name, spaced, spaced_number, spaced_option, decimal_option};
ghost use Rattle.dm_dict_text.specs.Printed.{opening_bracket, closing_bracket, entry_text, rule_text};
ghost use Rattle.dm_dict_text.specs.Printed.{vendor_line, listed_value_text, next_value, value_list_text};
ghost use Rattle.dm_dict_text.specs.Printed.{plain_end, plain_line, rule_end, group_head_text, group_line};
ghost use Rattle.dm_dict_text.specs.Printed.{avp_line, flag_text, flags_text, command_head_text, command_line};
ghost use Rattle.dm_dict_text.specs.Printed.{has_nothing, is_first_version, version_line, printed};
ghost use Rattle.dm_tables.specs.Tables.{defined};

use dm_grammar::Form;
use dm_tables::{AvpDef, CommandDef, Entry, EnumValue, Rule, Tables, VendorDef};
use dm_text::push_decimal;
use dm_value::{AvpType, NoMemory};

/// The name of a type.
fn name_of_type(kind: AvpType) -> &'static [u8]
    ensures { result.now ≡ type_name kind }
{
    match kind {
        AvpType::OctetString => b"OctetString",
        AvpType::Integer32 => b"Integer32",
        AvpType::Integer64 => b"Integer64",
        AvpType::Unsigned32 => b"Unsigned32",
        AvpType::Unsigned64 => b"Unsigned64",
        AvpType::Address => b"Address",
        AvpType::Time => b"Time",
        AvpType::UTF8String => b"UTF8String",
        AvpType::DiameterIdentity => b"DiameterIdentity",
        AvpType::DiameterURI => b"DiameterURI",
        AvpType::Enumerated => b"Enumerated",
        AvpType::Grouped => b"Grouped",
    }
}

/// The brackets of a form: the opening one with a space on each side, the closing one with a space before it.
fn spaced_brackets(form: Form) -> (&'static [u8], &'static [u8])
    ensures open { result.0.now ≡ opening_bracket form }
    ensures close { result.1.now ≡ closing_bracket form }
{
    match form {
        Form::Fixed => (b" < ", b" >"),
        Form::Required => (b" { ", b" }"),
        Form::Optional => (b" [ ", b" ]"),
    }
}

/// Appends octets as they are.
fn push_piece(text: &mut Vec<u8>, piece: &[u8]) -> Result<(), NoMemory>
    ensures { OnOk result (text.new.items ≡ text.old.items ++ piece.now) }
{
    text.extend_from_slice(piece)?;
    Ok(())
}

fn push_spaced_number(text: &mut Vec<u8>, number: u32) -> Result<(), NoMemory>
    ensures { OnOk result (text.new.items ≡ text.old.items ++ spaced_number number) }
{
    push_piece(text, b" ")?;
    push_decimal(text, number as u64)?;
    Ok(())
}

fn push_spaced_number_if_some(text: &mut Vec<u8>, number: Option<u32>) -> Result<(), NoMemory>
    ensures { OnOk result (text.new.items ≡ text.old.items ++ spaced_option number) }
{
    match number {
        Some(number) => push_spaced_number(text, number),
        None => Ok(()),
    }
}

fn push_decimal_if_some(text: &mut Vec<u8>, number: Option<u32>) -> Result<(), NoMemory>
    ensures { OnOk result (text.new.items ≡ text.old.items ++ decimal_option number) }
{
    if let Some(number) = number {
        push_decimal(text, number as u64)?;
    }
    Ok(())
}

fn push_word_if_set(text: &mut Vec<u8>, flag: bool, word: &[u8]) -> Result<(), NoMemory>
    ensures { OnOk result (text.new.items ≡ text.old.items ++ flag_text flag word.now) }
{
    if flag { push_piece(text, word) } else { Ok(()) }
}

fn push_spaced_entry(text: &mut Vec<u8>, entry: &Entry) -> Result<(), NoMemory>
    ensures { OnOk result (text.new.items ≡ text.old.items ++ entry_text entry.now) }
{
    let (open, close) = spaced_brackets(entry.form);
    push_spaced_number(text, entry.min)?;
    push_piece(text, b"*")?;
    push_decimal_if_some(text, entry.max)?;
    push_piece(text, open)?;
    push_piece(text, entry.name.as_slice())?;
    push_piece(text, close)
}

fn push_spaced_entries(text: &mut Vec<u8>, entries: &[Entry]) -> Result<(), NoMemory>
    ensures { OnOk result (text.new.items ≡ text.old.items ++ rule_text entries.now) }
{
    for entry in entries {
        push_spaced_entry(text, entry)?;
    }
    Ok(())
}

/// What stands behind the numbers of a head: the bracket that ends it, the rule and the end of the line.
fn push_spaced_bracket_rule_and_lf(text: &mut Vec<u8>, rule: &Rule) -> Result<(), NoMemory>
    ensures { OnOk result (text.new.items ≡ text.old.items ++ rule_end rule.now) }
{
    push_piece(text, b" >")?;
    push_spaced_entries(text, rule.as_slice())?;
    push_piece(text, b"\n")
}

fn push_spaced_type_name(text: &mut Vec<u8>, kind: AvpType) -> Result<(), NoMemory>
    ensures { OnOk result (text.new.items ≡ text.old.items ++ spaced (type_name kind)) }
{
    push_piece(text, b" ")?;
    push_piece(text, name_of_type(kind))
}

fn push_spaced_value(text: &mut Vec<u8>, value: &EnumValue) -> Result<(), NoMemory>
    ensures { OnOk result (text.new.items ≡ text.old.items ++ listed_value_text value.now) }
{
    push_piece(text, b" ")?;
    push_piece(text, value.name.as_slice())?;
    push_spaced_number(text, value.number.unsigned_abs())
}

fn push_comma_and_value(text: &mut Vec<u8>, value: &EnumValue) -> Result<(), NoMemory>
    ensures { OnOk result (text.new.items ≡ text.old.items ++ next_value value.now) }
{
    push_piece(text, b",")?;
    push_spaced_value(text, value)
}

fn push_further_values(text: &mut Vec<u8>, values: &[EnumValue]) -> Result<(), NoMemory>
    ensures { OnOk result (text.new.items ≡ text.old.items ++ flat_map next_value values.now) }
{
    for value in values {
        push_comma_and_value(text, value)?;
    }
    Ok(())
}

/// A list of values, where there is one.
fn push_spaced_value_list(text: &mut Vec<u8>, values: &[EnumValue]) -> Result<(), NoMemory>
    ensures { OnOk result (text.new.items ≡ text.old.items ++ value_list_text values.now) }
{
    match values {
        [] => Ok(()),
        [first, more @ ..] => {
            push_piece(text, b" {")?;
            push_spaced_value(text, first)?;
            push_further_values(text, more)?;
            push_piece(text, b" }")
        }
    }
}

/// What stands behind the code of an AVP that isn't Grouped: its type, vendor and values, and the end of the line.
fn push_spaced_type_to_line_feed(text: &mut Vec<u8>, avp: &AvpDef) -> Result<(), NoMemory>
    ensures { OnOk result (text.new.items ≡ text.old.items ++ plain_end avp.now) }
{
    push_spaced_type_name(text, avp.kind)?;
    push_spaced_number_if_some(text, avp.vendor)?;
    push_spaced_value_list(text, avp.values.as_slice())?;
    push_piece(text, b"\n")
}

fn push_ungrouped_avp_line(text: &mut Vec<u8>, avp: &AvpDef) -> Result<(), NoMemory>
    ensures { OnOk result (text.new.items ≡ text.old.items ++ plain_line avp.now) }
{
    push_piece(text, b"@ ")?;
    push_piece(text, avp.name.as_slice())?;
    push_spaced_number(text, avp.code)?;
    push_spaced_type_to_line_feed(text, avp)
}

/// What stands behind the name of a group: the end of its title, `::=`, and its head but for the end.
fn push_spaced_bracket_and_group_head(text: &mut Vec<u8>, avp: &AvpDef) -> Result<(), NoMemory>
    ensures { OnOk result (text.new.items ≡ text.old.items ++ group_head_text avp.now) }
{
    push_piece(text, b" > ::= < AVP Header:")?;
    push_spaced_number(text, avp.code)?;
    push_spaced_number_if_some(text, avp.vendor)
}

fn push_group_line(text: &mut Vec<u8>, avp: &AvpDef) -> Result<(), NoMemory>
    ensures { OnOk result (text.new.items ≡ text.old.items ++ group_line avp.now) }
{
    push_piece(text, b"< ")?;
    push_piece(text, avp.name.as_slice())?;
    push_spaced_bracket_and_group_head(text, avp)?;
    push_spaced_bracket_rule_and_lf(text, &avp.rule)
}

fn push_avp_line(text: &mut Vec<u8>, avp: &AvpDef) -> Result<(), NoMemory>
    ensures { OnOk result (text.new.items ≡ text.old.items ++ avp_line avp.now) }
{
    match avp.kind {
        AvpType::Grouped => push_group_line(text, avp),
        _ => push_ungrouped_avp_line(text, avp),
    }
}

fn push_command_flags(text: &mut Vec<u8>, command: &CommandDef) -> Result<(), NoMemory>
    ensures { OnOk result (text.new.items ≡ text.old.items ++ flags_text command.now) }
{
    push_word_if_set(text, command.request, b", REQ")?;
    push_word_if_set(text, command.proxiable, b", PXY")?;
    push_word_if_set(text, command.err, b", ERR")
}

/// What stands behind the name of a command: the end of its title, `::=`, and its head but for the end.
fn push_spaced_bracket_and_command_head(
    text: &mut Vec<u8>,
    command: &CommandDef,
) -> Result<(), NoMemory>
    ensures { OnOk result (text.new.items ≡ text.old.items ++ command_head_text command.now) }
{
    push_piece(text, b" > ::= < Diameter Header:")?;
    push_spaced_number(text, command.code)?;
    push_command_flags(text, command)?;
    push_spaced_number(text, command.application)
}

fn push_command_line(text: &mut Vec<u8>, command: &CommandDef) -> Result<(), NoMemory>
    ensures { OnOk result (text.new.items ≡ text.old.items ++ command_line command.now) }
{
    push_piece(text, b"< ")?;
    push_piece(text, command.name.as_slice())?;
    push_spaced_bracket_and_command_head(text, command)?;
    push_spaced_bracket_rule_and_lf(text, &command.rule)
}

/// Puts the line of each AVP behind the text.
fn push_avp_lines(text: &mut Vec<u8>, avps: &[AvpDef]) -> Result<(), NoMemory>
    ensures { OnOk result (text.new.items ≡ text.old.items ++ flat_map avp_line avps.now) }
{
    for avp in avps {
        push_avp_line(text, avp)?;
    }
    Ok(())
}

/// Puts the line of each command behind the text.
fn push_command_lines(text: &mut Vec<u8>, commands: &[CommandDef]) -> Result<(), NoMemory>
    ensures { OnOk result (text.new.items ≡ text.old.items ++ flat_map command_line commands.now) }
{
    for command in commands {
        push_command_line(text, command)?;
    }
    Ok(())
}

fn push_vendor_line(text: &mut Vec<u8>, vendor: &VendorDef) -> Result<(), NoMemory>
    ensures { OnOk result (text.new.items ≡ text.old.items ++ vendor_line vendor.now) }
{
    push_piece(text, b"@ vendor ")?;
    push_piece(text, vendor.name.as_slice())?;
    push_spaced_number(text, vendor.number)?;
    push_piece(text, b"\n")
}

/// Puts the line of each vendor behind the text.
fn push_vendor_lines(text: &mut Vec<u8>, vendors: &[VendorDef]) -> Result<(), NoMemory>
    ensures { OnOk result (text.new.items ≡ text.old.items ++ flat_map vendor_line vendors.now) }
{
    for vendor in vendors {
        push_vendor_line(text, vendor)?;
    }
    Ok(())
}

/// Whether no AVP has a list of values.
fn has_no_value_lists(avps: &[AvpDef]) -> bool
    ensures { result ≡ list_all (λ a. has_nothing a.values) avps.now }
{
    for avp in avps {
        if let [_, ..] = avp.values.as_slice() {
            return false;
        }
    }
    true
}

/// Whether there are no vendors and no lists of values.
fn fits_first_version(tables: &Tables) -> bool
    ensures { result ≡ is_first_version (defined tables.now) }
{
    match tables.vendors.items.as_slice() {
        [] => has_no_value_lists(tables.avps.as_slice()),
        _ => false,
    }
}

/// Puts the line of the version, where a text of version 1 doesn't say it all.
fn push_version_line_if_second(text: &mut Vec<u8>, tables: &Tables) -> Result<(), NoMemory>
    ensures { OnOk result (text.new.items ≡ text.old.items ++ version_line (defined tables.now)) }
{
    if fits_first_version(tables) {
        Ok(())
    } else {
        push_piece(text, b"@ 2\n")
    }
}

/// Puts the text of all definitions behind the text.
pub fn push_tables(text: &mut Vec<u8>, tables: &Tables) -> Result<(), NoMemory>
    ensures { OnOk result (text.new.items ≡ text.old.items ++ printed (defined tables.now)) }
{
    push_version_line_if_second(text, tables)?;
    push_vendor_lines(text, tables.vendors.items.as_slice())?;
    push_avp_lines(text, tables.avps.as_slice())?;
    push_command_lines(text, tables.commands.as_slice())
}
