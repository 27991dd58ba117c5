//! Whether the name and the numbers of an item are good and new, and which names are defined, those of strays too.
ghost use Rattle.std.specs.Prelude.{◌≡◌, [], Some, map, nat_eq, option_map, unwrap_or, OnOk, IfOk, IfErr};
ghost use Rattle.std.specs.List.{list_any};
ghost use Rattle.std.specs.Cmp.Lexicographic.{pointwise};
ghost use Rattle.dm_grammar.specs.Views.{view_word, view_vendor, view_reference_option, view_command};
ghost use Rattle.dm_tables.specs.Guesses.{AreGuessed};
ghost use Rattle.dm_tables.specs.Tables.{defined, IsIndexed, IsTables};
ghost use Rattle.dm_dict_text.specs.Making.{making};
ghost use Rattle.dm_dict_text.specs.Meaning.{number, vendor_of};
ghost use Rattle.dm_dict_text.specs.Faults.{first_dict_fault, is_defined, is_taken, vendor_item_faults};
ghost use Rattle.dm_dict_text.specs.Faults.{reference_faults, name_faults, code_faults, title_faults, head_faults};

use crate::DictFault;
use crate::number::{number_of_digit_word, number_of_optional_digit_word};
use dm_grammar::{CommandItem, Token, VendorItem, VendorWord};
use dm_tables::{NameGuesses, Tables};
use indexmap::IndexSet;

/// The greatest Command Code (RFC 6733, 3).
const COMMAND_LIMIT: u32 = 16777215;

/// Checks the name and the number of a vendor. Gives the number, or the first fault.
pub fn check_vendor(tables: &Tables, item: &VendorItem<'_>) -> Result<u32, DictFault>
    requires { IsIndexed tables.now }
    ensures number { IfOk result (λ n. n ≡ number (view_word item.now.number)) }
    ensures good { IfOk result (λ _. vendor_item_faults tables.now.vendors.items.items (view_vendor item.now) ≡ []) }
    ensures fault { IfErr result (λ f. first_dict_fault
        (vendor_item_faults tables.now.vendors.items.items (view_vendor item.now)) ≡ Some f) }
{
    if tables.vendors.has_name(item.name.text) {
        return Err(DictFault::Duplicate(item.name.line));
    }
    let number = number_of_digit_word(item.number, u32::MAX)?;
    if tables.vendors.has_number(number) {
        return Err(DictFault::Duplicate(item.number.line));
    }
    Ok(number)
}

/// Whether a stray has the name. Mostly there is none.
fn is_stray(strays: &IndexSet<&[u8]>, name: &[u8]) -> bool
    ensures { result ≡ list_any (pointwise nat_eq name.now) (map (λ k. k.now) strays.now.keys) }
{
    !strays.is_empty() && strays.contains(name)
}

/// Whether an AVP has the name, a stray too.
pub fn is_avp_defined(
    tables: &Tables,
    guesses: &NameGuesses,
    strays: &IndexSet<&[u8]>,
    name: &[u8],
) -> bool
    requires tables { IsTables tables.now }
    requires guesses { AreGuessed tables.now.avps.items guesses.now.places.items }
    ensures { result ≡ is_defined (making tables.now strays.now) name.now }
{
    tables.has_avp_by_own_name_guesses(guesses, name) || is_stray(strays, name)
}

/// Checks the name of an AVP, which must be new and not `AVP`; or gives its first fault.
pub fn check_avp_name(
    tables: &Tables,
    guesses: &NameGuesses,
    strays: &IndexSet<&[u8]>,
    word: Token<'_>,
) -> Result<(), DictFault>
    requires tables { IsTables tables.now }
    requires guesses { AreGuessed tables.now.avps.items guesses.now.places.items }
    ensures good { OnOk result (name_faults (making tables.now strays.now) (view_word word.entry) ≡ []) }
    ensures fault { IfErr result (λ f. first_dict_fault
        (name_faults (making tables.now strays.now) (view_word word.entry)) ≡ Some f) }
{
    if word.text == b"AVP".as_slice() || is_avp_defined(tables, guesses, strays, word.text) {
        Err(DictFault::Duplicate(word.line))
    } else {
        Ok(())
    }
}

/// The vendor that is written, if any; None where it is a name that no vendor has.
fn vendor_number_of_word(
    tables: &Tables,
    word: Option<VendorWord<'_>>,
) -> Result<Option<Option<u32>>, DictFault>
    requires { IsIndexed tables.now }
    ensures vendor { IfOk result (λ v. v ≡ vendor_of tables.now.vendors.items.items
        (view_reference_option word.entry)) }
    ensures good { IfOk result (λ _. reference_faults (view_reference_option word.entry) ≡ []) }
    ensures fault { IfErr result (λ f. first_dict_fault (reference_faults (view_reference_option word.entry))
        ≡ Some f) }
{
    match word {
        None => Ok(Some(None)),
        Some(VendorWord::Numbered(word)) => Ok(Some(Some(number_of_digit_word(word, u32::MAX)?))),
        Some(VendorWord::Named(word)) => match tables.vendors.number_of(word.text) {
            Some(number) => Ok(Some(Some(number))),
            None => Ok(None),
        },
    }
}

/// Whether an AVP has the code and vendor. Where the vendor isn't known, the code isn't compared.
fn is_avp_code_taken(tables: &Tables, code: u32, vendor: Option<Option<u32>>) -> bool
    requires { IsIndexed tables.now }
    ensures { result ≡ is_taken tables.now.avps.items code vendor }
{
    match vendor {
        Some(vendor) => tables.has_avp_of_code(code, vendor),
        None => false,
    }
}

/// Checks the code of an AVP and its vendor. Gives both, or the first fault. No vendor is known where it is a name that
/// no vendor has.
pub fn check_avp_code_and_vendor(
    tables: &Tables,
    code: Token<'_>,
    vendor: Option<VendorWord<'_>>,
) -> Result<(u32, Option<Option<u32>>), DictFault>
    requires { IsTables tables.now }
    ensures code { IfOk result (λ x. x.0 ≡ number (view_word code.entry)) }
    ensures vendor { IfOk result (λ x. x.1
        ≡ vendor_of tables.now.vendors.items.items (view_reference_option vendor.entry)) }
    ensures good { IfOk result (λ _. code_faults (defined tables.now) (view_word code.entry)
        (view_reference_option vendor.entry) ≡ []) }
    ensures fault { IfErr result (λ f. first_dict_fault
        (code_faults (defined tables.now) (view_word code.entry) (view_reference_option vendor.entry)) ≡ Some f) }
{
    let line = code.line;
    let code = number_of_digit_word(code, u32::MAX)?;
    match vendor_number_of_word(tables, vendor) {
        Ok(vendor) => {
            if is_avp_code_taken(tables, code, vendor) {
                Err(DictFault::Duplicate(line))
            } else {
                Ok((code, vendor))
            }
        }
        Err(fault) => Err(fault),
    }
}

/// Checks the name of a command, or gives its first fault.
pub fn check_command_name(tables: &Tables, word: Token<'_>) -> Result<(), DictFault>
    requires { IsIndexed tables.now }
    ensures good { OnOk result (title_faults tables.now.commands.items (view_word word.entry) ≡ []) }
    ensures fault { IfErr result (λ f. first_dict_fault (title_faults tables.now.commands.items (view_word word.entry))
        ≡ Some f) }
{
    if tables.has_command_named(word.text) {
        Err(DictFault::Duplicate(word.line))
    } else {
        Ok(())
    }
}

/// Checks the code of a command, which no other with the same REQ and ERR may have, and its Application-ID. Gives both,
/// or the first fault; the Application-ID is 0 where none is written.
pub fn check_command_code_and_read_application(
    tables: &Tables,
    item: &CommandItem<'_>,
) -> Result<(u32, u32), DictFault>
    requires { IsIndexed tables.now }
    ensures code { IfOk result (λ x. x.0 ≡ number (view_command item.now).code) }
    ensures application { IfOk result (λ x. x.1 ≡ unwrap_or (option_map number (view_command item.now).application) 0) }
    ensures good { IfOk result (λ _. head_faults tables.now.commands.items (view_command item.now) ≡ []) }
    ensures fault { IfErr result (λ f. first_dict_fault (head_faults tables.now.commands.items (view_command item.now))
        ≡ Some f) }
{
    let code = number_of_digit_word(item.code, COMMAND_LIMIT)?;
    if tables.has_command_of_code(code, item.request, item.error) {
        return Err(DictFault::Duplicate(item.code.line));
    }
    let application = number_of_optional_digit_word(item.application, u32::MAX)?;
    Ok((code, application.unwrap_or(0)))
}
