//! The command check: messages in hexadecimal, one a line, judged by a dictionary.
ghost use Rattle.std.specs.Prelude.{◌≡◌, ◌≢◌, ◌++◌, ◌∷◌, [], false, IfOk, IfErr};
ghost use Rattle.dm_tool.specs.Check.{dictionary_fault_text, ChecksText, ChecksWithDictionary};
ghost use Rattle.dm_tables.specs.Base.{base_definitions};
ghost use Rattle.dm_dict_text.specs.declared.fault.DictFault.TheVariants as dict;

use crate::divide::divide_at_divider_or_end;
use crate::fault::ToolFault;
use crate::messages::{Task, messages_text};
use crate::verdict::put_dictionary_fault_words;
use dm_dict::{DictFault, Dictionary};
use std::alloc::Global;

/// The text for an input under the base dictionary, and whether all of it is good.
pub fn check_text(alloc: Global, input: &[u8]) -> Result<(Vec<u8>, bool), ToolFault>
    ensures checked { IfOk result (λ checked. ChecksText input.now checked.0.items checked.1) }
    ensures fault { IfErr result (λ e. e ≡ ToolFault.Memory) }
{
    let base = Dictionary::base(alloc)?;
    let checked = messages_text(alloc, Task::Check(&base), input);
    drop(base);
    checked
}

/// The text for an input that begins with a dictionary, and whether all of it is good.
pub fn check_text_with_dictionary(alloc: Global, input: &[u8]) -> Result<(Vec<u8>, bool), ToolFault>
    ensures checked { IfOk result (λ checked. ChecksWithDictionary input.now checked.0.items checked.1) }
    ensures fault { IfErr result (λ e. e ≡ ToolFault.Memory) }
{
    let base = Dictionary::base(alloc)?;
    let checked = check_text_with_dictionary_over(alloc, &base, input);
    drop(base);
    checked
}

/// The text for an input that begins with a dictionary over the base one, and whether all of it is good.
fn check_text_with_dictionary_over(
    alloc: Global,
    base: &Dictionary,
    input: &[u8],
) -> Result<(Vec<u8>, bool), ToolFault>
    requires base { base.now ≡ base_definitions }
    ensures checked { IfOk result (λ checked. ChecksWithDictionary input.now checked.0.items checked.1) }
    ensures fault { IfErr result (λ e. e ≡ ToolFault.Memory) }
{
    let divided = divide_at_divider_or_end(input);
    match Dictionary::read(alloc, divided.dictionary, base) {
        Ok(dictionary) => {
            let checked = messages_text(alloc, Task::Check(&dictionary), divided.messages);
            drop(dictionary);
            checked
        }
        Err(fault) => dictionary_refusal_text(alloc, fault),
    }
}

/// The text for a dictionary's fault, and false, for the input isn't good. Want of memory has no text.
fn dictionary_refusal_text(alloc: Global, fault: DictFault) -> Result<(Vec<u8>, bool), ToolFault>
    ensures words { IfOk result (λ printed. printed.0.items ≡ dictionary_fault_text fault ++ 10 ∷ []) }
    ensures known { IfOk result (λ printed. fault ≢ dict.NoMemory) }
    ensures bad { IfOk result (λ printed. printed.1 ≡ false) }
    ensures fault { IfErr result (λ e. e ≡ ToolFault.Memory) }
{
    let mut text = String::new(alloc);
    put_dictionary_fault_words(&mut text, fault)?;
    text.push_str("\n")?;
    Ok((text.into_bytes(), false))
}
