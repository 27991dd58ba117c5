//! How often an entry of a dictionary text lets its AVP stand (RFC 6733, 3.2).
ghost use Rattle.std.specs.Prelude.{◌≡◌, [], Some, option_map, IfOk, IfErr};
ghost use Rattle.dm_grammar.specs.Views.{view_option, view_entry};
ghost use Rattle.dm_dict_text.specs.Meaning.{number, plain_min, starred_min, low_or, min_of, max_of};
ghost use Rattle.dm_dict_text.specs.Faults.{first_dict_fault, option_faults, above_faults, bound_faults};

use crate::DictFault;
use crate::number::number_of_digit_word;
use dm_grammar::{EntryItem, Form, Token};

/// The least number of an entry of this form without a qualifier.
fn min_without_qualifier(form: Form) -> u32
    ensures { result ≡ plain_min form }
{
    match form {
        Form::Fixed | Form::Required => 1,
        Form::Optional => 0,
    }
}

/// The least number of an entry of this form whose qualifier tells none.
fn default_qualifier_min(form: Form) -> u32
    ensures { result ≡ starred_min form }
{
    match form {
        Form::Fixed | Form::Optional => 0,
        Form::Required => 1,
    }
}

/// The least number of a qualifier: what this word writes, whatever the form, be it 0 where the AVP is required; else
/// that of the form; or the fault of a number that is too great.
fn qualifier_min(form: Form, word: Option<Token<'_>>) -> Result<u32, DictFault>
    ensures value { IfOk result (λ n. n ≡ low_or form (view_option word.entry)) }
    ensures good { IfOk result (λ _. option_faults u32.MAX (view_option word.entry) ≡ []) }
    ensures fault { IfErr result (λ f. first_dict_fault (option_faults u32.MAX (view_option word.entry)) ≡ Some f) }
{
    match word {
        Some(word) => number_of_digit_word(word, u32::MAX),
        None => Ok(default_qualifier_min(form)),
    }
}

/// The greatest number of a qualifier: what this word writes, if there is one; or the fault of a number that is too
/// great, or below `min`.
fn qualifier_max(min: u32, word: Option<Token<'_>>) -> Result<Option<u32>, DictFault>
    ensures value { IfOk result (λ n. n ≡ option_map number (view_option word.entry)) }
    ensures good { IfOk result (λ _. above_faults min (view_option word.entry) ≡ []) }
    ensures fault { IfErr result (λ f. first_dict_fault (above_faults min (view_option word.entry)) ≡ Some f) }
{
    let Some(word) = word else {
        return Ok(None);
    };
    let max = number_of_digit_word(word, u32::MAX)?;
    if max < min {
        Err(DictFault::Range(word.line))
    } else {
        Ok(Some(max))
    }
}

/// The least and the greatest number of an entry, or the first fault of its qualifier: a number that is too great, or a
/// greatest below the least. No greatest number is no limit. What is written isn't compared with the form.
pub fn entry_bounds(item: &EntryItem<'_>) -> Result<(u32, Option<u32>), DictFault>
    ensures min { IfOk result (λ b. b.0 ≡ min_of (view_entry item.now).form (view_entry item.now).qualifier) }
    ensures max { IfOk result (λ b. b.1 ≡ max_of (view_entry item.now).qualifier) }
    ensures good { IfOk result (λ _. bound_faults (view_entry item.now) ≡ []) }
    ensures fault { IfErr result (λ f. first_dict_fault (bound_faults (view_entry item.now)) ≡ Some f) }
{
    match item.qualifier {
        Some(qualifier) => {
            let min = qualifier_min(item.form, qualifier.low)?;
            let max = qualifier_max(min, qualifier.high)?;
            Ok((min, max))
        }
        None => Ok((min_without_qualifier(item.form), Some(1))),
    }
}
