//! Numbers of a dictionary text.
ghost use Rattle.std.specs.Prelude.{◌≡◌, ◌≤◌, [], Some, option_map, IfOk, IfErr};
ghost use Rattle.dm_grammar.specs.Views.{view_word, view_option};
ghost use Rattle.dm_dict_text.specs.Meaning.{number_of, number};
ghost use Rattle.dm_dict_text.specs.Faults.{first_dict_fault, range_faults, option_faults};
ghost use Rattle.dm_dict_text.specs.Numbers.{within};

use crate::DictFault;
use dm_grammar::Token;

/// The number that decimal digits write, where it is at most `limit`; else None.
fn number_if_within_limit(digits: &[u8], limit: u32) -> Option<u32>
    ensures { result ≡ within limit (number_of digits.now) }
{
    let limit = u64::from(limit);
    let mut number = 0u64;
    for digit in digits {
        number = number * 10 + u64::from(digit.saturating_sub(b'0'));
        if number > limit {
            return None;
        }
    }
    Some(number as u32)
}

/// The number of a word, or the fault `Range` where it is above `limit`.
pub fn number_of_digit_word(word: Token<'_>, limit: u32) -> Result<u32, DictFault>
    ensures value { IfOk result (λ n. n ≡ number (view_word word.entry)) }
    ensures small { IfOk result (λ n. n ≤ limit) }
    ensures good { IfOk result (λ _. range_faults limit (view_word word.entry) ≡ []) }
    ensures fault { IfErr result (λ f. first_dict_fault (range_faults limit (view_word word.entry)) ≡ Some f) }
{
    match number_if_within_limit(word.text, limit) {
        Some(number) => Ok(number),
        None => Err(DictFault::Range(word.line)),
    }
}

/// The number of a word that may be missing, or the fault `Range` where it is above `limit`.
pub fn number_of_optional_digit_word(
    word: Option<Token<'_>>,
    limit: u32,
) -> Result<Option<u32>, DictFault>
    ensures value { IfOk result (λ n. n ≡ option_map number (view_option word.entry)) }
    ensures good { IfOk result (λ _. option_faults limit (view_option word.entry) ≡ []) }
    ensures fault { IfErr result (λ f. first_dict_fault (option_faults limit (view_option word.entry)) ≡ Some f) }
{
    match word {
        Some(word) => Ok(Some(number_of_digit_word(word, limit)?)),
        None => Ok(None),
    }
}
