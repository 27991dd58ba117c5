//! The line of an AVP, read as show prints it.
ghost use Rattle.std.specs.Prelude.{◌≡◌, ◌==◌, ◌∷◌, [], ℕ, List, Option, Bool, position, is_some, IfOk, IfSome};
ghost use Rattle.std.specs.Prelude.{IfNone, MatchOption};
ghost use Rattle.dm_wire.specs.declared.avp.Avp.{Avp};
ghost use Rattle.dm_tool.specs.Text.{avp_marks};
ghost use Rattle.dm_text.specs.Words.{words};
ghost use Rattle.dm_tool.specs.AvpWords.{TellsCode, TellsData};
ghost use Rattle.dm_tool.specs.Messages.{TellsAvp};

use crate::header_line::{read_flag, read_two_flags};
use dm_text::{Words, read_hex_word, read_number};
use dm_wire::{Avp, Octets};
use std::alloc::{AllocError, Global};

/// The AVP that a line tells, as show prints it, with any number of spaces before it; None where it tells none.
pub fn read_avp_line(alloc: Global, line: &[u8]) -> Result<Option<Avp>, AllocError>
    ensures { IfOk result (λ read. MatchOption read ((a : Avp) → TellsAvp a line.now → ⊥) (λ a. TellsAvp a line.now)) }
{
    let Some(told) = read_avp_words(line) else {
        return Ok(None);
    };
    let Some(bytes) = read_hex_or_dash(alloc, told.word)? else {
        return Ok(None);
    };
    Ok(Some(Avp {
        code: told.code,
        vendor: told.vendor,
        mandatory: told.mandatory,
        protected: told.protected,
        bytes: Octets::from_vec(bytes),
    }))
}

/// What the words of an AVP tell, and its data, which is still a word.
#[derive(Drop)]
struct AvpWords<'a> {
    code: u32,
    vendor: Option<u32>,
    mandatory: bool,
    protected: bool,
    word: &'a [u8],
}

/// The code, vendor, flags and data word of an AVP that a line tells; None where it tells no such words.
fn read_avp_words(line: &[u8]) -> Option<AvpWords<'_>>
    ensures told { IfSome result (λ p. (code : List ℕ) × TellsCode p.code p.vendor code
        × (words line.now ≡ code ∷ avp_marks (is_some p.vendor) p.mandatory p.protected ∷ p.word.now ∷ [])) }
    ensures none { IfNone result ((a : Avp) → TellsAvp a line.now → ⊥) }
{
    let (first, second, word) = only_three_words(line)?;
    let (code, vendor) = read_code_and_vendor(first)?;
    let (mandatory, protected) = read_avp_flags(second, vendor.is_some())?;
    Some(AvpWords {
        code,
        vendor,
        mandatory,
        protected,
        word,
    })
}

/// The words of a line that has just three; None for any other line.
fn only_three_words(line: &[u8]) -> Option<(&[u8], &[u8], &[u8])>
    ensures told { IfSome result (λ w. words line.now ≡ w.0.now ∷ w.1.now ∷ w.2.now ∷ []) }
    ensures none { IfNone result ((a b c : List ℕ) → words line.now ≡ a ∷ b ∷ c ∷ [] → ⊥) }
{
    let mut words = Words::new(line);
    let first = words.next()?;
    let second = words.next()?;
    let third = words.next()?;
    if words.next().is_some() {
        return None;
    }
    Some((first, second, third))
}

/// The AVP Code that a word tells, and the vendor behind a `/`; None where it tells none.
fn read_code_and_vendor(word: &[u8]) -> Option<(u32, Option<u32>)>
    ensures told { IfSome result (λ read. TellsCode read.0 read.1 word.now) }
    ensures none { IfNone result ((code : ℕ) (vendor : Option ℕ) → TellsCode code vendor word.now → ⊥) }
{
    match slash_position(word) {
        Some(at) => {
            let code = read_number(&word[..at])?;
            let vendor = read_number(&word[at + 1..])?;
            Some((code, Some(vendor)))
        }
        None => {
            let code = read_number(word)?;
            Some((code, None))
        }
    }
}

/// Where the first `/` stands in the word; None where there is none.
fn slash_position(word: &[u8]) -> Option<usize>
    ensures { result ≡ position (λ b. b == 47) word.now }
{
    word.iter().position(|b| *b == b'/')
}

/// Whether M and P are set in the word of flags; None where it isn't one, or V doesn't stand just where there is a
/// vendor.
fn read_avp_flags(word: &[u8], has_vendor: bool) -> Option<(bool, bool)>
    ensures told { IfSome result (λ f. word.now ≡ avp_marks has_vendor f.0 f.1) }
    ensures none { IfNone result ((m p : Bool) → word.now ≡ avp_marks has_vendor m p → ⊥) }
{
    let [vendor, mandatory, protected] = word else {
        return None;
    };
    if read_flag(*vendor, b'V')? != has_vendor {
        return None;
    }
    read_two_flags(*mandatory, b'M', *protected, b'P')
}

/// The octets that a word tells: hexadecimal digits in either case, or `-` for none; None where it tells none.
fn read_hex_or_dash(alloc: Global, word: &[u8]) -> Result<Option<Vec<u8>>, AllocError>
    ensures { IfOk result (λ read. MatchOption read ((bytes : List ℕ) → TellsData bytes word.now → ⊥)
        (λ bytes. TellsData bytes.items word.now)) }
{
    if word == b"-".as_slice() {
        return Ok(Some(Vec::new(alloc)));
    }
    read_hex_word(alloc, word)
}
