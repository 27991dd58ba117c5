//! Vendors: as items, and behind the type or the code of an AVP.

ghost use Rattle.std.specs.Prelude.{◌≡◌, ◌<◌, ◌≤◌, drop, true, length, MatchResult, IfOk, Err, if◌then◌else◌};
ghost use Rattle.dm_grammar.specs.Items.Written.{VendorIs};
ghost use Rattle.dm_grammar.specs.Places.{GrammarPlace};
ghost use Rattle.dm_grammar.specs.Places.GrammarPlace.{AtSign, Text};
ghost use Rattle.dm_grammar.specs.Readers.{VendorPlace, begins_named, begins_vendor, adding_item, adding_reference};
ghost use Rattle.dm_grammar.specs.Told.{collect, reference_told};
ghost use Rattle.dm_grammar.specs.Views.{view_option, view_reference_option, view_vendor, view_words};

use crate::first_tokens::{begins_with_terminal, expect_token, is_terminal_at, take_token_if};
use crate::item::{VendorItem, VendorWord};
use crate::reading::{Reading, Version};
use crate::symbol::Symbol;
use crate::terminal::Terminal;
use crate::token::Token;

/// Whether the tokens behind `@` are the word `vendor` and a name: in a text of version 2 they begin a vendor.
pub(crate) fn begins_vendor_item(tokens: &[Token<'_>], how: Reading) -> bool
    ensures { result ≡ begins_vendor how.version (view_words tokens.now) }
{
    match how.version {
        Version::First => false,
        Version::Second => {
            is_terminal_at(tokens, 0, Terminal::One(Symbol::Vendor))
                && is_terminal_at(tokens, 1, Terminal::AnyName)
        }
    }
}

/// What follows `@` of a vendor: `vendor` name number.
pub(crate) fn read_vendor_item_behind_at<'t, 'a>(
    tokens: &'t [Token<'a>],
    how: Reading,
) -> Result<(VendorItem<'a>, &'t [Token<'a>]), usize>
    requires { begins_vendor how.version (view_words tokens.now) ≡ true }
    ensures tells { MatchResult result
        (λ x. collect how AtSign (view_words tokens.now)
        ≡ adding_item (VendorIs (view_vendor x.0)) (collect how Text (view_words x.1.now)))
        (λ line. collect how AtSign (view_words tokens.now) ≡ Err line) }
    ensures shorter { IfOk result (λ x. length x.1.now < length tokens.now) }
{
    let (_word, rest) = expect_token(tokens, how, Terminal::One(Symbol::Vendor))?;
    let (name, rest) = expect_token(rest, how, Terminal::AnyName)?;
    let (number, rest) = expect_token(rest, how, Terminal::One(Symbol::Number))?;
    Ok((VendorItem { name, number }, rest))
}

/// A vendor by its name, or else by its number; None where neither is written.
pub(crate) fn named_or_numbered_vendor<'a>(
    named: Option<Token<'a>>,
    number: Option<Token<'a>>,
) -> Option<VendorWord<'a>>
    ensures { view_reference_option result ≡ reference_told (view_option named.entry) (view_option number.entry) }
{
    match (named, number) {
        (Some(name), _) => Some(VendorWord::Named(name)),
        (None, Some(number)) => Some(VendorWord::Numbered(number)),
        (None, None) => None,
    }
}

/// `:` before a vendor's name, where it is there and the text of version 2.
pub(crate) fn read_colon_before_vendor_name<'t, 'a>(
    tokens: &'t [Token<'a>],
    how: Reading,
) -> (bool, &'t [Token<'a>])
    ensures named { result.0 ≡ begins_named how.version (view_words tokens.now) }
    ensures rest { view_words result.1.now
        ≡ (if result.0 then drop 1 (view_words tokens.now) else view_words tokens.now) }
    ensures shorter { length result.1.now ≤ length tokens.now }
{
    match how.version {
        Version::First => (false, tokens),
        Version::Second => {
            if begins_with_terminal(tokens, Terminal::One(Symbol::Colon)) {
                (true, &tokens[1..])
            } else {
                (false, tokens)
            }
        }
    }
}

/// [vend]: number | ":" name.
pub(crate) fn read_vendor_word<'t, 'a>(
    tokens: &'t [Token<'a>],
    how: Reading,
) -> Result<(Option<VendorWord<'a>>, &'t [Token<'a>]), usize>
    ensures tells { (p colon q : GrammarPlace) → VendorPlace how.version p colon q → MatchResult result
        (λ x. collect how p (view_words tokens.now)
        ≡ adding_reference (view_reference_option x.0) (collect how q (view_words x.1.now)))
        (λ line. collect how p (view_words tokens.now) ≡ Err line) }
    ensures shorter { IfOk result (λ x. length x.1.now ≤ length tokens.now) }
{
    let (named, behind) = read_colon_before_vendor_name(tokens, how);
    if named {
        let (name, rest) = expect_token(behind, how, Terminal::AnyName)?;
        Ok((Some(VendorWord::Named(name)), rest))
    } else {
        let (number, rest) = take_token_if(tokens, Terminal::One(Symbol::Number));
        Ok((named_or_numbered_vendor(None, number), rest))
    }
}
