//! The item of an AVP.

ghost use Rattle.std.specs.Prelude.{◌≡◌, ◌<◌, ◌≤◌, false, length, MatchResult, IfOk, Err};
ghost use Rattle.dm_grammar.specs.Items.Written.{AvpIs};
ghost use Rattle.dm_grammar.specs.Places.GrammarPlace.{AtSign, AvpCode, AvpName, Text};
ghost use Rattle.dm_grammar.specs.Places.TokenRole.{CodeIs, KindIs, NameOfAvp};
ghost use Rattle.dm_grammar.specs.Readers.{IfSyntax, begins_vendor, behind_brace, behind_kind};
ghost use Rattle.dm_grammar.specs.Readers.{behind_vendor, may_list, adding_item, with_kind};
ghost use Rattle.dm_grammar.specs.Told.{collect, filled};
ghost use Rattle.dm_grammar.specs.Views.{view_word, view_avp, view_reference_option, view_words};

use crate::fault::ItemFault;
use crate::first_tokens::{begins_with_terminal, expect_token};
use crate::item::{AvpItem, VendorWord};
use crate::reading::{Reading, Version};
use crate::symbol::Symbol;
use crate::terminal::{Terminal, terminal_takes_symbol};
use crate::token::Token;
use crate::value::read_value_list;
use crate::vendor::read_vendor_word;
use std::alloc::Global;

/// Whether a list of values may stand behind the type: it is Enumerated, in a text of the second version.
fn is_enumerated_in_second_version(kind: Token<'_>, how: Reading) -> bool
    ensures { result ≡ may_list how.version (view_word kind.entry) }
{
    match how.version {
        Version::First => false,
        Version::Second => terminal_takes_symbol(Terminal::One(Symbol::Enumerated), kind.symbol),
    }
}

/// A type, and whether a list of values may stand behind it.
fn read_type_and_if_it_may_list<'t, 'a>(
    tokens: &'t [Token<'a>],
    how: Reading,
) -> Result<((Token<'a>, bool), &'t [Token<'a>]), usize>
    ensures tells { MatchResult result
        (λ x. collect how AvpCode (view_words tokens.now)
        ≡ filled KindIs (view_word x.0.0) (collect how (behind_kind x.0.1) (view_words x.1.now)))
        (λ line. collect how AvpCode (view_words tokens.now) ≡ Err line) }
    ensures shorter { IfOk result (λ x. length x.1.now < length tokens.now) }
{
    let (kind, rest) = expect_token(tokens, how, Terminal::AnyName)?;
    Ok(((kind, is_enumerated_in_second_version(kind, how)), rest))
}

/// `{` before a list, where one may stand.
fn read_list_brace<'t, 'a>(
    tokens: &'t [Token<'a>],
    how: Reading,
    may: bool,
) -> (bool, &'t [Token<'a>])
    ensures tells { collect how (behind_vendor may) (view_words tokens.now)
        ≡ collect how (behind_brace result.0) (view_words result.1.now) }
    ensures shorter { length result.1.now ≤ length tokens.now }
{
    if may && begins_with_terminal(tokens, Terminal::One(Symbol::OpenBrace)) {
        (true, &tokens[1..])
    } else {
        (false, tokens)
    }
}

/// What stands behind the code of an AVP: its type, and its vendor where one is written.
#[derive(Clone, Copy)]
struct TypePart<'a> {
    kind: Token<'a>,
    vendor: Option<VendorWord<'a>>,
    list: bool,
}

/// type [vend] ["{"].
fn read_type_vendor_and_brace<'t, 'a>(
    tokens: &'t [Token<'a>],
    how: Reading,
) -> Result<(TypePart<'a>, &'t [Token<'a>]), usize>
    ensures tells { MatchResult result
        (λ x. collect how AvpCode (view_words tokens.now)
        ≡ with_kind (view_word x.0.kind) (view_reference_option x.0.vendor)
        (collect how (behind_brace x.0.list) (view_words x.1.now)))
        (λ line. collect how AvpCode (view_words tokens.now) ≡ Err line) }
    ensures shorter { IfOk result (λ x. length x.1.now < length tokens.now) }
{
    let ((kind, may), rest) = read_type_and_if_it_may_list(tokens, how)?;
    let (vendor, rest) = read_vendor_word(rest, how)?;
    let (list, rest) = read_list_brace(rest, how, may);
    Ok((TypePart { kind, vendor, list }, rest))
}

/// number type [vend] ["{"].
fn read_code_type_vendor_and_brace<'t, 'a>(
    tokens: &'t [Token<'a>],
    how: Reading,
) -> Result<((Token<'a>, TypePart<'a>), &'t [Token<'a>]), usize>
    ensures tells { MatchResult result
        (λ x. collect how AvpName (view_words tokens.now)
        ≡ filled CodeIs (view_word x.0.0)
        (with_kind (view_word x.0.1.kind) (view_reference_option x.0.1.vendor)
        (collect how (behind_brace x.0.1.list) (view_words x.1.now))))
        (λ line. collect how AvpName (view_words tokens.now) ≡ Err line) }
    ensures shorter { IfOk result (λ x. length x.1.now < length tokens.now) }
{
    let (code, rest) = expect_token(tokens, how, Terminal::One(Symbol::Number))?;
    let (typed, rest) = read_type_vendor_and_brace(rest, how)?;
    Ok(((code, typed), rest))
}

/// name number type [vend] ["{"].
fn read_avp_up_to_values<'t, 'a>(
    tokens: &'t [Token<'a>],
    how: Reading,
) -> Result<((Token<'a>, Token<'a>, TypePart<'a>), &'t [Token<'a>]), usize>
    requires { begins_vendor how.version (view_words tokens.now) ≡ false }
    ensures tells { MatchResult result
        (λ x. collect how AtSign (view_words tokens.now)
        ≡ filled NameOfAvp (view_word x.0.0)
        (filled CodeIs (view_word x.0.1) (with_kind (view_word x.0.2.kind) (view_reference_option x.0.2.vendor)
        (collect how (behind_brace x.0.2.list) (view_words x.1.now)))))
        (λ line. collect how AtSign (view_words tokens.now) ≡ Err line) }
    ensures shorter { IfOk result (λ x. length x.1.now < length tokens.now) }
{
    let (name, rest) = expect_token(tokens, how, Terminal::AnyName)?;
    let ((code, typed), rest) = read_code_type_vendor_and_brace(rest, how)?;
    Ok(((name, code, typed), rest))
}

/// What follows `@`: name number type [vend], and a list of values where one is written.
pub(crate) fn read_avp_item_from_name<'t, 'a>(
    alloc: Global,
    tokens: &'t [Token<'a>],
    how: Reading,
) -> Result<(AvpItem<'a>, &'t [Token<'a>]), ItemFault>
    requires { begins_vendor how.version (view_words tokens.now) ≡ false }
    ensures tells { MatchResult result
        (λ x. collect how AtSign (view_words tokens.now)
        ≡ adding_item (AvpIs (view_avp x.0)) (collect how Text (view_words x.1.now)))
        (λ fault. IfSyntax fault (λ line. collect how AtSign (view_words tokens.now) ≡ Err line)) }
    ensures shorter { IfOk result (λ x. length x.1.now < length tokens.now) }
{
    match read_avp_up_to_values(tokens, how) {
        Ok(((name, code, typed), rest)) => {
            let (values, rest) = read_value_list(alloc, rest, how, typed.list)?;
            let item = AvpItem {
                name,
                code,
                kind: typed.kind,
                vendor: typed.vendor,
                values,
            };
            Ok((item, rest))
        }
        Err(line) => Err(ItemFault::Syntax(line)),
    }
}
