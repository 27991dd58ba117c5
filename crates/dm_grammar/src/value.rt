//! The list of values of an AVP.

ghost use Rattle.std.specs.Prelude.{◌≡◌, ◌<◌, ◌≤◌, length, map, MatchResult, IfOk, Err};
ghost use Rattle.dm_grammar.specs.Places.GrammarPlace.{ListOpen, Text, ValueEnd};
ghost use Rattle.dm_grammar.specs.Readers.{IfSyntax, behind_brace, adding_value, with_values};
ghost use Rattle.dm_grammar.specs.Told.{collect};
ghost use Rattle.dm_grammar.specs.Views.{view_value, view_words};

use crate::fault::ItemFault;
use crate::first_tokens::{expect_two_tokens, same_tokens};
use crate::item::ValueItem;
use crate::reading::Reading;
use crate::symbol::Symbol;
use crate::terminal::{Terminal, terminal_takes_symbol};
use crate::token::Token;
use std::alloc::Global;

/// `,` before another value, or `}`: whether another value follows.
fn read_comma_or_list_end<'t, 'a>(
    tokens: &'t [Token<'a>],
    how: Reading,
) -> Result<(bool, &'t [Token<'a>]), usize>
    ensures tells { MatchResult result
        (λ x. collect how ValueEnd (view_words tokens.now) ≡ collect how (behind_brace x.0) (view_words x.1.now))
        (λ line. collect how ValueEnd (view_words tokens.now) ≡ Err line) }
    ensures shorter { IfOk result (λ x. length x.1.now < length tokens.now) }
{
    let Some((first, rest)) = tokens.split_first() else {
        return Err(how.last);
    };
    if terminal_takes_symbol(Terminal::One(Symbol::Comma), first.symbol) {
        Ok((true, rest))
    } else if terminal_takes_symbol(Terminal::One(Symbol::CloseBrace), first.symbol) {
        Ok((false, rest))
    } else {
        Err(first.line)
    }
}

/// A value, and whether another follows: name number, and `,` or `}`.
fn read_value_and_comma_or_end<'t, 'a>(
    tokens: &'t [Token<'a>],
    how: Reading,
) -> Result<((ValueItem<'a>, bool), &'t [Token<'a>]), usize>
    ensures tells { MatchResult result
        (λ x. collect how ListOpen (view_words tokens.now)
        ≡ adding_value (view_value x.0.0) (collect how (behind_brace x.0.1) (view_words x.1.now)))
        (λ line. collect how ListOpen (view_words tokens.now) ≡ Err line) }
    ensures shorter { IfOk result (λ x. length x.1.now < length tokens.now) }
{
    let (words, rest) = expect_two_tokens(
        tokens,
        how,
        Terminal::AnyName,
        Terminal::One(Symbol::Number),
    )?;
    let (more, rest) = read_comma_or_list_end(rest, how)?;
    let value = ValueItem {
        name: words.0,
        number: words.1,
    };
    Ok(((value, more), rest))
}

/// The values behind `{`, up to `}`: value *("," value); none where there is no list.
pub(crate) fn read_value_list<'t, 'a>(
    alloc: Global,
    tokens: &'t [Token<'a>],
    how: Reading,
    list: bool,
) -> Result<(Vec<ValueItem<'a>>, &'t [Token<'a>]), ItemFault>
    ensures tells { MatchResult result
        (λ x. collect how (behind_brace list) (view_words tokens.now)
        ≡ with_values (map view_value x.0.items) (collect how Text (view_words x.1.now)))
        (λ fault. IfSyntax fault (λ line. collect how (behind_brace list) (view_words tokens.now) ≡ Err line)) }
    ensures shorter { IfOk result (λ x. length x.1.now ≤ length tokens.now) }
{
    let mut found = Vec::new(alloc);
    let mut rest = tokens;
    let mut more = list;
    while more {
        match read_value_and_comma_or_end(rest, how) {
            Ok(((value, goes_on), after)) => {
                found.push(value).map_err(|_| ItemFault::NoMemory)?;
                rest = same_tokens(after);
                more = goes_on;
            }
            Err(line) => return Err(ItemFault::Syntax(line)),
        }
    }
    Ok((found, rest))
}
