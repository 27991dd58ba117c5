//! The entries of a rule, each in the brackets of its form.

ghost use Rattle.std.specs.Prelude.{◌≡◌, ◌<◌, true, length, MatchResult, IfOk, Err, None};
ghost use Rattle.dm_grammar.specs.Places.GrammarPlace.{High, Low, InRule};
ghost use Rattle.dm_grammar.specs.Readers.{begins_entry, close_of, low_before, bracket_form, adding_entry};
ghost use Rattle.dm_grammar.specs.Told.{collect};
ghost use Rattle.dm_grammar.specs.Views.{view_entry, view_option, view_words};

use crate::first_tokens::{begins_with_terminal, expect_token, expect_two_tokens, take_token_if};
use crate::item::{EntryItem, Form, Qualifier};
use crate::reading::Reading;
use crate::symbol::Symbol;
use crate::terminal::Terminal;
use crate::title::begins_bracketed_title;
use crate::token::Token;

/// The form of the entry that a bracket opens; None for a symbol that opens none.
fn form_of_opening_bracket(symbol: Symbol) -> Option<Form>
    ensures { result ≡ bracket_form symbol }
{
    match symbol {
        Symbol::Less => Some(Form::Fixed),
        Symbol::OpenBrace => Some(Form::Required),
        Symbol::OpenSquare => Some(Form::Optional),
        _ => None,
    }
}

/// What closes the brackets of a form.
fn closing_bracket(form: Form) -> Symbol
    ensures { result ≡ close_of form }
{
    match form {
        Form::Fixed => Symbol::Greater,
        Form::Required => Symbol::CloseBrace,
        Form::Optional => Symbol::CloseSquare,
    }
}

/// A name in brackets.
fn read_bracketed_name<'t, 'a>(
    tokens: &'t [Token<'a>],
    how: Reading,
) -> Result<(EntryItem<'a>, &'t [Token<'a>]), usize>
    ensures tells { MatchResult result
        (λ x. collect how High (view_words tokens.now)
        ≡ adding_entry (view_entry x.0) (collect how InRule (view_words x.1.now)))
        (λ line. collect how High (view_words tokens.now) ≡ Err line) }
    ensures plain { IfOk result (λ x. x.0.qualifier ≡ None) }
    ensures shorter { IfOk result (λ x. length x.1.now < length tokens.now) }
{
    let Some((open, rest)) = tokens.split_first() else {
        return Err(how.last);
    };
    let Some(form) = form_of_opening_bracket(open.symbol) else {
        return Err(open.line);
    };
    let close = Terminal::One(closing_bracket(form));
    let (words, rest) = expect_two_tokens(rest, how, Terminal::AnyName, close)?;
    let entry = EntryItem {
        form,
        name: words.0,
        qualifier: None,
    };
    Ok((entry, rest))
}

/// What follows the first number of an entry, or its place: `*` [number], and a name in brackets.
fn read_entry_from_star<'t, 'a>(
    low: Option<Token<'a>>,
    tokens: &'t [Token<'a>],
    how: Reading,
) -> Result<(EntryItem<'a>, &'t [Token<'a>]), usize>
    ensures tells { MatchResult result
        (λ x. low_before (view_option low.entry) (collect how Low (view_words tokens.now))
        ≡ adding_entry (view_entry x.0) (collect how InRule (view_words x.1.now)))
        (λ line. low_before (view_option low.entry) (collect how Low (view_words tokens.now)) ≡ Err line) }
    ensures shorter { IfOk result (λ x. length x.1.now < length tokens.now) }
{
    let (_star, rest) = expect_token(tokens, how, Terminal::One(Symbol::Star))?;
    let (high, rest) = take_token_if(rest, Terminal::One(Symbol::Number));
    let (mut entry, rest) = read_bracketed_name(rest, how)?;
    entry.qualifier = Some(Qualifier { low, high });
    Ok((entry, rest))
}

/// Whether the tokens begin with an entry, and not with an item.
pub(crate) fn begins_entry_not_title(tokens: &[Token<'_>]) -> bool
    ensures { result ≡ begins_entry (view_words tokens.now) }
{
    begins_with_terminal(tokens, Terminal::One(Symbol::Number))
        || begins_with_terminal(tokens, Terminal::One(Symbol::Star))
        || begins_with_terminal(tokens, Terminal::One(Symbol::OpenBrace))
        || begins_with_terminal(tokens, Terminal::One(Symbol::OpenSquare))
        || (begins_with_terminal(tokens, Terminal::One(Symbol::Less))
            && !begins_bracketed_title(tokens))
}

/// The entry with which the tokens begin.
pub(crate) fn read_entry<'t, 'a>(
    tokens: &'t [Token<'a>],
    how: Reading,
) -> Result<(EntryItem<'a>, &'t [Token<'a>]), usize>
    requires { begins_entry (view_words tokens.now) ≡ true }
    ensures tells { MatchResult result
        (λ x. collect how InRule (view_words tokens.now)
        ≡ adding_entry (view_entry x.0) (collect how InRule (view_words x.1.now)))
        (λ line. collect how InRule (view_words tokens.now) ≡ Err line) }
    ensures shorter { IfOk result (λ x. length x.1.now < length tokens.now) }
{
    let (low, rest) = take_token_if(tokens, Terminal::One(Symbol::Number));
    match low {
        Some(_) => read_entry_from_star(low, rest, how),
        None => {
            if begins_with_terminal(tokens, Terminal::One(Symbol::Star)) {
                read_entry_from_star(None, tokens, how)
            } else {
                read_bracketed_name(tokens, how)
            }
        }
    }
}
