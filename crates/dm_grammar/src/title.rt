//! The title of a command or a group, and what stands from it to the rule.

ghost use Rattle.std.specs.Prelude.{◌≡◌, ◌<◌, false, length, MatchResult, IfOk, Err};
ghost use Rattle.dm_grammar.specs.declared.symbol.Symbol.TheVariants.{At, Less};
ghost use Rattle.dm_grammar.specs.declared.terminal.Terminal.TheVariants.{One};
ghost use Rattle.dm_grammar.specs.Places.GrammarPlace.{Head as HeadPlace, InRule, Text, Titled};
ghost use Rattle.dm_grammar.specs.Places.TokenRole.{TitleIs};
ghost use Rattle.dm_grammar.specs.Readers.{begins_with, begins_title, with_head};
ghost use Rattle.dm_grammar.specs.Told.{collect, filled};
ghost use Rattle.dm_grammar.specs.Views.{view_word, view_head, view_words};

use crate::first_tokens::{expect_two_tokens, fault_line, is_terminal_at, take_token_if};
use crate::head::{Head, read_head_behind_less};
use crate::reading::Reading;
use crate::symbol::Symbol;
use crate::terminal::Terminal;
use crate::token::Token;

/// Whether the tokens begin with a name in `<` and `>` and `::=`, which is the title of a command or a group.
pub(crate) fn begins_bracketed_title(tokens: &[Token<'_>]) -> bool
    ensures { result ≡ begins_title (view_words tokens.now) }
{
    is_terminal_at(tokens, 0, Terminal::One(Symbol::Less))
        && is_terminal_at(tokens, 1, Terminal::AnyName)
        && is_terminal_at(tokens, 2, Terminal::One(Symbol::Greater))
        && is_terminal_at(tokens, 3, Terminal::One(Symbol::Define))
}

/// A title without brackets: name.
fn read_bare_title<'t, 'a>(
    tokens: &'t [Token<'a>],
    how: Reading,
) -> Result<(Token<'a>, &'t [Token<'a>]), usize>
    requires some { 0 < length tokens.now }
    requires no_avp { begins_with (One At) (view_words tokens.now) ≡ false }
    requires bare { begins_with (One Less) (view_words tokens.now) ≡ false }
    ensures tells { MatchResult result
        (λ x. collect how Text (view_words tokens.now)
        ≡ filled TitleIs (view_word x.0) (collect how Titled (view_words x.1.now)))
        (λ line. collect how Text (view_words tokens.now) ≡ Err line) }
    ensures shorter { IfOk result (λ x. length x.1.now < length tokens.now) }
{
    let (name, rest) = take_token_if(tokens, Terminal::AnyName);
    match name {
        Some(name) => Ok((name, rest)),
        None => Err(fault_line(tokens, how)),
    }
}

/// The name of a command or a group: "<" name ">" | name.
fn read_title<'t, 'a>(
    tokens: &'t [Token<'a>],
    how: Reading,
) -> Result<(Token<'a>, &'t [Token<'a>]), usize>
    requires some { 0 < length tokens.now }
    requires no_avp { begins_with (One At) (view_words tokens.now) ≡ false }
    ensures tells { MatchResult result
        (λ x. collect how Text (view_words tokens.now)
        ≡ filled TitleIs (view_word x.0) (collect how Titled (view_words x.1.now)))
        (λ line. collect how Text (view_words tokens.now) ≡ Err line) }
    ensures shorter { IfOk result (λ x. length x.1.now < length tokens.now) }
{
    let (less, rest) = take_token_if(tokens, Terminal::One(Symbol::Less));
    match less {
        Some(_) => {
            let (words, rest) = expect_two_tokens(
                rest,
                how,
                Terminal::AnyName,
                Terminal::One(Symbol::Greater),
            )?;
            Ok((words.0, rest))
        }
        None => read_bare_title(tokens, how),
    }
}

/// title "::=" "<"
fn read_title_define_and_less<'t, 'a>(
    tokens: &'t [Token<'a>],
    how: Reading,
) -> Result<(Token<'a>, &'t [Token<'a>]), usize>
    requires some { 0 < length tokens.now }
    requires no_avp { begins_with (One At) (view_words tokens.now) ≡ false }
    ensures tells { MatchResult result
        (λ x. collect how Text (view_words tokens.now)
        ≡ filled TitleIs (view_word x.0) (collect how HeadPlace (view_words x.1.now)))
        (λ line. collect how Text (view_words tokens.now) ≡ Err line) }
    ensures shorter { IfOk result (λ x. length x.1.now < length tokens.now) }
{
    let (name, rest) = read_title(tokens, how)?;
    let (_marks, rest) = expect_two_tokens(
        rest,
        how,
        Terminal::One(Symbol::Define),
        Terminal::One(Symbol::Less),
    )?;
    Ok((name, rest))
}

/// title "::=" "<" head ">"
pub(crate) fn read_title_and_head<'t, 'a>(
    tokens: &'t [Token<'a>],
    how: Reading,
) -> Result<((Token<'a>, Head<'a>), &'t [Token<'a>]), usize>
    requires some { 0 < length tokens.now }
    requires no_avp { begins_with (One At) (view_words tokens.now) ≡ false }
    ensures tells { MatchResult result
        (λ x. collect how Text (view_words tokens.now)
        ≡ filled TitleIs (view_word x.0.0) (with_head (view_head x.0.1) (collect how InRule (view_words x.1.now))))
        (λ line. collect how Text (view_words tokens.now) ≡ Err line) }
    ensures shorter { IfOk result (λ x. length x.1.now < length tokens.now) }
{
    let (name, rest) = read_title_define_and_less(tokens, how)?;
    let (head, rest) = read_head_behind_less(rest, how)?;
    Ok(((name, head), rest))
}
