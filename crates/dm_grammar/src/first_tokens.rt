//! The first tokens of the rest of a text: taken where they are the terminals that are wanted, else the line of the
//! fault.

ghost use Rattle.std.specs.Prelude.{◌≡◌, ◌<◌, ◌≤◌, ◌∷◌, false, true, drop};
ghost use Rattle.std.specs.Prelude.{length, MatchResult, MatchOption, IfOk, Err};
ghost use Rattle.dm_grammar.specs.Grammar.{by, fits, may_end, steps_from};
ghost use Rattle.dm_grammar.specs.Places.{GrammarPlace, TokenRole};
ghost use Rattle.dm_grammar.specs.Readers.{begins_with, fault_line};
ghost use Rattle.dm_grammar.specs.Told.{collect, filled};
ghost use Rattle.dm_grammar.specs.Views.{view_word, view_words};

use crate::reading::Reading;
use crate::terminal::{Terminal, terminal_takes_symbol};
use crate::token::Token;

/// The same tokens. A loop's variable takes what is left from a call, since the proof can't follow a
/// slice of tokens out of a tuple into it.
pub(crate) fn same_tokens<'t, 'a>(tokens: &'t [Token<'a>]) -> &'t [Token<'a>]
    ensures { result.now ≡ tokens.now }
{
    tokens
}

/// The line of a fault at the next token.
pub(crate) fn fault_line(tokens: &[Token<'_>], how: Reading) -> usize
    ensures { result ≡ fault_line how.last (view_words tokens.now) }
{
    match tokens.first() {
        Some(token) => token.line,
        None => how.last,
    }
}

/// The first token, where it is the terminal that a place with one step wants, and the rest; else the line of the
/// fault: that token's, or the last one where there is no token.
pub(crate) fn expect_token<'t, 'a>(
    tokens: &'t [Token<'a>],
    how: Reading,
    terminal: Terminal,
) -> Result<(Token<'a>, &'t [Token<'a>]), usize>
    ensures tells { (p q : GrammarPlace) (r : TokenRole) → steps_from how.version p ≡ by terminal q r
        → may_end p ≡ false →
        MatchResult result (λ x. collect how p (view_words tokens.now)
        ≡ filled r (view_word x.0) (collect how q (view_words x.1.now)))
        (λ line. collect how p (view_words tokens.now) ≡ Err line) }
    ensures found { MatchResult result
        (λ x. (view_words tokens.now ≡ view_word x.0 ∷ view_words x.1.now)
        × (fits terminal (view_word x.0).symbol ≡ true))
        (λ line. (begins_with terminal (view_words tokens.now) ≡ false)
        × (line ≡ fault_line how.last (view_words tokens.now))) }
    ensures shorter { IfOk result (λ x. length x.1.now < length tokens.now) }
{
    match tokens.split_first() {
        Some((first, rest)) => {
            if terminal_takes_symbol(terminal, first.symbol) {
                Ok((*first, rest))
            } else {
                Err(first.line)
            }
        }
        None => Err(how.last),
    }
}

/// The first two tokens, where they are the terminals that a place with one step and the next place want, and the rest;
/// else the line of the fault.
pub(crate) fn expect_two_tokens<'t, 'a>(
    tokens: &'t [Token<'a>],
    how: Reading,
    first: Terminal,
    second: Terminal,
) -> Result<((Token<'a>, Token<'a>), &'t [Token<'a>]), usize>
    ensures tells { (p q s : GrammarPlace) (r t : TokenRole) → steps_from how.version p ≡ by first q r
        → may_end p ≡ false → steps_from how.version q ≡ by second s t → may_end q ≡ false →
        MatchResult result (λ x. collect how p (view_words tokens.now)
        ≡ filled r (view_word x.0.0) (filled t (view_word x.0.1) (collect how s (view_words x.1.now))))
        (λ line. collect how p (view_words tokens.now) ≡ Err line) }
    ensures shorter { IfOk result (λ x. length x.1.now < length tokens.now) }
{
    let (one, rest) = expect_token(tokens, how, first)?;
    let (two, rest) = expect_token(rest, how, second)?;
    Ok(((one, two), rest))
}

/// The first token, where it is the terminal, and what is left; else None, and all tokens are left.
pub(crate) fn take_token_if<'t, 'a>(
    tokens: &'t [Token<'a>],
    terminal: Terminal,
) -> (Option<Token<'a>>, &'t [Token<'a>])
    ensures tells { MatchOption result.0 ((view_words result.1.now ≡ view_words tokens.now)
        × (begins_with terminal (view_words tokens.now) ≡ false))
        (λ t. (view_words tokens.now ≡ view_word t ∷ view_words result.1.now)
        × (fits terminal (view_word t).symbol ≡ true)) }
    ensures shorter { length result.1.now ≤ length tokens.now }
{
    match tokens.split_first() {
        Some((first, rest)) => {
            if terminal_takes_symbol(terminal, first.symbol) {
                (Some(*first), rest)
            } else {
                (None, tokens)
            }
        }
        None => (None, tokens),
    }
}

/// Whether the token at a place is there and is the terminal.
pub(crate) fn is_terminal_at(tokens: &[Token<'_>], place: usize, terminal: Terminal) -> bool
    ensures { result ≡ begins_with terminal (drop place (view_words tokens.now)) }
{
    place < tokens.len() && terminal_takes_symbol(terminal, tokens[place].symbol)
}

/// Whether the tokens begin with the terminal.
pub(crate) fn begins_with_terminal(tokens: &[Token<'_>], terminal: Terminal) -> bool
    ensures { result ≡ begins_with terminal (view_words tokens.now) }
{
    is_terminal_at(tokens, 0, terminal)
}
