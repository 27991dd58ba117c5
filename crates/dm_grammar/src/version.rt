//! The version of a text, told by its first two tokens.

ghost use Rattle.std.specs.Prelude.{◌≡◌};
ghost use Rattle.dm_grammar.specs.Versions.{body_of, is_second, is_two, version_of};
ghost use Rattle.dm_grammar.specs.Views.{view_word, view_words};

use crate::reading::Version;
use crate::symbol::Symbol;
use crate::terminal::{Terminal, terminal_takes_symbol};
use crate::token::Token;

/// Whether a token is the number 2 in one digit.
fn is_number_two(token: Token<'_>) -> bool
    ensures { result ≡ is_two (view_word token.entry) }
{
    terminal_takes_symbol(Terminal::One(Symbol::Number), token.symbol)
        && token.text == b"2".as_slice()
}

/// Whether the first two tokens are `@` and `2`.
fn begins_second_version(tokens: &[Token<'_>]) -> bool
    ensures { result ≡ is_second (view_words tokens.now) }
{
    match tokens {
        [first, second, ..] => {
            terminal_takes_symbol(Terminal::One(Symbol::At), first.symbol) && is_number_two(*second)
        }
        _ => false,
    }
}

/// The version of a text, and the tokens behind those that tell it.
pub(crate) fn read_version_and_body<'t, 'a>(tokens: &'t [Token<'a>]) -> (Version, &'t [Token<'a>])
    ensures version { result.0 ≡ version_of (view_words tokens.now) }
    ensures body { view_words result.1.now ≡ body_of (view_words tokens.now) }
{
    if begins_second_version(tokens) {
        (Version::Second, &tokens[2..])
    } else {
        (Version::First, tokens)
    }
}
