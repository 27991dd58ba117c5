//! The head of a command or a group: what stands between `<` and `>` behind `::=`.

ghost use Rattle.std.specs.Prelude.{◌≡◌, ◌<◌, ◌≤◌, drop, length, MatchResult, IfOk, Err, if◌then◌else◌};
ghost use Rattle.dm_grammar.specs.Places.GrammarPlace.{CommandColon, CommandWord, Flagged, GroupCoded, GroupColon};
ghost use Rattle.dm_grammar.specs.Places.GrammarPlace.{GroupWord, Head as HeadPlace, InRule};
ghost use Rattle.dm_grammar.specs.Places.TokenRole.{CommandHead};
ghost use Rattle.dm_grammar.specs.Readers.{begins_flag, with_end, with_head, with_second};
ghost use Rattle.dm_grammar.specs.Told.{collect, filled};
ghost use Rattle.dm_grammar.specs.Tokens.{Word};
ghost use Rattle.dm_grammar.specs.Views.{view_head, view_option, view_words};

use crate::first_tokens::{expect_token, expect_two_tokens, is_terminal_at, take_token_if};
use crate::reading::Reading;
use crate::symbol::Symbol;
use crate::terminal::Terminal;
use crate::token::Token;
use crate::vendor::read_colon_before_vendor_name;

/// What stands between `<` and `>`: the code, the flags of a command, the second number, and the name of a
/// group's vendor.
#[derive(Clone, Copy)]
pub(crate) struct Head<'a> {
    pub(crate) command: bool,
    pub(crate) code: Token<'a>,
    pub(crate) request: bool,
    pub(crate) proxiable: bool,
    pub(crate) error: bool,
    pub(crate) second: Option<Token<'a>>,
    pub(crate) named: Option<Token<'a>>,
}

/// `,` and a flag, where they are there.
fn read_comma_and_flag<'t, 'a>(tokens: &'t [Token<'a>], symbol: Symbol) -> (bool, &'t [Token<'a>])
    ensures flag { result.0 ≡ begins_flag symbol (view_words tokens.now) }
    ensures rest { view_words result.1.now
        ≡ (if result.0 then drop 2 (view_words tokens.now) else view_words tokens.now) }
    ensures shorter { length result.1.now ≤ length tokens.now }
{
    if is_terminal_at(tokens, 0, Terminal::One(Symbol::Comma))
        && is_terminal_at(tokens, 1, Terminal::One(symbol))
    {
        (true, &tokens[2..])
    } else {
        (false, tokens)
    }
}

/// The second number and the end of a head: [[","] number] ">".
fn read_comma_number_and_head_end<'t, 'a>(
    tokens: &'t [Token<'a>],
    how: Reading,
) -> Result<(Option<Token<'a>>, &'t [Token<'a>]), usize>
    ensures tells { MatchResult result
        (λ x. collect how Flagged (view_words tokens.now)
        ≡ with_second (view_option x.0) (collect how InRule (view_words x.1.now)))
        (λ line. collect how Flagged (view_words tokens.now) ≡ Err line) }
    ensures shorter { IfOk result (λ x. length x.1.now < length tokens.now) }
{
    let (comma, rest) = take_token_if(tokens, Terminal::One(Symbol::Comma));
    match comma {
        Some(_) => {
            let (words, rest) = expect_two_tokens(
                rest,
                how,
                Terminal::One(Symbol::Number),
                Terminal::One(Symbol::Greater),
            )?;
            Ok((Some(words.0), rest))
        }
        None => {
            let (found, rest) = take_token_if(tokens, Terminal::One(Symbol::Number));
            let (_end, rest) = expect_token(rest, how, Terminal::One(Symbol::Greater))?;
            Ok((found, rest))
        }
    }
}

/// A command's head from its colon on: ":" number ["," "REQ"] ["," "PXY"] ["," "ERR"] [[","] number] ">".
fn read_command_head_from_colon<'t, 'a>(
    tokens: &'t [Token<'a>],
    how: Reading,
) -> Result<(Head<'a>, &'t [Token<'a>]), usize>
    ensures tells { (w : Word) → MatchResult result
        (λ x. filled CommandHead w (collect how CommandColon (view_words tokens.now))
        ≡ with_head (view_head x.0) (collect how InRule (view_words x.1.now)))
        (λ line. collect how CommandColon (view_words tokens.now) ≡ Err line) }
    ensures shorter { IfOk result (λ x. length x.1.now < length tokens.now) }
{
    let (words, rest) = expect_two_tokens(
        tokens,
        how,
        Terminal::One(Symbol::Colon),
        Terminal::One(Symbol::Number),
    )?;
    let (request, rest) = read_comma_and_flag(rest, Symbol::Req);
    let (proxiable, rest) = read_comma_and_flag(rest, Symbol::Pxy);
    let (error, rest) = read_comma_and_flag(rest, Symbol::Err);
    let (second, rest) = read_comma_number_and_head_end(rest, how)?;
    let head = Head {
        command: true,
        code: words.1,
        request,
        proxiable,
        error,
        second,
        named: None,
    };
    Ok((head, rest))
}

/// The end of a group's head, with the name or the number of its vendor: [[","] number | ":" name] ">".
fn read_vendor_and_head_end<'t, 'a>(
    tokens: &'t [Token<'a>],
    how: Reading,
) -> Result<((Option<Token<'a>>, Option<Token<'a>>), &'t [Token<'a>]), usize>
    ensures tells { MatchResult result
        (λ x. collect how GroupCoded (view_words tokens.now)
        ≡ with_end (view_option x.0.0) (view_option x.0.1) (collect how InRule (view_words x.1.now)))
        (λ line. collect how GroupCoded (view_words tokens.now) ≡ Err line) }
    ensures shorter { IfOk result (λ x. length x.1.now < length tokens.now) }
{
    let (named, rest) = read_colon_before_vendor_name(tokens, how);
    if named {
        let (words, rest) = expect_two_tokens(
            rest,
            how,
            Terminal::AnyName,
            Terminal::One(Symbol::Greater),
        )?;
        Ok(((Some(words.0), None), rest))
    } else {
        let (number, rest) = read_comma_number_and_head_end(tokens, how)?;
        Ok(((None, number), rest))
    }
}

/// A group's head from its colon on: ":" number [[","] number | ":" name] ">".
fn read_group_head_from_colon<'t, 'a>(
    tokens: &'t [Token<'a>],
    how: Reading,
) -> Result<(Head<'a>, &'t [Token<'a>]), usize>
    ensures tells { MatchResult result
        (λ x. collect how GroupColon (view_words tokens.now)
        ≡ with_head (view_head x.0) (collect how InRule (view_words x.1.now)))
        (λ line. collect how GroupColon (view_words tokens.now) ≡ Err line) }
    ensures shorter { IfOk result (λ x. length x.1.now < length tokens.now) }
{
    let (words, rest) = expect_two_tokens(
        tokens,
        how,
        Terminal::One(Symbol::Colon),
        Terminal::One(Symbol::Number),
    )?;
    let ((named, second), rest) = read_vendor_and_head_end(rest, how)?;
    let head = Head {
        command: false,
        code: words.1,
        request: false,
        proxiable: false,
        error: false,
        second,
        named,
    };
    Ok((head, rest))
}

/// A command's head behind `Diameter`: "Header", and from its colon on.
fn read_command_head_from_header<'t, 'a>(
    tokens: &'t [Token<'a>],
    how: Reading,
) -> Result<(Head<'a>, &'t [Token<'a>]), usize>
    ensures tells { (w : Word) → MatchResult result
        (λ x. filled CommandHead w (collect how CommandWord (view_words tokens.now))
        ≡ with_head (view_head x.0) (collect how InRule (view_words x.1.now)))
        (λ line. collect how CommandWord (view_words tokens.now) ≡ Err line) }
    ensures shorter { IfOk result (λ x. length x.1.now < length tokens.now) }
{
    let (_header, rest) = expect_token(tokens, how, Terminal::One(Symbol::Header))?;
    read_command_head_from_colon(rest, how)
}

/// A group's head behind `AVP`: "Header", and from its colon on.
fn read_group_head_from_header<'t, 'a>(
    tokens: &'t [Token<'a>],
    how: Reading,
) -> Result<(Head<'a>, &'t [Token<'a>]), usize>
    ensures tells { MatchResult result
        (λ x. collect how GroupWord (view_words tokens.now)
        ≡ with_head (view_head x.0) (collect how InRule (view_words x.1.now)))
        (λ line. collect how GroupWord (view_words tokens.now) ≡ Err line) }
    ensures shorter { IfOk result (λ x. length x.1.now < length tokens.now) }
{
    let (_header, rest) = expect_token(tokens, how, Terminal::One(Symbol::Header))?;
    read_group_head_from_colon(rest, how)
}

/// A head: ("Diameter" "Header" | "Diameter-Header") or ("AVP" "Header" | "AVP-Header"), and its rest.
pub(crate) fn read_head_behind_less<'t, 'a>(
    tokens: &'t [Token<'a>],
    how: Reading,
) -> Result<(Head<'a>, &'t [Token<'a>]), usize>
    ensures tells { MatchResult result
        (λ x. collect how HeadPlace (view_words tokens.now)
        ≡ with_head (view_head x.0) (collect how InRule (view_words x.1.now)))
        (λ line. collect how HeadPlace (view_words tokens.now) ≡ Err line) }
    ensures shorter { IfOk result (λ x. length x.1.now < length tokens.now) }
{
    let Some((first, rest)) = tokens.split_first() else {
        return Err(how.last);
    };
    match first.symbol {
        Symbol::Diameter => read_command_head_from_header(rest, how),
        Symbol::DiameterHeader => read_command_head_from_colon(rest, how),
        Symbol::Avp => read_group_head_from_header(rest, how),
        Symbol::AvpHeader => read_group_head_from_colon(rest, how),
        _ => Err(first.line),
    }
}
