//! The lines of an input: where each ends, the spaces at its ends, and whether it is empty or a comment.
ghost use Rattle.std.specs.Prelude.{◌≡◌, ◌==◌, position};
ghost use Rattle.std.specs.Str.Lines.{lines, strip_carriage_return};
ghost use Rattle.std.specs.Iterator.{YieldsFirstRef, item_count};
ghost use Rattle.dm_text.specs.Lines.{drop_spaces, trimmed, is_skipped};

use memchr::memchr;
use std::marker::Model;

/// The lines of an input, in order.
///
/// LF ends a line, and the last LF may be missing. One CR directly before an LF isn't part of
/// the line.
///
/// A contract sees it as the octets that are left.
#[derive(Drop)]
pub struct Lines<'a> {
    rest: &'a [u8],
}

impl<'a> Model for Lines<'a> {
    ghost use Rattle.std.specs.Prelude.{ℕ, List};

    ghost Value = { List ℕ };

    ghost view = { λ lines. lines.rest.now };
}

impl<'a> Lines<'a> {
    /// The lines of these octets.
    pub fn new(input: &'a [u8]) -> Lines<'a>
        ensures { result ≡ input.now }
    {
        Lines { rest: input }
    }
}

impl<'a> Iterator for Lines<'a> {
    type Item = &'a [u8];

    ghost next_gives = { YieldsFirstRef (λ s. lines s) };

    ghost remaining = { item_count (λ s. lines s) };

    fn next(&mut self) -> Option<&'a [u8]> {
        if self.rest.is_empty() {
            return None;
        }
        let rest = self.rest;
        match first_line_feed(rest) {
            Some(end) => {
                self.rest = &rest[end + 1..];
                Some(without_trailing_carriage_return(&rest[..end]))
            }
            None => {
                self.rest = &[];
                Some(rest)
            }
        }
    }
}

/// Where the first LF stands; None where there is none.
pub fn first_line_feed(input: &[u8]) -> Option<usize>
    ensures { result ≡ position (λ b. b == 10) input.now }
{
    memchr(b'\n', input)
}

/// The line without a CR at its end, where there is one.
fn without_trailing_carriage_return(line: &[u8]) -> &[u8]
    ensures { result.now ≡ strip_carriage_return line.now }
{
    match line {
        [front @ .., b'\r'] => front,
        _ => line,
    }
}

/// The line without the spaces at its ends. A tab is no space.
pub fn trim_spaces(line: &[u8]) -> &[u8]
    ensures { result.now ≡ trimmed line.now }
{
    let mut rest = without_leading_spaces(line);
    'back: while let [more @ .., b' '] = rest {
        rest = more;
    }
    rest
}

/// The line from its first octet that is no space on.
pub fn without_leading_spaces(line: &[u8]) -> &[u8]
    ensures { result.now ≡ drop_spaces line.now }
{
    let mut rest = line;
    'front: while let [b' ', more @ ..] = rest {
        rest = more;
    }
    rest
}

/// Whether a trimmed line is empty or a comment.
pub fn is_empty_or_comment(trimmed_line: &[u8]) -> bool
    ensures { result ≡ is_skipped trimmed_line.now }
{
    matches!(trimmed_line, [] | [b'#', ..])
}
