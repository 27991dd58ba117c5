//! The words of a line.
ghost use Rattle.std.specs.Prelude.{◌≡◌, ◌==◌, position};
ghost use Rattle.std.specs.Iterator.{YieldsFirstRef, item_count};
ghost use Rattle.dm_text.specs.Words.{words};

use crate::line::without_leading_spaces;
use memchr::memchr;
use std::marker::Model;

/// The words of a line, in order: its parts between spaces. A tab is no space.
///
/// A contract sees it as the octets that are left.
#[derive(Drop)]
pub struct Words<'a> {
    rest: &'a [u8],
}

impl<'a> Model for Words<'a> {
    ghost use Rattle.std.specs.Prelude.{ℕ, List};

    ghost Value = { List ℕ };

    ghost view = { λ words. words.rest.now };
}

impl<'a> Words<'a> {
    /// The words of this line.
    pub fn new(line: &'a [u8]) -> Words<'a>
        ensures { result ≡ line.now }
    {
        Words { rest: line }
    }
}

impl<'a> Iterator for Words<'a> {
    type Item = &'a [u8];

    ghost next_gives = { YieldsFirstRef (λ s. words s) };

    ghost remaining = { item_count (λ s. words s) };

    fn next(&mut self) -> Option<&'a [u8]> {
        let rest = without_leading_spaces(self.rest);
        if rest.is_empty() {
            self.rest = rest;
            return None;
        }
        match first_space(rest) {
            Some(end) => {
                self.rest = &rest[end + 1..];
                Some(&rest[..end])
            }
            None => {
                self.rest = &[];
                Some(rest)
            }
        }
    }
}

/// Where the first space stands; None where there is none.
fn first_space(line: &[u8]) -> Option<usize>
    ensures { result ≡ position (λ b. b == 32) line.now }
{
    memchr(b' ', line)
}
