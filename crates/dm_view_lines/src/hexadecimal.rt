//! The octets that a line of hexadecimal stands for.
ghost use Rattle.std.specs.Prelude.{◌≡◌, ◌<◌, ◌++◌, length, Some, IfOk, IfSome, OnOk};
ghost use Rattle.std.specs.List.{before_first};
ghost use Rattle.std.specs.Option.{option_map};
ghost use Rattle.dm_view_lines.specs.Digits.{without_mark, begins_comment, is_between, without_prefix};
ghost use Rattle.memchr.specs.Find.{IsFirstByte};
ghost use Rattle.dm_view_lines.specs.Digits.{digits_of_words, octets_of_line};

use crate::one_word::is_surely_one_long_word;
use dm_text::read_hex_word;
use memchr::{memchr2, memchr3};
use std::alloc::{AllocError, Global};

/// So many octets are looked at one by one.
const NEAR: usize = 5;

/// The octets that a line stands for: hexadecimal digits in either case. `None` where a digit is bad or their number is
/// odd.
///
/// Spaces, tabs and `:` may stand between digits, `0x` before those of a word, a byte order mark at the front, and a
/// comment behind `;` or `#`. `digits` is room that is used again from line to line; what it holds doesn't matter.
pub fn read_hex_line(
    alloc: Global,
    line: &[u8],
    digits: &mut Vec<u8>,
) -> Result<Option<Vec<u8>>, AllocError>
    ensures { IfOk result (λ octets. option_map (λ v. v.items) octets ≡ octets_of_line line.now) }
{
    if is_surely_one_long_word(line) {
        return read_hex_word(alloc, line);
    }
    read_hex_line_by_words(alloc, line, digits)
}

/// The octets that the words of a line stand for. None where a digit is bad or their number is odd.
fn read_hex_line_by_words(
    alloc: Global,
    line: &[u8],
    digits: &mut Vec<u8>,
) -> Result<Option<Vec<u8>>, AllocError>
    ensures { IfOk result (λ octets. option_map (λ v. v.items) octets ≡ octets_of_line line.now) }
{
    let words = before_comment(without_byte_order_mark(line));
    let (word, rest) = split_at_first_separator_by_search(words);
    if rest.is_empty() {
        return read_hex_word(alloc, without_0x_prefix(word));
    }
    set_digits_of_words(words, digits)?;
    read_hex_word(alloc, digits.as_slice())
}

/// The line without a byte order mark at its front.
fn without_byte_order_mark(line: &[u8]) -> &[u8]
    ensures { result.now ≡ without_mark line.now }
{
    match line {
        [a, b, c, rest @ ..] => {
            if *a == 0xef && (*b == 0xbb && *c == 0xbf) {
                rest
            } else {
                line
            }
        }
        _ => line,
    }
}

/// What stands before the first `;` or `#`.
fn before_comment(line: &[u8]) -> &[u8]
    ensures { result.now ≡ before_first begins_comment line.now }
{
    match memchr2(b';', b'#', line) {
        Some(at) => &line[..at],
        None => line,
    }
}

/// A word and the rest, which together have the digits of the words: what stands before the first space, tab or `:`, be
/// it nothing, and what stands behind it.
fn split_at_first_separator_by_search(words: &[u8]) -> (&[u8], &[u8])
    ensures digits { digits_of_words words.now ≡ without_prefix result.0.now ++ digits_of_words result.1.now }
    ensures less { 0 < length words.now → length result.1.now < length words.now }
{
    match memchr3(b' ', b'\t', b':', words) {
        Some(at) => (&words[..at], &words[at + 1..]),
        None => (words, &[]),
    }
}

/// A word and the rest, which together have the digits of the words, as `split_at_first_separator_by_search` tells
/// them. Where there are several words most have two or four digits, so a few octets are looked at one by one before
/// the others are searched.
fn split_at_first_separator(words: &[u8]) -> (&[u8], &[u8])
    ensures digits { digits_of_words words.now ≡ without_prefix result.0.now ++ digits_of_words result.1.now }
    ensures less { 0 < length words.now → length result.1.now < length words.now }
{
    match find_near_separator(words) {
        Some(at) => (&words[..at], &words[at + 1..]),
        None => split_at_first_separator_by_search(words),
    }
}

/// Where the first space, tab or `:` stands, where that is among the first few octets.
fn find_near_separator(words: &[u8]) -> Option<usize>
    ensures { IfSome result (λ at. IsFirstByte is_between words.now (Some at)) }
{
    'few: for at in 0..words.len().min(NEAR) {
        if matches!(words[at], b' ' | b'\t' | b':') {
            return Some(at);
        }
    }
    None
}

/// A word without `0x` at its front.
fn without_0x_prefix(word: &[u8]) -> &[u8]
    ensures { result.now ≡ without_prefix word.now }
{
    match word {
        [a, b, rest @ ..] => {
            if *a == b'0' && (*b == b'x' || *b == b'X') {
                rest
            } else {
                word
            }
        }
        _ => word,
    }
}

/// Sets `digits` to the digits of words; what it held is lost.
fn set_digits_of_words(words: &[u8], digits: &mut Vec<u8>) -> Result<(), AllocError>
    ensures { OnOk result (digits.new.items ≡ digits_of_words words.now) }
{
    digits.clear();
    let mut left = words;
    'words: while !left.is_empty() {
        let (word, rest) = split_at_first_separator(left);
        digits.extend_from_slice(without_0x_prefix(word))?;
        left = rest;
    }
    Ok(())
}
