//! The text's octets to its tokens, and the number of its last line.

ghost use Rattle.std.specs.Prelude.{◌≡◌, ◌≤◌, ◌<◌, ◌+◌, ◌*◌, length, take, drop, not, IfSome, IfOk, map};
ghost use Rattle.std.specs.List.{count_by, prefix_len};
ghost use Rattle.std.specs.Simd.Lanes.{mask_l};
ghost use Rattle.dm_grammar.specs.Symbols.{begins_word, goes_on, is_line_feed, is_space, not_line_end};
ghost use Rattle.dm_grammar.specs.Tokens.{lexeme_of, last_line, tokens, Sees};
ghost use Rattle.dm_grammar.specs.Views.{view_word};

use crate::symbol::{Symbol, symbol_of_mark, symbol_of_word};
use crate::token::Token;
use std::alloc::{AllocError, Global};
use std::simd::prelude::*;

fn can_begin_word(octet: u8) -> bool
    ensures { result ≡ begins_word octet }
{
    octet.is_ascii_alphanumeric()
}

fn is_word_octet(octet: u8) -> bool
    ensures { result ≡ goes_on octet }
{
    octet.is_ascii_alphanumeric() || octet == b'-'
}

fn is_space_tab_or_return(octet: u8) -> bool
    ensures { result ≡ is_space octet }
{
    octet == b' ' || octet == b'\t' || octet == b'\r'
}

/// How many octets of a word the text begins with.
fn first_word_len(text: &[u8]) -> usize
    ensures { result ≡ prefix_len goes_on text.now }
{
    let mut n = 0;
    while text.len() - n >= 16 {
        let run = word_len_of_sixteen(u8x16::from_slice(&text[n..]));
        n += run;
        if run < 16 {
            return n;
        }
    }
    n + word_len_of_few(&text[n..])
}

/// How many of sixteen octets stand before the first that is none of a word's.
#[inline(always)]
fn word_len_of_sixteen(octets: u8x16) -> usize
    ensures value { result ≡ prefix_len goes_on octets }
    ensures within { result ≤ 16 }
{
    let ends = non_word_octet_bitmask(octets);
    if ends == 0 {
        16
    } else {
        ends.trailing_zeros() as usize
    }
}

/// A bit for each octet that is none of a word's.
#[inline(always)]
fn non_word_octet_bitmask(octets: u8x16) -> u64
    ensures { result ≡ mask_l (map (λ c. not (goes_on c)) octets) }
{
    let numbers = (octets - u8x16::splat(b'0')).simd_lt(u8x16::splat(10));
    let letters = ((octets | u8x16::splat(0x20)) - u8x16::splat(b'a')).simd_lt(u8x16::splat(26));
    let none = u8x16::splat(0);
    let others = letters.select(none, octets ^ u8x16::splat(b'-'));
    numbers.select(none, others).simd_gt(none).to_bitmask()
}

/// How many octets of a word a few octets begin with.
fn word_len_of_few(text: &[u8]) -> usize
    ensures { result ≡ prefix_len goes_on text.now }
{
    let mut n = 0;
    while n < text.len() && is_word_octet(text[n]) {
        n += 1;
    }
    n
}

/// How many octets stand before the end of the line.
fn len_before_line_feed(text: &[u8]) -> usize
    ensures value { result ≡ prefix_len not_line_end text.now }
    ensures within { result ≤ length text.now }
{
    let mut n = 0;
    while n < text.len() && text[n] != b'\n' {
        n += 1;
    }
    n
}

/// The symbol of the token with which the text begins, and its length in octets: the longest word, `::=`, or one octet.
fn first_symbol_and_len(text: &[u8]) -> (Symbol, usize)
    requires { 0 < length text.now }
    ensures value { result ≡ lexeme_of text.now }
    ensures within { result.1 ≤ length text.now }
    ensures some { 0 < result.1 }
{
    if can_begin_word(text[0]) {
        let len = first_word_len(text);
        (symbol_of_word(&text[..len]), len)
    } else if text.starts_with(b"::=") {
        (Symbol::Define, 3)
    } else {
        (symbol_of_mark(text[0]), 1)
    }
}

/// The next token at or behind `at`, and where it ends; `line` is the line on which `at` stands.
fn next_token(text: &[u8], at: usize, line: usize) -> Option<(Token<'_>, usize)>
    requires within { at ≤ length text.now }
    requires lines { line ≤ at + 1 }
    ensures next { Sees line (drop at text.now) result (λ r. view_word r.0) (λ r. drop r.1 text.now) }
    ensures moves { IfSome result (λ r. (at < r.1) × (r.1 ≤ length text.now) × (r.0.line ≤ r.1 + 1)) }
{
    let mut at = at;
    let mut line = line;
    while at < text.len() {
        let first = text[at];
        if first == b'\n' {
            at += 1;
            line += 1;
        } else if is_space_tab_or_return(first) {
            at += 1;
        } else if first == b';' {
            at += len_before_line_feed(&text[at..]);
        } else {
            let (symbol, len) = first_symbol_and_len(&text[at..]);
            let token = Token {
                symbol,
                text: &text[at..at + len],
                line,
            };
            return Some((token, at + len));
        }
    }
    None
}

/// All tokens of the text, in order.
pub(crate) fn read_tokens(alloc: Global, text: &[u8]) -> Result<Vec<Token<'_>>, AllocError>
    ensures { IfOk result (λ v. map view_word v.items ≡ tokens text.now) }
{
    let mut found = Vec::new(alloc);
    let mut at = 0;
    let mut line = 1;
    while let Some((token, end)) = next_token(text, at, line) {
        found.push(token)?;
        at = end;
        line = token.line;
    }
    Ok(found)
}

/// The line of the last octet, from 1: a last line feed begins no line.
pub(crate) fn line_of_last_octet(text: &[u8]) -> usize
    ensures { result ≡ last_line text.now }
{
    match text.split_last() {
        Some((_, front)) => count_line_feeds(front) + 1,
        None => 1,
    }
}

/// How many octets are line feeds.
fn count_line_feeds(text: &[u8]) -> usize
    ensures value { result ≡ count_by is_line_feed text.now }
    ensures within { result ≤ length text.now }
{
    let runs = text.len() / 16;
    count_line_feeds_by_sixteens(text, runs) + count_line_feeds_in_few(&text[16 * runs..])
}

/// How many of the octets of so many runs of sixteen are line feeds.
fn count_line_feeds_by_sixteens(text: &[u8], runs: usize) -> usize
    requires { 16 * runs ≤ length text.now }
    ensures value { result ≡ count_by is_line_feed (take (16 * runs) text.now) }
    ensures within { result ≤ 16 * runs }
{
    let mut count = 0;
    'runs: for k in 0..runs {
        let run = u8x16::from_slice(&text[16 * k..]);
        let feeds = run.simd_eq(u8x16::splat(b'\n')).to_bitmask();
        count += feeds.count_ones() as usize;
    }
    count
}

/// How many of a few octets are line feeds.
fn count_line_feeds_in_few(text: &[u8]) -> usize
    ensures value { result ≡ count_by is_line_feed text.now }
    ensures within { result ≤ length text.now }
{
    text.iter().filter(|octet| **octet == b'\n').count()
}
