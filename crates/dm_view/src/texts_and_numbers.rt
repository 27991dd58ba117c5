//! Texts, names, octets, numbers and indents.
ghost use Rattle.std.specs.Prelude.{◌≡◌, ◌++◌, Some, OnOk};
ghost use Rattle.std.specs.Fmt.{decimal, signed_decimal};
ghost use Rattle.std.specs.List.{list_all};
ghost use Rattle.std.specs.Str.{IsUtf8};
ghost use Rattle.std.specs.String.{string_bytes};
ghost use Rattle.dm_wire.specs.Printed.{data_text};
ghost use Rattle.dm_value.specs.Printed.{name_text};
ghost use Rattle.dm_view.specs.Words.{is_plain_octet, quoted, indented};

use dm_text::{Hexadecimal, put_hexadecimal};
use itoa::Buffer;
use std::alloc::AllocError;
use std::{fmt, str};

/// A text between `"`, or in hexadecimal where a control or a `"` stands in it.
#[derive(Clone, Copy)]
pub(crate) struct Quoted<'a>(pub(crate) &'a str);

impl fmt::Display for Quoted<'_> {
    ghost output = { λ q. Some (quoted q.0.now) };

    #[tactic(auto, unfolding(crate::specs::Words::quoted))]
    fn fmt<W: fmt::Write>(&self, f: &mut fmt::Formatter<W>) -> fmt::Result {
        if are_without_controls_and_quotes(self.0.as_bytes()) {
            write!(f, "\"{}\"", self.0)
        } else {
            write!(f, "{}", Hexadecimal(self.0.as_bytes()))
        }
    }
}

/// Whether no octet is a control or a `"`.
fn are_without_controls_and_quotes(octets: &[u8]) -> bool
    ensures { result ≡ list_all is_plain_octet octets.now }
{
    octets
        .iter()
        .all(|octet| *octet >= 32 && *octet != 127 && *octet != 34)
}

/// Appends octets that are text between `"`, or in hexadecimal where a control or a `"` stands in them.
#[tactic(auto, unfolding(crate::specs::Words::quoted))]
pub(crate) fn put_quoted_unescaped_or_hexadecimal(
    text: &mut String,
    octets: &[u8],
) -> Result<(), AllocError>
    requires { IsUtf8 octets.now }
    ensures { OnOk result (string_bytes text.new ≡ string_bytes text.old ++ quoted octets.now) }
{
    if are_without_controls_and_quotes(octets) {
        text.push_str("\"")?;
        text.push_str(unsafe { str::from_utf8_unchecked(octets) })?;
        text.push_str("\"")
    } else {
        put_hexadecimal(text, octets)
    }
}

/// Appends octets that are UTF-8, as they are, between `front` and `back`.
pub(crate) fn put_utf8_between(
    text: &mut String,
    front: &str,
    octets: &[u8],
    back: &str,
) -> Result<(), AllocError>
    requires { IsUtf8 octets.now }
    ensures { OnOk result (string_bytes text.new
        ≡ string_bytes text.old ++ (front.now ++ (octets.now ++ back.now))) }
{
    let words = unsafe { str::from_utf8_unchecked(octets) };
    text.push_str(front)?;
    text.push_str(words)?;
    text.push_str(back)
}

/// Appends a name as it is where it is UTF-8, else in hexadecimal. Most names are ASCII.
pub(crate) fn put_name_or_hexadecimal(text: &mut String, octets: &[u8]) -> Result<(), AllocError>
    ensures { OnOk result (string_bytes text.new ≡ string_bytes text.old ++ name_text octets.now) }
{
    if octets.is_ascii() {
        // ASCII is UTF-8.
        return text.push_str(unsafe { str::from_utf8_unchecked(octets) });
    }
    put_checked_name_or_hexadecimal(text, octets)
}

/// Appends a name as it is where it is UTF-8, else in hexadecimal.
fn put_checked_name_or_hexadecimal(text: &mut String, octets: &[u8]) -> Result<(), AllocError>
    ensures { OnOk result (string_bytes text.new ≡ string_bytes text.old ++ name_text octets.now) }
{
    match str::from_utf8(octets) {
        Ok(name) => text.push_str(name),
        Err(_) => put_hexadecimal(text, octets),
    }
}

/// Appends octets in hexadecimal, `-` where there are none.
pub(crate) fn put_hexadecimal_or_dash(text: &mut String, octets: &[u8]) -> Result<(), AllocError>
    ensures { OnOk result (string_bytes text.new ≡ string_bytes text.old ++ data_text octets.now) }
{
    match octets {
        [] => text.push_str("-"),
        [_, ..] => put_hexadecimal(text, octets),
    }
}

/// Appends words, and octets in hexadecimal, `-` where there are none.
pub(crate) fn put_words_and_hexadecimal(
    text: &mut String,
    words: &str,
    octets: &[u8],
) -> Result<(), AllocError>
    ensures { OnOk result (string_bytes text.new ≡ string_bytes text.old ++ words.now ++ data_text octets.now) }
{
    text.push_str(words)?;
    put_hexadecimal_or_dash(text, octets)
}

/// Appends a number from 0 on in decimal.
pub(crate) fn put_unsigned_number(text: &mut String, number: u64) -> Result<(), AllocError>
    ensures { OnOk result (string_bytes text.new ≡ string_bytes text.old ++ decimal number) }
{
    let mut digits = Buffer::new();
    text.push_str(digits.format(number))
}

/// Appends words, and a number in decimal.
pub(crate) fn put_words_and_number(
    text: &mut String,
    words: &str,
    number: u32,
) -> Result<(), AllocError>
    ensures { OnOk result (string_bytes text.new ≡ string_bytes text.old ++ words.now ++ decimal number) }
{
    text.push_str(words)?;
    put_unsigned_number(text, u64::from(number))
}

/// Appends a number in decimal, behind `-` where it is below 0.
pub(crate) fn put_signed_number(text: &mut String, number: i64) -> Result<(), AllocError>
    ensures { OnOk result (string_bytes text.new ≡ string_bytes text.old ++ signed_decimal number) }
{
    let mut room = Buffer::new();
    text.push_str(room.format(number))
}

/// Appends two spaces for each level.
pub(crate) fn put_indent(text: &mut String, levels: u32) -> Result<(), AllocError>
    ensures { OnOk result (string_bytes text.new ≡ string_bytes text.old ++ indented levels) }
{
    match levels {
        1 => text.push_str("  "),
        2 => text.push_str("    "),
        3 => text.push_str("      "),
        _ => put_many_indents(text, levels),
    }
}

/// Appends two spaces for each of many levels.
fn put_many_indents(text: &mut String, levels: u32) -> Result<(), AllocError>
    ensures { OnOk result (string_bytes text.new ≡ string_bytes text.old ++ indented levels) }
{
    let mut left = levels;
    while left > 0 {
        text.push_str("  ")?;
        left -= 1;
    }
    Ok(())
}
