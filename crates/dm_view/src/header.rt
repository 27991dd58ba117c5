//! The line of a header (RFC 6733, 3).
ghost use Rattle.std.specs.Prelude.{◌≡◌, ◌++◌, OnOk};
ghost use Rattle.std.specs.Option.{option_copied};
ghost use Rattle.std.specs.String.{string_bytes};
ghost use Rattle.dm_view.specs.View.{command_name, command_of, flag_words, both_text, header_view};

use crate::texts_and_numbers::{put_name_or_hexadecimal, put_words_and_number};
use dm_dict::{CommandDef, Dictionary};
use dm_text::put_hexadecimal;
use dm_wire::Header;
use std::alloc::AllocError;

/// Appends the name of a command, `?` where it has no definition.
fn put_command_name_or_placeholder(
    text: &mut String,
    def: Option<&CommandDef>,
) -> Result<(), AllocError>
    ensures { OnOk result (string_bytes text.new ≡ string_bytes text.old ++ command_name (option_copied def.entry)) }
{
    match def {
        Some(def) => put_name_or_hexadecimal(text, def.name.as_slice()),
        None => text.push_str("?"),
    }
}

/// The flags of a header in words, a space before each.
fn spaced_flag_words(header: &Header) -> &'static str
    ensures { result.now ≡ flag_words header.now }
{
    match (
        header.request,
        header.proxiable,
        header.error,
        header.retransmit,
    ) {
        (false, false, false, false) => " answer",
        (false, false, false, true) => " answer retransmitted",
        (false, false, true, false) => " answer error",
        (false, false, true, true) => " answer error retransmitted",
        (false, true, false, false) => " answer proxiable",
        (false, true, false, true) => " answer proxiable retransmitted",
        (false, true, true, false) => " answer proxiable error",
        (false, true, true, true) => " answer proxiable error retransmitted",
        (true, false, false, false) => " request",
        (true, false, false, true) => " request retransmitted",
        (true, false, true, false) => " request error",
        (true, false, true, true) => " request error retransmitted",
        (true, true, false, false) => " request proxiable",
        (true, true, false, true) => " request proxiable retransmitted",
        (true, true, true, false) => " request proxiable error",
        (true, true, true, true) => " request proxiable error retransmitted",
    }
}

/// Appends the flags of a header in words, a space before each.
fn put_spaced_flag_words(text: &mut String, header: &Header) -> Result<(), AllocError>
    ensures { OnOk result (string_bytes text.new ≡ string_bytes text.old ++ flag_words header.now) }
{
    text.push_str(spaced_flag_words(header))
}

/// Appends words, and a number in decimal and in hexadecimal.
fn put_words_decimal_and_hexadecimal(
    text: &mut String,
    words: &str,
    number: u32,
) -> Result<(), AllocError>
    ensures { OnOk result (string_bytes text.new ≡ string_bytes text.old ++ words.now ++ both_text number) }
{
    let octets = number.to_be_bytes();
    put_words_and_number(text, words, number)?;
    text.push_str(" (0x")?;
    put_hexadecimal(text, octets.as_slice())?;
    text.push_str(")")
}

/// Appends the line of a header: the command's name, code, flags in words, application and identifiers.
#[tactic(auto, unfolding(crate::specs::View::header_view))]
pub fn put_header_line(
    text: &mut String,
    dictionary: &Dictionary,
    header: &Header,
) -> Result<(), AllocError>
    ensures { OnOk result (string_bytes text.new
        ≡ string_bytes text.old ++ header_view (command_of dictionary.now header.now) header.now) }
{
    put_command_name_or_placeholder(
        text,
        dictionary.command(header.command, header.request, false),
    )?;
    put_words_and_number(text, " ", header.command)?;
    put_spaced_flag_words(text, header)?;
    put_words_and_number(text, ", application ", header.application)?;
    put_words_decimal_and_hexadecimal(text, ", hop-by-hop ", header.hop_id)?;
    put_words_decimal_and_hexadecimal(text, ", end-to-end ", header.end_id)?;
    text.push_str("\n")?;
    Ok(())
}
