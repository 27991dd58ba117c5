//! What tokens of JSON are printed as (RFC 8259), piece by piece.
ghost use Rattle.std.specs.Prelude.{◌≡◌, ◌++◌, ◌∷◌, ◌&&◌, ℕ, List, [], cond, IfOk, OnOk};
ghost use Rattle.std.specs.Fmt.{decimal, signed_decimal};
ghost use Rattle.std.specs.Str.{IsUtf8};
ghost use Rattle.std.specs.String.{string_bytes};
ghost use Rattle.json.specs.Print.{escape, print, quoted, token_text};
ghost use Rattle.json.specs.Token.{Token, begin_object, end_object, begin_array, end_array};
ghost use Rattle.json.specs.Token.{key, string, number, null};
ghost use Rattle.dm_view.specs.JsonPrinted.{IsPrintedAs};

use crate::clean::are_escape_free_ascii;
use itoa::Buffer;
use json::Writer;
use std::alloc::{AllocError, Global};
use std::marker::Model;
use std::str;

/// Room for so many octets is asked for at the start.
const ROOM: usize = 4096;

/// Room for so many octets is asked for besides those of a text that has escapes.
const ESCAPES: usize = 64;

/// What some tokens are printed as, and whether the last of them ends a value.
///
/// Where memory is wanted, what is held is of no use.
#[derive(Drop)]
pub(crate) struct Printed {
    text: String,
    after_value: bool,
}

impl Model for Printed {
    ghost use Rattle.std.specs.Prelude.{List};
    ghost use Rattle.std.specs.String.{string_bytes};
    ghost use Rattle.json.specs.Lex.{tokens};
    ghost use Rattle.json.specs.Token.{Token, tokens_code};
    ghost use Rattle.dm_view.specs.JsonPrinted.{IsPrinted};

    ghost Value = { List Token };

    ghost coded = { tokens_code };

    ghost view = { λ p. tokens (string_bytes p.text) };

    ghost invariant = { λ p. IsPrinted (string_bytes p.text) p.after_value };
}

/// A text without octets, with room where that is to be had.
fn string_with_room(alloc: Global) -> String
    ensures { string_bytes result ≡ [] }
{
    match String::with_capacity(alloc, ROOM) {
        Ok(text) => text,
        Err(_) => String::new(alloc),
    }
}

/// Whether a comma has to stand before the next piece: it begins a value or a member, and a value ended before it.
#[inline(always)]
fn wants_comma(after_value: bool, begun: bool) -> bool
    ensures { result ≡ (after_value && begun) }
{
    after_value && begun
}

/// Appends a piece, behind a comma where it is wanted.
#[inline(always)]
fn put_piece(text: &mut String, comma: bool, piece: &str) -> Result<(), AllocError>
    ensures { OnOk result (string_bytes text.new
        ≡ string_bytes text.old ++ (cond comma (44 ∷ []) [] ++ piece.now)) }
{
    if comma {
        text.push_str(",")?;
    }
    text.push_str(piece)
}

/// Appends three pieces, behind a comma where it is wanted.
#[inline(always)]
fn put_three_pieces(
    text: &mut String,
    comma: bool,
    front: &str,
    middle: &str,
    back: &str,
) -> Result<(), AllocError>
    ensures { OnOk result (string_bytes text.new
        ≡ string_bytes text.old ++ (cond comma (44 ∷ []) [] ++ (front.now ++ (middle.now ++ back.now)))) }
{
    put_piece(text, comma, front)?;
    text.push_str(middle)?;
    text.push_str(back)
}

/// A text between `"`, with its escapes.
#[tactic(auto, unfolding(json::specs::Print::print_from))]
fn quoted_json(alloc: Global, text: &str) -> Result<Vec<u8>, AllocError>
    ensures quoted { IfOk result (λ octets. octets.items ≡ quoted text.now) }
    ensures text { IfOk result (λ octets. IsUtf8 octets.items) }
{
    let room = Vec::with_capacity(alloc, text.len().saturating_add(ESCAPES))?;
    let mut writer = Writer::new(room);
    writer.string(text)?;
    Ok(writer.into_inner())
}

impl Printed {
    /// No tokens.
    pub(crate) fn new(alloc: Global) -> Printed
        ensures { result ≡ [] }
    {
        Printed {
            text: string_with_room(alloc),
            after_value: false,
        }
    }

    /// Appends what some tokens are printed as. (So inlined, a piece that is at hand costs no call.)
    #[inline(always)]
    pub(crate) fn put_tokens_in_one_piece(
        &mut self,
        begun: bool,
        piece: &str,
        ended: bool,
    ) -> Result<(), AllocError>
        requires { (ts : List Token) × IsPrintedAs begun piece.now ended ts }
        ensures { (ts : List Token) → IsPrintedAs begun piece.now ended ts → OnOk result (self.new ≡ self.old ++ ts) }
    {
        let comma = wants_comma(self.after_value, begun);
        match put_piece(&mut self.text, comma, piece) {
            Ok(()) => {
                self.after_value = ended;
                Ok(())
            }
            Err(error) => {
                self.text.clear();
                self.after_value = false;
                Err(error)
            }
        }
    }

    /// Appends what some tokens are printed as, in three pieces.
    #[inline(always)]
    pub(crate) fn put_tokens_in_three_pieces(
        &mut self,
        begun: bool,
        front: &str,
        middle: &str,
        back: &str,
        ended: bool,
    ) -> Result<(), AllocError>
        requires { (ts : List Token) × IsPrintedAs begun (front.now ++ (middle.now ++ back.now)) ended ts }
        ensures { (ts : List Token) → IsPrintedAs begun (front.now ++ (middle.now ++ back.now)) ended ts
            → OnOk result (self.new ≡ self.old ++ ts) }
    {
        let comma = wants_comma(self.after_value, begun);
        match put_three_pieces(&mut self.text, comma, front, middle, back) {
            Ok(()) => {
                self.after_value = ended;
                Ok(())
            }
            Err(error) => {
                self.text.clear();
                self.after_value = false;
                Err(error)
            }
        }
    }

    /// Opens an object.
    pub(crate) fn begin_object(&mut self) -> Result<(), AllocError>
        ensures { OnOk result (self.new ≡ self.old ++ begin_object ∷ []) }
    {
        self.put_tokens_in_one_piece(true, "{", false)
    }

    /// Closes an object.
    pub(crate) fn end_object(&mut self) -> Result<(), AllocError>
        ensures { OnOk result (self.new ≡ self.old ++ end_object ∷ []) }
    {
        self.put_tokens_in_one_piece(false, "}", true)
    }

    /// Opens an array.
    pub(crate) fn begin_array(&mut self) -> Result<(), AllocError>
        ensures { OnOk result (self.new ≡ self.old ++ begin_array ∷ []) }
    {
        self.put_tokens_in_one_piece(true, "[", false)
    }

    /// Closes an array.
    pub(crate) fn end_array(&mut self) -> Result<(), AllocError>
        ensures { OnOk result (self.new ≡ self.old ++ end_array ∷ []) }
    {
        self.put_tokens_in_one_piece(false, "]", true)
    }

    /// Appends the name of a member, whose value follows.
    pub(crate) fn put_key(&mut self, alloc: Global, name: &str) -> Result<(), AllocError>
        ensures { OnOk result (self.new ≡ self.old ++ key name.now ∷ []) }
    {
        if are_escape_free_ascii(name.as_bytes(), b' ') {
            return self.put_tokens_in_three_pieces(true, "\"", name, "\":", false);
        }
        let octets = quoted_json(alloc, name)?;
        // What is written is text.
        let text = unsafe { str::from_utf8_unchecked(octets.as_slice()) };
        let done = self.put_tokens_in_three_pieces(true, "", text, ":", false);
        drop(octets);
        done
    }

    /// Appends a text that needs no escapes.
    pub(crate) fn put_string_as_is(&mut self, text: &str) -> Result<(), AllocError>
        requires { escape text.now ≡ text.now }
        ensures { OnOk result (self.new ≡ self.old ++ string text.now ∷ []) }
    {
        self.put_tokens_in_three_pieces(true, "\"", text, "\"", true)
    }

    /// Appends a text, with its escapes.
    pub(crate) fn put_string(&mut self, alloc: Global, text: &str) -> Result<(), AllocError>
        ensures { OnOk result (self.new ≡ self.old ++ string text.now ∷ []) }
    {
        if are_escape_free_ascii(text.as_bytes(), b' ') {
            return self.put_string_as_is(text);
        }
        let octets = quoted_json(alloc, text)?;
        // What is written is text.
        let text = unsafe { str::from_utf8_unchecked(octets.as_slice()) };
        let done = self.put_tokens_in_one_piece(true, text, true);
        drop(octets);
        done
    }

    /// Appends a number from 0 on.
    pub(crate) fn put_number(&mut self, value: u64) -> Result<(), AllocError>
        ensures { OnOk result (self.new ≡ self.old ++ number (decimal value) ∷ []) }
    {
        let mut digits = Buffer::new();
        self.put_tokens_in_one_piece(true, digits.format(value), true)
    }

    /// Appends a number, which may be below 0.
    pub(crate) fn put_signed_number(&mut self, value: i64) -> Result<(), AllocError>
        ensures { OnOk result (self.new ≡ self.old ++ number (signed_decimal value) ∷ []) }
    {
        let mut digits = Buffer::new();
        self.put_tokens_in_one_piece(true, digits.format(value), true)
    }

    /// Appends a key and a number from 0 on. `name` is the key as it is printed, as `"code":`.
    pub(crate) fn put_printed_key_and_number(
        &mut self,
        name: &str,
        value: u32,
    ) -> Result<(), AllocError>
        requires { (k : List ℕ) × (name.now ≡ token_text (key k)) }
        ensures { (k : List ℕ) → name.now ≡ token_text (key k)
            → OnOk result (self.new ≡ self.old ++ key k ∷ number (decimal value) ∷ []) }
    {
        let mut digits = Buffer::new();
        self.put_tokens_in_three_pieces(true, name, digits.format(u64::from(value)), "", true)
    }

    /// Appends `null`.
    pub(crate) fn put_null(&mut self) -> Result<(), AllocError>
        ensures { OnOk result (self.new ≡ self.old ++ null ∷ []) }
    {
        self.put_tokens_in_one_piece(true, "null", true)
    }

    /// Appends the text so far.
    pub(crate) fn put_into(&self, text: &mut String) -> Result<(), AllocError>
        ensures { OnOk result (string_bytes text.new ≡ string_bytes text.old ++ print self.now) }
    {
        text.push_str(self.text.as_str())
    }
}
