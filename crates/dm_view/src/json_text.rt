//! A text in JSON, a token at a time (RFC 8259), octets, addresses and dates as strings, and members of an AVP whose
//! keys are printed as they stand here.
ghost use Rattle.std.specs.Prelude.{◌≡◌, ◌++◌, ◌∷◌, ℕ, List, [], None, codes, OnOk};
ghost use Rattle.std.specs.Fmt.{decimal, signed_decimal};
ghost use Rattle.std.specs.String.{string_bytes};
ghost use Rattle.hex.specs.Hex.{encode_lower};
ghost use Rattle.json.specs.Print.{escape, print, token_text};
ghost use Rattle.json.specs.Token.{begin_object, end_object, begin_array, end_array, key, string, number, null};
ghost use Rattle.dm_value.specs.declared.avp_type.AvpType.TheVariants.{Address};
ghost use Rattle.dm_value.specs.Dates.{from_1900, utc_at, utc_text};
ghost use Rattle.dm_value.specs.Flaws.{flaw};
ghost use Rattle.dm_value.specs.Printed.{address_text};
ghost use Rattle.dm_value.specs.ValueIn.{address_in};
ghost use Rattle.dm_view.specs.JsonPrinted.{flags_tokens};

use crate::data::put_address;
use crate::json_printed::Printed;
use dm_dict::utc_date;
use dm_text::put_hexadecimal;
use std::alloc::{AllocError, Global};
use std::marker::Model;

/// A text in JSON, as far as it is written: its tokens. The commas and colons between them are put by themselves.
///
/// `room` is used again for each text that isn't at hand; what it holds doesn't matter.
#[derive(Drop)]
pub struct JsonText {
    printed: Printed,
    room: String,
    alloc: Global,
}

impl Model for JsonText {
    ghost use Rattle.std.specs.Prelude.{List};
    ghost use Rattle.json.specs.Token.{Token, tokens_code};

    ghost Value = { List Token };

    ghost coded = { tokens_code };

    ghost view = { λ text. text.printed };
}

/// What the member `flags` of an AVP is printed as.
#[tactic(auto, unfolding(json::specs::Print::print_from, json::specs::Print::escape_byte))]
fn avp_flags_member_text(vendor: bool, mandatory: bool, protected: bool) -> &'static str
    ensures { result.now ≡ print (flags_tokens vendor mandatory protected) }
{
    match (vendor, mandatory, protected) {
        (false, false, false) => "\"flags\":[]",
        (false, false, true) => "\"flags\":[\"protected\"]",
        (false, true, false) => "\"flags\":[\"mandatory\"]",
        (false, true, true) => "\"flags\":[\"mandatory\",\"protected\"]",
        (true, false, false) => "\"flags\":[\"vendor\"]",
        (true, false, true) => "\"flags\":[\"vendor\",\"protected\"]",
        (true, true, false) => "\"flags\":[\"vendor\",\"mandatory\"]",
        (true, true, true) => "\"flags\":[\"vendor\",\"mandatory\",\"protected\"]",
    }
}

impl JsonText {
    /// No tokens.
    pub fn new(alloc: Global) -> JsonText
        ensures { result ≡ [] }
    {
        JsonText {
            printed: Printed::new(alloc),
            room: String::new(alloc),
            alloc,
        }
    }

    /// Opens an object.
    pub fn begin_object(&mut self) -> Result<(), AllocError>
        ensures { OnOk result (self.new ≡ self.old ++ begin_object ∷ []) }
    {
        self.printed.begin_object()
    }

    /// Closes an object.
    pub fn end_object(&mut self) -> Result<(), AllocError>
        ensures { OnOk result (self.new ≡ self.old ++ end_object ∷ []) }
    {
        self.printed.end_object()
    }

    /// Opens an array.
    pub fn begin_array(&mut self) -> Result<(), AllocError>
        ensures { OnOk result (self.new ≡ self.old ++ begin_array ∷ []) }
    {
        self.printed.begin_array()
    }

    /// Closes an array.
    pub fn end_array(&mut self) -> Result<(), AllocError>
        ensures { OnOk result (self.new ≡ self.old ++ end_array ∷ []) }
    {
        self.printed.end_array()
    }

    /// Appends the name of a member, whose value follows.
    pub fn put_key(&mut self, name: &str) -> Result<(), AllocError>
        ensures { OnOk result (self.new ≡ self.old ++ key name.now ∷ []) }
    {
        self.printed.put_key(self.alloc, name)
    }

    /// Appends a text, with its escapes.
    pub fn put_string(&mut self, text: &str) -> Result<(), AllocError>
        ensures { OnOk result (self.new ≡ self.old ++ string text.now ∷ []) }
    {
        self.printed.put_string(self.alloc, text)
    }

    /// Appends a text that needs no escapes.
    pub(crate) fn put_string_as_is(&mut self, text: &str) -> Result<(), AllocError>
        requires { escape text.now ≡ text.now }
        ensures { OnOk result (self.new ≡ self.old ++ string text.now ∷ []) }
    {
        self.printed.put_string_as_is(text)
    }

    /// Appends the name of an AVP, which needs no escapes, as its member `name`.
    pub(crate) fn put_avp_name_member_as_is(&mut self, name: &str) -> Result<(), AllocError>
        requires { escape name.now ≡ name.now }
        ensures { OnOk result (self.new ≡ self.old ++ key (codes "name") ∷ string name.now ∷ []) }
    {
        self.printed
            .put_tokens_in_three_pieces(true, "\"name\":\"", name, "\"", true)
    }

    /// Appends a key and a number from 0 on. `name` is the key as it is printed, as `"code":`.
    pub(crate) fn put_printed_key_and_number(
        &mut self,
        name: &str,
        value: u32,
    ) -> Result<(), AllocError>
        requires { (k : List ℕ) × (name.now ≡ token_text (key k)) }
        ensures { (k : List ℕ) → name.now ≡ token_text (key k)
            → OnOk result (self.new ≡ self.old ++ key k ∷ number (decimal value) ∷ []) }
    {
        self.printed.put_printed_key_and_number(name, value)
    }

    /// Appends the code of an AVP, as its member `code`.
    pub(crate) fn put_avp_code_member(&mut self, code: u32) -> Result<(), AllocError>
        ensures { OnOk result (self.new ≡ self.old ++ key (codes "code") ∷ number (decimal code) ∷ []) }
    {
        self.printed.put_printed_key_and_number("\"code\":", code)
    }

    /// Appends the flags of an AVP in words, as its member `flags`.
    pub(crate) fn put_avp_flags_member(
        &mut self,
        vendor: bool,
        mandatory: bool,
        protected: bool,
    ) -> Result<(), AllocError>
        ensures { OnOk result (self.new ≡ self.old ++ flags_tokens vendor mandatory protected) }
    {
        self.printed.put_tokens_in_one_piece(
            true,
            avp_flags_member_text(vendor, mandatory, protected),
            true,
        )
    }

    /// Appends the key `value` of an AVP, whose value follows.
    pub(crate) fn put_avp_value_key(&mut self) -> Result<(), AllocError>
        ensures { OnOk result (self.new ≡ self.old ++ key (codes "value") ∷ []) }
    {
        self.printed
            .put_tokens_in_one_piece(true, "\"value\":", false)
    }

    /// Appends octets in hexadecimal, as a text.
    pub(crate) fn put_hexadecimal_string(&mut self, octets: &[u8]) -> Result<(), AllocError>
        ensures { OnOk result (self.new ≡ self.old ++ string (encode_lower octets.now) ∷ []) }
    {
        self.room.clear();
        self.room.reserve(octets.len().saturating_mul(2))?;
        put_hexadecimal(&mut self.room, octets)?;
        self.printed.put_string(self.alloc, self.room.as_str())
    }

    /// Appends an address, as a text.
    pub(crate) fn put_address_string(&mut self, octets: &[u8]) -> Result<(), AllocError>
        requires { flaw Address octets.now ≡ None }
        ensures { OnOk result (self.new ≡ self.old ++ string (address_text (address_in octets.now)) ∷ []) }
    {
        self.room.clear();
        put_address(&mut self.room, octets)?;
        self.printed.put_string(self.alloc, self.room.as_str())
    }

    /// Appends the date and time of day of a time, as a text.
    pub(crate) fn put_date_string(&mut self, time: u32) -> Result<(), AllocError>
        ensures { OnOk result (self.new ≡ self.old ++ string (utc_text (utc_at (from_1900 time))) ∷ []) }
    {
        self.room.clear();
        write!(self.room, "{}", utc_date(time))?;
        self.printed.put_string(self.alloc, self.room.as_str())
    }

    /// Appends a number from 0 on.
    pub fn put_number(&mut self, value: u64) -> Result<(), AllocError>
        ensures { OnOk result (self.new ≡ self.old ++ number (decimal value) ∷ []) }
    {
        self.printed.put_number(value)
    }

    /// Appends a number, which may be below 0.
    pub fn put_signed_number(&mut self, value: i64) -> Result<(), AllocError>
        ensures { OnOk result (self.new ≡ self.old ++ number (signed_decimal value) ∷ []) }
    {
        self.printed.put_signed_number(value)
    }

    /// Appends `null`.
    pub fn put_null(&mut self) -> Result<(), AllocError>
        ensures { OnOk result (self.new ≡ self.old ++ null ∷ []) }
    {
        self.printed.put_null()
    }

    /// Appends a member that is a text.
    pub fn put_text_member(&mut self, name: &str, text: &str) -> Result<(), AllocError>
        ensures { OnOk result (self.new ≡ self.old ++ key name.now ∷ string text.now ∷ []) }
    {
        self.put_key(name)?;
        self.put_string(text)
    }

    /// Appends a member that is a number from 0 on.
    pub fn put_number_member(&mut self, name: &str, value: u32) -> Result<(), AllocError>
        ensures { OnOk result (self.new ≡ self.old ++ key name.now ∷ number (decimal value) ∷ []) }
    {
        self.put_key(name)?;
        self.put_number(u64::from(value))
    }

    /// Appends what its tokens are printed as to the text, as a line.
    pub fn put_line_into(self, text: &mut String) -> Result<(), AllocError>
        ensures { OnOk result (string_bytes text.new ≡ string_bytes text.old ++ print self ++ 10 ∷ []) }
    {
        let done = self.printed.put_into(text);
        drop(self);
        done?;
        text.push_str("\n")
    }
}
