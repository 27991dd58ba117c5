//! Octets, AVPs and headers as text.
ghost use Rattle.std.specs.Prelude.{◌≡◌, Some};
ghost use Rattle.std.specs.Str.{IsAscii};
ghost use Rattle.hex.specs.Hex.{encode_lower};
ghost use Rattle.dm_wire.specs.Borrowed.{avp_of};
ghost use Rattle.dm_wire.specs.Printed.{avp_front_text, avp_text, list_text};
ghost use Rattle.dm_wire.specs.Printed.{header_text, vendor_text, data_text};

use crate::letters::{avp_letters, header_letters};
use crate::{Avp, AvpRef, Header, Listed};
use dm_text::Hexadecimal;
use std::{fmt, str};

/// In lower case hexadecimal.
impl fmt::Display for Listed<u8> {
    ghost output = { λ octets. Some (encode_lower octets) };

    fn fmt<W: fmt::Write>(&self, f: &mut fmt::Formatter<W>) -> fmt::Result {
        write!(f, "{}", Hexadecimal(self.as_slice()))
    }
}

/// As `264 -M- 612e6578616d706c65`: the code, behind a `/` the vendor where there is one, the flags `V` `M` `P` (or
/// `-`), and the data in hexadecimal (or `-` where there is none).
impl fmt::Display for AvpRef<'_> {
    ghost output = { λ avp. Some (avp_text (avp_of avp)) };

    #[tactic(auto, unfolding(crate::specs::Printed::avp_text, crate::specs::Printed::avp_front_text))]
    fn fmt<W: fmt::Write>(&self, f: &mut fmt::Formatter<W>) -> fmt::Result {
        write!(f, "{} {}", AvpFront(*self), Data(self.bytes))
    }
}

/// An AVP without its data, as text: `264 -M-`, with a vendor `1/10415 VM-`.
#[derive(Clone, Copy, Debug)]
pub struct AvpFront<'a>(pub AvpRef<'a>);

/// The code, behind a `/` the vendor where there is one, and the flags `V` `M` `P` (or `-`).
impl fmt::Display for AvpFront<'_> {
    ghost output = { λ front. Some (avp_front_text (avp_of front.0)) };

    #[tactic(auto, unfolding(crate::specs::Printed::avp_front_text))]
    fn fmt<W: fmt::Write>(&self, f: &mut fmt::Formatter<W>) -> fmt::Result {
        let vendor = VendorText(self.0.vendor);
        let letters = avp_letters(self.0.vendor.is_some(), self.0.mandatory, self.0.protected);
        let letters = ascii_text(&letters);
        write!(f, "{}{vendor} {letters}", self.0.code)
    }
}

/// As where it lies.
impl fmt::Display for Avp {
    ghost output = { λ avp. Some (avp_text avp) };

    fn fmt<W: fmt::Write>(&self, f: &mut fmt::Formatter<W>) -> fmt::Result {
        write!(f, "{}", self.borrowed())
    }
}

/// As `{ 264 -M- 612e6578616d706c65; 296 -M- 6578616d706c65; }`.
impl fmt::Display for Listed<Avp> {
    ghost output = { λ avps. Some (list_text avps) };

    fn fmt<W: fmt::Write>(&self, f: &mut fmt::Formatter<W>) -> fmt::Result {
        f.write_str("{")?;
        for avp in self.as_slice() {
            write!(f, " {avp};")?;
        }
        f.write_str(" }")
    }
}

/// As `message 280 R--- app 0 hop 1 end 1`: command, the flags `R` `P` `E` `T` (or `-`), application and identifiers.
impl fmt::Display for Header {
    ghost output = { λ header. Some (header_text header) };

    #[tactic(auto, unfolding(crate::specs::Printed::header_text))]
    fn fmt<W: fmt::Write>(&self, f: &mut fmt::Formatter<W>) -> fmt::Result {
        let letters = header_letters(*self);
        let letters = ascii_text(&letters);
        write!(f, "message {} {letters}", self.command)?;
        write!(f, " app {}", self.application)?;
        write!(f, " hop {} end {}", self.hop_id, self.end_id)
    }
}

/// Letters as text.
fn ascii_text(letters: &[u8]) -> &str
    requires { IsAscii letters.now }
    ensures { result.now ≡ letters.now }
{
    unsafe { str::from_utf8_unchecked(letters) }
}

/// The vendor of an AVP behind a `/`, where there is one.
#[derive(Clone, Copy)]
struct VendorText(Option<u32>);

impl fmt::Display for VendorText {
    ghost output = { λ v. Some (vendor_text v.0) };

    fn fmt<W: fmt::Write>(&self, f: &mut fmt::Formatter<W>) -> fmt::Result {
        match self.0 {
            Some(vendor) => write!(f, "/{vendor}"),
            None => Ok(()),
        }
    }
}

/// Octets as text: the data of an AVP.
#[derive(Clone, Copy, Debug)]
pub struct Data<'a>(pub &'a [u8]);

/// In lower case hexadecimal, or `-` where there is none.
impl fmt::Display for Data<'_> {
    ghost output = { λ d. Some (data_text d.0.now) };

    fn fmt<W: fmt::Write>(&self, f: &mut fmt::Formatter<W>) -> fmt::Result {
        if self.0.is_empty() {
            f.write_str("-")
        } else {
            write!(f, "{}", Hexadecimal(self.0))
        }
    }
}
