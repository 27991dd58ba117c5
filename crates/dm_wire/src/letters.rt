//! The letters of flags (RFC 6733, 3 and 4.1), each where its flag is set, else `-`.
ghost use Rattle.std.specs.Prelude.{◌≡◌};
ghost use Rattle.std.specs.Str.{IsAscii};
ghost use Rattle.dm_wire.specs.Printed.{flag_mark, header_marks, avp_marks};

use crate::Header;

/// The letter of a flag.
fn flag_letter(set: bool, letter: u8) -> u8
    ensures { result ≡ flag_mark set letter }
{
    if set { letter } else { b'-' }
}

/// The letters of an AVP's flags: `V`, `M`, `P`. It never answers want of memory.
pub fn avp_letters(vendor: bool, mandatory: bool, protected: bool) -> [u8; 3]
    ensures letters { result ≡ avp_marks vendor mandatory protected }
    ensures ascii { IsAscii result }
{
    [
        flag_letter(vendor, b'V'),
        flag_letter(mandatory, b'M'),
        flag_letter(protected, b'P'),
    ]
}

/// The letters of a header's flags: `R`, `P`, `E`, `T`. It never answers want of memory.
pub fn header_letters(header: Header) -> [u8; 4]
    ensures letters { result ≡ header_marks header.request header.proxiable header.error header.retransmit }
    ensures ascii { IsAscii result }
{
    [
        flag_letter(header.request, b'R'),
        flag_letter(header.proxiable, b'P'),
        flag_letter(header.error, b'E'),
        flag_letter(header.retransmit, b'T'),
    ]
}
