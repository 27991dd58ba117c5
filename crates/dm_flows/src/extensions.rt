//! Extension headers of IPv6 (RFC 8200, 4).
ghost use Rattle.std.specs.Prelude.{◌≡◌, ◌≤◌, ℕ, true, false, length, IfOk, IfErr};
ghost use Rattle.dm_flows.specs.Ips.{IsExtension, extension_size, IsFragmentHeader, LeadsTo, GoesAstray};

use byteorder::{BigEndian, ByteOrder};

/// The number of a Fragment header.
const FRAGMENT: u8 = 44;

/// The number of an Authentication header (RFC 4302, 2).
const AUTHENTICATION: u8 = 51;

/// A protocol and its octets.
#[derive(Clone, Copy, Debug)]
pub(crate) struct Upper<'a> {
    pub(crate) protocol: u8,
    pub(crate) payload: &'a [u8],
}

/// Why extension headers lead to no protocol.
#[derive(Clone, Copy, Debug)]
pub(crate) enum Astray {
    /// They end in the middle of one.
    Ends,
    /// A fragment's header is among them.
    Fragmented,
}

/// Whether the number is that of an extension header that is passed.
fn is_extension_header(next: u8) -> bool
    ensures yes { result ≡ true → IsExtension next }
    ensures no { result ≡ false → IsExtension next → ⊥ }
{
    matches!(next, 0 | 43 | FRAGMENT | AUTHENTICATION | 60)
}

/// The octets of the extension header at the front.
fn extension_len(next: u8, octets: &[u8]) -> usize
    requires { 2 ≤ length octets.now }
    ensures { result ≡ extension_size next octets.now }
{
    match next {
        FRAGMENT => 8,
        AUTHENTICATION => 4 * (octets[1] as usize + 2),
        _ => 8 * (octets[1] as usize + 1),
    }
}

/// Whether the header at the front is that of a fragment: another offset than 0, or more to come.
fn is_fragment(next: u8, octets: &[u8]) -> bool
    requires { extension_size next octets.now ≤ length octets.now }
    ensures yes { result ≡ true → IsFragmentHeader next octets.now }
    ensures no { result ≡ false → IsFragmentHeader next octets.now → ⊥ }
{
    if next != FRAGMENT {
        return false;
    }
    let part = BigEndian::read_u16(&octets[2..]);
    part / 8 + part % 2 != 0
}

/// The protocol and the octets behind extension headers, the first of which has the number `first`; an Err where they
/// end in the middle of one, or one is a fragment's.
pub(crate) fn upper_layer_behind_extensions(first: u8, octets: &[u8]) -> Result<Upper<'_>, Astray>
    ensures upper { IfOk result (λ upper. (n : ℕ) × LeadsTo n first octets.now upper.protocol upper.payload.now) }
    ensures astray { IfErr result (GoesAstray first octets.now) }
{
    let mut next = first;
    let mut rest = octets;
    'headers: while is_extension_header(next) {
        if rest.len() < 2 {
            return Err(Astray::Ends);
        }
        let size = extension_len(next, rest);
        if rest.len() < size {
            return Err(Astray::Ends);
        }
        if is_fragment(next, rest) {
            return Err(Astray::Fragmented);
        }
        next = rest[0];
        rest = &rest[size..];
    }
    Ok(Upper {
        protocol: next,
        payload: rest,
    })
}
