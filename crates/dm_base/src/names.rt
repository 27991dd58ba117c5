//! Names of hosts and realms (RFC 6733, 4.3.1).
ghost use Rattle.std.specs.Prelude.{◌≡◌};
ghost use Rattle.dm_value.specs.Flaws.{is_visible_text};
ghost use Rattle.dm_base.specs.Fit.{is_name};

use crate::limits::MAX_NAME_LEN;
use dm_dict::{AvpType, value_fault};

/// Whether the octets are a text of at least one octet, all visible.
pub(crate) fn is_nonempty_visible_text(octets: &[u8]) -> bool
    ensures { result ≡ is_visible_text octets.now }
{
    value_fault(AvpType::DiameterIdentity, octets).is_none()
}

/// Whether the octets are a name of a host or realm: at least one and at most 255, each 0x21 to 0x7E (RFC 6733, 4.3.1;
/// the limit of 255 is own). It never answers want of memory.
pub fn is_name(octets: &[u8]) -> bool
    ensures { result ≡ is_name octets.now }
{
    is_nonempty_visible_text(octets) && octets.len() <= MAX_NAME_LEN
}
