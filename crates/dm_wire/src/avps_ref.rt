//! Lists of AVPs, held or spelled by octets (RFC 6733, 4.1 and 4.4).
ghost use Rattle.std.specs.Prelude.{◌≡◌, ◌<◌, List, [], ◌∷◌, is_some, IfSome, MatchOption};
ghost use Rattle.dm_wire.specs.declared.avp.Avp.{Avp};
ghost use Rattle.dm_wire.specs.Members.{members};
ghost use Rattle.dm_wire.specs.Borrowed.{avp_of, Lists, size_of};

use crate::first_avp_and_header::first_spelled_avp;
use crate::walk::check_avps;
use crate::{Avp, AvpRef};

/// AVPs in order, where they lie.
#[derive(Clone, Copy, Debug)]
pub enum AvpsRef<'a> {
    /// AVPs that are held, as those of a message.
    Held(&'a [Avp]),
    /// The octets that spell the AVPs, one after the other, as the data of a Grouped AVP.
    Spelled(&'a [u8]),
}

/// Whether the octets are AVPs, one after the other. It never answers want of memory.
pub fn spells_avps(octets: &[u8]) -> bool
    ensures { result ≡ is_some (members octets.now) }
{
    check_avps(octets).is_ok()
}

impl<'a> AvpsRef<'a> {
    /// The first AVP, and those behind it; `None` where there are none. It never answers want of memory.
    pub fn split_first(self) -> Option<(AvpRef<'a>, AvpsRef<'a>)>
        ensures parts { (l : List Avp) → Lists self.entry l
            → MatchOption result (l ≡ []) (λ read. (k : List Avp) × (l ≡ avp_of read.0 ∷ k) × Lists read.1 k) }
        ensures less { IfSome result (λ read. size_of read.1 < size_of self.entry) }
    {
        match self {
            AvpsRef::Held([first, rest @ ..]) => Some((first.borrowed(), AvpsRef::Held(rest))),
            AvpsRef::Held([]) => None,
            AvpsRef::Spelled(octets) => {
                let Some((avp, size)) = first_spelled_avp(octets) else {
                    return None;
                };
                Some((avp, AvpsRef::Spelled(&octets[size..])))
            }
        }
    }
}
