//! The AVPs of octets, one after the other, where they lie, up to the first bad one (RFC 6733, 4.1).
ghost use Rattle.std.specs.Prelude.{◌≡◌, true, false, List, is_some, OnOk, IfErr, OnErr};
ghost use Rattle.dm_wire.specs.declared.avp.Avp.{Avp};
ghost use Rattle.dm_wire.specs.Spelling.{SpellsList};
ghost use Rattle.dm_wire.specs.Refusal.{IsBadAt};
ghost use Rattle.dm_wire.specs.Members.{members};
ghost use Rattle.dm_wire.specs.Walks.{walk_over};

use crate::AvpRef;
use crate::first_avp_and_header::first_avp;
use std::marker::Model;

/// A walk over octets, one AVP at a time (RFC 6733, 4.1). It never answers want of memory.
///
/// A contract sees it as the octets that it has not passed, their offset and whether it has met a bad AVP.
#[derive(Debug, Drop)]
pub struct AvpWalk<'a> {
    left: &'a [u8],
    offset: usize,
    ended: bool,
}

impl<'a> Model for AvpWalk<'a> {
    ghost use Rattle.std.specs.Prelude.{◌+◌, ◌<◌, ◌^◌, length};
    ghost use Rattle.dm_wire.specs.WalkStates.{Walk};

    ghost Value = { Walk };

    ghost view = { λ w. record { left = w.left.now; offset = w.offset; ended = w.ended } };

    ghost invariant = { λ w. w.offset + length w.left.now < 2 ^ 64 };
}

impl<'a> AvpWalk<'a> {
    /// A walk over these octets, from the first on.
    pub fn new(octets: &'a [u8]) -> AvpWalk<'a>
        ensures { result ≡ walk_over octets.now }
    {
        AvpWalk {
            left: octets,
            offset: 0,
            ended: false,
        }
    }
}

/// Each call gives the next AVP, and `None` behind the last. Where an AVP is bad it gives the offset of that AVP from
/// the first octet once, and then `None`.
impl<'a> Iterator for AvpWalk<'a> {
    type Item = Result<AvpRef<'a>, usize>;

    ghost use Rattle.std.specs.Prelude.{length};
    ghost use Rattle.std.specs.Iterator.{at_most, count_unless};
    ghost use Rattle.dm_wire.specs.Walks.{WalkStep};

    ghost next_gives = { WalkStep };

    ghost remaining = { λ w. count_unless w.ended (at_most (length w.left)) };

    fn next(&mut self) -> Option<Result<AvpRef<'a>, usize>> {
        if self.ended || self.left.is_empty() {
            return None;
        }
        let left = self.left;
        let Some((avp, size)) = first_avp(left) else {
            self.ended = true;
            return Some(Err(self.offset));
        };
        self.left = &left[size..];
        self.offset += size;
        Some(Ok(avp))
    }
}

/// Whether the octets are AVPs, one after the other; else the first bad octet. It never answers want of memory.
pub(crate) fn check_avps(octets: &[u8]) -> Result<(), usize>
    ensures list { OnOk result ((l : List Avp) × SpellsList l octets.now) }
    ensures some { OnOk result (is_some (members octets.now) ≡ true) }
    ensures bad { IfErr result (IsBadAt 0 octets.now) }
    ensures none { OnErr result (is_some (members octets.now) ≡ false) }
{
    for read in AvpWalk::new(octets) {
        match read {
            Ok(_) => {}
            Err(offset) => return Err(offset),
        }
    }
    Ok(())
}
