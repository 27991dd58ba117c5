//! The AVPs of a code and vendor in a message.
ghost use Rattle.std.specs.Prelude.{◌≡◌, ◌<◌, ◌^◌, option_copied, filter, length};
ghost use Rattle.std.specs.List.{find};
ghost use Rattle.dm_wire.specs.Finding.{is_of};

use crate::{Avp, Message};
use std::marker::Model;

/// The AVPs of a code and vendor, in order. It never answers want of memory.
///
/// A contract sees it as the AVPs that it has yet to give.
#[derive(Debug, Drop)]
pub struct AvpsOf<'a> {
    left: &'a [Avp],
    code: u32,
    vendor: Option<u32>,
}

impl<'a> Model for AvpsOf<'a> {
    ghost use Rattle.std.specs.Prelude.{List, filter};
    ghost use Rattle.dm_wire.specs.declared.avp.Avp.{Avp as AnAvp};
    ghost use Rattle.dm_wire.specs.Finding.{is_of};

    ghost Value = { List AnAvp };

    ghost view = { λ w. filter (is_of w.code w.vendor) w.left.now };
}

/// Each call gives the next AVP of the code and vendor, and `None` behind the last.
impl<'a> Iterator for AvpsOf<'a> {
    type Item = &'a Avp;

    ghost use Rattle.std.specs.Prelude.{length};
    ghost use Rattle.std.specs.Iterator.{at_most};
    ghost use Rattle.dm_wire.specs.Finding.{GivesNext};

    ghost next_gives = { λ w given v. GivesNext w (option_copied given) v };

    ghost remaining = { λ w. at_most (length w) };

    fn next(&mut self) -> Option<&'a Avp> {
        while let Some((first, rest)) = self.left.split_first() {
            self.left = rest;
            if first.code == self.code && first.vendor == self.vendor {
                return Some(first);
            }
        }
        None
    }
}

impl Message {
    /// The first AVP of this code and vendor. It never answers want of memory.
    pub fn avp(&self, code: u32, vendor: Option<u32>) -> Option<&Avp>
        ensures { option_copied result ≡ find (is_of code vendor) self.now.avps }
    {
        self.avps(code, vendor).next()
    }

    /// The AVPs of this code and vendor, in order. It never answers want of memory.
    pub fn avps(&self, code: u32, vendor: Option<u32>) -> AvpsOf<'_>
        ensures all { result ≡ filter (is_of code vendor) self.now.avps }
        ensures few { length result < 2 ^ 64 }
    {
        AvpsOf {
            left: self.avps.as_slice(),
            code,
            vendor,
        }
    }
}
