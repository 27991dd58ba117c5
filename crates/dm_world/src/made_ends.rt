//! The ends that were made for each side.
ghost use Rattle.std.specs.Prelude.{◌≡◌, [], ◌∷◌, ◌++◌, OnOk};
ghost use Rattle.dm_two_peers.specs.Links.{flip, Side as LinkSide};
ghost use Rattle.dm_world.specs.Ends.{ends_of, AreSameEnds, HasRoomForEnd};
ghost use Rattle.dm_world.specs.Seen.{as_side};

use crate::Side;
use std::alloc::{AllocError, Global};

/// For each side the links, by number, on which an end was made for it since it last started anew.
#[derive(Drop)]
pub(crate) struct MadeEnds {
    of_a: Vec<usize>,
    of_b: Vec<usize>,
}

impl MadeEnds {
    /// None for either side. It never answers want of memory.
    pub(crate) fn new(alloc: Global) -> MadeEnds
        ensures { (s : LinkSide) → ends_of s result ≡ [] }
    {
        MadeEnds {
            of_a: Vec::new(alloc),
            of_b: Vec::new(alloc),
        }
    }

    /// The links on which an end was made for the side, the earliest first.
    pub(crate) fn ends_made_for(&self, side: Side) -> &[usize]
        ensures { result.now ≡ ends_of (as_side side) self.now }
    {
        match side {
            Side::A => self.of_a.as_slice(),
            Side::B => self.of_b.as_slice(),
        }
    }

    /// Makes room for one more end of the side.
    pub(crate) fn reserve_end(&mut self, side: Side) -> Result<(), AllocError>
        ensures same { AreSameEnds self.old self.new }
        ensures room { OnOk result (HasRoomForEnd (as_side side) self.new) }
    {
        match side {
            Side::A => self.of_a.reserve(1),
            Side::B => self.of_b.reserve(1),
        }
    }

    /// Notes that an end was made for the side on the link of this number.
    pub(crate) fn add_end(&mut self, side: Side, index: usize)
        requires { HasRoomForEnd (as_side side) self.old }
        ensures added { ends_of (as_side side) self.new ≡ ends_of (as_side side) self.old ++ index ∷ [] }
        ensures other { ends_of (flip (as_side side)) self.new ≡ ends_of (flip (as_side side)) self.old }
    {
        match side {
            Side::A => self.of_a.push_reserved(index),
            Side::B => self.of_b.push_reserved(index),
        }
    }

    /// Forgets the ends that were made for the side.
    pub(crate) fn clear(&mut self, side: Side)
        ensures cleared { ends_of (as_side side) self.new ≡ [] }
        ensures other { ends_of (flip (as_side side)) self.new ≡ ends_of (flip (as_side side)) self.old }
    {
        match side {
            Side::A => self.of_a.clear(),
            Side::B => self.of_b.clear(),
        }
    }
}
