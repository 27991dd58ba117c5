//! What a run reads from.
ghost use Rattle.std.specs.Prelude.{◌≡◌, ℕ, List, Bool, true, false, Option, Some, OnErr};
ghost use Rattle.std.specs.Io.{ReadsAtMost};
ghost use Rattle.std.specs.Io.KnownBytes.{ReadConsumes};

use std::io;
use std::io::Read;

/// What a run reads from: each `Read` is one, and [`Held`] is one of which it is known that no read fails.
pub trait Source {
    // The octets that reads will give from here on, where they are known.
    ghost left: { Self → Option (List ℕ) };

    // Whether it is known that no read fails.
    ghost never_fails: { Bool };

    /// Reads some of the next octets into the front of the room, and answers how many: none only at the end, or where
    /// there is no room. Over a `Read` it refuses as that does.
    fn read_some(&mut self, room: &mut [u8]) -> io::Result<usize>
        ensures bound { ReadsAtMost result room.new }
        ensures bytes { ReadConsumes (left self.old) (left self.new) result room.new }
        ensures failed { OnErr result (never_fails ≡ false) };
}

impl<R: Read> Source for R {
    ghost left = { λ r. R.remaining r };

    ghost never_fails = { false };

    fn read_some(&mut self, room: &mut [u8]) -> io::Result<usize> {
        self.read(room)
    }
}

/// Octets in memory, of which no read fails.
#[derive(Drop)]
pub struct Held<'a> {
    /// Those that aren't read yet.
    pub rest: &'a [u8],
}

impl Source for Held<'_> {
    ghost left = { λ h. Some h.rest.now };

    ghost never_fails = { true };

    fn read_some(&mut self, room: &mut [u8]) -> io::Result<usize> {
        self.rest.read(room)
    }
}
