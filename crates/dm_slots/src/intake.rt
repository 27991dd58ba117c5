//! What came on a connection and wasn't told yet.
ghost use Rattle.std.specs.Prelude.{◌≡◌, ◌≤◌, ℕ, false, List, length, take, drop, IfSome, IfNone, IfOk, OnOk, OnErr};
ghost use Rattle.dm_framer.specs.Frames.{BeginsWithNoFrame};
ghost use Rattle.dm_slots.specs.Intakes.{new_intake, fed_intake, unfed_intake, broken_intake, with_max, IsFirst};
ghost use Rattle.dm_slots.specs.Fronts.{IsFront};
ghost use Rattle.dm_slots.specs.Hearing.{IsWholeIn, IsNotWhole, TakesFront};

use dm_framer::{Framer, front_len};
use std::alloc::{AllocError, Global};
use std::marker::Model;

/// What stands at the front of what came.
#[derive(Clone, Copy)]
pub enum Front<'a> {
    /// No whole message; nor ever one behind a fault that was told.
    Nothing,
    /// A whole message, these octets.
    Message(&'a [u8]),
    /// Octets with which no message begins.
    Fault,
}

/// What came on a connection and wasn't told yet.
#[derive(Debug, Drop)]
pub(crate) struct Intake {
    framer: Framer,
    is_broken: bool,
}

impl Model for Intake {
    ghost use Rattle.std.specs.Prelude.{◌≡◌, None};
    ghost use Rattle.dm_slots.specs.Intakes.{Intake};

    ghost Value = { Intake };

    ghost view = { λ i. record { octets = i.framer.octets; max = i.framer.max; is_broken = i.is_broken } };

    ghost invariant = { λ i. i.framer.fault ≡ None };
}

impl Intake {
    /// Nothing came; messages of at most `max` octets may. It never answers want of memory.
    pub(crate) fn new(alloc: Global, max: u32) -> Intake
        ensures { result ≡ new_intake max }
    {
        Intake {
            framer: Framer::new(alloc, max),
            is_broken: false,
        }
    }

    /// Keeps a piece. Behind a fault it is thrown away.
    pub(crate) fn feed(&mut self, piece: &[u8]) -> Result<(), AllocError>
        ensures fed { OnOk result (self.new ≡ fed_intake piece.now self.old) }
        ensures unchanged { OnErr result (self.new ≡ self.old) }
    {
        if self.is_broken {
            return Ok(());
        }
        match self.framer.feed(piece) {
            Ok(()) => Ok(()),
            Err(_) => Err(AllocError),
        }
    }

    /// Keeps of a piece what the first message wants, and answers how many octets these are. Behind a fault all is
    /// thrown away.
    pub(crate) fn feed_front_or_discard(&mut self, piece: &[u8]) -> Result<usize, AllocError>
        ensures fed { IfOk result (λ size. self.new ≡ fed_intake (take size piece.now) self.old) }
        ensures taken { IfOk result (TakesFront self.old piece.now) }
        ensures unchanged { OnErr result (self.new ≡ self.old) }
        ensures memory { OnErr result (self.old.is_broken ≡ false) }
    {
        if self.is_broken {
            return Ok(piece.len());
        }
        match self.framer.feed_front(piece) {
            Ok(size) => Ok(size),
            Err(_) => Err(AllocError),
        }
    }

    /// Takes so many of the octets away again that came last. It never answers want of memory.
    pub(crate) fn take_back(&mut self, size: usize)
        ensures { self.new ≡ unfed_intake size self.old }
    {
        if !self.is_broken {
            self.framer.take_back(size);
        }
    }

    /// What stands at the front. It never answers want of memory.
    pub(crate) fn front(&self) -> Front<'_>
        ensures { IsFront self.now result }
    {
        if self.is_broken {
            return Front::Nothing;
        }
        match self.framer.front() {
            Ok(Some(message)) => Front::Message(message),
            Ok(None) => Front::Nothing,
            Err(_) => Front::Fault,
        }
    }

    /// How many octets the whole message has with which the piece begins, where nothing is kept before it; None where
    /// something is, behind a fault, or where it begins with none. It never answers want of memory.
    pub(crate) fn whole_message_len(&self, piece: &[u8]) -> Option<usize>
        ensures within { IfSome result (λ size. size ≤ length piece.now) }
        ensures whole { IfSome result (λ size.
            IsWholeIn self.now piece.now (take size piece.now) (drop size piece.now)) }
        ensures none { IfNone result (IsNotWhole self.now piece.now) }
    {
        if self.is_broken || !self.framer.is_empty() {
            return None;
        }
        match front_len(piece, self.framer.max()) {
            Ok(found) => found,
            Err(_) => None,
        }
    }

    /// Lets the front message go. It never answers want of memory.
    pub(crate) fn skip_front_message(&mut self)
        ensures skipped { (message rest : List ℕ) → IsFirst self.old message rest
            → self.new ≡ record self.old { octets = rest } }
        // Where none stands at the front nothing changes.
        ensures none { BeginsWithNoFrame self.old.max self.old.octets → self.new ≡ self.old }
    {
        self.framer.skip();
    }

    /// A fault was told: what came, and what comes, is thrown away. It never answers want of memory.
    pub(crate) fn discard_rest_of_stream(&mut self, alloc: Global)
        ensures { self.new ≡ broken_intake self.old }
    {
        let max = self.framer.max();
        self.framer = Framer::new(alloc, max);
        self.is_broken = true;
    }

    /// Sets the greatest Message Length. It never answers want of memory.
    pub(crate) fn set_max_message_len(&mut self, max: u32)
        ensures { self.new ≡ with_max max self.old }
    {
        self.framer.set_max(max);
    }
}
