//! A stream of octets, cut into messages.
ghost use Rattle.std.specs.Prelude.{◌≡◌, ◌<◌, ◌≤◌, ◌-◌, ◌++◌, ℕ, nat_eq, List, [], ◌∷◌, length, take, Option, None};
ghost use Rattle.std.specs.Prelude.{Some, IfSome, IfNone, IsSomeAnd, IfOk, IfErr, IsErrOf, OnOk, OnErr, MatchResult};
ghost use Rattle.std.specs.List.{concat};
ghost use Rattle.dm_framer.specs.declared.fault.FrameFault.{FrameFault};
ghost use Rattle.dm_framer.specs.Frames.{HasFault, Framed, IsFrame, IsPartial, BeginsWithFrame, BeginsWithNoFrame};
ghost use Rattle.dm_framer.specs.Stream.{Stream, new_stream, IsFrontFrame};

use crate::FrameFault;
use crate::buffer::compact_if_cheap;
use crate::front::{HEADER_FRONT, front_len, len_until_front_is_whole};
use std::alloc::Global;
use std::marker::Model;

/// The octets of a stream that were fed and not yet handed out as messages (RFC 6733, 3).
///
/// A contract sees it as these octets, the greatest Message Length, and the fault that is kept.
///
/// Feeding and taking cost a number of steps linear in the octets fed: a message is copied once, and what is left
/// behind it is moved only where it is no longer than what was taken. The buffer is never asked for more than twice
/// the octets that are held then, which a `Vec` may round up to twice as much.
#[derive(Debug, Drop)]
pub struct Framer {
    buffer: Vec<u8>,
    taken: usize,
    max: u32,
    fault: Option<FrameFault>,
}

impl Model for Framer {
    ghost use Rattle.std.specs.Prelude.{drop};
    ghost use Rattle.dm_framer.specs.Stream.{Stream, IsSoundStream};

    ghost Value = { Stream };

    ghost view = { λ f. record { octets = drop f.taken f.buffer.items; max = f.max; fault = f.fault } };

    ghost invariant = { λ f. IsSoundStream f.buffer.items f.taken f.max f.fault };
}

impl Framer {
    /// A framer that holds nothing, for messages of at most `max` octets. It never answers want of memory.
    pub fn new(alloc: Global, max: u32) -> Framer
        ensures { result ≡ new_stream max }
    {
        Framer {
            buffer: Vec::new(alloc),
            taken: 0,
            max,
            fault: None,
        }
    }

    /// Adds the next piece of the stream, however it was cut.
    ///
    /// Answers the fault that `next` found, if it found one; a fault in the piece is left to `next`. `NoMemory` may
    /// come without one. After each `Err` the framer is unchanged.
    pub fn feed(&mut self, piece: &[u8]) -> Result<(), FrameFault>
        // The piece is appended to the octets held.
        ensures fed { OnOk result (self.new ≡ record self.old { octets = self.old.octets ++ piece.now }) }
        ensures err { OnErr result (self.new ≡ self.old) }
        // A kept fault is answered, and there is no other refusal but want of memory.
        ensures kept { IfSome self.old.fault (λ fault. result ≡ Err fault) }
        ensures memory { IfNone self.old.fault (IfErr result (λ fault. fault ≡ FrameFault.NoMemory)) }
    {
        if let Some(fault) = self.fault {
            return Err(fault);
        }
        self.taken = compact_if_cheap(&mut self.buffer, self.taken);
        self.buffer.extend_from_slice(piece)?;
        Ok(())
    }

    /// Adds as many octets of the next piece as the message at the front wants, and answers how many these are: all of
    /// them where it isn't whole with fewer. So what stands behind it in the piece isn't copied.
    ///
    /// Answers what [`feed`](Framer::feed) answers. After each `Err` the framer is unchanged.
    pub fn feed_front(&mut self, piece: &[u8]) -> Result<usize, FrameFault>
        ensures within { IfOk result (λ size. size ≤ length piece.now) }
        // They are appended to the octets held.
        ensures fed { IfOk result (λ size. self.new
            ≡ record self.old { octets = self.old.octets ++ take size piece.now }) }
        // Octets are left only behind a whole message, and with fewer there is none.
        ensures front { IfOk result (λ size. size < length piece.now
            → BeginsWithFrame self.old.max (self.old.octets ++ take size piece.now)) }
        ensures least { IfOk result (λ size. (k : ℕ) → k < size
            → BeginsWithNoFrame self.old.max (self.old.octets ++ take k piece.now)) }
        ensures err { OnErr result (self.new ≡ self.old) }
        ensures kept { IfSome self.old.fault (λ fault. result ≡ Err fault) }
        ensures memory { IfNone self.old.fault (IfErr result (λ fault. fault ≡ FrameFault.NoMemory)) }
    {
        let header = HEADER_FRONT.saturating_sub(self.len()).min(piece.len());
        let (front, behind) = piece.split_at(header);
        self.feed(front)?;
        let more = len_until_front_is_whole(&self.buffer[self.taken..], self.max, behind.len());
        match self.feed(&behind[..more]) {
            Ok(()) => Ok(header + more),
            Err(fault) => {
                self.take_back(header);
                Err(fault)
            }
        }
    }

    /// Takes the last octets away again, so many as are held at most, as if they hadn't been fed. A fault that is kept
    /// is forgotten, as `next` finds it again where it stands. It never answers want of memory.
    pub fn take_back(&mut self, size: usize)
        ensures { self.new ≡ record self.old {
          octets = take (length self.old.octets - size) self.old.octets;
          fault = None;
        } }
    {
        let left = self.len().saturating_sub(size);
        self.buffer.truncate(self.taken + left);
        self.fault = None;
    }

    /// Hands out the next whole message; `None` where it isn't whole yet.
    ///
    /// Answers `BadVersion` where the next octet isn't 1, and, once four octets are there, `BadLength` where the
    /// Message Length is below 20 or no multiple of 4, else `TooLong` where it is above the maximum. These three are
    /// kept: `feed` and `next` answer the same from then on. `NoMemory` changes nothing, and comes only in the place
    /// of a message.
    pub fn next(&mut self) -> Result<Option<Vec<u8>>, FrameFault>
        // The first frame is handed out and the others stay, or memory runs out and nothing changes.
        ensures frame { (message : List ℕ) (frames : List (List ℕ)) (rest : List ℕ) (fault : Option FrameFault)
            → Framed self.old.max self.old.octets (message ∷ frames) rest fault
            → MatchResult result
            (λ found. IsSomeAnd found (λ handed. handed.items ≡ message)
            × (self.new ≡ record self.old { octets = concat frames ++ rest }))
            (λ refused. (refused ≡ FrameFault.NoMemory) × (self.new ≡ self.old)) }

        // Where there is neither frame nor fault nothing is handed out.
        ensures none { (rest : List ℕ) → Framed self.old.max self.old.octets [] rest None
            → (result ≡ Ok None) × (self.new ≡ self.old) }
        // A fault is answered where no frame is left before it, and kept.
        ensures fault { (rest : List ℕ) (fault : FrameFault) → Framed self.old.max self.old.octets [] rest (Some fault)
            → (result ≡ Err fault) × (self.new ≡ record self.old { fault = Some fault }) }

        // A kept fault is answered again, and nothing changes. It is the one that stands at the front.
        ensures kept { IfSome self.old.fault (λ fault. (result ≡ Err fault) × (self.new ≡ self.old)) }
        ensures stands { IfSome self.old.fault (λ fault. HasFault self.old.max self.old.octets fault) }
        // Where memory runs out nothing changes, whatever the framer holds.
        ensures memory { IsErrOf result FrameFault.NoMemory → self.new ≡ self.old }
    {
        if let Some(fault) = self.fault {
            return Err(fault);
        }
        match front_len(&self.buffer[self.taken..], self.max) {
            Ok(Some(size)) => {
                let end = self.taken + size;
                let octets = &self.buffer[self.taken..end];
                let message = Vec::from_slice(*self.buffer.allocator(), octets)?;
                self.taken = end;
                Ok(Some(message))
            }
            Ok(None) => Ok(None),
            Err(fault) => {
                self.fault = Some(fault);
                Err(fault)
            }
        }
    }

    /// The next whole message, in place; `None` where it isn't whole yet. It never answers want of memory, and keeps no
    /// fault.
    ///
    /// Answers the faults that `next` answers, and no `NoMemory`.
    pub fn front(&self) -> Result<Option<&[u8]>, FrameFault>
        // What is answered stands there: a frame, neither a frame nor a fault, or a fault.
        ensures frame { IfOk result (λ found. IfSome found (λ message. IsFrontFrame self.now message.now)) }
        ensures part { IfOk result (λ found. IfNone found (IsPartial self.now.max self.now.octets)) }
        ensures fault { IfErr result (λ fault. HasFault self.now.max self.now.octets fault) }
    {
        match front_len(&self.buffer[self.taken..], self.max) {
            Ok(Some(size)) => {
                let end = self.taken + size;
                Ok(Some(&self.buffer[self.taken..end]))
            }
            Ok(None) => Ok(None),
            Err(fault) => Err(fault),
        }
    }

    /// Takes the next whole message away, as `next` does, and hands nothing out. It never answers want of memory.
    pub fn skip(&mut self)
        // The first frame goes and the others stay; where there is none nothing changes.
        ensures frame { (message more : List ℕ) → IsFrame self.old.max message → self.old.octets ≡ message ++ more
            → self.new ≡ record self.old { octets = more } }
        ensures none { BeginsWithNoFrame self.old.max self.old.octets → self.new ≡ self.old }
    {
        if let Ok(Some(size)) = front_len(&self.buffer[self.taken..], self.max) {
            self.taken += size;
        }
    }

    /// How many octets are held. It never answers want of memory.
    pub fn len(&self) -> usize
        ensures { result ≡ length self.now.octets }
    {
        self.buffer.len() - self.taken
    }

    /// Whether no octets are held. It never answers want of memory.
    pub fn is_empty(&self) -> bool
        ensures { result ≡ nat_eq (length self.now.octets) 0 }
    {
        self.len() == 0
    }

    /// The greatest Message Length. It never answers want of memory.
    pub fn max(&self) -> u32
        ensures { result ≡ self.now.max }
    {
        self.max
    }

    /// Sets the greatest Message Length, for the messages that weren't handed out yet. A fault that is kept is
    /// forgotten, as `next` finds it again where it stands. It never answers want of memory.
    pub fn set_max(&mut self, max: u32)
        ensures { self.new ≡ record self.old { max = max; fault = None } }
    {
        self.max = max;
        self.fault = None;
    }

    /// A framer of the same octets, maximum and kept fault, or `NoMemory`.
    pub fn copy(&self) -> Result<Framer, FrameFault>
        ensures copied { IfOk result (λ copy. copy ≡ self.now) }
        ensures memory { IfErr result (λ fault. fault ≡ FrameFault.NoMemory) }
    {
        let octets = &self.buffer[self.taken..];
        Ok(Framer {
            buffer: Vec::from_slice(*self.buffer.allocator(), octets)?,
            taken: 0,
            max: self.max,
            fault: self.fault,
        })
    }
}
