//! Fragments of user messages, held until the others are there (RFC 9260, 6.9).
ghost use Rattle.std.specs.Prelude.{◌≡◌, length, IfOk};

use crate::marks::ChunkMarks;
use std::alloc::{AllocError, Global};
use std::marker::Model;

/// A fragment of a user message.
#[derive(Drop)]
pub(crate) struct Fragment {
    marks: ChunkMarks,
    octets: Vec<u8>,
}

impl Model for Fragment {
    ghost use Rattle.dm_association.specs.Fragments.{FragmentState};

    ghost Value = { FragmentState };

    ghost view = { λ f. record { marks = f.marks; octets = f.octets.items } };
}

impl Fragment {
    /// A fragment with these marks, of a copy of these octets.
    pub(crate) fn new(
        alloc: Global,
        marks: ChunkMarks,
        octets: &[u8],
    ) -> Result<Fragment, AllocError>
        ensures { IfOk result (λ fragment. fragment ≡ record { marks = marks; octets = octets.now }) }
    {
        match Vec::from_slice(alloc, octets) {
            Ok(octets) => Ok(Fragment { marks, octets }),
            Err(error) => Err(error),
        }
    }

    /// The B and E bits of the fragment, and its stream.
    pub(crate) fn marks(&self) -> ChunkMarks
        ensures { result ≡ self.now.marks }
    {
        self.marks
    }

    /// The octets of the fragment.
    pub(crate) fn octets(&self) -> &[u8]
        ensures { result.now ≡ self.now.octets }
    {
        self.octets.as_slice()
    }

    /// How many octets the fragment has.
    pub(crate) fn len(&self) -> usize
        ensures { result ≡ length self.now.octets }
    {
        self.octets.len()
    }
}
