//! Diameter messages (RFC 6733, 3).
use crate::AvpList;

/// The header of a message, without Version and Message Length (RFC 6733, 3).
#[derive(Clone, Copy, Debug, PartialEq, Eq)]
pub struct Header {
    /// The R bit: a request, else an answer.
    pub request: bool,
    /// The P bit: the message may be proxied, relayed or redirected.
    pub proxiable: bool,
    /// The E bit: an answer that reports a protocol error.
    pub error: bool,
    /// The T bit: the request may have been sent before.
    pub retransmit: bool,
    /// The Command Code, at most 16777215 in a message that has a spelling.
    pub command: u32,
    /// The Application-ID.
    pub application: u32,
    /// The Hop-by-Hop Identifier.
    pub hop_id: u32,
    /// The End-to-End Identifier.
    pub end_id: u32,
}

/// A message: its header and its AVPs in order (RFC 6733, 3).
#[derive(Debug, Drop)]
pub struct Message {
    /// The header.
    pub header: Header,
    /// The AVPs.
    pub avps: AvpList,
}

impl PartialEq for Message {
    ghost use Rattle.std.specs.Cmp.Rules.{comparing};
    ghost use Rattle.std.proofs.Common.{rules};
    ghost use Rattle.dm_wire.specs.AvpEquality.{message_eq};

    ghost eq = { message_eq };

    ghost laws = { Prim.search (comparing, rules) depth 24 };

    fn eq(&self, other: &Message) -> bool {
        self.header == other.header && self.avps == other.avps
    }
}

impl Eq for Message {
    ghost use Rattle.std.specs.Cmp.Rules.{comparing};
    ghost use Rattle.std.proofs.Common.{rules};

    ghost laws = { Prim.search (comparing, rules) depth 24 };
}
