//! AVPs, headers and messages made from their parts, and copies of them.
ghost use Rattle.std.specs.Prelude.{◌≡◌, false};
ghost use Rattle.dm_wire.specs.Making.{header_answering};

use crate::{Avp, AvpList, Header, Message, Octets};
use std::alloc::AllocError;

impl Avp {
    /// An AVP of this code, vendor, M bit and data, without the P bit (RFC 6733, 4.1).
    pub fn new(code: u32, vendor: Option<u32>, mandatory: bool, bytes: Octets) -> Avp
        ensures code { result.code ≡ code }
        ensures vendor { result.vendor ≡ vendor }
        ensures mandatory { result.mandatory ≡ mandatory }
        ensures protected { result.protected ≡ false }
        ensures bytes { result.bytes ≡ bytes }
    {
        Avp {
            code,
            vendor,
            mandatory,
            protected: false,
            bytes,
        }
    }
}

impl Header {
    /// The header of the answer to a request with this header: its command, application and identifiers and its P bit,
    /// and no other bit (RFC 6733, 6.2). An answer that reports a protocol error sets `error` in it.
    pub fn answer(&self) -> Header
        ensures { result ≡ header_answering self.now }
    {
        Header {
            request: false,
            error: false,
            retransmit: false,
            ..*self
        }
    }
}

impl Message {
    /// The message of this header and these AVPs.
    pub fn new(header: Header, avps: AvpList) -> Message
        ensures header { result.header ≡ header }
        ensures avps { result.avps ≡ avps }
    {
        Message { header, avps }
    }
}

/// A copy, or want of memory.
impl Clone for Message {
    ghost is_clone = { λ message copy. copy ≡ message };

    fn clone(&self) -> Result<Message, AllocError> {
        Ok(Message {
            header: self.header,
            avps: self.avps.clone()?,
        })
    }
}
