//! The chunk at the front of a packet, where it begins or ends an association (RFC 9260, 3.3).
ghost use Rattle.std.specs.Prelude.{◌≡◌, ◌↔◌, IfSome, IfNone, IsTrue};
ghost use Rattle.dm_flows.specs.Sctps.{chunk_length, IsWholeChunk};
ghost use Rattle.dm_association.specs.declared.front_chunk.Init.{Init};
ghost use Rattle.dm_association.specs.FrontChunks.{SaysInit, EndsAssociation};

use byteorder::{BigEndian, ByteOrder};

/// The octets of a chunk's header.
const HEADER_LEN: u16 = 4;

/// The octets of an INIT and an INIT ACK before their parameters.
const INIT_LEN: u16 = 20;

/// The types of chunks.
const INIT: u8 = 1;

const INIT_ACK: u8 = 2;

const ABORT: u8 = 6;

const SHUTDOWN_COMPLETE: u8 = 14;

/// The Chunk Length of the whole chunk at the front; `None` where none is there.
fn whole_chunk_len(chunks: &[u8]) -> Option<u16>
    ensures whole { IfSome result (λ size. IsWholeChunk chunks.now × (size ≡ chunk_length chunks.now)) }
    ensures none { IfNone result (IsWholeChunk chunks.now → ⊥) }
{
    if chunks.len() < HEADER_LEN as usize {
        return None;
    }
    let size = BigEndian::read_u16(&chunks[2..]);
    if size < HEADER_LEN || chunks.len() < size as usize {
        return None;
    }
    Some(size)
}

/// What an INIT or an INIT ACK says: its sender begins an association.
#[derive(Clone, Copy, Debug, PartialEq, Eq)]
pub struct Init {
    /// It is an INIT ACK, and answers an INIT.
    pub is_ack: bool,
    /// The Verification Tag of the packets that its receiver will send.
    pub initiate_tag: u32,
    /// The TSN of the first DATA chunk of its sender, for
    /// [`SctpFlow::begin_association`](crate::SctpFlow::begin_association).
    pub initial_tsn: u32,
}

/// What the INIT or INIT ACK says that the octets behind a common header are, and which of them it is; `None` where
/// they are none. It takes no memory.
///
/// ```text
///  0                   1                   2                   3
///  0 1 2 3 4 5 6 7 8 9 0 1 2 3 4 5 6 7 8 9 0 1 2 3 4 5 6 7 8 9 0 1
/// |  Type = 1, 2  |  Chunk Flags  |         Chunk Length          |
/// |                         Initiate Tag                          |
/// |           Advertised Receiver Window Credit (a_rwnd)          |
/// |  Number of Outbound Streams   |   Number of Inbound Streams   |
/// |                          Initial TSN                          |
/// ```
pub fn read_init_or_ack(chunks: &[u8]) -> Option<Init>
    ensures some { IfSome result (λ init. SaysInit chunks.now init) }
    ensures none { IfNone result ((init : Init) → SaysInit chunks.now init → ⊥) }
{
    let Some(size) = whole_chunk_len(chunks) else {
        return None;
    };
    if size < INIT_LEN || (chunks[0] != INIT && chunks[0] != INIT_ACK) {
        return None;
    }
    Some(Init {
        is_ack: chunks[0] == INIT_ACK,
        initiate_tag: BigEndian::read_u32(&chunks[4..]),
        initial_tsn: BigEndian::read_u32(&chunks[16..]),
    })
}

/// Whether the octets behind a common header begin with an ABORT or a SHUTDOWN COMPLETE: the association ends, in both
/// directions. It takes no memory.
pub fn ends_association(chunks: &[u8]) -> bool
    ensures { IsTrue result ↔ EndsAssociation chunks.now }
{
    match whole_chunk_len(chunks) {
        Some(_size) => chunks[0] == ABORT || chunks[0] == SHUTDOWN_COMPLETE,
        None => false,
    }
}
