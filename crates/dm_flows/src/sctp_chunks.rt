//! DATA chunks of an SCTP packet (RFC 9260, 3.2 and 3.3.1).
ghost use Rattle.std.specs.Prelude.{◌≡◌, ◌<◌, ◌≤◌, ℕ, length, IfSome, IfNone};
ghost use Rattle.dm_flows.specs.Sctps.{chunk_length, has_flag, behind_chunk, data_chunk, data_seen, IsData};
ghost use Rattle.dm_flows.specs.Sctps.{IsWholeChunk, HasData, HasNoData};

use crate::octet_slices::without_first_octets;
use byteorder::{BigEndian, ByteOrder};
use std::marker::Model;

/// The octets of a chunk's header.
const CHUNK_LEN: u16 = 4;

/// The octets of a DATA chunk before its user data.
const DATA_LEN: u16 = 16;

/// The type of a DATA chunk.
const DATA: u8 = 0;

/// A DATA chunk where it lies: a user message, or a fragment of one.
#[derive(Clone, Copy, Debug)]
pub struct DataChunk<'a> {
    /// The U bit: the message has no place in its stream.
    pub unordered: bool,
    /// The B bit: the first fragment of a message.
    pub beginning: bool,
    /// The E bit: the last fragment.
    pub ending: bool,
    /// The Transmission Sequence Number, modulo 2^32.
    pub tsn: u32,
    pub stream: u16,
    /// The Stream Sequence Number, modulo 2^16.
    pub sequence: u16,
    /// The Payload Protocol Identifier: 46 is Diameter, 47 Diameter over DTLS (RFC 6733, 2.1.1 and 11.5).
    pub payload_protocol: u32,
    /// One octet or more.
    pub user_data: &'a [u8],
}

/// A DATA chunk, and the octets behind it.
#[derive(Clone, Copy, Debug)]
struct FoundData<'a> {
    chunk: DataChunk<'a>,
    rest: &'a [u8],
}

/// Whether the flag of this worth is set.
fn is_flag_set(octets: &[u8], worth: u8) -> bool
    requires there { 2 ≤ length octets.now }
    requires some { 0 < worth }
    ensures { result ≡ has_flag worth octets.now }
{
    octets[1] / worth % 2 == 1
}

/// The Chunk Length of the whole chunk at the front; `None` where none is there.
fn whole_chunk_len(octets: &[u8]) -> Option<u16>
    ensures whole { IfSome result (λ size. IsWholeChunk octets.now × (size ≡ chunk_length octets.now)) }
    ensures none { IfNone result (IsWholeChunk octets.now → ⊥) }
{
    if octets.len() < CHUNK_LEN as usize {
        return None;
    }
    let size = BigEndian::read_u16(&octets[2..]);
    if size < CHUNK_LEN || octets.len() < size as usize {
        return None;
    }
    Some(size)
}

/// The octets behind the chunk at the front and its padding.
fn octets_after_chunk(octets: &[u8], size: u16) -> &[u8]
    requires { size ≡ chunk_length octets.now }
    ensures { result.now ≡ behind_chunk octets.now }
{
    without_first_octets(octets, 4 * ((size as usize + 3) / 4))
}

/// The DATA chunk at the front.
///
/// ```text
///  0                   1                   2                   3
///  0 1 2 3 4 5 6 7 8 9 0 1 2 3 4 5 6 7 8 9 0 1 2 3 4 5 6 7 8 9 0 1
/// |   Type = 0    |  Res  |I|U|B|E|            Length             |
/// |                              TSN                              |
/// |       Stream Identifier       |    Stream Sequence Number     |
/// |                  Payload Protocol Identifier                  |
/// ```
fn read_data_chunk(octets: &[u8], size: u16) -> DataChunk<'_>
    requires is { IsData octets.now }
    requires len { size ≡ chunk_length octets.now }
    ensures { data_seen result ≡ data_chunk octets.now }
{
    DataChunk {
        unordered: is_flag_set(octets, 4),
        beginning: is_flag_set(octets, 2),
        ending: is_flag_set(octets, 1),
        tsn: BigEndian::read_u32(&octets[4..]),
        stream: BigEndian::read_u16(&octets[8..]),
        sequence: BigEndian::read_u16(&octets[10..]),
        payload_protocol: BigEndian::read_u32(&octets[12..]),
        user_data: &octets[DATA_LEN as usize..size as usize],
    }
}

/// The next DATA chunk that has user data, and the octets behind it; None where no whole chunk that is left is one.
fn next_data_chunk(octets: &[u8]) -> Option<FoundData<'_>>
    ensures found { IfSome result (λ found. HasData octets.now (data_seen found.chunk) found.rest.now) }
    ensures shorter { IfSome result (λ found. length found.rest.now < length octets.now) }
    ensures none { IfNone result (HasNoData octets.now) }
{
    let mut rest = octets;
    'chunks: while let Some(size) = whole_chunk_len(rest) {
        let behind = octets_after_chunk(rest, size);
        if rest[0] == DATA && DATA_LEN < size {
            return Some(FoundData {
                chunk: read_data_chunk(rest, size),
                rest: behind,
            });
        }
        rest = behind;
    }
    None
}

/// The DATA chunks of an SCTP packet, in order. Chunks of other types are passed by, and a DATA chunk without user
/// data. They end with the packet, or before a chunk that is there in part. It never answers want of memory.
///
/// A contract sees it as the octets that are left.
#[derive(Debug, Drop)]
pub struct DataChunks<'a> {
    rest: &'a [u8],
}

impl<'a> Model for DataChunks<'a> {
    ghost use Rattle.std.specs.Prelude.{ℕ, List};

    ghost Value = { List ℕ };

    ghost view = { λ chunks. chunks.rest.now };
}

impl<'a> DataChunks<'a> {
    /// The DATA chunks of the octets behind a common header.
    pub fn new(chunks: &'a [u8]) -> DataChunks<'a>
        ensures { result ≡ chunks.now }
    {
        DataChunks { rest: chunks }
    }
}

/// Each call gives the next DATA chunk, and `None` behind the last.
impl<'a> Iterator for DataChunks<'a> {
    type Item = DataChunk<'a>;

    ghost use Rattle.std.specs.Prelude.{length};
    ghost use Rattle.std.specs.Iterator.{at_most};
    ghost use Rattle.dm_flows.specs.Sctps.{GivesData};

    ghost next_gives = { GivesData };

    ghost remaining = { λ chunks. at_most (length chunks) };

    fn next(&mut self) -> Option<DataChunk<'a>> {
        match next_data_chunk(self.rest) {
            Some(found) => {
                self.rest = found.rest;
                Some(found.chunk)
            }
            None => {
                self.rest = &[];
                None
            }
        }
    }
}
