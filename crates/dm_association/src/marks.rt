//! What a DATA chunk tells of its user message.
ghost use Rattle.std.specs.Prelude.{◌≡◌};
ghost use Rattle.dm_flows.specs.Sctps.{data_seen};
ghost use Rattle.dm_association.specs.Fragments.{chunk_marks};

use dm_flows::DataChunk;

/// The B and E bits of a DATA chunk, and its stream (RFC 9260, 3.3.1).
#[derive(Clone, Copy)]
pub(crate) struct ChunkMarks {
    /// The B bit: it is the first fragment of a user message.
    pub(crate) beginning: bool,
    /// The E bit: it is the last one.
    pub(crate) ending: bool,
    pub(crate) stream: u16,
}

/// The B and E bits of a DATA chunk, and its stream.
pub(crate) fn marks_of_chunk(chunk: DataChunk<'_>) -> ChunkMarks
    ensures { result ≡ chunk_marks (data_seen chunk.entry) }
{
    ChunkMarks {
        beginning: chunk.beginning,
        ending: chunk.ending,
        stream: chunk.stream,
    }
}
