//! Packets in which a Capabilities-Exchange-Request begins.
ghost use Rattle.std.specs.Prelude.{◌↔◌, IsTrue};
ghost use Rattle.dm_associations.specs.Exchanges.{ChunkBeginsExchange, ChunksBeginExchange};
ghost use Rattle.dm_flows.specs.Sctps.{data_seen};

use dm_flows::sctp_laws::packets_have_one_data_list;
use dm_flows::{DataChunk, DataChunks, begins_with_exchange_request};

/// The Payload Protocol Identifier of Diameter (RFC 6733, 11.5).
const DIAMETER: u32 = 46;

/// The Payload Protocol Identifier of a user that tells none (RFC 9260, 3.3.1).
const NO_IDENTIFIER: u32 = 0;

/// Whether the chunk is of Diameter or tells no protocol, and begins a user message, which begins with the header of a
/// Capabilities-Exchange-Request.
fn chunk_begins_exchange_request(chunk: DataChunk<'_>) -> bool
    ensures { IsTrue result ↔ ChunkBeginsExchange (data_seen chunk.entry) }
{
    chunk.beginning
        && (chunk.payload_protocol == DIAMETER || chunk.payload_protocol == NO_IDENTIFIER)
        && begins_with_exchange_request(chunk.user_data)
}

/// Whether a Capabilities-Exchange-Request begins in one of the DATA chunks of a packet.
pub(crate) fn any_chunk_begins_exchange_request(octets: &[u8]) -> bool
    ensures { IsTrue result ↔ ChunksBeginExchange octets.now }
{
    packets_have_one_data_list();
    'chunks: for chunk in DataChunks::new(octets) {
        if chunk_begins_exchange_request(chunk) {
            return true;
        }
    }
    false
}
