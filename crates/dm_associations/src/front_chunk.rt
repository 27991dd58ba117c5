//! What a packet is to its association by the chunk at its front.
ghost use Rattle.dm_associations.specs.Fronts.{HasFront};

use dm_association::{Init, ends_association, read_init_or_ack};

/// What a packet is to its association.
#[derive(Clone, Copy)]
pub(crate) enum Front {
    /// An INIT.
    Begins(Init),
    /// An INIT ACK.
    Answers(Init),
    /// An ABORT or a SHUTDOWN COMPLETE, and whether its T bit is set.
    Ends(bool),
    /// Anything else.
    Carries,
}

/// What a packet is to its association, by the chunk with which the octets behind its common header begin.
///
/// ```text
///  0                   1                   2                   3
///  0 1 2 3 4 5 6 7 8 9 0 1 2 3 4 5 6 7 8 9 0 1 2 3 4 5 6 7 8 9 0 1
/// | Type = 6, 14  |  Reserved   |T|         Chunk Length          |
/// ```
pub(crate) fn read_front_chunk(chunks: &[u8]) -> Front
    ensures { HasFront chunks.now result }
{
    match read_init_or_ack(chunks) {
        Some(init) if init.is_ack => Front::Answers(init),
        Some(init) => Front::Begins(init),
        None if ends_association(chunks) => Front::Ends(chunks[1] % 2 == 1),
        None => Front::Carries,
    }
}
