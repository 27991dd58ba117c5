//! Laws of user messages. Each function is a law: it does nothing, and its contract is the law.
ghost use Rattle.dm_association.specs.ChunkAccounts.{EachChunkIsAccounted};
ghost use Rattle.dm_association.specs.Laws.{OneUserMessage};
ghost use Rattle.dm_association.specs.Reassembly.{EachUserMessageIsHandedOut, OrderOfChunksChangesNothing};

/// A chunk is in one user message at most, whatever came beside it.
pub fn no_chunk_is_in_two_messages()
    ensures { OneUserMessage }
{}

/// As many octets of user data as came in a direction are in messages that were handed out, wait for others of their
/// message, came before, were passed over, or are of Diameter over DTLS (both counted up to 2^64 - 1): in whatever
/// order chunks come and associations begin and end.
pub fn octets_of_chunks_add_up()
    ensures { EachChunkIsAccounted }
{}

/// What is handed out of a direction, while its association isn't left, are just the user messages of its chunks of
/// Diameter from the first TSN on, each once: of each TSN the chunk that came first counts, in whatever order they come
/// and however often.
pub fn exactly_user_messages_are_handed_out()
    ensures { EachUserMessageIsHandedOut }
{}

/// The same chunks give the same messages, each as often, in whatever order they come and however often, where those
/// with one TSN are the same chunk.
pub fn chunk_order_changes_only_message_order()
    ensures { OrderOfChunksChangesNothing }
{}
