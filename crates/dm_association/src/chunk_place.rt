//! Where a chunk belongs by its TSN.

/// Where a chunk belongs.
#[derive(Clone, Copy)]
pub(crate) enum ChunkPlace {
    /// So many TSNs behind the first that isn't done; its own is missing.
    Wanted(usize),
    /// Its TSN came before.
    Repeated,
    /// Too far away, or more than may be held, or it isn't known with which TSN the association begins.
    Astray,
}
