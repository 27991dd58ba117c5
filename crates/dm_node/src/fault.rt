//! Why an event or a neighbour is refused.
use dm_peer::PeerFault;
use thiserror::Error;

/// Why an order was refused. The node is as it was.
#[derive(Clone, Copy, Debug, PartialEq, Eq, Error)]
pub enum OrderFault {
    /// There is no neighbour of this number.
    #[error("no such neighbour")]
    NoNeighbour,
    /// The neighbour's peer refused it.
    #[error("the neighbour refused")]
    Peer(PeerFault),
}

/// Why a neighbour wasn't added. The neighbours are as they were.
#[derive(Clone, Copy, Debug, PartialEq, Eq, Error)]
pub enum AddFault {
    /// A neighbour has this host, upper and lower case taken as one.
    #[error("there is such a neighbour")]
    Known,
    /// A growth was refused.
    #[error("out of memory")]
    NoMemory,
}
