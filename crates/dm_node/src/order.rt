//! What who drives a node tells it.
use dm_base::Cause;
use dm_machine::Conn;

/// One thing that happened to a node, or that its user wants; what comes on a connection is no order, but heard
/// ([`hear`](crate::Node::hear)). A neighbour is named by its number, in order of adding; connections have one space of
/// numbers for the whole node.
#[derive(Clone, Copy, Debug)]
pub enum Order<'a> {
    /// Open a connection to the neighbour, under this new number.
    Start(usize, Conn),
    /// The connection that was asked for is made.
    Ack(Conn),
    /// The connection that was asked for can't be made.
    Nack(Conn),
    /// Somebody made a connection, which has this new number from now on.
    Accept(Conn),
    /// The other side closed the connection, or it was lost.
    Gone(Conn),
    /// The time of the neighbour's state is over.
    Timeout(usize),
    /// The neighbour's watchdog's time is over (RFC 3539, 3.4.1).
    Tick(usize),
    /// Disconnect from the neighbour, for this cause (RFC 6733, 5.4).
    Stop(usize, Cause),
    /// Send a message of the user to the neighbour, as octets.
    Submit(usize, &'a [u8]),
    /// The connections that the neighbour holds are dropped: begin anew with it.
    Reset(usize),
    /// All connections are dropped: begin anew with each neighbour.
    ResetAll,
}
