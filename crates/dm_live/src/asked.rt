//! What a line asks of a node: an order, or a piece that came on a connection.
use dm_machine::Conn;
use dm_node::Order;

/// What a line asks of a node.
#[derive(Clone, Copy, Debug)]
pub enum Asked<'a> {
    /// That it takes an order.
    Order(Order<'a>),
    /// That it is told a piece that came on a connection.
    Piece(Conn, &'a [u8]),
}
