//! A law of lines: it does nothing, and its contract is the law.
ghost use Rattle.dm_live.specs.Laws.{SenderIsNoOrder};

/// The line `sender` tells no order, to a peer alone or to several, so what it asks for and an order never stand
/// against each other.
pub fn sender_is_no_order()
    ensures { SenderIsNoOrder }
{}
