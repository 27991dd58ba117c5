//! The first words of orders.
ghost use Rattle.std.specs.Prelude.{◌≡◌, IfSome, IfNone};
ghost use Rattle.dm_live.specs.declared.order_name.OrderName.{OrderName};
ghost use Rattle.dm_live.specs.OrderLines.{name_word};

/// What an order is called.
#[derive(Clone, Copy, Drop)]
pub enum OrderName {
    Start,
    Ack,
    Nack,
    Accept,
    Octets,
    Gone,
    Timeout,
    Tick,
    Stop,
    Submit,
    Reset,
}

/// The order that is called by this word; None where none is.
pub(crate) fn read_order_name(word: &[u8]) -> Option<OrderName>
    ensures told { IfSome result (λ name. word.now ≡ name_word name) }
    ensures none { IfNone result ((name : OrderName) → word.now ≡ name_word name → ⊥) }
{
    match word {
        b"start" => Some(OrderName::Start),
        b"ack" => Some(OrderName::Ack),
        b"nack" => Some(OrderName::Nack),
        b"accept" => Some(OrderName::Accept),
        b"octets" => Some(OrderName::Octets),
        b"gone" => Some(OrderName::Gone),
        b"timeout" => Some(OrderName::Timeout),
        b"tick" => Some(OrderName::Tick),
        b"stop" => Some(OrderName::Stop),
        b"submit" => Some(OrderName::Submit),
        b"reset" => Some(OrderName::Reset),
        _ => None,
    }
}
