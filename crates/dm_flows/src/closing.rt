//! What ended one direction of a connection.
ghost use Rattle.std.specs.Prelude.{◌≡◌};
ghost use Rattle.dm_flows.specs.Connections.{is_unended};

/// What ended a direction, and up to where its octets are taken (RFC 9293, 3.6 and 3.5.3).
#[derive(Clone, Copy, Debug, PartialEq, Eq)]
pub enum Closing {
    /// Nothing did.
    Open,
    /// A FIN, which has this sequence number: octets are taken up to it.
    Fin(u32),
    /// A RST: no octets are taken.
    Reset,
}

/// Whether nothing ended the direction.
pub(crate) fn is_open(closing: Closing) -> bool
    ensures { result ≡ is_unended closing }
{
    match closing {
        Closing::Open => true,
        _ => false,
    }
}
