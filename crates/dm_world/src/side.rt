//! The two sides of a world.
ghost use Rattle.std.specs.Prelude.{◌≡◌};
ghost use Rattle.dm_two_peers.specs.Links.{flip};
ghost use Rattle.dm_world.specs.Seen.{as_side};

/// One of the two sides.
#[derive(Clone, Copy, Debug, PartialEq, Eq)]
pub enum Side {
    /// The side of the first configuration.
    A,
    /// The side of the second.
    B,
}

impl Side {
    /// The other side.
    pub(crate) fn other(self) -> Side
        ensures { as_side result ≡ flip (as_side self) }
    {
        match self {
            Side::A => Side::B,
            Side::B => Side::A,
        }
    }
}
