//! A message that waits to be handed out.
ghost use Rattle.std.specs.Prelude.{◌≡◌};

use std::marker::Model;

/// A message that is whole.
#[derive(Drop)]
pub(crate) struct WholeMessage {
    octets: Vec<u8>,
}

impl Model for WholeMessage {
    ghost use Rattle.std.specs.Prelude.{ℕ, List};

    ghost Value = { List ℕ };

    ghost view = { λ m. m.octets.items };
}

impl WholeMessage {
    /// A whole message of these octets.
    pub(crate) fn new(octets: Vec<u8>) -> WholeMessage
        ensures { result ≡ octets.items }
    {
        WholeMessage { octets }
    }

    /// The octets of the message.
    pub(crate) fn into_octets(self) -> Vec<u8>
        ensures { result.items ≡ self }
    {
        self.octets
    }
}
