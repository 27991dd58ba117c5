//! A node of one neighbour, which is told what strangers send.
use crate::Strangers;
use dm_peer::Config;

/// The first neighbour is told whatever a stranger sends, as a peer is that has no node: so a node of this one alone
/// does what its peer does by itself.
#[derive(Clone, Copy, Debug)]
pub struct Alone;

impl Strangers for Alone {
    ghost use Rattle.dm_node.specs.Policies.{told_the_first};

    ghost policy = { λ _. told_the_first };

    fn most(&self) -> usize {
        0
    }

    fn porter(&self) -> Option<usize> {
        Some(0)
    }

    fn template(&self, _host: &[u8]) -> Option<&Config> {
        None
    }
}
