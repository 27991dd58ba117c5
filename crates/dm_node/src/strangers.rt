//! Who may call that is no neighbour.
ghost use Rattle.std.specs.Prelude.{◌≡◌};
ghost use Rattle.std.specs.Option.{option_copied};

use dm_peer::Config;

/// Who may call that is no neighbour (RFC 6733, 5.3: local policy may permit a CER from an unknown host). `()` turns
/// all away, [`Open`] takes each by one template, up to a number of neighbours, and by [`Alone`](crate::Alone) the
/// first neighbour is told whatever a stranger sends.
pub trait Strangers {
    ghost use Rattle.dm_node.specs.Policies.{Policy};

    // Each host's template, up to how many neighbours there may be, and the porter's number.
    ghost policy: { Self → Policy };

    /// How many neighbours there may be, with those that were added otherwise: where there are as many, each host that
    /// is no neighbour is turned away. It never answers want of memory.
    fn most(&self) -> usize
        ensures { result ≡ (policy self.now).most };

    /// The number of the porter, if there is to be one: the neighbour that is told whatever comes on a connection that
    /// nobody holds and is no CER of a neighbour's host. Where it is there no stranger is asked about or turned away.
    /// It never answers want of memory.
    fn porter(&self) -> Option<usize>
        ensures { result ≡ (policy self.now).porter };

    /// Of what the host's configuration is made, but for its peer, which is the host ([`Config::for_host`]); none where
    /// the host is turned away. The template's own peer isn't asked about. It never answers want of memory.
    fn template(&self, host: &[u8]) -> Option<&Config>
        ensures { option_copied result ≡ (policy self.now).template host.now };
}

impl Strangers for () {
    ghost use Rattle.dm_node.specs.Policies.{no_strangers};

    ghost policy = { λ _. no_strangers };

    fn most(&self) -> usize {
        0
    }

    fn porter(&self) -> Option<usize> {
        None
    }

    fn template(&self, _host: &[u8]) -> Option<&Config> {
        None
    }
}

/// Takes each host that can be the peer of the template's node, up to a number of neighbours: its configuration is that
/// of the template, but for its peer, which is the host.
#[derive(Debug, Drop)]
pub struct Open {
    pub(crate) template: Config,
    pub(crate) most: usize,
}

impl Open {
    /// Takes each host by this template, with so many neighbours at most, those that were added otherwise too. It never
    /// answers want of memory.
    pub fn new(template: Config, most: usize) -> Open
        ensures template { result.template ≡ template }
        ensures most { result.most ≡ most }
    {
        Open { template, most }
    }
}

impl Strangers for Open {
    ghost use Rattle.dm_node.specs.Policies.{taking_each};

    ghost policy = { λ each. taking_each each.template each.most };

    fn most(&self) -> usize {
        self.most
    }

    fn porter(&self) -> Option<usize> {
        None
    }

    fn template(&self, _host: &[u8]) -> Option<&Config> {
        Some(&self.template)
    }
}
