//! Where a peer stands: its core, its next number, and what it waits for; and the same with what holds of every peer.
ghost use Rattle.std.specs.Prelude.{◌≡◌};
ghost use Rattle.dm_peer.specs.After.{awaited_of, nothing_awaited, fresh_standing};

use dm_base::BaseCommand;
use dm_machine::Core;
use dm_wire::Header;
use std::fmt::{self, Debug, Formatter, Write};
use std::marker::Model;

/// The Hop-by-Hop Identifiers of the requests that await their answers (RFC 6733, 3).
#[derive(Clone, Copy, Debug)]
pub struct Awaited {
    /// That of the CER.
    pub cea: Option<u32>,
    /// That of the last DWR.
    pub dwa: Option<u32>,
    /// That of the DPR.
    pub dpa: Option<u32>,
}

/// Where a peer stands.
#[derive(Clone, Copy, Debug)]
pub struct Standing {
    /// Its state, its connections and the watchdog's count.
    pub core: Core,
    /// The number of its next request.
    pub next: u32,
    /// The header of a CER that waits for its CEA.
    pub waiting: Option<Header>,
    /// The numbers of the requests that await their answers.
    pub awaited: Awaited,
}

impl Awaited {
    ghost use Rattle.std.specs.Prelude.{◌≡◌};
    ghost use Rattle.dm_peer.specs.After.{awaited_of, nothing_awaited};

    /// No request awaits an answer.
    pub(crate) fn nothing() -> Awaited
        ensures { result ≡ nothing_awaited }
    {
        Awaited {
            cea: None,
            dwa: None,
            dpa: None,
        }
    }

    /// The number of the request of the command that awaits its answer: 257, 280 or 282. None for other commands.
    pub(crate) fn awaited_hop_id(&self, command: u32) -> Option<u32>
        ensures { result ≡ awaited_of self.now command }
    {
        match BaseCommand::of(command)? {
            BaseCommand::CapabilitiesExchange => self.cea,
            BaseCommand::DeviceWatchdog => self.dwa,
            BaseCommand::DisconnectPeer => self.dpa,
        }
    }
}

impl Standing {
    ghost use Rattle.std.specs.Prelude.{◌≡◌};
    ghost use Rattle.dm_peer.specs.After.{fresh_standing};

    /// Closed with no connections, awaiting nothing, with this next number.
    pub(crate) fn new(next: u32) -> Standing
        ensures { result ≡ fresh_standing next }
    {
        Standing {
            core: Core::new(),
            next,
            waiting: None,
            awaited: Awaited::nothing(),
        }
    }
}

/// Where a peer stands, with what holds of each. A peer has this in place of a model of its own, so that whoever owns a
/// peer has nothing to show where it goes.
#[derive(Clone, Copy)]
pub(crate) struct Kept {
    standing: Standing,
}

impl Model for Kept {
    ghost use Rattle.dm_peer.specs.declared.standing.Standing.{Standing};
    ghost use Rattle.dm_peer.specs.KeptAt.{IsKeptAt};

    ghost Value = { Standing };

    ghost view = { λ k. k.standing };

    ghost invariant = { λ k. IsKeptAt k.standing };

    ghost inverse = { λ s. record { standing = s } };
}

impl Kept {
    ghost use Rattle.std.specs.Prelude.{◌≡◌};
    ghost use Rattle.dm_peer.specs.After.{fresh_standing};
    ghost use Rattle.dm_peer.specs.KeptAt.{IsKeptAt};

    /// Closed with no connections, awaiting nothing, with this next number.
    #[tactic(auto, using(crate::proofs::Kept::fresh_is_kept))]
    pub(crate) fn fresh(next: u32) -> Kept
        ensures { result ≡ fresh_standing next }
    {
        Kept {
            standing: Standing::new(next),
        }
    }

    /// This standing, of which what holds of every peer's is shown.
    pub(crate) fn new(standing: Standing) -> Kept
        requires { IsKeptAt standing }
        ensures { result ≡ standing }
    {
        Kept { standing }
    }

    /// Where the peer stands.
    pub(crate) fn get(&self) -> &Standing
        ensures value { result.now ≡ self.now }
        ensures kept { IsKeptAt self.now }
    {
        &self.standing
    }
}

impl Debug for Kept {
    /// Where the peer stands alone.
    fn fmt<W: Write>(&self, f: &mut Formatter<W>) -> fmt::Result {
        self.standing.fmt(f)
    }
}
