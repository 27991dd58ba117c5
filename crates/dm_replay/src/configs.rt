//! The configurations of the peers that a script names.
ghost use Rattle.std.specs.Prelude.{◌≡◌, true, IfOk};
ghost use Rattle.dm_base.specs.Before.{lower};
ghost use Rattle.dm_base.specs.Fit.{is_name};
ghost use Rattle.dm_replay.specs.LinesSoFar.{line_host};
ghost use Rattle.dm_replay.specs.ReadScript.{IsNodeOfHost, IsConfigOf};

use crate::host_line::HostLine;
use dm_base::Node;
use dm_dict::Ip;
use dm_peer::{Config, ConfigFault};
use std::alloc::{AllocError, Global};

/// The node of a peer: host and application are its line's; realm (`example`), address and product are fixed.
fn node_of_host(alloc: Global, own: HostLine<'_>) -> Result<Node, AllocError>
    requires { is_name own.host.now ≡ true }
    ensures { IfOk result (IsNodeOfHost (line_host own.entry)) }
{
    let mut addresses = Vec::new(alloc);
    addresses.push(Ip::V4([127, 0, 0, 1]))?;
    let mut auth = Vec::new(alloc);
    auth.push(own.application)?;
    let host = Vec::from_slice(alloc, own.host)?;
    let realm = Vec::from_slice(alloc, b"example")?;
    let product = String::from_str(alloc, "dmpeer")?;
    match Node::new(host, realm, addresses, 0, product, auth, Vec::new(alloc)) {
        Ok(node) => Ok(node),
        Err(_) => unreachable!(),
    }
}

/// The configuration of a peer for the other one.
pub fn config_of_hosts(
    alloc: Global,
    own: HostLine<'_>,
    other: HostLine<'_>,
) -> Result<Config, AllocError>
    requires own { is_name own.host.now ≡ true }
    requires other { is_name other.host.now ≡ true }
    requires differ { lower own.host.now ≡ lower other.host.now → ⊥ }
    ensures { IfOk result (IsConfigOf (line_host own.entry) (line_host other.entry)) }
{
    let node = node_of_host(alloc, own)?;
    let peer = Vec::from_slice(alloc, other.host)?;
    match Config::new(alloc, node, peer, 1) {
        Ok(config) => Ok(config),
        Err(fault) => match fault {
            ConfigFault::NoMemory => Err(AllocError),
            ConfigFault::BadHost | ConfigFault::SameHost => unreachable!(),
        },
    }
}

/// The configuration of the other peer for the first one, whose dictionary it has.
pub fn config_with_dictionary_of(
    alloc: Global,
    first: &Config,
    own: HostLine<'_>,
    other: HostLine<'_>,
) -> Result<Config, AllocError>
    requires own { is_name own.host.now ≡ true }
    requires other { is_name other.host.now ≡ true }
    requires differ { lower own.host.now ≡ lower other.host.now → ⊥ }
    ensures { IfOk result (IsConfigOf (line_host own.entry) (line_host other.entry)) }
{
    let node = node_of_host(alloc, own)?;
    let peer = Vec::from_slice(alloc, other.host)?;
    match first.for_node(node, peer, 1) {
        Ok(config) => Ok(config),
        Err(fault) => match fault {
            ConfigFault::NoMemory => Err(AllocError),
            ConfigFault::BadHost | ConfigFault::SameHost => unreachable!(),
        },
    }
}
