//! Configurations: a node and the peer that it is configured for, which is another host.
ghost use Rattle.std.specs.Prelude.{◌≡◌, ◌⊎◌, ◌↔◌, IfOk, IfErr, Some, Err, true, false};
ghost use Rattle.dm_base.specs.Before.{lower};
ghost use Rattle.dm_base.specs.Fit.{is_name};
ghost use Rattle.dm_tables.specs.Base.{base_definitions};
ghost use Rattle.dm_peer.specs.declared.fault.ConfigFault.{ConfigFault};
ghost use Rattle.dm_peer.specs.declared.fault.ConfigFault.TheVariants as config_faults;
ghost use Rattle.dm_peer.specs.Hosts.{is_same_host, config_fault};

use crate::ConfigFault;
use crate::shared::Shared;
use dm_base::{Node, host_order, is_name};
use dm_wire::Octets;
use std::alloc::{AllocError, Global};
use std::cmp::Ordering;

/// A node, the host that it is configured for, where its numbers begin, and whether a CEA's Origin-Host is compared
/// with that host.
#[derive(Debug, Drop)]
pub struct Config {
    pub(crate) node: Node,
    pub(crate) peer: Octets,
    pub(crate) first_id: u32,
    pub(crate) compares: bool,
    pub(crate) dictionary: Shared,
    pub ghost fit_peer: { is_name peer ≡ true },
    pub ghost other_host: { is_same_host node.host peer ≡ false },
    pub ghost based: { dictionary ≡ base_definitions },
}

/// Whether the octets are two names of one host, upper and lower case taken as one (RFC 6733, 5.6.4). It never answers
/// want of memory.
pub fn is_same_host(one: &[u8], other: &[u8]) -> bool
    ensures value { result ≡ is_same_host one.now other.now }
    ensures same { (result ≡ true) ↔ (lower one.now ≡ lower other.now) }
{
    match host_order(one, other) {
        Ordering::Equal => true,
        _ => false,
    }
}

/// Why a node of this host can't have this peer; None where it can.
fn fault_of_peer_host(host: &[u8], peer: &[u8]) -> Option<ConfigFault>
    ensures { result ≡ config_fault host.now peer.now }
{
    if !is_name(peer) {
        return Some(ConfigFault::BadHost);
    }
    if is_same_host(host, peer) {
        return Some(ConfigFault::SameHost);
    }
    None
}

impl Config {
    ghost use Rattle.dm_peer.specs.Configs.{wins};

    /// A configuration of these parts, with the base dictionary. `first_id` is the number of the first request. It
    /// doesn't compare the host that a CEA names: see [`comparing`](Config::comparing).
    ///
    /// Refuses, in this order, with `BadHost` (the peer's name is empty, has an octet outside 0x21 to 0x7E, or is over
    /// 255 octets), `SameHost` (it is the node's own, upper and lower case taken as one) and `NoMemory`, and drops the
    /// parts then.
    pub fn new(
        alloc: Global,
        node: Node,
        peer: Vec<u8>,
        first_id: u32,
    ) -> Result<Config, ConfigFault>
        ensures fault { IfErr result (λ f. (f ≡ config_faults.NoMemory)
            ⊎ (config_fault node.host peer.items ≡ Some f)) }
        ensures refuses { (f : ConfigFault) → config_fault node.host peer.items ≡ Some f → result ≡ Err f }
        ensures node { IfOk result (λ config. config.node ≡ node) }
        ensures peer { IfOk result (λ config. config.peer ≡ peer.items) }
        ensures first_id { IfOk result (λ config. config.first_id ≡ first_id) }
        ensures dictionary { IfOk result (λ config. config.dictionary ≡ base_definitions) }
        ensures compares { IfOk result (λ config. config.compares ≡ false) }
    {
        if let Some(fault) = fault_of_peer_host(node.host(), peer.as_slice()) {
            return Err(fault);
        }
        match Shared::base(alloc) {
            Ok(dictionary) => Ok(Config {
                node,
                peer: Octets::from_vec(peer),
                first_id,
                dictionary,
                compares: false,
            }),
            Err(_) => Err(ConfigFault::NoMemory),
        }
    }

    /// The same configuration, by which a CEA's first Origin-Host is compared with the peer's host, upper and lower
    /// case taken as one: a CEA of another host fails whatever its Result-Code, and its connection is closed. This is
    /// an own rule: RFC 6733 states no such check (5.3 and 5.6). It never answers want of memory.
    pub fn comparing(self) -> Config
        ensures node { result.node ≡ self.node }
        ensures peer { result.peer ≡ self.peer }
        ensures first_id { result.first_id ≡ self.first_id }
        ensures dictionary { result.dictionary ≡ self.dictionary }
        ensures compares { result.compares ≡ true }
    {
        let mut config = self;
        config.compares = true;
        config
    }

    /// The configuration of the same node for another peer, the host, beginning with the same number. Both have one
    /// dictionary: but for the names it takes little memory. It compares hosts where this one does.
    ///
    /// Refuses in the order and with the faults of [`new`](Config::new).
    pub fn for_host(&self, alloc: Global, host: &[u8]) -> Result<Config, ConfigFault>
        ensures fault { IfErr result (λ f. (f ≡ config_faults.NoMemory)
            ⊎ (config_fault self.now.node.host host.now ≡ Some f)) }
        ensures refuses { (f : ConfigFault) → config_fault self.now.node.host host.now ≡ Some f → result ≡ Err f }
        ensures node { IfOk result (λ config. config.node ≡ self.now.node) }
        ensures peer { IfOk result (λ config. config.peer ≡ host.now) }
        ensures first_id { IfOk result (λ config. config.first_id ≡ self.now.first_id) }
        ensures dictionary { IfOk result (λ config. config.dictionary ≡ base_definitions) }
        ensures compares { IfOk result (λ config. config.compares ≡ self.now.compares) }
    {
        if let Some(fault) = fault_of_peer_host(self.node.host(), host) {
            return Err(fault);
        }
        match self.copy_with_peer_host(alloc, host) {
            Ok(config) => Ok(config),
            Err(_) => Err(ConfigFault::NoMemory),
        }
    }

    /// A configuration of these parts with the dictionary of this one, whatever node this one is of: but for the parts
    /// it takes no memory. It doesn't compare hosts, whether this one does or not. `first_id` is the number of the
    /// first request.
    ///
    /// Refuses in the order and with the faults of [`new`](Config::new), and drops the parts then.
    pub fn for_node(&self, node: Node, peer: Vec<u8>, first_id: u32) -> Result<Config, ConfigFault>
        ensures fault { IfErr result (λ f. (f ≡ config_faults.NoMemory)
            ⊎ (config_fault node.host peer.items ≡ Some f)) }
        ensures refuses { (f : ConfigFault) → config_fault node.host peer.items ≡ Some f → result ≡ Err f }
        ensures node { IfOk result (λ config. config.node ≡ node) }
        ensures peer { IfOk result (λ config. config.peer ≡ peer.items) }
        ensures first_id { IfOk result (λ config. config.first_id ≡ first_id) }
        ensures dictionary { IfOk result (λ config. config.dictionary ≡ base_definitions) }
        ensures compares { IfOk result (λ config. config.compares ≡ false) }
    {
        if let Some(fault) = fault_of_peer_host(node.host(), peer.as_slice()) {
            return Err(fault);
        }
        let Ok(dictionary) = self.dictionary.clone() else {
            return Err(ConfigFault::NoMemory);
        };
        Ok(Config {
            peer: Octets::from_vec(peer),
            node,
            first_id,
            dictionary,
            compares: false,
        })
    }

    /// A copy whose peer is this host, which can be its peer; or want of memory.
    fn copy_with_peer_host(&self, alloc: Global, host: &[u8]) -> Result<Config, AllocError>
        requires name { is_name host.now ≡ true }
        requires other { is_same_host self.now.node.host host.now ≡ false }
        ensures node { IfOk result (λ config. config.node ≡ self.now.node) }
        ensures peer { IfOk result (λ config. config.peer ≡ host.now) }
        ensures first_id { IfOk result (λ config. config.first_id ≡ self.now.first_id) }
        ensures dictionary { IfOk result (λ config. config.dictionary ≡ self.now.dictionary) }
        ensures compares { IfOk result (λ config. config.compares ≡ self.now.compares) }
    {
        Ok(Config {
            peer: Octets::from_slice(alloc, host)?,
            dictionary: self.dictionary.clone()?,
            node: self.node.clone()?,
            first_id: self.first_id,
            compares: self.compares,
        })
    }

    /// The node. It never answers want of memory.
    pub fn node(&self) -> &Node
        ensures { result.now ≡ self.now.node }
    {
        &self.node
    }

    /// The host of the configured peer. It never answers want of memory.
    pub fn peer_host(&self) -> &[u8]
        ensures { result.now ≡ self.now.peer }
    {
        self.peer.as_slice()
    }

    /// Whether the own side wins an election: the own host comes later (RFC 6733, 5.6.4).
    pub(crate) fn wins_election(&self) -> bool
        ensures { result ≡ wins self.now }
    {
        match host_order(self.node.host(), self.peer_host()) {
            Ordering::Greater => true,
            _ => false,
        }
    }
}
