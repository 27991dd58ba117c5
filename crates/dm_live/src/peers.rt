//! The neighbours that a configuration tells.
ghost use Rattle.std.specs.Prelude.{◌≡◌, [], None, Some, IfOk, IfErr, OnOk};
ghost use Rattle.dm_node.specs.Holding.{IsKnown};
ghost use Rattle.dm_peer.specs.Hosts.{config_fault};
ghost use Rattle.dm_node.specs.NodeSeen.{node_state_of, node_known_of};
ghost use Rattle.dm_node.specs.NodeKnown.{with_nobody};
ghost use Rattle.dm_live.specs.Beginnings.{IsConfiguredFor, BeginsForHosts, AreUnmet};
ghost use Rattle.dm_live.specs.Beginnings.{peers_fault, first_told, go_fault};
ghost use Rattle.dm_live.specs.Drafts.{settings_of};
ghost use Rattle.dm_live.specs.Joining.{AddsLike, RefusesHost};

use crate::configuration::{Draft, config_fault_name};
use dm_node::{AddFault, Node};
use dm_peer::Config;
use std::alloc::{AllocError, Global};

/// Adds a closed neighbour of the template's node for the host, or answers the name of why it can't be had.
fn add_peer(
    alloc: Global,
    template: &Config,
    host: &[u8],
    node: &mut Node,
) -> Result<Result<(), &'static str>, AllocError>
    ensures added { IfOk result (λ added. OnOk added (AddsLike template.now host.now (node_state_of node.old)
        (node_state_of node.new))) }
    ensures unmet { IfOk result (λ added. OnOk added (node_known_of node.new
        ≡ with_nobody (node_known_of node.old))) }
    ensures fit { IfOk result (λ added. OnOk added (config_fault template.now.node.host host.now ≡ None)) }
    ensures new { IfOk result (λ added. OnOk added (IsKnown (node_state_of node.old).peers host.now → ⊥)) }
    ensures fault { IfOk result (λ added. IfErr added (λ name.
        RefusesHost template.now.node.host (node_state_of node.old).peers host.now name.now)) }
{
    let config = match template.for_host(alloc, host) {
        Ok(config) => config,
        Err(fault) => return Ok(Err(config_fault_name(fault)?)),
    };
    match node.add(config) {
        Ok(_) => Ok(Ok(())),
        Err(AddFault::Known) => Ok(Err("Known")),
        Err(AddFault::NoMemory) => Err(AllocError),
    }
}

/// Adds a closed neighbour for each host, the template's own among them, in order, or answers the name of why the first
/// can't be had that can't.
fn add_all_peers(
    alloc: Global,
    draft: &Draft,
    template: &Config,
    node: &mut Node,
) -> Result<Result<(), &'static str>, AllocError>
    requires made { IsConfiguredFor (settings_of draft.now) (first_told (settings_of draft.now).peers) template.now }
    requires none { BeginsForHosts (settings_of draft.now) [] (node_state_of node.old) }
    requires nobody { AreUnmet (node_known_of node.old) }
    ensures begun { IfOk result (λ added. OnOk added (BeginsForHosts (settings_of draft.now)
        (settings_of draft.now).peers (node_state_of node.new))) }
    ensures unmet { IfOk result (λ added. OnOk added (AreUnmet (node_known_of node.new))) }
    ensures good { IfOk result (λ added. OnOk added (peers_fault (settings_of draft.now).host []
        (settings_of draft.now).peers ≡ None)) }
    ensures fault { IfOk result (λ added. IfErr added (λ name. peers_fault (settings_of draft.now).host []
        (settings_of draft.now).peers ≡ Some name.now)) }
{
    let mut rest = draft.peers.as_slice();
    'host: while let Some((host, more)) = rest.split_first() {
        if let Err(name) = add_peer(alloc, template, host.as_slice(), node)? {
            return Ok(Err(name));
        }
        rest = more;
    }
    Ok(Ok(()))
}

/// The node with the neighbours that the draft tells, or the name of why it begins none.
pub(crate) fn node_with_peers(
    alloc: Global,
    draft: &Draft,
) -> Result<Result<Node, &'static str>, AllocError>
    ensures begun { IfOk result (λ made. IfOk made (λ node. BeginsForHosts (settings_of draft.now)
        (settings_of draft.now).peers (node_state_of node))) }
    ensures unmet { IfOk result (λ made. IfOk made (λ node. AreUnmet (node_known_of node))) }
    ensures good { IfOk result (λ made. OnOk made (go_fault (settings_of draft.now) ≡ None)) }
    ensures fault { IfOk result (λ made. IfErr made (λ name. go_fault (settings_of draft.now) ≡ Some name.now)) }
{
    let template = match draft.config_for_first_peer(alloc)? {
        Ok(config) => config,
        Err(name) => return Ok(Err(name)),
    };
    let own = template.node().clone()?;
    let mut node = Node::new(alloc, own, draft.first_max, draft.most);
    let added = add_all_peers(alloc, draft, &template, &mut node);
    drop(template);
    match added {
        Ok(Ok(())) => Ok(Ok(node)),
        Ok(Err(name)) => {
            drop(node);
            Ok(Err(name))
        }
        Err(error) => {
            drop(node);
            Err(error)
        }
    }
}
