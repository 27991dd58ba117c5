//! A place that is made for a neighbour, and its host that is noted, before it is added.
ghost use Rattle.std.specs.Prelude.{◌≡◌, ◌⊎◌, ◌↔◌, ◌<◌, ℕ, List, Some, length, IfErr, IsErrOf, OnOk, OnErr};
ghost use Rattle.std.specs.Prelude.{vec_len, vec_capacity, if◌then◌else◌};
ghost use Rattle.dm_base.specs.Before.{lower};
ghost use Rattle.dm_node.specs.Holding.{host_at, IsKnown};
ghost use Rattle.dm_node.specs.Naming.{is_host, noted_number, AreHostsNoted};
ghost use Rattle.dm_node.specs.declared.fault.AddFault.TheVariants.{Known, NoMemory};

use crate::AddFault;
use crate::hosts::Hosts;
use dm_peer::{Config, Peer};

/// Makes room for a neighbour of this configuration, and notes its number for its host. `Known` where a neighbour has
/// that host already, else `NoMemory`: nothing is noted then.
pub(crate) fn reserve_place_and_note_new_host(
    peers: &mut Vec<Option<Peer>>,
    hosts: &mut Hosts,
    config: &Config,
) -> Result<(), AddFault>
    requires named { AreHostsNoted hosts.old peers.old.items }
    ensures same { peers.new.items ≡ peers.old.items }
    ensures room { OnOk result (vec_len peers.new < vec_capacity peers.new) }
    ensures unknown { OnOk result ((j : ℕ) → host_at peers.old.items j ≡ Some (lower config.now.peer) → ⊥) }
    ensures noted { OnOk result ((h : List ℕ) → noted_number hosts.new h
        ≡ if is_host (lower config.now.peer) h then Some (length peers.old.items) else noted_number hosts.old h) }
    ensures kept { OnErr result ((h : List ℕ) → noted_number hosts.new h ≡ noted_number hosts.old h) }
    ensures known { IsErrOf result Known ↔ IsKnown peers.old.items config.now.peer }
    ensures refuses { IfErr result (λ f. (f ≡ Known) ⊎ (f ≡ NoMemory)) }
{
    let index = peers.len();
    match hosts.noted_number(config.peer_host()) {
        Some(_) => Err(AddFault::Known),
        None => match peers.reserve(1) {
            Ok(()) => match hosts.note_host(config.peer_host(), index) {
                Ok(()) => Ok(()),
                Err(_) => Err(AddFault::NoMemory),
            },
            Err(_) => Err(AddFault::NoMemory),
        },
    }
}
