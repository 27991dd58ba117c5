//! The configuration by which a host that is no neighbour may become one.
ghost use Rattle.std.specs.Prelude.{ℕ, IfSome, IfNone, IfOk, OnErr, IsSome};
ghost use Rattle.dm_machine.specs.declared.connection.Conn.{Conn};
ghost use Rattle.dm_node.specs.Calling.{caller_of};
ghost use Rattle.dm_node.specs.Policies.{MakesFor, MakesNoneFor};
ghost use Rattle.dm_node.specs.Strangers.{IsPermitted, IsForbidden};
ghost use Rattle.dm_node.specs.Telling.{IsAddressed};

use crate::Strangers;
use crate::calling::read_cer_header_and_host;
use crate::neighbours::Neighbours;
use dm_dict::NoMemory;
use dm_peer::{Config, ConfigFault};
use std::alloc::Global;

/// The configuration that the host's template makes for it; None where it has no template, or one that doesn't fit.
fn config_by_template<S: Strangers>(
    alloc: Global,
    strangers: &S,
    host: &[u8],
) -> Result<Option<Config>, NoMemory>
    ensures made { IfOk result (λ o. IfSome o (MakesFor (S.policy strangers.now) host.now)) }
    ensures none { IfOk result (λ o. IfNone o (MakesNoneFor (S.policy strangers.now) host.now)) }
{
    match strangers.template(host) {
        Some(template) => match template.for_host(alloc, host) {
            Ok(config) => Ok(Some(config)),
            Err(ConfigFault::NoMemory) => Err(NoMemory),
            Err(_) => Ok(None),
        },
        None => Ok(None),
    }
}

/// A configuration for the host whose CER the octets are, which concern no neighbour. None where it may not become one,
/// or they are no CER.
pub(crate) fn offered_config<S: Strangers>(
    alloc: Global,
    neighbours: &Neighbours,
    strangers: &S,
    octets: &[u8],
) -> Result<Option<Config>, NoMemory>
    ensures offered { IfOk result (λ o. IfSome o (λ config. (c : Conn)
        → ((i : ℕ) → IsAddressed (S.policy strangers.now) neighbours.now c octets.now i → ⊥)
        → IsPermitted (S.policy strangers.now) neighbours.now c octets.now config)) }
    ensures none { IfOk result (λ o. IfNone o ((c : Conn)
        → IsForbidden (S.policy strangers.now) neighbours.now c octets.now)) }
    ensures memory { OnErr result (IsSome (caller_of octets.now)) }
{
    match read_cer_header_and_host(octets) {
        Some((_, host)) => {
            if neighbours.count() < strangers.most() {
                config_by_template(alloc, strangers, host)
            } else {
                Ok(None)
            }
        }
        None => Ok(None),
    }
}
