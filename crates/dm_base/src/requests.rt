//! The requests that a node sends to a peer (RFC 6733, 5.3 to 5.5).
ghost use Rattle.std.specs.Prelude.{◌≡◌, IfOk, pos};
ghost use Rattle.dm_base.specs.Spelled.{HasSpelling};
ghost use Rattle.dm_base.specs.declared.kind.Kind.TheVariants as kinds;
ghost use Rattle.dm_base.specs.Kinds.{IsBase};
ghost use Rattle.dm_base.specs.Built.{cause_number, own_caps, built_cer, built_dwr, built_dpr};

use crate::codes::{CAPABILITIES_EXCHANGE, DEVICE_WATCHDOG, DISCONNECT_CAUSE, DISCONNECT_PEER};
use crate::headers::header_of_request;
use crate::laws::built_messages_have_spellings;
use crate::sent_avps::{
    capabilities_avp_capacity, own_state_id, push_capabilities, push_origin_host_and_realm,
    push_origin_state_id, unsigned32_avp,
};
use crate::{Cause, Node};
use dm_dict::NoMemory;
use dm_wire::{AvpList, Message};
use std::alloc::Global;

/// A Capabilities-Exchange-Request with the node's capabilities (RFC 6733, 5.3.1), or want of memory.
/// `id` is its Hop-by-Hop and its End-to-End Identifier.
#[tactic(auto, using(crate::proofs::Own::kind_cer))]
pub fn cer(alloc: Global, node: &Node, id: u32) -> Result<Message, NoMemory>
    ensures built { IfOk result (λ m. m ≡ built_cer node.now id) }
    ensures spelled { HasSpelling (built_cer node.now id) }
    // It is read as a request that tells the node's own capabilities.
    ensures kind { IsBase (built_cer node.now id) (kinds.Cer (own_caps node.now)) }
{
    built_messages_have_spellings();
    let header = header_of_request(CAPABILITIES_EXCHANGE, id);
    let mut avps = Vec::with_capacity(alloc, capabilities_avp_capacity(node))?;
    push_capabilities(alloc, &mut avps, node, None)?;
    Ok(Message {
        header,
        avps: AvpList::from_vec(avps),
    })
}

/// A Device-Watchdog-Request (RFC 6733, 5.5.1), or want of memory. `id` is its Hop-by-Hop and its
/// End-to-End Identifier.
#[tactic(auto, using(crate::proofs::Own::kind_dwr))]
pub fn dwr(alloc: Global, node: &Node, id: u32) -> Result<Message, NoMemory>
    ensures built { IfOk result (λ m. m ≡ built_dwr node.now id) }
    ensures spelled { HasSpelling (built_dwr node.now id) }
    ensures kind { IsBase (built_dwr node.now id) kinds.Dwr }
{
    built_messages_have_spellings();
    let header = header_of_request(DEVICE_WATCHDOG, id);
    let mut avps = Vec::with_capacity(alloc, 3)?;
    push_origin_host_and_realm(alloc, &mut avps, node)?;
    push_origin_state_id(alloc, &mut avps, own_state_id(node))?;
    Ok(Message {
        header,
        avps: AvpList::from_vec(avps),
    })
}

/// A Disconnect-Peer-Request for this cause (RFC 6733, 5.4.1), or want of memory. `id` is its Hop-by-Hop
/// and its End-to-End Identifier.
#[tactic(auto, using(crate::proofs::Own::kind_dpr))]
pub fn dpr(alloc: Global, node: &Node, id: u32, cause: Cause) -> Result<Message, NoMemory>
    ensures built { IfOk result (λ m. m ≡ built_dpr node.now id cause) }
    ensures spelled { HasSpelling (built_dpr node.now id cause) }
    ensures kind { IsBase (built_dpr node.now id cause) (kinds.Dpr (pos (cause_number cause))) }
{
    built_messages_have_spellings();
    let header = header_of_request(DISCONNECT_PEER, id);
    let mut avps = Vec::with_capacity(alloc, 3)?;
    push_origin_host_and_realm(alloc, &mut avps, node)?;
    avps.push(unsigned32_avp(alloc, DISCONNECT_CAUSE, cause as u32)?)?;
    Ok(Message {
        header,
        avps: AvpList::from_vec(avps),
    })
}
