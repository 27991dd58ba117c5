//! The answers that a node sends to a peer (RFC 6733, 5.3 to 5.5 and 7.2).
ghost use Rattle.std.specs.Prelude.{◌≡◌, ◌<◌, ◌^◌, IfOk};
ghost use Rattle.std.specs.Option.{option_copied};
ghost use Rattle.dm_wire.specs.Limits.{HeaderFits};
ghost use Rattle.dm_base.specs.Spelled.{HasSpelling};
ghost use Rattle.dm_base.specs.declared.kind.Kind.TheVariants as kinds;
ghost use Rattle.dm_base.specs.Kinds.{IsGood, IsBase};
ghost use Rattle.dm_base.specs.Codes.{capabilities_exchange, device_watchdog, disconnect_peer};
ghost use Rattle.dm_base.specs.Built.{built_cea, built_answer, built_error};

use crate::Node;
use crate::codes::RESULT_CODE;
use crate::headers::header_of_answer;
use crate::laws::built_messages_have_spellings;
use crate::sent_avps::{
    capabilities_avp_capacity, own_state_id_if_watchdog, push_capabilities,
    push_failed_avp_within_limit, push_origin_host_and_realm, push_origin_state_id, unsigned32_avp,
};
use dm_dict::NoMemory;
use dm_wire::{Avp, AvpList, Header, Message};
use std::alloc::Global;

/// The Capabilities-Exchange-Answer to a request of this header (RFC 6733, 5.3.2): the Result-Code, the
/// node's capabilities, and the failed AVP where there is one of at most 4096 octets; or want of memory.
#[tactic(auto, using(crate::proofs::Own::kind_cea))]
pub fn cea(
    alloc: Global,
    node: &Node,
    to: &Header,
    code: u32,
    failed: Option<&Avp>,
) -> Result<Message, NoMemory>
    ensures built { IfOk result (λ m. m ≡ built_cea node.now to.now code (option_copied failed.entry)) }
    ensures spelled { to.now.command < 256 ^ 3
        → HasSpelling (built_cea node.now to.now code (option_copied failed.entry)) }
    ensures kind { to.now.command ≡ capabilities_exchange
        → IsBase (built_cea node.now to.now code (option_copied failed.entry)) (kinds.Cea code) }
{
    built_messages_have_spellings();
    let header = header_of_answer(false, to);
    let mut avps = Vec::with_capacity(alloc, capabilities_avp_capacity(node))?;
    avps.push(unsigned32_avp(alloc, RESULT_CODE, code)?)?;
    push_capabilities(alloc, &mut avps, node, failed)?;
    Ok(Message {
        header,
        avps: AvpList::from_vec(avps),
    })
}

/// The answer to a Device-Watchdog-Request or Disconnect-Peer-Request of this header.
fn dwa_or_dpa(
    alloc: Global,
    node: &Node,
    to: &Header,
    code: u32,
    failed: Option<&Avp>,
) -> Result<Message, NoMemory>
    ensures built { IfOk result (λ m. m ≡ built_answer node.now to.now code (option_copied failed.entry)) }
    ensures fits { to.now.command < 256 ^ 3 → HeaderFits to.now }
{
    let header = header_of_answer(false, to);
    let mut avps = Vec::with_capacity(alloc, 5)?;
    avps.push(unsigned32_avp(alloc, RESULT_CODE, code)?)?;
    push_origin_host_and_realm(alloc, &mut avps, node)?;
    push_failed_avp_within_limit(alloc, &mut avps, failed)?;
    push_origin_state_id(alloc, &mut avps, own_state_id_if_watchdog(node, to.command))?;
    Ok(Message {
        header,
        avps: AvpList::from_vec(avps),
    })
}

/// The Device-Watchdog-Answer to a request of this header (RFC 6733, 5.5.2): the Result-Code, and the
/// failed AVP where there is one of at most 4096 octets; or want of memory.
#[tactic(auto, using(crate::proofs::Own::kind_dwa))]
pub fn dwa(
    alloc: Global,
    node: &Node,
    to: &Header,
    code: u32,
    failed: Option<&Avp>,
) -> Result<Message, NoMemory>
    ensures built { IfOk result (λ m. m ≡ built_answer node.now to.now code (option_copied failed.entry)) }
    ensures spelled { to.now.command < 256 ^ 3
        → HasSpelling (built_answer node.now to.now code (option_copied failed.entry)) }
    ensures kind { to.now.command ≡ device_watchdog
        → IsBase (built_answer node.now to.now code (option_copied failed.entry)) kinds.Dwa }
{
    built_messages_have_spellings();
    dwa_or_dpa(alloc, node, to, code, failed)
}

/// The Disconnect-Peer-Answer to a request of this header (RFC 6733, 5.4.2): the Result-Code, and the
/// failed AVP where there is one of at most 4096 octets; or want of memory.
#[tactic(auto, using(crate::proofs::Own::kind_dpa))]
pub fn dpa(
    alloc: Global,
    node: &Node,
    to: &Header,
    code: u32,
    failed: Option<&Avp>,
) -> Result<Message, NoMemory>
    ensures built { IfOk result (λ m. m ≡ built_answer node.now to.now code (option_copied failed.entry)) }
    ensures spelled { to.now.command < 256 ^ 3
        → HasSpelling (built_answer node.now to.now code (option_copied failed.entry)) }
    ensures kind { to.now.command ≡ disconnect_peer
        → IsBase (built_answer node.now to.now code (option_copied failed.entry)) kinds.Dpa }
{
    built_messages_have_spellings();
    dwa_or_dpa(alloc, node, to, code, failed)
}

/// The answer with the E bit to a request of this header.
fn error_bit_answer(alloc: Global, node: &Node, to: &Header, code: u32) -> Result<Message, NoMemory>
    ensures built { IfOk result (λ m. m ≡ built_error node.now to.now code) }
    ensures fits { to.now.command < 256 ^ 3 → HeaderFits to.now }
{
    let header = header_of_answer(true, to);
    let mut avps = Vec::with_capacity(alloc, 3)?;
    push_origin_host_and_realm(alloc, &mut avps, node)?;
    avps.push(unsigned32_avp(alloc, RESULT_CODE, code)?)?;
    Ok(Message {
        header,
        avps: AvpList::from_vec(avps),
    })
}

/// The answer with the E bit to a request of this header (RFC 6733, 7.2), as for a Result-Code of 3000 to
/// 3999; or want of memory.
pub fn error_answer(alloc: Global, node: &Node, to: &Header, code: u32) -> Result<Message, NoMemory>
    ensures built { IfOk result (λ m. m ≡ built_error node.now to.now code) }
    ensures spelled { to.now.command < 256 ^ 3 → HasSpelling (built_error node.now to.now code) }
    // Whatever the command and the Result-Code.
    ensures good { IsGood (built_error node.now to.now code) }
{
    built_messages_have_spellings();
    error_bit_answer(alloc, node, to, code)
}
