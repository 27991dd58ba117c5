//! The answer of success to a watchdog or a disconnect, as octets (RFC 6733, 5.4.2 and 5.5.2).
ghost use Rattle.std.specs.Prelude.{◌≡◌, ◌⊎◌, ◌↔◌, ◌<◌, ◌≤◌, ◌++◌, ◌∷◌, [], None, length, IfOk, OnOk, IfErr, IsErrOf};
ghost use Rattle.dm_wire.specs.declared.fault.WireFault.{WireFault};
ghost use Rattle.dm_wire.specs.Canonical.{canonical_list, canonical_message};
ghost use Rattle.dm_wire.specs.Codes.{max_command};
ghost use Rattle.dm_base.specs.Spelled.{IsSpelledBy};
ghost use Rattle.dm_base.specs.Codes.{success};
ghost use Rattle.dm_base.specs.Built.{origin, state_avps, result_avp, built_answer};

use crate::Node;
use crate::codes::{ORIGIN_HOST, ORIGIN_REALM, ORIGIN_STATE_ID, RESULT_CODE, SUCCESS};
use crate::headers::header_of_answer;
use crate::laws::built_messages_have_spellings;
use crate::sent_avps::{borrowed_mandatory_avp, own_state_id_if_watchdog};
use dm_wire::codes::limits::HEADER_LEN;
use dm_wire::laws::{canonical_avps_have_padded_length, canonical_octets_spell_message};
use dm_wire::{Header, WireFault, header_octets, push_avp};
use std::alloc::Global;

/// The octets that Result-Code, Origin-Host and Origin-Realm take.
#[tactic(auto, using(crate::proofs::Written::list_sized, crate::proofs::Written::host, crate::proofs::Written::realm))]
fn success_and_origin_size(node: &Node) -> usize
    ensures size { result ≡ length (canonical_list (result_avp success ∷ origin node.now [])) }
    ensures small { result ≤ 540 }
{
    canonical_avps_have_padded_length();
    borrowed_mandatory_avp(RESULT_CODE, &SUCCESS.to_be_bytes()).padded_len()
        + borrowed_mandatory_avp(ORIGIN_HOST, node.host.as_slice()).padded_len()
        + borrowed_mandatory_avp(ORIGIN_REALM, node.realm.as_slice()).padded_len()
}

/// The octets that Origin-State-Id takes, where there is a number for it.
fn origin_state_id_size(state: Option<u32>) -> usize
    ensures size { result ≡ length (canonical_list (state_avps state)) }
    ensures small { result ≤ 12 }
{
    canonical_avps_have_padded_length();
    match state {
        Some(number) => borrowed_mandatory_avp(ORIGIN_STATE_ID, &number.to_be_bytes()).padded_len(),
        None => 0,
    }
}

/// Origin-State-Id, appended, where there is a number for it.
fn push_origin_state_id_octets(out: &mut Vec<u8>, state: Option<u32>) -> Result<(), WireFault>
    ensures put { OnOk result (out.new.items ≡ out.old.items ++ canonical_list (state_avps state)) }
    ensures memory { IfErr result (λ fault. fault ≡ WireFault.NoMemory) }
{
    if let Some(number) = state {
        push_avp(
            out,
            borrowed_mandatory_avp(ORIGIN_STATE_ID, &number.to_be_bytes()),
        )?;
    }
    Ok(())
}

/// Result-Code with DIAMETER_SUCCESS, Origin-Host and Origin-Realm, appended.
#[tactic(auto, using(crate::proofs::Written::host, crate::proofs::Written::realm))]
fn push_success_and_origin(out: &mut Vec<u8>, node: &Node) -> Result<(), WireFault>
    ensures put { OnOk result (out.new.items ≡ out.old.items
        ++ canonical_list (result_avp success ∷ origin node.now [])) }
    ensures memory { IfErr result (λ fault. fault ≡ WireFault.NoMemory) }
{
    push_avp(
        out,
        borrowed_mandatory_avp(RESULT_CODE, &SUCCESS.to_be_bytes()),
    )?;
    push_avp(
        out,
        borrowed_mandatory_avp(ORIGIN_HOST, node.host.as_slice()),
    )?;
    push_avp(
        out,
        borrowed_mandatory_avp(ORIGIN_REALM, node.realm.as_slice()),
    )?;
    Ok(())
}

/// The octets that all AVPs of the answer take.
fn success_avps_size(node: &Node, state: Option<u32>) -> usize
    ensures size { result ≡ length (canonical_list (result_avp success ∷ origin node.now (state_avps state))) }
    ensures small { result ≤ 552 }
{
    success_and_origin_size(node) + origin_state_id_size(state)
}

/// All AVPs of the answer, appended.
fn push_success_avps(out: &mut Vec<u8>, node: &Node, state: Option<u32>) -> Result<(), WireFault>
    ensures put { OnOk result (out.new.items ≡ out.old.items
        ++ canonical_list (result_avp success ∷ origin node.now (state_avps state))) }
    ensures memory { IfErr result (λ fault. fault ≡ WireFault.NoMemory) }
{
    push_success_and_origin(out, node)?;
    push_origin_state_id_octets(out, state)?;
    Ok(())
}

/// The octets of the answer of success to a Device-Watchdog-Request or Disconnect-Peer-Request of this header: those of
/// what `dwa` and `dpa` build with Result-Code 2001 and no failed AVP (RFC 6733, 5.4.2 and 5.5.2). They are written in
/// one block, without the message in between.
///
/// Refuses with `TooLong` where the Command Code is above 16777215, whatever memory there is, else with `NoMemory`.
pub fn success_octets(alloc: Global, node: &Node, to: &Header) -> Result<Vec<u8>, WireFault>
    ensures octets { IfOk result (λ octets. octets.items
        ≡ canonical_message (built_answer node.now to.now success None)) }
    ensures spelled { IfOk result (λ octets. IsSpelledBy (built_answer node.now to.now success None) octets.items) }
    ensures long { IsErrOf result WireFault.TooLong ↔ (max_command < to.now.command) }
    ensures fault { IfErr result (λ fault. (fault ≡ WireFault.TooLong) ⊎ (fault ≡ WireFault.NoMemory)) }
{
    built_messages_have_spellings();
    canonical_octets_spell_message();
    let state = own_state_id_if_watchdog(node, to.command);
    let size = HEADER_LEN as usize + success_avps_size(node, state);
    let Some(header) = header_octets(header_of_answer(false, to), size as u32) else {
        return Err(WireFault::TooLong);
    };
    let mut octets = Vec::with_capacity(alloc, size)?;
    octets.extend_from_slice(&header)?;
    push_success_avps(&mut octets, node, state)?;
    Ok(octets)
}
