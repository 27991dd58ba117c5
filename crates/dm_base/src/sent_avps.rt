//! The AVPs of which a node's messages are made, and the state id that they tell (RFC 6733, 4.1, 5.3, 6.3, 6.4, 7.5 and
//! 8.16).
ghost use Rattle.std.specs.Prelude.{◌≡◌, ◌≤◌, ◌++◌, ◌∷◌, [], IfOk, OnOk, map, nat_le};
ghost use Rattle.std.specs.Option.{option_copied};
ghost use Rattle.dm_wire.specs.Spelling.{avp_length};
ghost use Rattle.dm_wire.specs.Canonical.{canonical_avp};
ghost use Rattle.dm_base.specs.Codes.{longest_failed, vendor_id, supported_vendor_id};
ghost use Rattle.dm_base.specs.Built.{avp, number_avp, address_avp, product_avp, origin, capabilities, failed_avps};
ghost use Rattle.dm_base.specs.Built.{id_code, specific_avp, state_avps};
ghost use Rattle.dm_base.specs.Built.{firmware_avps, application_avps, behind_failed};
ghost use Rattle.dm_base.specs.Extra.{answer_state, own_state, own_firmware, supported_vendors, vendor_applications};
ghost use Rattle.dm_wire.specs.Canonical.{canonical_list};
ghost use Rattle.dm_wire.specs.Borrowed.{avp_of};

use crate::codes::{
    ACCT_APPLICATION_ID, AUTH_APPLICATION_ID, DEVICE_WATCHDOG, FAILED_AVP, FIRMWARE_REVISION,
    HOST_IP_ADDRESS, ORIGIN_HOST, ORIGIN_REALM, ORIGIN_STATE_ID, PRODUCT_NAME, SUPPORTED_VENDOR_ID,
    VENDOR_ID, VENDOR_SPECIFIC_APPLICATION_ID,
};
use crate::limits::LONGEST_FAILED;
use crate::{Node, VendorApplication};
use dm_dict::{Ip, NoMemory};
use dm_wire::{Avp, AvpRef, Octets, encode_avps, push_avp};
use std::alloc::Global;
use std::slice;

/// The octets of an address of IPv6 with its family.
const LONGEST_ADDRESS: usize = 18;

/// An AVP without vendor, with the M bit, of these octets, which are moved and not copied.
fn mandatory_avp(code: u32, octets: Vec<u8>) -> Avp
    ensures { result ≡ avp code octets.items }
{
    Avp::new(code, None, true, Octets::from_vec(octets))
}

/// An AVP without vendor, with the M bit, of a copy of these octets.
fn copied_mandatory_avp(alloc: Global, code: u32, octets: &[u8]) -> Result<Avp, NoMemory>
    ensures { IfOk result (λ a. a ≡ avp code octets.now) }
{
    Ok(mandatory_avp(code, Vec::from_slice(alloc, octets)?))
}

/// An AVP without vendor, with the M bit, of these octets where they lie.
pub(crate) fn borrowed_mandatory_avp(code: u32, bytes: &[u8]) -> AvpRef<'_>
    ensures { avp_of result ≡ avp code bytes.now }
{
    AvpRef {
        code,
        vendor: None,
        mandatory: true,
        protected: false,
        bytes,
    }
}

/// An AVP without vendor, with the M bit, of type Unsigned32 or Enumerated.
pub(crate) fn unsigned32_avp(alloc: Global, code: u32, number: u32) -> Result<Avp, NoMemory>
    ensures { IfOk result (λ a. a ≡ number_avp code number) }
{
    copied_mandatory_avp(alloc, code, &number.to_be_bytes())
}

/// Two octets of address family, then the address (RFC 6733, 4.3.1).
fn octets_of_address(alloc: Global, family: u8, address: &[u8]) -> Result<Vec<u8>, NoMemory>
    ensures { IfOk result (λ octets. octets.items ≡ 0 ∷ family ∷ address.now) }
{
    let mut octets = Vec::with_capacity(alloc, LONGEST_ADDRESS)?;
    octets.extend_from_slice(&[0, family])?;
    octets.extend_from_slice(address)?;
    Ok(octets)
}

/// A Host-IP-Address (RFC 6733, 5.3.5).
fn host_ip_address_avp(alloc: Global, ip: &Ip) -> Result<Avp, NoMemory>
    ensures { IfOk result (λ a. a ≡ address_avp ip.now) }
{
    let octets = match ip {
        Ip::V4(address) => octets_of_address(alloc, 1, address)?,
        Ip::V6(address) => octets_of_address(alloc, 2, address)?,
    };
    Ok(mandatory_avp(HOST_IP_ADDRESS, octets))
}

/// A Host-IP-Address for each address, appended.
fn push_host_ip_addresses(
    alloc: Global,
    avps: &mut Vec<Avp>,
    addresses: &[Ip],
) -> Result<(), NoMemory>
    ensures { OnOk result (avps.new.items ≡ avps.old.items ++ map address_avp addresses.now) }
{
    for ip in addresses {
        avps.push(host_ip_address_avp(alloc, ip)?)?;
    }
    Ok(())
}

/// An AVP of this code for each number, appended.
fn push_unsigned32_avps(
    alloc: Global,
    avps: &mut Vec<Avp>,
    code: u32,
    ids: &[u32],
) -> Result<(), NoMemory>
    ensures { OnOk result (avps.new.items ≡ avps.old.items ++ map (number_avp code) ids.now) }
{
    for id in ids {
        avps.push(unsigned32_avp(alloc, code, *id)?)?;
    }
    Ok(())
}

/// Origin-Host and Origin-Realm, appended.
pub(crate) fn push_origin_host_and_realm(
    alloc: Global,
    avps: &mut Vec<Avp>,
    node: &Node,
) -> Result<(), NoMemory>
    ensures { OnOk result (avps.new.items ≡ avps.old.items ++ origin node.now []) }
{
    avps.push(copied_mandatory_avp(alloc, ORIGIN_HOST, node.host.as_slice())?)?;
    avps.push(copied_mandatory_avp(alloc, ORIGIN_REALM, node.realm.as_slice())?)?;
    Ok(())
}

/// The canonical octets of an AVP that is short enough to have some.
fn octets_of_avp(alloc: Global, avp: &Avp) -> Result<Vec<u8>, NoMemory>
    ensures { IfOk result (λ octets. octets.items ≡ canonical_avp avp.now) }
{
    match encode_avps(alloc, slice::from_ref(avp)) {
        Ok(octets) => Ok(octets),
        Err(_) => Err(NoMemory),
    }
}

/// Whether a failed AVP is short enough to be handed back.
fn is_within_failed_avp_limit(avp: &Avp) -> bool
    ensures { result ≡ nat_le (avp_length avp.now) longest_failed }
{
    match avp.wire_len() {
        Some(length) => length <= LONGEST_FAILED,
        None => false,
    }
}

/// A Failed-AVP that holds the failed AVP, appended, where there is one that isn't too long.
pub(crate) fn push_failed_avp_within_limit(
    alloc: Global,
    avps: &mut Vec<Avp>,
    failed: Option<&Avp>,
) -> Result<(), NoMemory>
    ensures { OnOk result (avps.new.items ≡ avps.old.items ++ failed_avps (option_copied failed.entry)) }
{
    if let Some(avp) = failed {
        if is_within_failed_avp_limit(avp) {
            avps.push(mandatory_avp(FAILED_AVP, octets_of_avp(alloc, avp)?))?;
        }
    }
    Ok(())
}

/// Product-Name, which has no M bit (RFC 6733, 5.3.7), appended.
fn push_product_name(alloc: Global, avps: &mut Vec<Avp>, node: &Node) -> Result<(), NoMemory>
    ensures { OnOk result (avps.new.items ≡ avps.old.items ++ product_avp node.now.product ∷ []) }
{
    let mut avp = copied_mandatory_avp(alloc, PRODUCT_NAME, node.product.as_str().as_bytes())?;
    avp.mandatory = false;
    avps.push(avp)?;
    Ok(())
}

/// Origin-State-Id, appended, where there is a number for it (RFC 6733, 8.16).
pub(crate) fn push_origin_state_id(
    alloc: Global,
    avps: &mut Vec<Avp>,
    state: Option<u32>,
) -> Result<(), NoMemory>
    ensures { OnOk result (avps.new.items ≡ avps.old.items ++ state_avps state) }
{
    if let Some(state) = state {
        avps.push(unsigned32_avp(alloc, ORIGIN_STATE_ID, state)?)?;
    }
    Ok(())
}

/// Firmware-Revision, which has no M bit (RFC 6733, 5.3.4), appended, where there is a number for it.
fn push_firmware_revision(
    alloc: Global,
    avps: &mut Vec<Avp>,
    firmware: Option<u32>,
) -> Result<(), NoMemory>
    ensures { OnOk result (avps.new.items ≡ avps.old.items ++ firmware_avps firmware) }
{
    if let Some(firmware) = firmware {
        let mut revision = unsigned32_avp(alloc, FIRMWARE_REVISION, firmware)?;
        revision.mandatory = false;
        avps.push(revision)?;
    }
    Ok(())
}

/// The code of the AVP that tells the id of an application of a vendor (RFC 6733, 6.11).
fn application_id_code(accounting: bool) -> u32
    ensures { result ≡ id_code accounting }
{
    if accounting {
        ACCT_APPLICATION_ID
    } else {
        AUTH_APPLICATION_ID
    }
}

/// The AVP, appended; or want of memory, also where its Length doesn't fit its field.
fn push_avp_or_no_memory(out: &mut Vec<u8>, avp: AvpRef<'_>) -> Result<(), NoMemory>
    ensures { OnOk result (out.new.items ≡ out.old.items ++ canonical_avp (avp_of avp.entry)) }
{
    match push_avp(out, avp) {
        Ok(()) => Ok(()),
        Err(_) => Err(NoMemory),
    }
}

/// The octets of a Vendor-Specific-Application-Id: Vendor-Id, and the id (RFC 6733, 6.11).
fn octets_of_vendor_application(
    alloc: Global,
    application: &VendorApplication,
) -> Result<Vec<u8>, NoMemory>
    ensures { IfOk result (λ octets. octets.items ≡ canonical_list
        (number_avp vendor_id application.now.vendor
        ∷ number_avp (id_code application.now.accounting) application.now.application ∷ [])) }
{
    let vendor = application.vendor.to_be_bytes();
    let id = application.application.to_be_bytes();
    let mut octets = Vec::with_capacity(alloc, 24)?;
    push_avp_or_no_memory(&mut octets, borrowed_mandatory_avp(VENDOR_ID, &vendor))?;
    push_avp_or_no_memory(
        &mut octets,
        borrowed_mandatory_avp(application_id_code(application.accounting), &id),
    )?;
    Ok(octets)
}

/// A Vendor-Specific-Application-Id (RFC 6733, 6.11).
#[tactic(auto, unfolding(crate::specs::Built::specific_avp))]
fn vendor_application_avp(alloc: Global, application: &VendorApplication) -> Result<Avp, NoMemory>
    ensures { IfOk result (λ a. a ≡ specific_avp application.now) }
{
    let octets = octets_of_vendor_application(alloc, application)?;
    Ok(mandatory_avp(VENDOR_SPECIFIC_APPLICATION_ID, octets))
}

/// A Vendor-Specific-Application-Id for each application of a vendor (RFC 6733, 6.11), appended.
fn push_vendor_applications(
    alloc: Global,
    avps: &mut Vec<Avp>,
    applications: &[VendorApplication],
) -> Result<(), NoMemory>
    ensures { OnOk result (avps.new.items ≡ avps.old.items ++ map specific_avp applications.now) }
{
    for application in applications {
        avps.push(vendor_application_avp(alloc, application)?)?;
    }
    Ok(())
}

/// How many AVPs the applications of vendors and the supported vendors take: at most 512.
#[tactic(auto, using(crate::proofs::Fitting::few_applications, crate::proofs::Fitting::few_ids))]
fn vendor_lists_avp_count(node: &Node) -> usize
    ensures { result ≤ 512 }
{
    match &node.extras {
        Some(extras) => extras.applications.as_slice().len() + extras.vendors.as_slice().len(),
        None => 0,
    }
}

/// How many AVPs a capabilities exchange is given room for: 9, and one for each address, id, application of a vendor
/// and supported vendor. No clause says that they are enough: a list without room grows.
#[tactic(auto, using(crate::proofs::Fitting::few_addresses, crate::proofs::Fitting::few_ids))]
pub(crate) fn capabilities_avp_capacity(node: &Node) -> usize {
    let addresses = node.addresses.as_slice().len();
    let auth = node.auth.as_slice().len();
    let acct = node.acct.as_slice().len();
    9 + addresses + auth + acct + vendor_lists_avp_count(node)
}

/// The number of the node's state, where it has one.
pub(crate) fn own_state_id(node: &Node) -> Option<u32>
    ensures { result ≡ own_state node.now.extras }
{
    match &node.extras {
        Some(extras) => extras.state_id,
        None => None,
    }
}

/// The number of the node's state, where it has one and an answer to this command tells it: a Device-Watchdog-Answer
/// alone (RFC 6733, 5.5.2).
pub(crate) fn own_state_id_if_watchdog(node: &Node, command: u32) -> Option<u32>
    ensures { result ≡ answer_state node.now command }
{
    if command == DEVICE_WATCHDOG {
        own_state_id(node)
    } else {
        None
    }
}

/// Supported-Vendor-Ids, appended (RFC 6733, 5.3.6).
fn push_supported_vendors(alloc: Global, avps: &mut Vec<Avp>, node: &Node) -> Result<(), NoMemory>
    ensures { OnOk result (avps.new.items
        ≡ avps.old.items ++ map (number_avp supported_vendor_id) (supported_vendors node.now.extras)) }
{
    if let Some(extras) = &node.extras {
        push_unsigned32_avps(alloc, avps, SUPPORTED_VENDOR_ID, extras.vendors.as_slice())?;
    }
    Ok(())
}

/// Vendor-Specific-Application-Ids and Firmware-Revision, appended.
fn push_vendor_applications_and_firmware(
    alloc: Global,
    avps: &mut Vec<Avp>,
    node: &Node,
) -> Result<(), NoMemory>
    ensures { OnOk result (avps.new.items ≡ avps.old.items
        ++ map specific_avp (vendor_applications node.now.extras) ++ firmware_avps (own_firmware node.now.extras)) }
{
    if let Some(extras) = &node.extras {
        push_vendor_applications(alloc, avps, extras.applications.as_slice())?;
        push_firmware_revision(alloc, avps, extras.firmware)?;
    }
    Ok(())
}

/// The applications and Firmware-Revision, appended.
fn push_applications_and_firmware(
    alloc: Global,
    avps: &mut Vec<Avp>,
    node: &Node,
) -> Result<(), NoMemory>
    ensures { OnOk result (avps.new.items ≡ avps.old.items ++ application_avps node.now) }
{
    push_unsigned32_avps(alloc, avps, AUTH_APPLICATION_ID, node.auth.as_slice())?;
    push_unsigned32_avps(alloc, avps, ACCT_APPLICATION_ID, node.acct.as_slice())?;
    push_vendor_applications_and_firmware(alloc, avps, node)?;
    Ok(())
}

/// What stands behind Product-Name, appended.
fn push_avps_after_product_name(
    alloc: Global,
    avps: &mut Vec<Avp>,
    node: &Node,
    failed: Option<&Avp>,
) -> Result<(), NoMemory>
    ensures { OnOk result (avps.new.items ≡ avps.old.items
        ++ (state_avps (own_state node.now.extras)
        ++ (failed_avps (option_copied failed.entry) ++ behind_failed node.now))) }
{
    push_origin_state_id(alloc, avps, own_state_id(node))?;
    push_failed_avp_within_limit(alloc, avps, failed)?;
    push_supported_vendors(alloc, avps, node)?;
    push_applications_and_firmware(alloc, avps, node)?;
    Ok(())
}

/// What a node says of itself in a capabilities exchange (RFC 6733, 5.3.1 and 5.3.2), appended.
pub(crate) fn push_capabilities(
    alloc: Global,
    avps: &mut Vec<Avp>,
    node: &Node,
    failed: Option<&Avp>,
) -> Result<(), NoMemory>
    ensures { OnOk result (avps.new.items
        ≡ avps.old.items ++ capabilities node.now (failed_avps (option_copied failed.entry))) }
{
    push_origin_host_and_realm(alloc, avps, node)?;
    push_host_ip_addresses(alloc, avps, node.addresses.as_slice())?;
    avps.push(unsigned32_avp(alloc, VENDOR_ID, node.vendor)?)?;
    push_product_name(alloc, avps, node)?;
    push_avps_after_product_name(alloc, avps, node, failed)?;
    Ok(())
}
