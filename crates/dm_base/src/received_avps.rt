//! What the AVPs of a message say: data and numbers by code, ids, and capabilities (RFC 6733, 5.3 and 5.4.3).
ghost use Rattle.std.specs.Prelude.{◌≡◌, ◌≢◌, ◌++◌, List, [], OnOk, IfOk, OnErr};
ghost use Rattle.std.specs.List.{flat_map};
ghost use Rattle.std.specs.Option.{option_to_list};
ghost use Rattle.dm_wire.specs.declared.avp.Avp.{Avp};
ghost use Rattle.dm_wire.specs.Borrowed.{avp_of};
ghost use Rattle.dm_wire.specs.Borrowed.{Lists};
ghost use Rattle.dm_base.specs.Codes.{vendor_specific_application_id};
ghost use Rattle.dm_base.specs.Kinds.{is_plain, data_at, number_in, number_at, plain_id, plain_ids};
ghost use Rattle.dm_base.specs.Kinds.{security_id, security_ids, application_ids, caps_of};
ghost use Rattle.dm_base.specs.Senders.{number_told, numbers_told, plain_number};

use crate::codes::{
    ACCT_APPLICATION_ID, AUTH_APPLICATION_ID, INBAND_SECURITY_ID, ORIGIN_HOST, ORIGIN_REALM,
    VENDOR_SPECIFIC_APPLICATION_ID,
};
use crate::{Caps, IdList};
use byteorder::{BigEndian, ByteOrder};
use dm_dict::NoMemory;
use dm_wire::{AvpRef, AvpsRef, Octets, spells_avps};
use std::alloc::Global;

/// Whether the AVP has this code and no vendor.
pub(crate) fn has_code_and_no_vendor(avp: AvpRef<'_>, code: u32) -> bool
    ensures { result ≡ is_plain code (avp_of avp.entry) }
{
    avp.code == code && avp.vendor.is_none()
}

/// The data of the first AVP of this code; where there is none, no octets.
pub(crate) fn first_data_of_code<'a>(avps: AvpsRef<'a>, code: u32) -> &'a [u8]
    ensures { (l : List Avp) → Lists avps.entry l → result.now ≡ data_at code l }
{
    let mut left = avps;
    while let Some((avp, rest)) = left.split_first() {
        if has_code_and_no_vendor(avp, code) {
            return avp.bytes;
        }
        left = rest;
    }
    &[]
}

/// The number that four octets are; None where they are fewer or more.
pub(crate) fn number_of_four_octets(octets: &[u8]) -> Option<u32>
    ensures { result ≡ number_in octets.now }
{
    if octets.len() == 4 {
        Some(BigEndian::read_u32(octets))
    } else {
        None
    }
}

/// The number of the first AVP of this code; 0 where there is none, or it has not four octets.
pub(crate) fn first_number_or_zero(avps: AvpsRef<'_>, code: u32) -> u32
    ensures { (l : List Avp) → Lists avps.entry l → result ≡ number_at code l }
{
    number_of_four_octets(first_data_of_code(avps, code)).unwrap_or(0)
}

/// The number of the first AVP of this code; None where there is none, or it has not four octets.
pub(crate) fn first_number_of_code(avps: AvpsRef<'_>, code: u32) -> Option<u32>
    ensures { (l : List Avp) → Lists avps.entry l → result ≡ number_told code l }
{
    number_of_four_octets(first_data_of_code(avps, code))
}

/// The number of the AVP, where it has this code, no vendor and four octets; else None.
fn number_if_of_code(avp: AvpRef<'_>, code: u32) -> Option<u32>
    ensures { result ≡ plain_number code (avp_of avp.entry) }
{
    if has_code_and_no_vendor(avp, code) {
        number_of_four_octets(avp.bytes)
    } else {
        None
    }
}

/// The id that an Auth-Application-Id or Acct-Application-Id tells. None for any other AVP, or where it has not four
/// octets.
pub(crate) fn auth_or_acct_application_id(avp: AvpRef<'_>) -> Option<u32>
    ensures { result ≡ plain_id (avp_of avp.entry) }
{
    if has_code_and_no_vendor(avp, AUTH_APPLICATION_ID)
        || has_code_and_no_vendor(avp, ACCT_APPLICATION_ID)
    {
        number_of_four_octets(avp.bytes)
    } else {
        None
    }
}

/// The id that an Inband-Security-Id tells. None for any other AVP, or where it has not four octets.
pub(crate) fn inband_security_id(avp: AvpRef<'_>) -> Option<u32>
    ensures { result ≡ security_id (avp_of avp.entry) }
{
    if has_code_and_no_vendor(avp, INBAND_SECURITY_ID) {
        number_of_four_octets(avp.bytes)
    } else {
        None
    }
}

/// Whether the AVP is a Vendor-Specific-Application-Id.
pub(crate) fn is_vendor_specific_application_id(avp: AvpRef<'_>) -> bool
    ensures { result ≡ is_plain vendor_specific_application_id (avp_of avp.entry) }
{
    has_code_and_no_vendor(avp, VENDOR_SPECIFIC_APPLICATION_ID)
}

/// The id, appended, where there is one.
pub(crate) fn push_id_if_some(ids: &mut Vec<u32>, id: Option<u32>) -> Result<(), NoMemory>
    ensures put { OnOk result (ids.new.items ≡ ids.old.items ++ option_to_list id) }
    ensures memory { OnErr result (option_to_list id ≢ []) }
{
    if let Some(id) = id {
        ids.push(id)?;
    }
    Ok(())
}

/// The numbers of all AVPs of this code, appended.
pub(crate) fn push_all_numbers_of_code(
    ids: &mut Vec<u32>,
    avps: AvpsRef<'_>,
    code: u32,
) -> Result<(), NoMemory>
    ensures put { (l : List Avp) → Lists avps.entry l
        → OnOk result (ids.new.items ≡ ids.old.items ++ numbers_told code l) }
    ensures memory { (l : List Avp) → Lists avps.entry l → OnErr result (numbers_told code l ≢ []) }
{
    let mut left = avps;
    while let Some((avp, rest)) = left.split_first() {
        push_id_if_some(ids, number_if_of_code(avp, code))?;
        left = rest;
    }
    Ok(())
}

/// The ids of the AVPs of a Vendor-Specific-Application-Id, appended.
fn push_application_ids_of_members(ids: &mut Vec<u32>, avps: AvpsRef<'_>) -> Result<(), NoMemory>
    ensures put { (l : List Avp) → Lists avps.entry l
        → OnOk result (ids.new.items ≡ ids.old.items ++ flat_map plain_ids l) }
    ensures memory { (l : List Avp) → Lists avps.entry l → OnErr result (flat_map plain_ids l ≢ []) }
{
    let mut left = avps;
    while let Some((avp, rest)) = left.split_first() {
        push_id_if_some(ids, auth_or_acct_application_id(avp))?;
        left = rest;
    }
    Ok(())
}

/// The ids of applications that an AVP tells, appended.
#[tactic(auto, using(crate::proofs::Ids::none_inside, crate::proofs::Ids::all_inside, crate::proofs::Ids::some_inside))]
fn push_application_ids_of_avp(ids: &mut Vec<u32>, avp: AvpRef<'_>) -> Result<(), NoMemory>
    ensures put { OnOk result (ids.new.items ≡ ids.old.items ++ application_ids (avp_of avp.entry)) }
    ensures memory { OnErr result (application_ids (avp_of avp.entry) ≢ []) }
{
    if !is_vendor_specific_application_id(avp) {
        return push_id_if_some(ids, auth_or_acct_application_id(avp));
    }
    if !spells_avps(avp.bytes) {
        return Ok(());
    }
    push_application_ids_of_members(ids, AvpsRef::Spelled(avp.bytes))
}

/// The ids of applications that AVPs tell, appended.
fn push_application_ids(ids: &mut Vec<u32>, avps: AvpsRef<'_>) -> Result<(), NoMemory>
    ensures put { (l : List Avp) → Lists avps.entry l
        → OnOk result (ids.new.items ≡ ids.old.items ++ flat_map application_ids l) }
    ensures memory { (l : List Avp) → Lists avps.entry l → OnErr result (flat_map application_ids l ≢ []) }
{
    let mut left = avps;
    while let Some((avp, rest)) = left.split_first() {
        push_application_ids_of_avp(ids, avp)?;
        left = rest;
    }
    Ok(())
}

/// The Inband-Security-Ids that AVPs tell, appended.
fn push_security_ids(ids: &mut Vec<u32>, avps: AvpsRef<'_>) -> Result<(), NoMemory>
    ensures { (l : List Avp) → Lists avps.entry l
        → OnOk result (ids.new.items ≡ ids.old.items ++ flat_map security_ids l) }
{
    let mut left = avps;
    while let Some((avp, rest)) = left.split_first() {
        push_id_if_some(ids, inband_security_id(avp))?;
        left = rest;
    }
    Ok(())
}

/// The ids of applications that AVPs tell, in order; or want of memory, which comes only where there are some.
pub(crate) fn read_application_ids(alloc: Global, avps: AvpsRef<'_>) -> Result<IdList, NoMemory>
    ensures ids { (l : List Avp) → Lists avps.entry l → IfOk result (λ ids. ids ≡ flat_map application_ids l) }
    ensures memory { (l : List Avp) → Lists avps.entry l → OnErr result (flat_map application_ids l ≢ []) }
{
    let mut ids = Vec::new(alloc);
    push_application_ids(&mut ids, avps)?;
    Ok(IdList::from_vec(ids))
}

/// The Inband-Security-Ids that AVPs tell, in order; or want of memory.
fn read_security_ids(alloc: Global, avps: AvpsRef<'_>) -> Result<IdList, NoMemory>
    ensures { (l : List Avp) → Lists avps.entry l → IfOk result (λ ids. ids ≡ flat_map security_ids l) }
{
    let mut ids = Vec::new(alloc);
    push_security_ids(&mut ids, avps)?;
    Ok(IdList::from_vec(ids))
}

/// The capabilities that AVPs tell, copied; or want of memory.
pub(crate) fn read_caps(alloc: Global, avps: AvpsRef<'_>) -> Result<Caps, NoMemory>
    ensures { (l : List Avp) → Lists avps.entry l → IfOk result (λ caps. caps ≡ caps_of l) }
{
    Ok(Caps {
        host: Octets::from_slice(alloc, first_data_of_code(avps, ORIGIN_HOST))?,
        realm: Octets::from_slice(alloc, first_data_of_code(avps, ORIGIN_REALM))?,
        applications: read_application_ids(alloc, avps)?,
        security: read_security_ids(alloc, avps)?,
    })
}
