//! Capabilities where they lie in a message: whether they have an application in common with a node, and allow a
//! connection without security (RFC 6733, 5.3 and 6.10).
ghost use Rattle.std.specs.Prelude.{◌≡◌, List, true, is_some};
ghost use Rattle.std.specs.List.{list_any, flat_map};
ghost use Rattle.std.specs.List.Sorted.{IsNonDecreasing};
ghost use Rattle.dm_wire.specs.declared.avp.Avp.{Avp};
ghost use Rattle.dm_wire.specs.Borrowed.{avp_of};
ghost use Rattle.dm_wire.specs.Members.{members};
ghost use Rattle.dm_base.specs.Common.{is_own, is_common, are_secure, is_secure};
ghost use Rattle.dm_base.specs.Kinds.{plain_ids, security_ids, application_ids};
ghost use Rattle.dm_wire.specs.Borrowed.{Lists};

use crate::Node;
use crate::applications::{is_own_or_relay_id, is_relay, sorted_ids, vendor_application_ids};
use crate::codes::NO_INBAND_SECURITY;
use crate::limits::MAX_IDS;
use crate::received_avps::{
    auth_or_acct_application_id, inband_security_id, is_vendor_specific_application_id,
};
use dm_wire::{AvpRef, AvpsRef, spells_avps};

/// Whether the AVP is an Auth-Application-Id or Acct-Application-Id whose id is among the own ones, or is a relay's.
fn auth_or_acct_avp_tells_common_id(
    auth: &[u32],
    acct: &[u32],
    specific: &[u32],
    avp: AvpRef<'_>,
) -> bool
    requires auth { IsNonDecreasing auth.now }
    requires acct { IsNonDecreasing acct.now }
    requires specific { IsNonDecreasing specific.now }
    ensures { result ≡ list_any (is_own auth.now acct.now specific.now) (plain_ids (avp_of avp.entry)) }
{
    match auth_or_acct_application_id(avp) {
        Some(id) => is_own_or_relay_id(auth, acct, specific, id),
        None => false,
    }
}

/// Whether an id that the AVPs of a Vendor-Specific-Application-Id tell is among the own ones, or is a relay's.
fn some_member_tells_common_id(
    auth: &[u32],
    acct: &[u32],
    specific: &[u32],
    avps: AvpsRef<'_>,
) -> bool
    requires auth { IsNonDecreasing auth.now }
    requires acct { IsNonDecreasing acct.now }
    requires specific { IsNonDecreasing specific.now }
    ensures { (l : List Avp) → Lists avps.entry l
        → result ≡ list_any (is_own auth.now acct.now specific.now) (flat_map plain_ids l) }
{
    let mut left = avps;
    while let Some((avp, rest)) = left.split_first() {
        if auth_or_acct_avp_tells_common_id(auth, acct, specific, avp) {
            return true;
        }
        left = rest;
    }
    false
}

/// Whether an id of an application that the AVP tells is among the own ones, or is a relay's.
#[tactic(auto, using(crate::proofs::Ids::none_met, crate::proofs::Ids::some_met))]
fn avp_tells_common_id(auth: &[u32], acct: &[u32], specific: &[u32], avp: AvpRef<'_>) -> bool
    requires auth { IsNonDecreasing auth.now }
    requires acct { IsNonDecreasing acct.now }
    requires specific { IsNonDecreasing specific.now }
    ensures { result ≡ list_any (is_own auth.now acct.now specific.now) (application_ids (avp_of avp.entry)) }
{
    if !is_vendor_specific_application_id(avp) {
        return auth_or_acct_avp_tells_common_id(auth, acct, specific, avp);
    }
    if !spells_avps(avp.bytes) {
        return false;
    }
    some_member_tells_common_id(auth, acct, specific, AvpsRef::Spelled(avp.bytes))
}

/// Whether an id of an application that the AVPs tell is among the own ones, or is a relay's.
fn some_avp_tells_common_id(auth: &[u32], acct: &[u32], specific: &[u32], avps: AvpsRef<'_>) -> bool
    requires auth { IsNonDecreasing auth.now }
    requires acct { IsNonDecreasing acct.now }
    requires specific { IsNonDecreasing specific.now }
    ensures { (l : List Avp) → Lists avps.entry l
        → result ≡ list_any (is_own auth.now acct.now specific.now) (flat_map application_ids l) }
{
    let mut left = avps;
    while let Some((avp, rest)) = left.split_first() {
        if avp_tells_common_id(auth, acct, specific, avp) {
            return true;
        }
        left = rest;
    }
    false
}

/// Whether AVPs name no Inband-Security-Id, or NO_INBAND_SECURITY among them.
#[tactic(auto, using(crate::proofs::Securing::no_id, crate::proofs::Securing::other, crate::proofs::Securing::zero))]
fn allows_unsecured_connection(avps: AvpsRef<'_>) -> bool
    ensures { (l : List Avp) → Lists avps.entry l → result ≡ are_secure (flat_map security_ids l) }
{
    let mut named = false;
    let mut left = avps;
    while let Some((avp, rest)) = left.split_first() {
        if let Some(id) = inband_security_id(avp) {
            if id == NO_INBAND_SECURITY {
                return true;
            }
            named = true;
        }
        left = rest;
    }
    !named
}

/// What a message says of capabilities, where it lies (RFC 6733, 5.3).
#[derive(Clone, Copy, Debug)]
pub struct CapsRef<'a> {
    /// Origin-Host.
    pub host: &'a [u8],
    /// Origin-Realm.
    pub realm: &'a [u8],
    /// The octets of the message's AVPs.
    pub rest: &'a [u8],
    pub ghost framed: { is_some (members rest.now) ≡ true },
}

impl CapsRef<'_> {
    ghost use Rattle.dm_base.specs.declared.kind.Caps.{Caps};
    ghost use Rattle.dm_base.specs.Shown.{ShowsCaps};

    /// Whether some Application-ID is on both sides, or one side is a relay (RFC 6733, 5.3). It never answers want of
    /// memory, and takes time by the number of octets.
    pub fn common(&self, node: &Node) -> bool
        ensures { (caps : Caps) → ShowsCaps self.now caps → result ≡ is_common caps node.now }
    {
        if is_relay(node) {
            return true;
        }
        let (mut auth, mut acct, mut specific) = ([0; MAX_IDS], [0; MAX_IDS], [0; MAX_IDS]);
        let auth = sorted_ids(&mut auth, node.auth.as_slice());
        let acct = sorted_ids(&mut acct, node.acct.as_slice());
        let specific = sorted_ids(&mut specific, vendor_application_ids(node));
        some_avp_tells_common_id(auth, acct, specific, AvpsRef::Spelled(self.rest))
    }

    /// Whether the other side takes a connection without security (RFC 6733, 6.10). It never answers want of memory.
    pub fn secure(&self) -> bool
        ensures { (caps : Caps) → ShowsCaps self.now caps → result ≡ is_secure caps }
    {
        allows_unsecured_connection(AvpsRef::Spelled(self.rest))
    }
}
