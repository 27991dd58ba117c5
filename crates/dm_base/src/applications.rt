//! Applications that two sides have in common, by their sorted ids, and connections without security (RFC 6733, 2.4,
//! 5.3 and 6.10).
ghost use Rattle.std.specs.Prelude.{◌≡◌, ◌↔◌, ◌⊎◌, ◌≤◌, true, [], length, Contains};
ghost use Rattle.std.specs.List.{list_any};
ghost use Rattle.std.specs.List.Sorted.{IsNonDecreasing, IsPermutation};
ghost use Rattle.dm_base.specs.Codes.{max_ids, no_inband_security};
ghost use Rattle.dm_base.specs.Extra.{specific_ids};
ghost use Rattle.dm_base.specs.Common.{lists_id, is_own, is_relay, meets, is_common, are_common, is_secure};

use crate::codes::{NO_INBAND_SECURITY, RELAY};
use crate::limits::MAX_IDS;
use crate::{Caps, Node};

/// Whether the id is among ids that rise.
fn contains_id(sorted: &[u32], id: u32) -> bool
    requires { IsNonDecreasing sorted.now }
    ensures { result ≡ lists_id sorted.now id }
{
    match sorted.binary_search(&id) {
        Ok(_) => true,
        Err(_) => false,
    }
}

/// The ids, sorted in the space.
pub(crate) fn sorted_ids<'a>(space: &'a mut [u32; MAX_IDS], ids: &[u32]) -> &'a [u32]
    requires { length ids.now ≤ max_ids }
    ensures rising { IsNonDecreasing result.now }
    ensures same { IsPermutation ids.now result.now }
{
    let sorted = &mut space[..ids.len()];
    sorted.copy_from_slice(ids);
    sorted.sort_unstable();
    sorted
}

/// Whether the id is among the node's own ids, each list of which rises, or is a relay's.
pub(crate) fn is_own_or_relay_id(auth: &[u32], acct: &[u32], specific: &[u32], id: u32) -> bool
    requires auth { IsNonDecreasing auth.now }
    requires acct { IsNonDecreasing acct.now }
    requires specific { IsNonDecreasing specific.now }
    ensures { result ≡ is_own auth.now acct.now specific.now id }
{
    id == RELAY || contains_id(auth, id) || contains_id(acct, id) || contains_id(specific, id)
}

/// Whether one of their ids is among the node's own ids, each list of which rises, or is a relay's.
fn has_own_or_relay_id(auth: &[u32], acct: &[u32], specific: &[u32], theirs: &[u32]) -> bool
    requires auth { IsNonDecreasing auth.now }
    requires acct { IsNonDecreasing acct.now }
    requires specific { IsNonDecreasing specific.now }
    ensures { result ≡ list_any (is_own auth.now acct.now specific.now) theirs.now }
{
    for id in theirs {
        if is_own_or_relay_id(auth, acct, specific, *id) {
            return true;
        }
    }
    false
}

/// The ids of the node's applications of vendors.
pub(crate) fn vendor_application_ids(node: &Node) -> &[u32]
    ensures ids { result.now ≡ specific_ids node.now }
    ensures few { length result.now ≤ max_ids }
{
    match &node.extras {
        Some(extras) => extras.ids.as_slice(),
        None => &[],
    }
}

/// Whether the node has a relay's Application-ID.
pub(crate) fn is_relay(node: &Node) -> bool
    ensures { result ≡ is_relay node.now }
{
    node.auth.as_slice().contains(&RELAY)
        || node.acct.as_slice().contains(&RELAY)
        || vendor_application_ids(node).contains(&RELAY)
}

/// Whether some of the ids is the node's, or a relay's. The node's ids are sorted once, on the stack.
fn has_common_or_relay_id(node: &Node, theirs: &[u32]) -> bool
    ensures { result ≡ meets node.now theirs.now }
{
    let (mut auth, mut acct, mut specific) = ([0; MAX_IDS], [0; MAX_IDS], [0; MAX_IDS]);
    let auth = sorted_ids(&mut auth, node.auth.as_slice());
    let acct = sorted_ids(&mut acct, node.acct.as_slice());
    let specific = sorted_ids(&mut specific, vendor_application_ids(node));
    has_own_or_relay_id(auth, acct, specific, theirs)
}

/// Whether some Application-ID is on both sides, or one side is a relay (RFC 6733, 5.3). It never answers want of
/// memory, and takes time by the number of ids.
pub fn common(caps: &Caps, node: &Node) -> bool
    ensures { result ≡ is_common caps.now node.now }
{
    is_relay(node) || has_common_or_relay_id(node, caps.applications.as_slice())
}

/// Whether some Application-ID is on both nodes, or one is a relay (RFC 6733, 5.3). It never answers want of memory,
/// and takes time by the number of ids.
pub fn common_nodes(one: &Node, other: &Node) -> bool
    ensures { result ≡ are_common one.now other.now }
{
    is_relay(one)
        || is_relay(other)
        || has_common_or_relay_id(one, other.auth.as_slice())
        || has_common_or_relay_id(one, other.acct.as_slice())
        || has_common_or_relay_id(one, vendor_application_ids(other))
}

/// Whether the other side takes a connection without security: it names no Inband-Security-Id, or NO_INBAND_SECURITY
/// among them (RFC 6733, 6.10). It never answers want of memory.
#[tactic(auto, using(crate::proofs::Sharing::secure_by))]
pub fn secure(caps: &Caps) -> bool
    ensures test { result ≡ is_secure caps.now }
    ensures named { (result ≡ true) ↔ ((caps.now.security ≡ []) ⊎ Contains caps.now.security no_inband_security) }
{
    let ids = caps.security.as_slice();
    ids.len() == 0 || ids.contains(&NO_INBAND_SECURITY)
}
