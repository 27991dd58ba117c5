//! What two sides are open on, and whether they agree on it.
ghost use Rattle.std.specs.Prelude.{◌≡◌, ℕ, IfSome};
ghost use Rattle.std.specs.Option.{IfNone};
ghost use Rattle.dm_two_peers.specs.Machine.{Initiated, Accepted};
ghost use Rattle.dm_world.specs.Agreeing.{open_in_role, are_one, are_agreed, shared, agrees};
ghost use Rattle.dm_world.specs.Agreeing.{open_on_both, AreBothOpenOn};
ghost use Rattle.dm_world.specs.Seen.{as_links};

use crate::link::Link;
use crate::{Side, links};
use dm_peer::{Conn, Peer};

/// Whether the two connections are one; true too where one of them is missing.
pub(crate) fn are_one_conn_at_most(one: Option<Conn>, other: Option<Conn>) -> bool
    ensures { result ≡ are_one one other }
{
    match (one, other) {
        (Some(one), Some(other)) => one.0 == other.0,
        _ => true,
    }
}

/// Whether what A is open on and what B is open on, in opposite roles or in the same, fit: it is one link in opposite
/// roles, or it is two, with a disconnect coming to each side on its own.
pub(crate) fn open_conns_agree(
    in_opposite_roles: bool,
    links: &[Link],
    of_a: Option<Conn>,
    of_b: Option<Conn>,
) -> bool
    ensures { result ≡ are_agreed in_opposite_roles (as_links links.now) of_a of_b }
{
    match (of_a, of_b) {
        (Some(of_a), Some(of_b)) => {
            if of_a.0 == of_b.0 {
                in_opposite_roles
            } else {
                links::is_disconnect_coming(links, Side::A, of_a.0 as usize)
                    && links::is_disconnect_coming(links, Side::B, of_b.0 as usize)
            }
        }
        _ => true,
    }
}

/// The connection that both are, if both are one.
pub(crate) fn common_conn(one: Option<Conn>, other: Option<Conn>) -> Option<Conn>
    ensures { result ≡ shared one other }
{
    match (one, other) {
        (Some(one), Some(other)) => { if one.0 == other.0 { Some(one) } else { None } }
        _ => None,
    }
}

/// What the peer is open on as the one that opened it, and as the one that accepted it.
fn open_conns_by_role(peer: &Peer) -> (Option<Conn>, Option<Conn>)
    ensures initiated { result.0 ≡ open_in_role Initiated peer.now.standing.core }
    ensures accepted { result.1 ≡ open_in_role Accepted peer.now.standing.core }
{
    if peer.is_open() {
        (peer.initiated(), peer.accepted())
    } else {
        (None, None)
    }
}

/// Whether the two peers agree.
pub(crate) fn peers_agree(a: &Peer, b: &Peer, links: &[Link]) -> bool
    ensures { result ≡ agrees a.now.standing.core b.now.standing.core (as_links links.now) }
{
    let (initiated_a, accepted_a) = open_conns_by_role(a);
    let (initiated_b, accepted_b) = open_conns_by_role(b);
    are_one_conn_at_most(initiated_a, accepted_a)
        && are_one_conn_at_most(initiated_b, accepted_b)
        && open_conns_agree(false, links, initiated_a, initiated_b)
        && open_conns_agree(true, links, initiated_a, accepted_b)
        && open_conns_agree(true, links, accepted_a, initiated_b)
        && open_conns_agree(false, links, accepted_a, accepted_b)
}

/// The connection that both peers are open on; None where there is none.
pub(crate) fn conn_open_on_both(a: &Peer, b: &Peer) -> Option<Conn>
    ensures value { result ≡ open_on_both a.now.standing.core b.now.standing.core }
    ensures found { IfSome result (λ c. AreBothOpenOn a.now.standing.core b.now.standing.core c.0) }
    ensures none { IfNone result ((c : ℕ) → AreBothOpenOn a.now.standing.core b.now.standing.core c → ⊥) }
{
    let (initiated_a, accepted_a) = open_conns_by_role(a);
    let (initiated_b, accepted_b) = open_conns_by_role(b);
    common_conn(initiated_a, accepted_b)
        .or(common_conn(accepted_a, initiated_b))
        .or(common_conn(initiated_a, initiated_b).or(common_conn(accepted_a, accepted_b)))
}
