//! Nodes, their applications and the order of their hosts.
use super::{made, node};
use dm_base::{BaseFault, Caps, IdList, NodeFault, common, common_nodes, host_order, secure};
use dm_dict::Ip;
use dm_wire::Octets;
use std::cmp::Ordering;
use std::process::Abort;

const ADDRESS: [Ip; 1] = [Ip::V4([127, 0, 0, 1])];

/// A host of 256 letters.
const LONG: [u8; 256] = [b'a'; 256];

/// The fault of a node of this host and these addresses.
fn refusal(rt: &(impl Abort + AllocGlobal), host: &[u8], addresses: &[Ip]) -> Option<NodeFault> {
    made(rt, host, addresses, &[4]).err()
}

#[test]
fn node_refusals(rt: HostRuntime) {
    assert!(&rt; refusal(&rt, b"", &ADDRESS) == Some(NodeFault::BadHost));
    assert!(&rt; refusal(&rt, &LONG, &[]) == Some(NodeFault::NoAddress));
    assert!(&rt; refusal(&rt, &LONG, &ADDRESS) == Some(NodeFault::TooLong));
    assert!(&rt; refusal(&rt, b"a.example", &ADDRESS).is_none());
}

fn list(rt: &(impl Abort + AllocGlobal), ids: &[u32]) -> IdList {
    IdList::from_vec(super::ids(rt, ids))
}

fn caps(rt: &(impl Abort + AllocGlobal), applications: &[u32], security: &[u32]) -> Caps {
    Caps {
        host: Octets::from_vec(super::octets(rt, b"b.example")),
        realm: Octets::from_vec(super::octets(rt, b"example")),
        applications: list(rt, applications),
        security: list(rt, security),
    }
}

/// Their ids, the own ids, and whether there is an application in common.
const COMMON_APPLICATIONS_ROWS: &[(&[u32], &[u32], bool)] = &[
    (&[4], &[5], false),
    (&[0xffff_ffff], &[], true),
    (&[], &[0xffff_ffff], true),
    (&[], &[], false),
    (&[7, 4], &[5, 4], true),
];

/// Each row is of capabilities and a node, and of two nodes.
fn assert_common(rt: &(impl Abort + AllocGlobal), rows: &[(&[u32], &[u32], bool)]) {
    for (theirs, own, want) in rows {
        let one = node(rt, b"a.example", own);
        let other = node(rt, b"b.example", theirs);
        assert!(rt; common(&caps(rt, theirs, &[]), &one) == *want);
        assert!(rt; common_nodes(&other, &one) == *want);
    }
}

#[test]
fn common_applications(rt: HostRuntime) {
    assert_common(&rt, COMMON_APPLICATIONS_ROWS);
}

fn is_secure(rt: &(impl Abort + AllocGlobal), security: &[u32]) -> bool {
    secure(&caps(rt, &[], security))
}

#[test]
fn inband_security(rt: HostRuntime) {
    assert!(&rt; is_secure(&rt, &[]));
    assert!(&rt; is_secure(&rt, &[1, 0]));
    assert!(&rt; !is_secure(&rt, &[1]));
}

#[test]
fn host_order_of_names(rt: HostRuntime) {
    assert!(&rt; host_order(b"B.example", b"a.example") == Ordering::Greater);
    assert!(&rt; host_order(b"a.example", b"a.example.org") == Ordering::Less);
    assert!(&rt; host_order(b"A", b"a") == Ordering::Equal);
}

#[test]
fn faults_have_texts(rt: HostRuntime) {
    let of_node = format!(in rt.alloc(); "{}", NodeFault::NoAddress).expect(&rt, "memory");
    assert_eq!(&rt; of_node.as_str(), "no address");
    let of_base = format!(in rt.alloc(); "{}", BaseFault::NoMemory).expect(&rt, "memory");
    assert_eq!(&rt; of_base.as_str(), "out of memory");
}
