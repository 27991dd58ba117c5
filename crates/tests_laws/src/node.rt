//! A node.
use dm_dict::Ip;
use dm_peer::Node;
use std::process::Abort;

/// One of realm example, address 127.0.0.1, vendor 0, product dmpeer and application 4.
pub(crate) fn node(rt: &(impl Abort + AllocGlobal), host: &[u8]) -> Node {
    let alloc = rt.alloc();
    let mut addresses = Vec::new(alloc);
    addresses.push(Ip::V4([127, 0, 0, 1])).expect(rt, "memory");
    let host = Vec::from_slice(alloc, host).expect(rt, "memory");
    let realm = Vec::from_slice(alloc, b"example").expect(rt, "memory");
    let product = String::from_str(alloc, "dmpeer").expect(rt, "memory");
    let auth = Vec::from_slice(alloc, &[4]).expect(rt, "memory");
    Node::new(host, realm, addresses, 0, product, auth, Vec::new(alloc)).expect(rt, "a node")
}
