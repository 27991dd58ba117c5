//! Tests of the base messages.
mod built;
mod examples;
mod extras;
mod kinds;
mod nodes;
mod senders;

use dm_base::{Node, NodeFault};
use dm_dict::Ip;
use dm_wire::Message;
use std::process::Abort;

/// A Device-Watchdog-Request of a.example.
const WATCHDOG_REQUEST: &str =
    "01000038800001180000000000000001000000010000010840000011612e6578616d706c65000000000001284000000f6578616d706c6500";

/// A Disconnect-Peer-Request of a.example with the cause REBOOTING.
const DISCONNECT_REQUEST: &str =
    "010000448000011a0000000000000001000000010000010840000011612e6578616d706c65000000000001284000000f6578616d706c6500000001114000000c00000000";

/// A Capabilities-Exchange-Request of a.example, 127.0.0.1, vendor 0, product dmpeer, with Auth-Application-Id 4.
const CAPABILITIES_REQUEST: &str =
    "01000070800001010000000000000001000000010000010840000011612e6578616d706c65000000000001284000000f6578616d706c6500000001014000000e00017f00000100000000010a4000000c000000000000010d0000000e646d706565720000000001024000000c00000004";

fn octets(rt: &(impl Abort + AllocGlobal), octets: &[u8]) -> Vec<u8> {
    Vec::from_slice(rt.alloc(), octets).expect(rt, "memory")
}

fn ids(rt: &(impl Abort + AllocGlobal), ids: &[u32]) -> Vec<u32> {
    Vec::from_slice(rt.alloc(), ids).expect(rt, "memory")
}

/// Realm example, vendor 0, product dmpeer, no acct ids.
fn made(
    rt: &(impl Abort + AllocGlobal),
    host: &[u8],
    addresses: &[Ip],
    auth: &[u32],
) -> Result<Node, NodeFault> {
    Node::new(
        octets(rt, host),
        octets(rt, b"example"),
        Vec::from_slice(rt.alloc(), addresses).expect(rt, "memory"),
        0,
        String::from_str(rt.alloc(), "dmpeer").expect(rt, "memory"),
        ids(rt, auth),
        Vec::new(rt.alloc()),
    )
}

/// A node of this host and these auth ids at 127.0.0.1.
fn node(rt: &(impl Abort + AllocGlobal), host: &[u8], auth: &[u32]) -> Node {
    made(rt, host, &[Ip::V4([127, 0, 0, 1])], auth)
        .ok()
        .expect(rt, "a node")
}

fn decoded(rt: &(impl Abort + AllocGlobal), message: &str) -> Message {
    let octets = hex::decode(rt.alloc(), message.as_bytes()).expect(rt, "hexadecimal");
    Message::decode(rt.alloc(), octets.as_slice()).expect(rt, "a message")
}

fn spelled(rt: &(impl Abort + AllocGlobal), message: &Message) -> String {
    let octets = message.encode(rt.alloc()).expect(rt, "memory");
    hex::encode(rt.alloc(), octets.as_slice()).expect(rt, "memory")
}
