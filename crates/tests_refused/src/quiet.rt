//! Calls that take no memory, of messages, dictionaries and nodes: each request is refused, and none is made.
use crate::messages::node;
use crate::rows::*;
use dm_base::{Kind, KindRef, Node, classify, common, common_nodes, host_order, secure, view};
use dm_dict::{AvpType, Dictionary, Ip, Judged, Verdict, least_len, unix_seconds};
use dm_refusal::{refuse_each_request, was_request_made_and_stop};
use dm_wire::{Avp, AvpWalk, Framer, Message, MessageRef, Octets, WireFault};
use std::alloc::Global;
use std::cmp::Ordering;
use std::process::Abort;

/// The answers are right, and no request was made for them.
fn check_quiet(rt: &(impl Abort + AllocGlobal), right: bool) {
    let asked = was_request_made_and_stop(rt.alloc());
    assert!(rt; !asked, "a request was made");
    assert!(rt; right, "another answer");
}

/// How many AVPs a walk gives, and the offset of the bad one behind them.
fn walked(octets: &[u8]) -> (u32, Option<usize>) {
    let mut walk = AvpWalk::new(octets);
    for count in 0..20u32 {
        match walk.next() {
            Some(Ok(_)) => {}
            Some(Err(offset)) => return (count, Some(offset)),
            None => return (count, None),
        }
    }
    (20, None)
}

/// Whether the octets are refused with this, and the walk over those behind the header gives that.
fn is_read(octets: &[u8], fault: Option<WireFault>, walk: (u32, Option<usize>)) -> bool {
    let avps = octets.get(20..).unwrap_or(&[]);
    MessageRef::read(octets).err() == fault && walked(avps) == walk
}

#[test]
fn octets_are_walked(rt: HostRuntime) {
    let row = octets(&rt, CAPABILITIES);
    let bad = octets(&rt, BAD_LENGTH);
    let data = Octets::from_slice(rt.alloc(), b"abc").expect(&rt, "memory");
    let avp = Avp::new(1, None, true, data);
    refuse_each_request(rt.alloc());
    let is_good = is_read(row.as_slice(), None, (8, None));
    let is_bad = is_read(bad.as_slice(), Some(WireFault::AvpLength(20)), (0, Some(0)));
    let framer = Framer::new(rt.alloc(), 100);
    let right = is_good && is_bad && avp.wire_len() == Some(11);
    check_quiet(&rt, right);
    drop(framer);
    drop(avp);
}

/// What is found by its name, its code or its head.
fn is_found(base: &Dictionary) -> bool {
    base.avp_by_name(b"Origin-Host").is_some()
        && base.avp_by_name(b"No-Such").is_none()
        && base.avp_by_code(264, None).is_some()
        && base.command(257, true, false).is_some()
        && base.vendor_by_name(b"Acme").is_none()
}

/// The Result-Code of a message; None where it is good, and where the octets are none.
fn code_of(base: &Dictionary, octets: &[u8]) -> Option<u32> {
    match base.judge(&MessageRef::read(octets).ok()?) {
        Judged::Good => None,
        Judged::Bad { code, .. } => Some(code),
    }
}

fn check_dictionary(rt: &(impl Abort + AllocGlobal), base: &Dictionary, rows: &[&[u8]; 2]) {
    refuse_each_request(rt.alloc());
    let empty = Dictionary::empty(rt.alloc());
    let times = unix_seconds(0) == 2085978496 && least_len(AvpType::Address) == 2;
    let codes = code_of(base, rows[0]).is_none() && code_of(base, rows[1]) == Some(5009);
    check_quiet(rt, is_found(base) && times && codes);
    drop(empty);
}

#[test]
fn dictionaries_are_asked(rt: HostRuntime) {
    let good = octets(&rt, CAPABILITIES);
    let bad = octets(&rt, TWICE);
    let base = Dictionary::base(rt.alloc()).expect(&rt, "memory");
    check_dictionary(&rt, &base, &[good.as_slice(), bad.as_slice()]);
    drop(base);
}

/// The Result-Code that `check` answers without a failed AVP: 0 where the message is good.
fn checked(alloc: Global, dictionary: &Dictionary, message: &Message) -> Option<u32> {
    match dictionary.check(alloc, message) {
        Ok(Verdict::Good) => Some(0),
        Ok(Verdict::Bad { code, failed: None }) => Some(code),
        _ => None,
    }
}

/// Whether the message is of the command of a watchdog, or of none that is looked at.
fn is_told(alloc: Global, base: &Dictionary, message: &Message, is_watchdog: bool) -> bool {
    match classify(alloc, base, message) {
        Ok(Kind::Dwr) => is_watchdog,
        Ok(Kind::Other) => !is_watchdog,
        _ => false,
    }
}

/// The verdicts and kinds of a watchdog that want no memory.
fn check_verdicts(rt: &(impl Abort + AllocGlobal), base: &Dictionary, octets: &[u8]) {
    let alloc = rt.alloc();
    let mut message = Message::decode(alloc, octets).expect(rt, "a message");
    let empty = Dictionary::empty(alloc);
    refuse_each_request(alloc);
    let good = checked(alloc, base, &message) == Some(0) && is_told(alloc, base, &message, true);
    let unknown = checked(alloc, &empty, &message) == Some(3001);
    message.header.error = true;
    let bits = checked(alloc, base, &message) == Some(3008);
    message.header.command = 300;
    let other = is_told(alloc, base, &message, false);
    check_quiet(rt, good && unknown && bits && other);
    drop(empty);
    drop(message);
}

#[test]
fn verdicts_without_an_avp(rt: HostRuntime) {
    let watchdog = octets(&rt, WATCHDOG);
    let base = Dictionary::base(rt.alloc()).expect(&rt, "memory");
    check_verdicts(&rt, &base, watchdog.as_slice());
    drop(base);
}

/// Whether the octets are a CER that has something in common with the one node alone, and wants no security.
fn is_viewed(base: &Dictionary, octets: &[u8], one: &Node, other: &Node) -> bool {
    let Ok(message) = MessageRef::read(octets) else {
        return false;
    };
    match view(base, &message) {
        Ok(KindRef::Cer(caps)) => caps.common(one) && !caps.common(other) && caps.secure(),
        _ => false,
    }
}

fn is_common(kind: &Kind, one: &Node, other: &Node) -> bool {
    match kind {
        Kind::Cer(caps) => common(caps, one) && !common(caps, other) && secure(caps),
        _ => false,
    }
}

/// What the capabilities, read or where they lie, and two nodes have in common.
fn check_common(rt: &(impl Abort + AllocGlobal), base: &Dictionary, octets: &[u8]) {
    let message = Message::decode(rt.alloc(), octets).expect(rt, "a message");
    let kind = classify(rt.alloc(), base, &message).expect(rt, "a kind");
    drop(message);
    let one = node(rt, b"a.example", 4);
    let other = node(rt, b"b.example", 5);
    refuse_each_request(rt.alloc());
    let shared = is_common(&kind, &one, &other) && is_viewed(base, octets, &one, &other);
    let order = host_order(b"B.example", b"a.example") == Ordering::Greater;
    check_quiet(rt, shared && order && !common_nodes(&one, &other));
    drop(kind);
    drop(one);
    drop(other);
}

#[test]
fn capabilities_are_compared(rt: HostRuntime) {
    let row = octets(&rt, CAPABILITIES);
    let base = Dictionary::base(rt.alloc()).expect(&rt, "memory");
    check_common(&rt, &base, row.as_slice());
    drop(base);
}

fn is_host(node: &Result<Node, dm_base::NodeFault>, host: &[u8]) -> bool {
    match node {
        Ok(node) => node.host() == host,
        Err(_) => false,
    }
}

#[test]
fn nodes_are_made(rt: HostRuntime) {
    let alloc = rt.alloc();
    let host = Vec::from_slice(alloc, b"c.example").expect(&rt, "memory");
    let realm = Vec::from_slice(alloc, b"example").expect(&rt, "memory");
    let addresses = Vec::from_slice(alloc, &[Ip::V4([127, 0, 0, 1])]).expect(&rt, "memory");
    let product = String::from_str(alloc, "dmpeer").expect(&rt, "memory");
    let auth = Vec::from_slice(alloc, &[4u32]).expect(&rt, "memory");
    refuse_each_request(alloc);
    let node = Node::new(host, realm, addresses, 0, product, auth, Vec::new(alloc));
    let right = is_host(&node, b"c.example");
    check_quiet(&rt, right);
    drop(node);
}
