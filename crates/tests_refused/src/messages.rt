//! Base messages, told and built.
use crate::each::each_made;
use crate::rows::*;
use dm_base::{
    BaseFault, Cause, IdList, Kind, Node, SenderRef, cea, cer, classify, dpa, dpr, dwa, dwr,
    error_answer, sender,
};
use dm_dict::{Dictionary, Ip, NoMemory};
use dm_refusal::Making;
use dm_wire::{Avp, Header, Message, MessageRef, Octets};
use std::alloc::Global;
use std::process::Abort;

/// A message under a dictionary, a CER of the applications 4 and 16777251.
#[derive(Clone, Copy)]
struct Classify<'a>(&'a Dictionary, &'a Message);

impl Making for Classify<'_> {
    type Made = Kind;

    type Fault = BaseFault;

    fn call(&self, alloc: Global) -> Result<Kind, BaseFault> {
        classify(alloc, self.0, self.1)
    }

    fn is_want_of_memory(&self, fault: &BaseFault) -> bool {
        *fault == BaseFault::NoMemory
    }

    fn is_as_expected(&self, _alloc: Global, made: &Kind) -> bool {
        match made {
            Kind::Cer(caps) => caps.applications.as_slice() == [4u32, 16777251].as_slice(),
            _ => false,
        }
    }
}

fn check_kind(rt: &(impl Abort + AllocGlobal), digits: &str) {
    let octets = octets(rt, digits);
    let message = Message::decode(rt.alloc(), octets.as_slice()).expect(rt, "a message");
    let base = Dictionary::base(rt.alloc()).expect(rt, "memory");
    each_made(rt, &Classify(&base, &message), "classify");
    drop(base);
    drop(message);
}

#[test]
fn capabilities_told(rt: HostRuntime) {
    check_kind(&rt, CAPABILITIES);
}

/// The applications of a sender, or the vendors that it supports.
#[derive(Clone, Copy)]
struct ListIds<'a>(SenderRef<'a>, bool, &'a [u32]);

impl Making for ListIds<'_> {
    type Made = IdList;

    type Fault = NoMemory;

    fn call(&self, alloc: Global) -> Result<IdList, NoMemory> {
        if self.1 {
            self.0.vendors(alloc)
        } else {
            self.0.applications(alloc)
        }
    }

    fn is_want_of_memory(&self, _fault: &NoMemory) -> bool {
        true
    }

    fn is_as_expected(&self, _alloc: Global, made: &IdList) -> bool {
        made.as_slice() == self.2
    }
}

fn check_sender(rt: &(impl Abort + AllocGlobal), digits: &str) {
    let octets = octets(rt, digits);
    let message = MessageRef::read(octets.as_slice()).expect(rt, "a message");
    let sender = sender(&message).expect(rt, "a sender");
    each_made(rt, &ListIds(sender, false, &[4, 16777251]), "applications");
    each_made(rt, &ListIds(sender, true, &[]), "vendors");
}

#[test]
fn senders_told(rt: HostRuntime) {
    check_sender(&rt, CAPABILITIES);
}

/// A call that builds a message.
#[derive(Clone, Copy, Debug)]
enum Call {
    Cer,
    Dwr,
    Dpr,
    Dwa,
    BadDwa,
    Dpa,
    Cea(u32),
    Error,
}

/// The request of this command that is answered.
fn request(command: u32) -> Header {
    Header {
        request: true,
        proxiable: false,
        error: false,
        retransmit: false,
        command,
        application: 0,
        hop_id: 1,
        end_id: 1,
    }
}

/// A call for a node, with the AVP that failed, and the octets of what it builds.
#[derive(Clone, Copy)]
struct Build<'a>(Call, &'a Node, &'a Avp, &'a [u8]);

impl Making for Build<'_> {
    type Made = Message;

    type Fault = NoMemory;

    fn call(&self, alloc: Global) -> Result<Message, NoMemory> {
        let Build(call, node, failed, _) = *self;
        match call {
            Call::Cer => cer(alloc, node, 1),
            Call::Dwr => dwr(alloc, node, 1),
            Call::Dpr => dpr(alloc, node, 1, Cause::Rebooting),
            Call::Dwa => dwa(alloc, node, &request(280), 2001, None),
            Call::BadDwa => dwa(alloc, node, &request(280), 5005, Some(failed)),
            Call::Dpa => dpa(alloc, node, &request(282), 2001, None),
            Call::Cea(code) => cea(alloc, node, &request(257), code, None),
            Call::Error => error_answer(alloc, node, &request(257), 3010),
        }
    }

    fn is_want_of_memory(&self, _fault: &NoMemory) -> bool {
        true
    }

    fn is_as_expected(&self, alloc: Global, made: &Message) -> bool {
        match made.encode(alloc) {
            Ok(octets) => octets.as_slice() == self.3,
            Err(_) => false,
        }
    }
}

/// A node of realm example, address 127.0.0.1, vendor 0 and product dmpeer.
pub fn node(rt: &(impl Abort + AllocGlobal), host: &[u8], application: u32) -> Node {
    let alloc = rt.alloc();
    let host = Vec::from_slice(alloc, host).expect(rt, "memory");
    let realm = Vec::from_slice(alloc, b"example").expect(rt, "memory");
    let addresses = Vec::from_slice(alloc, &[Ip::V4([127, 0, 0, 1])]).expect(rt, "memory");
    let product = String::from_str(alloc, "dmpeer").expect(rt, "memory");
    let auth = Vec::from_slice(alloc, &[application]).expect(rt, "memory");
    Node::new(host, realm, addresses, 0, product, auth, Vec::new(alloc)).expect(rt, "a node")
}

/// A call, the node's host and application, and what is built.
type Row<'a> = (Call, &'a [u8], u32, &'a str);

fn check_built(rt: &(impl Abort + AllocGlobal), row: &Row<'_>) {
    let (call, host, application, digits) = *row;
    let wanted = octets(rt, digits);
    let node = node(rt, host, application);
    let data = Octets::from_slice(rt.alloc(), &[0]).expect(rt, "memory");
    let failed = Avp::new(264, None, true, data);
    each_made(rt, &Build(call, &node, &failed, wanted.as_slice()), digits);
    drop(failed);
    drop(node);
}

fn check_rows(rt: &(impl Abort + AllocGlobal), rows: &[Row<'_>]) {
    for row in rows {
        check_built(rt, row);
    }
}

const BUILT: [Row<'static>; 9] = [
    (Call::Cer, b"a.example", 4, CER),
    (Call::Dwr, b"a.example", 4, WATCHDOG),
    (Call::Dpr, b"a.example", 4, DPR),
    (Call::Dwa, b"B.example", 4, DWA),
    (Call::BadDwa, b"B.example", 4, BAD_DWA),
    (Call::Dpa, b"B.example", 4, DPA),
    (Call::Cea(5010), b"B.example", 5, NO_APPLICATION),
    (Call::Cea(5017), b"B.example", 4, NO_SECURITY),
    (Call::Error, b"B.example", 4, UNKNOWN_PEER),
];

#[test]
fn messages_built(rt: HostRuntime) {
    check_rows(&rt, &BUILT);
}
