//! Messages and lists of AVPs, read and written.
use crate::each::each_made;
use crate::rows::{CAPABILITIES, GROUP, octets};
use dm_refusal::Making;
use dm_wire::{Avp, Message, WireFault, decode_avps, encode_avps};
use std::alloc::Global;
use std::process::Abort;

/// Whether these octets were written.
fn is_written(made: Result<Vec<u8>, WireFault>, octets: &[u8]) -> bool {
    match made {
        Ok(made) => made.as_slice() == octets,
        Err(_) => false,
    }
}

#[derive(Clone, Copy)]
struct Decode<'a>(&'a [u8]);

impl Making for Decode<'_> {
    type Made = Message;

    type Fault = WireFault;

    fn call(&self, alloc: Global) -> Result<Message, WireFault> {
        Message::decode(alloc, self.0)
    }

    fn is_want_of_memory(&self, fault: &WireFault) -> bool {
        *fault == WireFault::NoMemory
    }

    fn is_as_expected(&self, alloc: Global, made: &Message) -> bool {
        is_written(made.encode(alloc), self.0)
    }
}

#[derive(Clone, Copy)]
struct Encode<'a>(&'a Message, &'a [u8]);

impl Making for Encode<'_> {
    type Made = Vec<u8>;

    type Fault = WireFault;

    fn call(&self, alloc: Global) -> Result<Vec<u8>, WireFault> {
        self.0.encode(alloc)
    }

    fn is_want_of_memory(&self, fault: &WireFault) -> bool {
        *fault == WireFault::NoMemory
    }

    fn is_as_expected(&self, _alloc: Global, made: &Vec<u8>) -> bool {
        made.as_slice() == self.1
    }
}

#[derive(Clone, Copy)]
struct DecodeList<'a>(&'a [u8]);

impl Making for DecodeList<'_> {
    type Made = Vec<Avp>;

    type Fault = WireFault;

    fn call(&self, alloc: Global) -> Result<Vec<Avp>, WireFault> {
        decode_avps(alloc, self.0)
    }

    fn is_want_of_memory(&self, fault: &WireFault) -> bool {
        *fault == WireFault::NoMemory
    }

    fn is_as_expected(&self, alloc: Global, made: &Vec<Avp>) -> bool {
        made.len() == 2 && is_written(encode_avps(alloc, made.as_slice()), self.0)
    }
}

#[derive(Clone, Copy)]
struct EncodeList<'a>(&'a [Avp], &'a [u8]);

impl Making for EncodeList<'_> {
    type Made = Vec<u8>;

    type Fault = WireFault;

    fn call(&self, alloc: Global) -> Result<Vec<u8>, WireFault> {
        encode_avps(alloc, self.0)
    }

    fn is_want_of_memory(&self, fault: &WireFault) -> bool {
        *fault == WireFault::NoMemory
    }

    fn is_as_expected(&self, _alloc: Global, made: &Vec<u8>) -> bool {
        made.as_slice() == self.1
    }
}

fn message(rt: &(impl Abort + AllocGlobal), row: &[u8]) -> Message {
    Message::decode(rt.alloc(), row).expect(rt, "a message")
}

#[test]
fn messages(rt: HostRuntime) {
    let row = octets(&rt, CAPABILITIES);
    let message = message(&rt, row.as_slice());
    each_made(&rt, &Decode(row.as_slice()), "decode");
    each_made(&rt, &Encode(&message, row.as_slice()), "encode");
}

#[test]
fn lists(rt: HostRuntime) {
    let row = octets(&rt, GROUP);
    let avps = decode_avps(rt.alloc(), row.as_slice()).expect(&rt, "AVPs");
    each_made(&rt, &DecodeList(row.as_slice()), "decode_avps");
    each_made(
        &rt,
        &EncodeList(avps.as_slice(), row.as_slice()),
        "encode_avps",
    );
}
