//! What messages are made of: looked through, found, copied and printed.

use super::{WATCHDOG_REQUEST, avp, watchdog_request_message};
use dm_wire::codes::{avps, commands, results};
use dm_wire::{Avp, AvpList, Header, Message, Octets, WireFault};
use std::alloc::{AllocError, Global};
use std::fmt::Display;
use std::test::Fail;

/// Whether the value is printed as the text.
fn is_shown(alloc: Global, value: &impl Display, text: &str) -> bool {
    match value.to_string(alloc) {
        Ok(shown) => shown.as_str() == text,
        Err(_) => false,
    }
}

#[test]
fn messages_are_printed(rt: HostRuntime) -> Result<(), Fail> {
    let message = watchdog_request_message(rt.alloc())?;
    let list = "{ 264 -M- 612e6578616d706c65; 296 -M- 6578616d706c65; }";
    assert!(rt;
        is_shown(
            rt.alloc(),
            &message.header,
            "message 280 R--- app 0 hop 1 end 1"
        )
    );
    assert!(rt; is_shown(rt.alloc(), &message.avps, list));
    assert!(rt; is_shown(rt.alloc(), &AvpList::from_vec(Vec::new(rt.alloc())), "{ }"));
    Ok(())
}

#[test]
fn avps_are_printed(rt: HostRuntime) -> Result<(), Fail> {
    let long = Octets::from(vec![in rt.alloc(); 0xab; 65]?);
    let plain = Octets::from(Vec::new(rt.alloc()));
    let vendor = Avp::new(1, Some(10415), false, plain);
    assert!(rt; long.to_string(rt.alloc())?.len() == 130);
    assert!(rt; is_shown(rt.alloc(), &vendor, "1/10415 V-- -"));
    let host = avp(rt.alloc(), avps::ORIGIN_HOST, b"a")?;
    assert!(rt; is_shown(rt.alloc(), &host, "264 -M- 61"));
    Ok(())
}

/// The data of the first AVP of the code, and how many there are.
fn found(message: &Message, code: u32) -> (Option<&[u8]>, usize) {
    let first = message.avp(code, None).map(|avp| avp.bytes.as_slice());
    (first, message.avps(code, None).count())
}

#[test]
fn avps_are_found(rt: HostRuntime) -> Result<(), Fail> {
    let mut list = watchdog_request_message(rt.alloc())?.avps.into_vec();
    list.push(avp(rt.alloc(), avps::ORIGIN_HOST, b"b")?)?;
    let header = watchdog_request_message(rt.alloc())?.header;
    let message = Message::new(header, AvpList::from(list));
    assert!(rt; message.header.command == commands::DEVICE_WATCHDOG);
    assert!(rt; message.avps.len() == 3 && !message.avps.is_empty());
    assert!(rt; found(&message, avps::ORIGIN_HOST) == (Some(b"a.example"), 2));
    assert!(rt; found(&message, avps::RESULT_CODE) == (None, 0));
    assert!(rt; message.avp(avps::ORIGIN_HOST, Some(0)).is_none());
    Ok(())
}

/// How many octets the data of all AVPs has.
fn octets_of(list: &AvpList) -> usize {
    let mut count = 0;
    for avp in list {
        for _ in &avp.bytes {
            count = usize::saturating_add(count, 1);
        }
    }
    count
}

/// Whether a copy is equal, and has as many octets of data.
fn is_copied(alloc: Global, octets: &[u8], count: usize) -> Result<bool, WireFault> {
    let message = Message::decode(alloc, octets)?;
    let copy = message.clone()?;
    Ok(copy == message && octets_of(&copy.avps) == count)
}

#[test]
fn messages_are_copied(rt: HostRuntime) {
    assert!(rt; is_copied(rt.alloc(), &WATCHDOG_REQUEST, 16) == Ok(true));
}

#[test]
fn answers_and_codes(rt: HostRuntime) -> Result<(), Fail> {
    let request = Header {
        proxiable: true,
        retransmit: true,
        ..watchdog_request_message(rt.alloc())?.header
    };
    let shown = "message 280 -P-- app 0 hop 1 end 1";
    assert!(rt; is_shown(rt.alloc(), &request.answer(), shown));
    assert!(rt; WireFault::Version.result_code() == Some(results::UNSUPPORTED_VERSION));
    assert!(rt; WireFault::AvpLength(20).result_code() == Some(results::INVALID_AVP_LENGTH));
    assert!(rt; WireFault::from(AllocError).result_code() == None);
    Ok(())
}
