//! What is told of a packet: its ends, number, control bits and payload, or what it is instead.
use dm_flows::{Address, Endpoint, Passed, Segment, segment_of};
use std::alloc::{AllocError, Global};
use std::process::Abort;

pub(crate) fn put_endpoint(
    alloc: Global,
    text: &mut String,
    end: Endpoint,
) -> Result<(), AllocError> {
    let line = match end.address {
        Address::V4(number) => format!(in alloc; "{number}:{}", end.port)?,
        Address::V6(number) => format!(in alloc; "{number}:{}", end.port)?,
    };
    text.push_str(line.as_str())
}

/// The letter of a control bit, where it is set.
pub(crate) fn letter(set: bool, letter: &str) -> &str {
    if set { letter } else { "-" }
}

fn put_segment(alloc: Global, text: &mut String, segment: Segment<'_>) -> Result<(), AllocError> {
    put_endpoint(alloc, text, segment.source)?;
    text.push_str(" > ")?;
    put_endpoint(alloc, text, segment.destination)?;
    text.push_str(format!(in alloc; " {} ", segment.sequence)?.as_str())?;
    text.push_str(letter(segment.syn, "S"))?;
    text.push_str(letter(segment.fin, "F"))?;
    text.push_str(letter(segment.rst, "R"))?;
    text.push_str(" ")?;
    for octet in segment.payload {
        text.push_str(format!(in alloc; "{:02x}", *octet)?.as_str())?;
    }
    Ok(())
}

/// What is told of the packet that the hexadecimal digits are.
fn told(alloc: Global, link: u16, digits: &str) -> Option<String> {
    let Ok(octets) = hex::decode(alloc, digits) else {
        return None;
    };
    let mut text = String::new(alloc);
    let put = match segment_of(link, &octets) {
        Ok(segment) => put_segment(alloc, &mut text, segment),
        Err(passed) => put_passed(alloc, &mut text, passed),
    };
    drop(octets);
    match put {
        Ok(()) => Some(text),
        Err(_) => None,
    }
}

pub(crate) fn put_passed(
    alloc: Global,
    text: &mut String,
    passed: Passed,
) -> Result<(), AllocError> {
    text.push_str(format!(in alloc; "{passed:?}")?.as_str())
}

/// This is told of each packet.
pub fn assert_rows(rt: &(impl Abort + AllocGlobal), rows: &[(u16, &str, &str)]) {
    for (link, digits, want) in rows {
        let text = told(rt.alloc(), *link, digits).expect(rt, "what is told");
        assert!(rt; text.as_str() == *want, "{link} {digits}: {text}");
        drop(text);
    }
}
