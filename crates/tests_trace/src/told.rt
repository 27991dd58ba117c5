//! What is told of times, ends and messages that were seen.
use dm_capture::{Resolution, Time};
use dm_flows::{Address, Endpoint};
use dm_trace::{Clock, Seen, put_endpoint, put_seen, put_seen_members, put_time_or_dash};
use dm_view::JsonText;
use std::alloc::{AllocError, Global};
use std::process::Abort;

/// A time with a fraction in units of a power of ten.
pub fn decimal(seconds: i64, power: u8, fraction: u64) -> Option<Time> {
    Some(Time {
        seconds,
        fraction,
        resolution: Resolution::Decimal(power),
    })
}

/// A time with a fraction in units of a power of two.
pub fn binary(seconds: i64, power: u8, fraction: u64) -> Option<Time> {
    Some(Time {
        seconds,
        fraction,
        resolution: Resolution::Binary(power),
    })
}

/// An end with an address of version 4.
pub fn end_of_4(bits: u32, port: u16) -> Endpoint {
    let address = Address::V4(bits);
    Endpoint { address, port }
}

/// An end with an address of version 6.
pub fn end_of_6(bits: u128, port: u16) -> Endpoint {
    let address = Address::V6(bits);
    Endpoint { address, port }
}

fn said_time(alloc: Global, clock: Clock, time: Option<Time>) -> Result<String, AllocError> {
    let mut text = String::new(alloc);
    put_time_or_dash(&mut text, clock, time)?;
    Ok(text)
}

fn said_end(alloc: Global, end: Endpoint) -> Result<String, AllocError> {
    let mut text = String::new(alloc);
    put_endpoint(&mut text, end)?;
    Ok(text)
}

fn said_front(alloc: Global, clock: Clock, seen: &Seen) -> Result<String, AllocError> {
    let mut text = String::new(alloc);
    put_seen(&mut text, clock, seen)?;
    Ok(text)
}

fn said_json(alloc: Global, clock: Clock, seen: &Seen) -> Result<String, AllocError> {
    let mut json = JsonText::new(alloc);
    let mut room = String::new(alloc);
    let mut text = String::new(alloc);
    json.begin_object()?;
    put_seen_members(&mut json, &mut room, clock, seen)?;
    json.end_object()?;
    json.put_line_into(&mut text)?;
    Ok(text)
}

/// This is said of each time.
pub fn assert_times(rt: &(impl Abort + AllocGlobal), clock: Clock, rows: &[(Option<Time>, &str)]) {
    for (time, want) in rows {
        let text = said_time(rt.alloc(), clock, *time).expect(rt, "a time");
        assert!(rt; text.as_str() == *want, "{text}, not {want}");
        drop(text);
    }
}

/// This is said of each end.
pub fn assert_ends(rt: &(impl Abort + AllocGlobal), rows: &[(Endpoint, &str)]) {
    for (end, want) in rows {
        let text = said_end(rt.alloc(), *end).expect(rt, "an end");
        assert!(rt; text.as_str() == *want, "{text}, not {want}");
        drop(text);
    }
}

/// This stands before what is said of each message.
pub fn assert_fronts(rt: &(impl Abort + AllocGlobal), rows: &[(Clock, Seen, &str)]) {
    for (clock, seen, want) in rows {
        let text = said_front(rt.alloc(), *clock, seen).expect(rt, "a front");
        assert!(rt; text.as_str() == *want, "{text}, not {want}");
        drop(text);
    }
}

/// This stands before what is said of each message, as an object.
pub fn assert_objects(rt: &(impl Abort + AllocGlobal), rows: &[(Clock, Seen, &str)]) {
    for (clock, seen, want) in rows {
        let text = said_json(rt.alloc(), *clock, seen).expect(rt, "an object");
        assert!(rt; text.as_str() == *want, "{text}, not {want}");
        drop(text);
    }
}
