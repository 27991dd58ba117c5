//! What stands before what is said of a message.
use crate::each::each;
use dm_capture::{Resolution, Time};
use dm_flows::{Address, Endpoint};
use dm_refusal::{
    End, Subject, end_of_answered_call, end_of_repeated_call, refuse_nth_request,
    was_request_refused_and_stop,
};
use dm_trace::{Clock, Seen, Transport, put_seen, put_seen_members};
use dm_view::JsonText;
use std::alloc::{AllocError, Global};
use std::process::Abort;

const WORDS: &str = "2026-11-23T02:15:00.123456Z 10.0.0.1:41234 > [2001:db8::1]:3868 tcp packet 17";

const OBJECT: &str =
    "{\"time\":\"2026-11-23T02:15:00.123456Z\",\"from\":\"10.0.0.1:41234\",\"to\":\"[2001:db8::1]:3868\",\"transport\":\"tcp\",\"packet\":17}\n";

fn seen() -> Seen {
    Seen {
        time: Some(Time {
            seconds: 1795400100,
            fraction: 123456,
            resolution: Resolution::Decimal(6),
        }),
        from: Endpoint {
            address: Address::V4(0x0a000001),
            port: 41234,
        },
        to: Endpoint {
            address: Address::V6(0x20010db8_00000000_00000000_00000001),
            port: 3868,
        },
        transport: Transport::Tcp,
        packet: 17,
    }
}

/// Appends the front as an object on a line.
fn put_object(alloc: Global, text: &mut String) -> Result<(), AllocError> {
    let mut room = String::new(alloc);
    let mut json = JsonText::new(alloc);
    let put = put_members(&mut json, &mut room);
    drop(room);
    match put {
        Ok(()) => json.put_line_into(text),
        Err(error) => {
            drop(json);
            Err(error)
        }
    }
}

fn put_members(json: &mut JsonText, room: &mut String) -> Result<(), AllocError> {
    json.begin_object()?;
    put_seen_members(json, room, Clock::Utc, &seen())?;
    json.end_object()
}

/// A front in words, or in JSON.
#[derive(Clone, Copy)]
struct Row<'a> {
    is_json: bool,
    text: &'a str,
}

impl Row<'_> {
    fn put(&self, alloc: Global, text: &mut String) -> Result<(), AllocError> {
        if self.is_json {
            put_object(alloc, text)
        } else {
            put_seen(text, Clock::Utc, &seen())
        }
    }
}

/// With the nth request refused, and then in another text where memory was wanted. JSON can do without the room that it
/// asks for at once.
fn end_of(alloc: Global, row: &Row<'_>, nth: u32) -> End {
    let mut text = String::new(alloc);
    refuse_nth_request(alloc, nth);
    let first = row.put(alloc, &mut text);
    let refused = was_request_refused_and_stop(alloc);
    if first.is_err() {
        text.clear();
    }
    let again = first.is_ok() || row.put(alloc, &mut text).is_ok();
    let right = again && text.as_str() == row.text;
    drop(text);
    match first {
        Ok(()) if refused && row.is_json && right => End::Again,
        Ok(()) => end_of_answered_call(refused, right),
        Err(_) => end_of_repeated_call(refused, right),
    }
}

impl<R: AllocGlobal> Subject<R> for Row<'_> {
    fn end_when_refused(&self, rt: &R, nth: u32) -> End {
        end_of(rt.alloc(), self, nth)
    }
}

fn assert_front(rt: &(impl Abort + AllocGlobal), is_json: bool, text: &str) {
    let row = Row { is_json, text };
    each(rt, &row, "fronts of messages");
}

#[test]
fn fronts_of_messages(rt: HostRuntime) {
    assert_front(&rt, false, WORDS);
    assert_front(&rt, true, OBJECT);
}
