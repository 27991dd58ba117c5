//! Connections: messages out of the segments of both ends.
use crate::messages::{letter_of, stream_of};
use dm_flows::{Address, Connection, Endpoint, Segment};
use std::alloc::{AllocError, Global};
use std::process::Abort;

/// A segment: whether the first end sent it, its control bits, its number, and from where to where its octets stand
/// among those of ten messages.
type Row = (bool, &'static str, u32, usize, usize);

fn end(port: u16) -> Endpoint {
    Endpoint {
        address: Address::V4(0x0a00_0001),
        port,
    }
}

fn segment_of<'a>(row: &Row, stream: &'a [u8]) -> Segment<'a> {
    let (is_forth, control, sequence, from, to) = *row;
    let payload = if from <= to && to <= stream.len() {
        &stream[from..to]
    } else {
        &stream[..0]
    };
    Segment {
        source: if is_forth { end(41_000) } else { end(3868) },
        destination: if is_forth { end(3868) } else { end(41_000) },
        sequence,
        syn: control.contains('S'),
        fin: control.contains('F'),
        rst: control.contains('R'),
        payload,
    }
}

/// Appends a letter for each message that is handed out, behind its way.
fn put_messages(connection: &mut Connection, text: &mut String) -> Result<(), AllocError> {
    for turn in 0..40 {
        let next = if turn < 20 {
            connection.next_message_from_first()?
        } else {
            connection.next_message_from_second()?
        };
        if let Some(message) = next {
            text.push(if turn < 20 { '>' } else { '<' })?;
            text.push(letter_of(&message))?;
            drop(message);
        }
    }
    text.push('|')
}

fn told(alloc: Global, rows: &[Row]) -> Result<String, AllocError> {
    let mut connection = Connection::new(alloc, end(41_000), end(3868), 100_000);
    let mut text = String::new(alloc);
    let stream = stream_of(alloc, 10)?;
    for row in rows {
        connection.take_segment(segment_of(row, &stream))?;
        put_messages(&mut connection, &mut text)?;
    }
    text.push_str(format!(in alloc; "{}", connection.octets_passed_over_both_ways())?.as_str())?;
    drop(connection);
    drop(stream);
    Ok(text)
}

fn assert_told(rt: &(impl Abort + AllocGlobal), rows: &[Row], want: &str) {
    let text = told(rt.alloc(), rows).expect(rt, "memory");
    assert!(rt; text.as_str() == want, "{text} in place of {want}");
    drop(text);
}

#[test]
fn both_ways(rt: HostRuntime) {
    let rows = [
        (true, "S", 99, 0, 0),
        (false, "S", 499, 0, 0),
        (true, "S", 99, 0, 0),
        (true, "", 100, 0, 20),
        (false, "", 500, 20, 45),
        (true, "F", 120, 40, 60),
        (true, "", 140, 60, 80),
        (false, "F", 525, 45, 60),
    ];
    assert_told(&rt, &rows, "|||>a|<b|>c||<c|20");
}

#[test]
fn a_reset_ends_both(rt: HostRuntime) {
    let rows = [
        (true, "S", 99, 0, 0),
        (false, "S", 499, 0, 0),
        (true, "", 100, 0, 20),
        (false, "R", 500, 0, 0),
        (true, "", 120, 20, 40),
        (false, "", 500, 40, 60),
    ];
    assert_told(&rt, &rows, "||>a||||40");
}

#[test]
fn ports_used_again(rt: HostRuntime) {
    // Of the old connection parts of messages are left in both directions: 15 and 5 octets.
    let rows = [
        (true, "S", 99, 0, 0),
        (false, "S", 499, 0, 0),
        (true, "", 100, 0, 35),
        (false, "", 500, 20, 25),
        (true, "S", 7_000, 0, 0),
        (false, "S", 9_000, 0, 0),
        (true, "", 7_001, 40, 60),
        (false, "", 9_001, 60, 80),
    ];
    assert_told(&rt, &rows, "||>a||||>c|<d|20");
}

#[test]
fn from_the_middle_to_a_new_one(rt: HostRuntime) {
    let rows = [
        (false, "", 500, 30, 45),
        (false, "", 515, 40, 65),
        (true, "S", 99, 0, 0),
        (true, "", 100, 0, 20),
        (false, "S", 8_999, 0, 0),
        (false, "", 9_000, 80, 100),
        (true, "", 120, 100, 120),
    ];
    assert_told(&rt, &rows, "|<c||>a||<e|>f|20");
}
