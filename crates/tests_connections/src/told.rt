//! What is told of segments: the connection of each by the ports of its ends, its messages, and what is held then; and
//! at the end the connections as they are let go.
use crate::messages::{letter_of, stream_of};
use dm_connections::{Choice, Connections, Ends, LetGo};
use dm_flows::{Address, Endpoint, Segment};
use std::alloc::{AllocError, Global};
use std::hash::RandomState;
use std::process::Abort;
use std::random::RandomSource;

/// A segment: the ports of its sender and its receiver, its control bits, its number, and from where to where its
/// octets stand among those of ten messages; and what is told of it.
pub type Row = (u16, u16, &'static str, u32, usize, usize, &'static str);

pub fn end(port: u16) -> Endpoint {
    Endpoint {
        address: Address::V4(0x0a00_0001),
        port,
    }
}

pub fn segment_of<'a>(row: &Row, stream: &'a [u8]) -> Segment<'a> {
    let (source, destination, control, sequence, from, to, _) = *row;
    let payload = if from <= to && to <= stream.len() {
        &stream[from..to]
    } else {
        &stream[..0]
    };
    Segment {
        source: end(source),
        destination: end(destination),
        sequence,
        syn: control.contains('S'),
        fin: control.contains('F'),
        rst: control.contains('R'),
        payload,
    }
}

fn put_ends(alloc: Global, text: &mut String, ends: Ends) -> Result<(), AllocError> {
    let line = format!(in alloc; "{}-{}", ends.first.port, ends.second.port)?;
    text.push_str(line.as_str())
}

/// Appends a letter for each message that is handed out, behind its way.
fn put_messages(
    connections: &mut Connections,
    text: &mut String,
    ends: Ends,
) -> Result<(), AllocError> {
    for turn in 0..6 {
        if let Some(message) = connections.next_message_of(ends, turn < 3)? {
            text.push(if turn < 3 { '>' } else { '<' })?;
            text.push(letter_of(&message))?;
            drop(message);
        }
    }
    Ok(())
}

fn put_held(alloc: Global, connections: &Connections, text: &mut String) -> Result<(), AllocError> {
    let line = format!(in alloc;
        "/{}/{}",
        connections.len(),
        connections.total_octets_held()
    )?;
    text.push_str(line.as_str())
}

fn put_row(
    alloc: Global,
    connections: &mut Connections,
    choice: Choice<'_>,
    row: &Row,
    stream: &[u8],
    text: &mut String,
) -> Result<(), AllocError> {
    text.clear();
    match connections.take_if_held_or_wanted(choice, segment_of(row, stream))? {
        Some(ends) => {
            put_ends(alloc, text, ends)?;
            put_messages(connections, text, ends)?;
        }
        None => text.push_str("none")?,
    }
    put_held(alloc, connections, text)
}

fn put_let_go(alloc: Global, text: &mut String, gone: LetGo) -> Result<(), AllocError> {
    put_ends(alloc, text, gone.ends)?;
    let passed = gone.connection.octets_passed_over_both_ways();
    let pending = gone.connection.octets_held_that_came_both_ways();
    drop(gone);
    text.push_str(format!(in alloc; " {passed}+{pending} ")?.as_str())
}

fn put_all_let_go(
    alloc: Global,
    connections: &mut Connections,
    text: &mut String,
) -> Result<(), AllocError> {
    for _turn in 0..5 {
        if let Some(gone) = connections.let_idlest_go() {
            put_let_go(alloc, text, gone)?;
        }
    }
    put_held(alloc, connections, text)
}

/// No connections.
pub fn none_held(rt: &(impl Abort + AllocGlobal + RandomSource)) -> Connections {
    let keys = RandomState::new(rt).expect(rt, "keys");
    Connections::new(rt.alloc(), keys, 100_000).expect(rt, "memory")
}

fn assert_text(rt: &impl Abort, text: &str, want: &str) {
    assert!(rt; text == want, "{text} in place of {want}");
}

fn assert_each(
    rt: &(impl Abort + AllocGlobal),
    connections: &mut Connections,
    choice: Choice<'_>,
    rows: &[Row],
    stream: &[u8],
    text: &mut String,
) {
    for row in rows {
        put_row(rt.alloc(), connections, choice, row, stream, text).expect(rt, "memory");
        assert_text(rt, text.as_str(), row.6);
    }
}

/// This is told of the segments, each behind the other, and then of the connections as they are let go.
pub fn assert_rows(
    rt: &(impl Abort + AllocGlobal + RandomSource),
    choice: Choice<'_>,
    rows: &[Row],
    let_go: &str,
) {
    let mut connections = none_held(rt);
    let stream = stream_of(rt.alloc(), 10).expect(rt, "memory");
    let mut text = String::new(rt.alloc());
    assert_each(rt, &mut connections, choice, rows, &stream, &mut text);
    drop(stream);
    text.clear();
    put_all_let_go(rt.alloc(), &mut connections, &mut text).expect(rt, "memory");
    drop(connections);
    assert_text(rt, text.as_str(), let_go);
    drop(text);
}
