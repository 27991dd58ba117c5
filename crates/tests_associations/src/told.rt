//! What is told of packets: the association of each by the ports of its ends, its messages, and what is held then; and
//! at the end the associations as they are let go.
use crate::packets::{Chunks, octets_of, packet_of};
use dm_associations::{Association, Associations};
use dm_connections::{Choice, Connections, Ends, LetGo};
use std::alloc::{AllocError, Global};
use std::hash::RandomState;
use std::process::Abort;
use std::random::RandomSource;

/// A packet: the ports of its sender and its receiver, its Verification Tag and its chunks; and what is told of it.
pub(crate) type Row = (u16, u16, u32, Chunks, &'static str);

fn put_ends(alloc: Global, text: &mut String, ends: Ends) -> Result<(), AllocError> {
    let line = format!(in alloc; "{}-{}", ends.first.port, ends.second.port)?;
    text.push_str(line.as_str())
}

/// Appends a message of letters, and `CER` for a Capabilities-Exchange-Request.
fn put_message(text: &mut String, message: &[u8]) -> Result<(), AllocError> {
    if message.first() == Some(&1) {
        return text.push_str("CER");
    }
    for octet in message {
        text.push(char::from(*octet % 128))?;
    }
    Ok(())
}

/// Appends each message that is handed out, behind its way.
fn put_messages(
    associations: &mut Associations,
    text: &mut String,
    ends: Ends,
) -> Result<(), AllocError> {
    for turn in 0..6 {
        if let Some(message) = associations.next_message_of(ends, turn < 3)? {
            text.push(if turn < 3 { '>' } else { '<' })?;
            let put = put_message(text, &message);
            drop(message);
            put?;
        }
    }
    Ok(())
}

fn put_held(
    alloc: Global,
    associations: &Associations,
    text: &mut String,
) -> Result<(), AllocError> {
    let line = format!(in alloc;
        "/{}/{}",
        associations.len(),
        associations.total_octets_held()
    )?;
    text.push_str(line.as_str())
}

fn put_row(
    alloc: Global,
    associations: &mut Associations,
    choice: Choice<'_>,
    row: &Row,
    text: &mut String,
) -> Result<(), AllocError> {
    let (from, to, tag, chunks, _) = *row;
    let octets = octets_of(alloc, chunks)?;
    let taken = associations.take_if_held_or_wanted(choice, packet_of(from, to, tag, &octets));
    drop(octets);
    match taken? {
        Some(ends) => {
            put_ends(alloc, text, ends)?;
            put_messages(associations, text, ends)?;
        }
        None => text.push_str("none")?,
    }
    put_held(alloc, associations, text)
}

fn put_let_go(
    alloc: Global,
    text: &mut String,
    gone: LetGo<Association>,
) -> Result<(), AllocError> {
    let (passed, secured) = (
        gone.connection.octets_passed_over_both_ways(),
        gone.connection.octets_of_dtls_both_ways(),
    );
    let held = gone.connection.octets_held_both_ways();
    let ends = gone.ends;
    drop(gone);
    put_ends(alloc, text, ends)?;
    text.push_str(format!(in alloc; " {passed}+{secured}+{held} ")?.as_str())
}

fn put_all_let_go(
    alloc: Global,
    associations: &mut Associations,
    text: &mut String,
) -> Result<(), AllocError> {
    for _turn in 0..5 {
        if let Some(gone) = associations.let_idlest_go() {
            put_let_go(alloc, text, gone)?;
        }
    }
    put_held(alloc, associations, text)
}

/// No associations.
pub(crate) fn none_held(rt: &(impl Abort + AllocGlobal + RandomSource)) -> Associations {
    let keys = RandomState::new(rt).expect(rt, "keys");
    Connections::new(rt.alloc(), keys, 100_000).expect(rt, "memory")
}

fn assert_text(rt: &impl Abort, text: &str, want: &str) {
    assert!(rt; text == want, "{text} in place of {want}");
}

fn assert_each(
    rt: &(impl Abort + AllocGlobal),
    associations: &mut Associations,
    choice: Choice<'_>,
    rows: &[Row],
    text: &mut String,
) {
    for row in rows {
        text.clear();
        put_row(rt.alloc(), associations, choice, row, text).expect(rt, "memory");
        assert_text(rt, text.as_str(), row.4);
    }
}

/// This is told of the packets, each behind the other, and then of the associations as they are let go.
pub(crate) fn assert_rows(
    rt: &(impl Abort + AllocGlobal + RandomSource),
    choice: Choice<'_>,
    rows: &[Row],
    let_go: &str,
) {
    let mut associations = none_held(rt);
    let mut text = String::new(rt.alloc());
    assert_each(rt, &mut associations, choice, rows, &mut text);
    text.clear();
    put_all_let_go(rt.alloc(), &mut associations, &mut text).expect(rt, "memory");
    drop(associations);
    assert_text(rt, text.as_str(), let_go);
    drop(text);
}
