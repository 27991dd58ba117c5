//! One direction of a connection: messages out of its segments.
use crate::messages::{letter_of, stream_of};
use dm_flows::Flow;
use std::alloc::{AllocError, Global};
use std::process::Abort;

/// What comes of a direction.
#[derive(Drop)]
enum Step {
    Syn(u32),
    Fin(u32),
    Reset,
    /// Octets with a sequence number: those of ten messages from a place to another one.
    Octets(u32, usize, usize),
}

use Step::{Fin, Octets, Reset, Syn};

/// Appends a letter for each message that is handed out.
fn put_messages(flow: &mut Flow, text: &mut String) -> Result<(), AllocError> {
    for _ in 0..100 {
        match flow.next_message_or_leave_stream()? {
            Some(message) => {
                text.push(letter_of(&message))?;
                drop(message);
            }
            None => return Ok(()),
        }
    }
    Ok(())
}

fn take(flow: &mut Flow, stream: &[u8], step: &Step) -> Result<(), AllocError> {
    match step {
        Syn(number) => flow.begin_at_syn(*number),
        Fin(number) => flow.end_at_fin_unless_ended(*number),
        Reset => flow.end_at_rst(),
        Octets(number, from, to) => {
            if from <= to && *to <= stream.len() {
                flow.take_payload_or_pass(*number, &stream[*from..*to])?;
            }
        }
    }
    Ok(())
}

/// The letters of the messages behind each step, and how many octets were passed over.
fn told(alloc: Global, steps: &[Step]) -> Result<String, AllocError> {
    let mut flow = Flow::new(alloc, 100_000);
    let mut text = String::new(alloc);
    let stream = stream_of(alloc, 10)?;
    for step in steps {
        take(&mut flow, &stream, step)?;
        put_messages(&mut flow, &mut text)?;
        text.push('|')?;
    }
    text.push_str(format!(in alloc; "{}", flow.octets_passed_over())?.as_str())?;
    drop(flow);
    drop(stream);
    Ok(text)
}

fn assert_told(rt: &(impl Abort + AllocGlobal), steps: &[Step], want: &str) {
    let text = told(rt.alloc(), steps).expect(rt, "memory");
    assert!(rt; text.as_str() == want, "{text} in place of {want}");
    drop(text);
}

#[test]
fn behind_a_syn(rt: HostRuntime) {
    let steps = [
        Syn(99),
        Octets(100, 0, 20),
        Octets(120, 20, 50),
        Octets(150, 50, 80),
    ];
    assert_told(&rt, &steps, "|a|b|cd|0");
}

#[test]
fn in_the_middle(rt: HostRuntime) {
    // The first segment has no header in front, the second has one.
    let steps = [
        Octets(100, 10, 40),
        Octets(130, 40, 70),
        Octets(120, 30, 40),
        Octets(160, 70, 80),
    ];
    assert_told(&rt, &steps, "|c||d|30");
}

#[test]
fn out_of_order_and_again(rt: HostRuntime) {
    let steps = [
        Syn(4_294_967_289),
        Octets(14, 20, 60),
        Octets(14, 20, 40),
        Octets(4_294_967_290, 0, 30),
    ];
    assert_told(&rt, &steps, "|||abc|0");
}

#[test]
fn gap_past_the_limit(rt: HostRuntime) {
    // Of what waits 10 octets are in order and 20 behind a gap.
    let steps = [
        Syn(99),
        Octets(100, 0, 10),
        Octets(140, 40, 60),
        Octets(2_000_100, 70, 75),
        Octets(2_000_105, 60, 90),
        Octets(2_000_135, 90, 100),
    ];
    assert_told(&rt, &steps, "||||d|e|35");
}

#[test]
fn far_behind(rt: HostRuntime) {
    // What is further behind than could be sent again is of another stream; what is nearer is a repetition.
    let steps = [
        Syn(99_999_999),
        Octets(100_000_000, 0, 30),
        Octets(98_951_454, 40, 60),
        Octets(98_951_453, 40, 60),
        Octets(98_951_473, 60, 80),
    ];
    assert_told(&rt, &steps, "|a||c|d|10");
}

#[test]
fn no_message(rt: HostRuntime) {
    let steps = [
        Syn(99),
        Octets(100, 0, 20),
        Octets(120, 4, 24),
        Octets(140, 24, 40),
        Octets(156, 40, 60),
    ];
    assert_told(&rt, &steps, "|a|||c|36");
}

#[test]
fn behind_a_fin(rt: HostRuntime) {
    let steps = [
        Syn(99),
        Fin(130),
        Octets(120, 20, 40),
        Octets(130, 30, 40),
        Fin(170),
        Octets(140, 40, 60),
        Octets(100, 0, 20),
    ];
    assert_told(&rt, &steps, "||||||a|40");
}

#[test]
fn behind_a_rst(rt: HostRuntime) {
    let steps = [
        Syn(99),
        Octets(100, 0, 30),
        Reset,
        Octets(130, 30, 40),
        Syn(499),
        Octets(500, 40, 60),
    ];
    assert_told(&rt, &steps, "|a||||c|20");
}
