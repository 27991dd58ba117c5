//! One direction of an association: messages out of its chunks.
use dm_association::SctpFlow;
use dm_flows::{DataChunk, DataChunks};
use std::alloc::{AllocError, Global};
use std::process::Abort;

/// What comes of a direction.
#[derive(Drop)]
pub(crate) enum Step {
    Begin(u32),
    End,
    /// A chunk: its TSN, B and E bits, stream, Payload Protocol Identifier and user data.
    Data(u32, &'static str, u16, u32, &'static str),
}

use Step::{Begin, Data, End};

/// The chunk with these bits.
pub(crate) fn chunk_of<'a>(
    tsn: u32,
    bits: &str,
    stream: u16,
    payload_protocol: u32,
    user_data: &'a [u8],
) -> DataChunk<'a> {
    DataChunk {
        unordered: false,
        beginning: bits.as_bytes().contains(&b'B'),
        ending: bits.as_bytes().contains(&b'E'),
        tsn,
        stream,
        sequence: 0,
        payload_protocol,
        user_data,
    }
}

/// Appends the message that is whole with the chunk.
pub(crate) fn push_message(
    flow: &mut SctpFlow,
    text: &mut Vec<u8>,
    chunk: DataChunk<'_>,
) -> Result<(), AllocError> {
    match flow.take_chunk(chunk)? {
        Some(message) => {
            let put = text.extend_from_slice(&message);
            drop(message);
            put
        }
        None => Ok(()),
    }
}

fn take(flow: &mut SctpFlow, text: &mut Vec<u8>, step: &Step) -> Result<(), AllocError> {
    match step {
        Begin(tsn) => flow.begin_association(*tsn),
        End => flow.leave_association(),
        Data(tsn, bits, stream, protocol, octets) => {
            let chunk = chunk_of(*tsn, bits, *stream, *protocol, octets.as_bytes());
            push_message(flow, text, chunk)?;
        }
    }
    text.push(b'|')?;
    Ok(())
}

/// The messages behind each step, and how many octets were passed over, secured and wait.
fn told(alloc: Global, steps: &[Step]) -> Result<Vec<u8>, AllocError> {
    let mut flow = SctpFlow::new(alloc);
    let mut text = Vec::new(alloc);
    for step in steps {
        take(&mut flow, &mut text, step)?;
    }
    let counts = format!(in alloc;
        "{} {} {}",
        flow.octets_passed_over(),
        flow.octets_of_dtls(),
        flow.octets_waiting()
    )?;
    text.extend_from_slice(counts.as_bytes())?;
    drop(flow);
    drop(counts);
    Ok(text)
}

fn assert_told(rt: &(impl Abort + AllocGlobal), steps: &[Step], want: &str) {
    let text = told(rt.alloc(), steps).expect(rt, "memory");
    assert!(rt;
        text.as_slice() == want.as_bytes(),
        "{text:?} in place of {want}"
    );
    drop(text);
}

#[test]
fn whole_messages(rt: HostRuntime) {
    let steps = [
        Begin(10),
        Data(10, "BE", 0, 46, "abc"),
        Data(11, "BE", 1, 46, "d"),
        Data(12, "BE", 0, 0, "ef"),
    ];
    assert_told(&rt, &steps, "|abc|d|ef|0 0 0");
}

#[test]
fn fragments_in_order(rt: HostRuntime) {
    let steps = [
        Begin(10),
        Data(10, "B", 7, 46, "ab"),
        Data(11, "", 7, 46, "cd"),
        Data(12, "", 7, 46, "e"),
        Data(13, "E", 7, 46, "f"),
        Data(14, "BE", 7, 46, "g"),
    ];
    assert_told(&rt, &steps, "||||abcdef|g|0 0 0");
}

#[test]
fn fragments_out_of_order(rt: HostRuntime) {
    let steps = [
        Begin(10),
        Data(13, "E", 7, 46, "f"),
        Data(11, "", 7, 46, "cd"),
        Data(12, "", 7, 46, "e"),
        Data(10, "B", 7, 46, "ab"),
    ];
    assert_told(&rt, &steps, "||||abcdef|0 0 0");
}

#[test]
fn last_fragment_in_the_middle(rt: HostRuntime) {
    let steps = [
        Begin(10),
        Data(12, "E", 7, 46, "e"),
        Data(10, "B", 7, 46, "ab"),
        Data(13, "B", 7, 46, "f"),
        Data(11, "", 7, 46, "cd"),
    ];
    assert_told(&rt, &steps, "||||abcde|0 0 1");
}

#[test]
fn two_messages_between_each_other(rt: HostRuntime) {
    let steps = [
        Begin(10),
        Data(10, "B", 1, 46, "a"),
        Data(12, "B", 2, 46, "x"),
        Data(14, "BE", 3, 46, "z"),
        Data(13, "E", 2, 46, "y"),
        Data(11, "E", 1, 46, "b"),
    ];
    assert_told(&rt, &steps, "|||z|xy|ab|0 0 0");
}

#[test]
fn chunks_sent_again(rt: HostRuntime) {
    let steps = [
        Begin(10),
        Data(10, "B", 7, 46, "ab"),
        Data(10, "B", 7, 46, "ab"),
        Data(12, "BE", 7, 46, "e"),
        Data(12, "BE", 7, 46, "e"),
        Data(11, "E", 7, 46, "cd"),
        Data(11, "E", 7, 46, "cd"),
        Data(9, "BE", 7, 46, "x"),
    ];
    assert_told(&rt, &steps, "|||e||abcd|||0 0 0");
}

#[test]
fn tsns_begin_anew(rt: HostRuntime) {
    let steps = [
        Begin(4_294_967_294),
        Data(1, "BE", 0, 46, "z"),
        Data(4_294_967_295, "", 0, 46, "b"),
        Data(0, "E", 0, 46, "c"),
        Data(4_294_967_294, "B", 0, 46, "a"),
        Data(2, "BE", 0, 46, "y"),
        Data(4_294_967_295, "BE", 0, 46, "b"),
    ];
    assert_told(&rt, &steps, "|z|||abc|y||0 0 0");
}

#[test]
fn no_message_across_streams(rt: HostRuntime) {
    let steps = [
        Begin(10),
        Data(10, "B", 1, 46, "a"),
        Data(11, "E", 2, 46, "b"),
        Data(12, "BE", 1, 46, "c"),
    ];
    assert_told(&rt, &steps, "|||c|0 0 2");
}

#[test]
fn no_message_over_another_beginning(rt: HostRuntime) {
    let steps = [
        Begin(10),
        Data(10, "B", 1, 46, "a"),
        Data(11, "B", 1, 46, "b"),
        Data(12, "E", 1, 46, "c"),
        Data(13, "E", 1, 46, "d"),
    ];
    assert_told(&rt, &steps, "|||bc||0 0 2");
}

#[test]
fn other_protocols(rt: HostRuntime) {
    let steps = [
        Begin(10),
        Data(10, "BE", 0, 47, "secret"),
        Data(10, "BE", 0, 47, "secret"),
        Data(11, "BE", 0, 3, "m3ua"),
        Data(13, "BE", 0, 46, "c"),
        Data(12, "BE", 0, 48, "z"),
        Data(12, "BE", 0, 46, "z"),
        Data(14, "BE", 0, 46, "d"),
    ];
    assert_told(&rt, &steps, "||||c|||d|5 6 0");
}

#[test]
fn no_message_over_another_protocol(rt: HostRuntime) {
    let steps = [
        Begin(10),
        Data(10, "B", 0, 46, "a"),
        Data(11, "", 0, 47, "b"),
        Data(12, "E", 0, 46, "c"),
    ];
    assert_told(&rt, &steps, "||||0 1 2");
}

#[test]
fn in_the_middle(rt: HostRuntime) {
    // The first chunks are the end of a message that began before.
    let steps = [
        Data(50, "", 0, 46, "ab"),
        Data(51, "E", 0, 46, "c"),
        Data(52, "B", 0, 46, "de"),
        Data(53, "E", 0, 46, "f"),
        Data(51, "E", 0, 46, "c"),
        Data(54, "BE", 0, 46, "g"),
    ];
    assert_told(&rt, &steps, "|||def||g|3 0 0");
}

#[test]
fn another_association(rt: HostRuntime) {
    let steps = [
        Begin(10),
        Data(11, "B", 0, 46, "abc"),
        Begin(5_000),
        Data(5_000, "BE", 0, 46, "d"),
        Data(5_001, "B", 0, 46, "ef"),
        End,
        Data(7, "", 0, 46, "gh"),
        Data(8, "BE", 0, 46, "i"),
    ];
    assert_told(&rt, &steps, "|||d||||i|7 0 0");
}

/// The messages of the DATA chunks that the hexadecimal digits are.
fn told_of_packet(alloc: Global, digits: &str) -> Option<Vec<u8>> {
    let Ok(octets) = hex::decode(alloc, digits) else {
        return None;
    };
    let mut flow = SctpFlow::new(alloc);
    let mut text = Vec::new(alloc);
    let mut done = true;
    for chunk in DataChunks::new(&octets) {
        done = done && push_message(&mut flow, &mut text, chunk).is_ok();
    }
    drop(flow);
    drop(octets);
    if done { Some(text) } else { None }
}

#[test]
fn chunks_of_a_packet(rt: HostRuntime) {
    // A fragment, a message of another stream behind the other one, that one, and the message again.
    let digits =
        "0002001200000007000300040000002e616200000003001100000009000100000000002e780000000001001200000008000300040000002e636400000003001100000009000100000000002e78000000";
    let text = told_of_packet(rt.alloc(), digits).expect(&rt, "memory");
    assert!(rt; text.as_slice() == "xabcd".as_bytes());
    drop(text);
}
