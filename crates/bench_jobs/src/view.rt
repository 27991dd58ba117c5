//! The job `view`: what a reader of captures waits for. Messages in hexadecimal are shown and checked as `dmview` does
//! it, as text and as JSON, by lines and as a stream, and as `dmpeer` does it, which builds them again too.
use crate::chance::Chance;
use crate::digest::Digest;
use crate::draft::put;
use crate::messages::{SESSION, Samples, letters_of};
use anyhow::Result;
use dm_dict::Dictionary;
use dm_tool::{ToolFault, run_build, run_check, run_show};
use dm_view_lines::{LinesFault, Task, write_lines_report, write_stream_report};
use std::alloc::{AllocError, Global};
use std::mem;

/// How many messages an input has.
const MESSAGES: u32 = 200;

/// How many messages are kept in hexadecimal, to be copied.
const SPELLINGS: u32 = 512;

/// Of so many messages one is damaged in the lines that are read.
const OFTEN: u32 = 25;

/// Of so many messages one is damaged in a stream, which may end there.
const SELDOM: u32 = 400;

/// How many digits stand in a line of a stream: as many as a segment of TCP carries in a capture.
const SEGMENT: usize = 2896;

/// The digits of hexadecimal.
const DIGITS: &[u8; 16] = b"0123456789abcdef";

/// A message in hexadecimal.
#[derive(Drop)]
struct Spelling {
    digits: Vec<u8>,
    has_session: bool,
}

/// What the rounds have in common.
#[derive(Clone, Copy)]
struct Given<'g> {
    alloc: Global,
    text: &'g [u8],
    dictionary: &'g Dictionary,
    samples: &'g Samples,
    spellings: &'g [Spelling],
}

/// The room that each round uses again, and the number of the last message.
#[derive(Drop)]
struct Room {
    octets: Vec<u8>,
    digits: Vec<u8>,
    input: Vec<u8>,
    output: Vec<u8>,
    number: u32,
}

/// Runs so many rounds.
///
/// Each makes an input of its own and passes it to one call.
pub fn run(
    alloc: Global,
    text: &[u8],
    chance: &mut Chance,
    amount: u32,
    digest: &mut Digest,
) -> Result<()> {
    let base = Dictionary::base(alloc)?;
    let read = Dictionary::read(alloc, text, &base);
    drop(base);
    match read {
        Ok(dictionary) => {
            let done = run_over(alloc, text, &dictionary, chance, amount, digest);
            drop(dictionary);
            done
        }
        Err(fault) => Err(fault.into()),
    }
}

fn run_over(
    alloc: Global,
    text: &[u8],
    dictionary: &Dictionary,
    chance: &mut Chance,
    amount: u32,
    digest: &mut Digest,
) -> Result<()> {
    let samples = Samples::new(alloc, chance)?;
    let mut spellings = Vec::new(alloc);
    let spelled = spell(alloc, &samples, chance, &mut spellings);
    let given = Given {
        alloc,
        text,
        dictionary,
        samples: &samples,
        spellings: spellings.as_slice(),
    };
    let done = run_rounds(&given, chance, amount, digest);
    drop(spellings);
    drop(samples);
    spelled.and(done)
}

/// Spells samples by the mix.
fn spell(
    alloc: Global,
    samples: &Samples,
    chance: &mut Chance,
    spellings: &mut Vec<Spelling>,
) -> Result<()> {
    let mut octets = Vec::new(alloc);
    for _ in 0..SPELLINGS {
        if let Some(sample) = samples.pick(chance) {
            sample.copy(0, &mut octets)?;
            let mut digits = Vec::new(alloc);
            push_digits(&mut digits, octets.as_slice())?;
            spellings.push(Spelling {
                digits,
                has_session: sample.has_session(),
            })?;
        }
    }
    Ok(())
}

fn run_rounds(
    given: &Given<'_>,
    chance: &mut Chance,
    amount: u32,
    digest: &mut Digest,
) -> Result<()> {
    let mut room = Room {
        octets: Vec::new(given.alloc),
        digits: Vec::new(given.alloc),
        input: Vec::new(given.alloc),
        output: Vec::new(given.alloc),
        number: 0,
    };
    let done = fill_rounds(given, chance, amount, &mut room, digest);
    drop(room);
    done
}

fn fill_rounds(
    given: &Given<'_>,
    chance: &mut Chance,
    amount: u32,
    room: &mut Room,
    digest: &mut Digest,
) -> Result<()> {
    for round in 0..amount {
        let is_good = run_round(given, chance, round, room)?;
        digest.add(u64::from(is_good));
        digest.add_octets(room.output.as_slice());
    }
    Ok(())
}

/// A round of this number, and whether its input was good. A round that builds comes behind one that shows.
fn run_round(given: &Given<'_>, chance: &mut Chance, round: u32, room: &mut Room) -> Result<bool> {
    match round % 12 {
        0 => view_lines(given, chance, Task::Show, room),
        2 => view_lines(given, chance, Task::Check, room),
        5 => view_lines(given, chance, Task::ShowJson, room),
        7 => view_lines(given, chance, Task::CheckJson, room),
        10 => view_stream(given, chance, room),
        1 => tool_show(given, chance, OFTEN, room),
        3 | 8 => tool_show(given, chance, 0, room),
        4 | 9 => tool_build(given, room),
        _ => tool_check(given, chance, round % 48 == 47, room),
    }
}

fn view_lines(given: &Given<'_>, chance: &mut Chance, task: Task, room: &mut Room) -> Result<bool> {
    room.input.clear();
    room.output.clear();
    put_messages(given, chance, OFTEN, b"\n", room)?;
    let said: Result<bool, LinesFault> = write_lines_report(
        given.alloc,
        given.dictionary,
        task,
        false,
        room.input.as_slice(),
        &mut room.output,
    );
    Ok(said?)
}

fn view_stream(given: &Given<'_>, chance: &mut Chance, room: &mut Room) -> Result<bool> {
    room.input.clear();
    room.output.clear();
    put_messages(given, chance, SELDOM, b"", room)?;
    cut_input(room)?;
    let said: Result<bool, LinesFault> = write_stream_report(
        given.alloc,
        given.dictionary,
        Task::Show,
        false,
        room.input.as_slice(),
        &mut room.output,
    );
    Ok(said?)
}

fn tool_show(given: &Given<'_>, chance: &mut Chance, tries: u32, room: &mut Room) -> Result<bool> {
    room.input.clear();
    room.output.clear();
    put_messages(given, chance, tries, b"\n", room)?;
    let mut reader = room.input.as_slice();
    let shown: Result<bool, ToolFault> = run_show(given.alloc, &mut reader, &mut room.output);
    Ok(shown?)
}

/// Builds what the round before has shown.
fn tool_build(given: &Given<'_>, room: &mut Room) -> Result<bool> {
    mem::swap(&mut room.input, &mut room.output);
    room.output.clear();
    let mut reader = room.input.as_slice();
    let built: Result<bool, ToolFault> = run_build(given.alloc, &mut reader, &mut room.output);
    Ok(built?)
}

fn tool_check(
    given: &Given<'_>,
    chance: &mut Chance,
    with_dict: bool,
    room: &mut Room,
) -> Result<bool> {
    room.input.clear();
    room.output.clear();
    if with_dict {
        room.input.extend_from_slice(given.text)?;
        room.input.extend_from_slice(b"\n%%\n")?;
    }
    put_messages(given, chance, OFTEN, b"\n", room)?;
    let mut reader = room.input.as_slice();
    let checked: Result<bool, ToolFault> = run_check(
        given.alloc,
        &mut reader,
        &mut room.output,
        with_dict,
    );
    Ok(checked?)
}

/// Appends messages in hexadecimal to the input, with this end behind each. One of so many is damaged, and none where
/// that is 0.
fn put_messages(
    given: &Given<'_>,
    chance: &mut Chance,
    tries: u32,
    end: &[u8],
    room: &mut Room,
) -> Result<()> {
    for _ in 0..MESSAGES {
        room.number = room.number.wrapping_add(1);
        if tries > 0 && chance.is_one_of(tries) {
            put_damaged(given, chance, room)?;
        } else {
            let at = chance.index(given.spellings.len());
            if let Some(spelling) = given.spellings.get(at) {
                push_spelling(spelling, room.number, &mut room.input)?;
            }
        }
        room.input.extend_from_slice(end)?;
    }
    Ok(())
}

/// Appends a damaged message to the input.
fn put_damaged(given: &Given<'_>, chance: &mut Chance, room: &mut Room) -> Result<()> {
    if let Some(sample) = given.samples.pick(chance) {
        sample.copy(room.number, &mut room.octets)?;
        sample.damage(chance, &mut room.octets);
        push_digits(&mut room.input, room.octets.as_slice())?;
    }
    Ok(())
}

/// Appends a message with the number as its identifiers and in its Session-Id.
fn push_spelling(spelling: &Spelling, number: u32, input: &mut Vec<u8>) -> Result<(), AllocError> {
    let begin = input.len();
    input.extend_from_slice(spelling.digits.as_slice())?;
    let end_to_end = number.wrapping_mul(0x9e37_79b9);
    let identifiers = (u64::from(number) << 32) | u64::from(end_to_end);
    put(input, begin.saturating_add(24), &digits_of(identifiers));
    if spelling.has_session {
        let letters = u64::from_be_bytes(letters_of(number));
        put(
            input,
            begin.saturating_add(2 * SESSION),
            &digits_of(letters),
        );
    }
    Ok(())
}

/// Cuts the digits of the input into lines, as segments would.
fn cut_input(room: &mut Room) -> Result<(), AllocError> {
    room.digits.clear();
    for piece in room.input.chunks(SEGMENT) {
        room.digits.extend_from_slice(piece)?;
        room.digits.push(b'\n')?;
    }
    mem::swap(&mut room.input, &mut room.digits);
    Ok(())
}

/// Appends octets in hexadecimal.
fn push_digits(text: &mut Vec<u8>, octets: &[u8]) -> Result<(), AllocError> {
    for octet in octets {
        text.extend_from_slice(&[digit(*octet >> 4), digit(*octet & 15)])?;
    }
    Ok(())
}

/// A number as sixteen digits of hexadecimal.
fn digits_of(number: u64) -> [u8; 16] {
    let mut digits = [b'0'; 16];
    let mut rest = number;
    for place in digits.iter_mut() {
        rest = rest.rotate_left(4);
        *place = digit((rest & 15) as u8);
    }
    digits
}

/// A digit of hexadecimal.
fn digit(half: u8) -> u8 {
    DIGITS.get(usize::from(half)).copied().unwrap_or(b'0')
}
