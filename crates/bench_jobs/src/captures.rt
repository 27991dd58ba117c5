//! Messages in hexadecimal as people and programs write them, shown and checked as `dmview` does it: words of any size
//! with spaces or `:` between them, capitals, `0x`, comments, lines of nothing else, and some that are bad.
use crate::chance::Chance;
use crate::digest::Digest;
use crate::draft::put;
use crate::messages::Sample;
use anyhow::Result;
use dm_dict::Dictionary;
use dm_view_lines::{LinesFault, Task, write_lines_report, write_stream_report};
use std::alloc::Global;

/// How many messages an input has.
const MESSAGES: u32 = 20;

/// How many lines of messages are made, to be copied: as many in each style.
const LINES: u32 = 280;

const SMALL: &[u8; 16] = b"0123456789abcdef";

const CAPITALS: &[u8; 16] = b"0123456789ABCDEF";

/// How the words of a line are written.
#[derive(Clone, Copy, Drop)]
struct Style {
    /// Digits in each word.
    word: usize,
    /// What stands in front of each word.
    front: &'static [u8],
    /// What stands between two.
    between: &'static [u8],
    /// What stands behind the last.
    behind: &'static [u8],
    digits: &'static [u8; 16],
}

/// More digits than a line has.
const WHOLE: usize = 1_000_000;

fn make_style(
    word: usize,
    front: &'static [u8],
    between: &'static [u8],
    behind: &'static [u8],
    digits: &'static [u8; 16],
) -> Style {
    Style {
        word,
        front,
        between,
        behind,
        digits,
    }
}

/// How many styles there are.
const STYLES: u32 = 14;

fn style_of(which: u32) -> Style {
    match which {
        0 => make_style(2, b"", b" ", b"", SMALL),
        1 => make_style(4, b"", b" ", b"", SMALL),
        2 => make_style(8, b"", b" ", b" ; a message", SMALL),
        3 => make_style(2, b"", b":", b"", SMALL),
        4 => make_style(2, b"", b":", b"  # from a capture", CAPITALS),
        5 => make_style(8, b"0x", b" ", b"", SMALL),
        6 => make_style(WHOLE, b"0x", b"", b"", CAPITALS),
        7 => make_style(WHOLE, b"", b"", b"", CAPITALS),
        8 => make_style(WHOLE, b"", b"", b"; gateway to charging", SMALL),
        9 => make_style(32, b"", b"  ", b"", SMALL),
        10 => make_style(4, b"", b"\t", b"", CAPITALS),
        11 => make_style(16, b"", b" ", b"", SMALL),
        12 => make_style(1, b"", b" ", b"", SMALL),
        _ => make_style(3, b"", b" ", b" ;", CAPITALS),
    }
}

/// Lines that say nothing.
const OTHERS: [&[u8]; 5] = [
    b"\n",
    b"; 2026-11-27 21:14:04 gateway to charging\n",
    b"# frame 17, 512 octets\n",
    b"   \t\n",
    b"  ; ---\n",
];

/// What all inputs have in common.
#[derive(Clone, Copy)]
pub struct Given<'g> {
    pub alloc: Global,
    pub dictionary: &'g Dictionary,
    pub samples: &'g [Sample],
}

/// The room that each input uses again.
#[derive(Drop)]
struct Room {
    input: Vec<u8>,
    output: Vec<u8>,
}

/// So many inputs are shown or checked.
pub fn run(given: &Given<'_>, chance: &mut Chance, amount: u32, digest: &mut Digest) -> Result<()> {
    let mut lines = Vec::new(given.alloc);
    let filled = fill_lines(given, chance, &mut lines);
    let mut room = Room {
        input: Vec::new(given.alloc),
        output: Vec::new(given.alloc),
    };
    let done = rounds(given, lines.as_slice(), chance, amount, &mut room, digest);
    drop(room);
    drop(lines);
    filled.and(done)
}

fn rounds(
    given: &Given<'_>,
    lines: &[Vec<u8>],
    chance: &mut Chance,
    amount: u32,
    room: &mut Room,
    digest: &mut Digest,
) -> Result<()> {
    for round in 0..amount {
        room.input.clear();
        room.output.clear();
        push_lines(lines, chance, &mut room.input)?;
        let is_good = view(given, round, room)?;
        digest.add(u64::from(is_good));
        digest.add_octets(room.output.as_slice());
    }
    Ok(())
}

/// Appends messages, and behind some a line that says nothing.
fn push_lines(lines: &[Vec<u8>], chance: &mut Chance, input: &mut Vec<u8>) -> Result<()> {
    for _ in 0..MESSAGES {
        if let Some(line) = lines.get(chance.index(lines.len())) {
            input.extend_from_slice(line.as_slice())?;
        }
        if chance.is_one_of(3) {
            let which = chance.index(OTHERS.len());
            input.extend_from_slice(OTHERS.get(which).copied().unwrap_or(b"\n"))?;
        }
    }
    Ok(())
}

fn view(given: &Given<'_>, round: u32, room: &mut Room) -> Result<bool> {
    let task = match round % 4 {
        0 => Task::Show,
        1 => Task::Check,
        2 => Task::ShowJson,
        _ => Task::CheckJson,
    };
    let input = room.input.as_slice();
    let said: Result<bool, LinesFault> = if round % 5 == 4 {
        write_stream_report(
            given.alloc,
            given.dictionary,
            task,
            false,
            input,
            &mut room.output,
        )
    } else {
        write_lines_report(
            given.alloc,
            given.dictionary,
            task,
            false,
            input,
            &mut room.output,
        )
    };
    Ok(said?)
}

/// Makes lines of messages in each style. Some messages are damaged, and some lines are no hexadecimal.
fn fill_lines(given: &Given<'_>, chance: &mut Chance, lines: &mut Vec<Vec<u8>>) -> Result<()> {
    let mut octets = Vec::new(given.alloc);
    for number in 0..LINES {
        if let Some(sample) = given.samples.get(chance.index(given.samples.len())) {
            sample.copy(number, &mut octets)?;
            if chance.is_one_of(25) {
                sample.damage(chance, &mut octets);
            }
        }
        let style = style_of(number % STYLES);
        lines.push(line_of(given.alloc, style, octets.as_slice(), chance)?)?;
    }
    Ok(())
}

fn line_of(alloc: Global, style: Style, octets: &[u8], chance: &mut Chance) -> Result<Vec<u8>> {
    let mut line = Vec::new(alloc);
    push_words(alloc, &mut line, style, octets)?;
    if chance.is_one_of(60) {
        let at = chance.index(line.len());
        put(&mut line, at, b"g");
    }
    line.extend_from_slice(style.behind)?;
    line.push(b'\n')?;
    Ok(line)
}

/// Appends octets in words of hexadecimal.
fn push_words(alloc: Global, text: &mut Vec<u8>, style: Style, octets: &[u8]) -> Result<()> {
    let mut digits = Vec::new(alloc);
    push_digits(&mut digits, style.digits, octets)?;
    let mut is_first = true;
    for word in digits.chunks(style.word.max(1)) {
        if !is_first {
            text.extend_from_slice(style.between)?;
        }
        text.extend_from_slice(style.front)?;
        text.extend_from_slice(word)?;
        is_first = false;
    }
    Ok(())
}

/// Appends the digits of octets.
fn push_digits(text: &mut Vec<u8>, digits: &[u8; 16], octets: &[u8]) -> Result<()> {
    for octet in octets {
        let high = digits.get(usize::from(*octet >> 4)).copied();
        let low = digits.get(usize::from(*octet & 15)).copied();
        text.extend_from_slice(&[high.unwrap_or(b'0'), low.unwrap_or(b'0')])?;
    }
    Ok(())
}
