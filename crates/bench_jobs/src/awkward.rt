//! Messages that are awkward to judge, each of some hundred thousand octets, and the text of a dictionary that has
//! their commands.
use crate::chance::Chance;
use crate::decimal::push_decimal;
use crate::draft::Draft;
use crate::messages::Sample;
use anyhow::Result;
use std::alloc::Global;

/// The entries of the long rule.
const ENTRIES: u32 = 2000;

/// The code of the first of its AVPs.
const FIRST: u32 = 90_000;

/// The code of a group that may stand in itself.
const NESTED: u32 = 89_999;

/// The command of the long rule.
const COMMAND: u32 = 9999;

/// The awkward messages, and the text of their dictionary.
#[derive(Drop)]
pub struct Awkward {
    text: Vec<u8>,
    messages: Vec<Sample>,
}

impl Awkward {
    pub fn new(alloc: Global) -> Awkward {
        Awkward {
            text: Vec::new(alloc),
            messages: Vec::new(alloc),
        }
    }

    pub fn text(&self) -> &[u8] {
        self.text.as_slice()
    }

    /// Makes the messages; their definitions stand behind `text`.
    pub fn fill(&mut self, alloc: Global, text: &[u8]) -> Result<()> {
        self.text.extend_from_slice(text)?;
        fill_text(&mut self.text)?;
        for kind in 0..5 {
            let mut draft = Draft::new(alloc);
            let made = fill_message(&mut draft, kind);
            self.messages.push(Sample::of(draft, false))?;
            made?;
        }
        Ok(())
    }

    /// Copies the next of them, with numbers by chance.
    pub fn copy(&self, number: u32, chance: &mut Chance, room: &mut Vec<u8>) -> Result<()> {
        if let Some(sample) = self.messages.get(number as usize % 5) {
            sample.copy(chance.word(), room)?;
            if number % 2 == 0 {
                sample.damage(chance, room);
            }
        }
        Ok(())
    }
}

/// The definitions of a rule with many bounded entries, and of a group that may stand in itself.
fn fill_text(text: &mut Vec<u8>) -> Result<()> {
    for entry in 0..ENTRIES {
        text.extend_from_slice(b"@ Bench-Entry-")?;
        push_decimal(text, entry)?;
        text.push(b' ')?;
        push_decimal(text, FIRST + entry)?;
        text.extend_from_slice(b" Unsigned32\n")?;
    }
    text.extend_from_slice(b"< Bench-Nested > ::= < AVP Header: ")?;
    push_decimal(text, NESTED)?;
    text.extend_from_slice(
        b" >\n { Rating-Group } *[ AVP ]\n< Bench-Request > ::= < Diameter Header: ",
    )?;
    push_decimal(text, COMMAND)?;
    text.extend_from_slice(b", REQ >\n { Origin-Host }\n")?;
    for entry in 0..ENTRIES {
        text.extend_from_slice(b" [ Bench-Entry-")?;
        push_decimal(text, entry)?;
        text.extend_from_slice(b" ]\n")?;
    }
    text.extend_from_slice(b" *[ AVP ]\n")?;
    Ok(())
}

fn fill_message(draft: &mut Draft, kind: u32) -> Result<()> {
    match kind {
        0 => fill_entries(draft, 1),
        1 => fill_entries(draft, 2),
        2 => fill_unknown(draft),
        3 => fill_groups(draft),
        _ => fill_nested(draft),
    }
}

/// So many AVPs of each entry of the long rule.
fn fill_entries(draft: &mut Draft, times: u32) -> Result<()> {
    draft.begin(0x80, COMMAND, 0)?;
    draft.text(264, b"host.example", 0)?;
    for number in 0..ENTRIES.saturating_mul(times) {
        draft.number(FIRST + number % ENTRIES, number)?;
    }
    draft.end()
}

/// A watchdog with many AVPs that nobody defines.
fn fill_unknown(draft: &mut Draft) -> Result<()> {
    draft.begin(0x80, 280, 0)?;
    draft.text(264, b"host.example", 0)?;
    draft.text(296, b"example", 0)?;
    for number in 0..40_000 {
        draft.plain(88_000, number)?;
    }
    draft.end()
}

/// Many small groups.
fn fill_groups(draft: &mut Draft) -> Result<()> {
    draft.begin(0x80, COMMAND, 0)?;
    draft.text(264, b"host.example", 0)?;
    for number in 0..4000 {
        let group = draft.open(456, 0x40)?;
        draft.number(432, number)?;
        let units = draft.open(437, 0x40)?;
        draft.number(420, number)?;
        draft.close(units)?;
        draft.close(group)?;
    }
    draft.end()
}

/// Groups inside each other, eight deep.
fn fill_nested(draft: &mut Draft) -> Result<()> {
    draft.begin(0x80, COMMAND, 0)?;
    draft.text(264, b"host.example", 0)?;
    for number in 0..600 {
        fill_depths(draft, number)?;
    }
    draft.end()
}

fn fill_depths(draft: &mut Draft, number: u32) -> Result<()> {
    let mut opened = [0usize; 8];
    for place in opened.iter_mut() {
        *place = draft.open(NESTED, 0x40)?;
        draft.number(432, number)?;
    }
    for place in opened.iter().rev() {
        draft.close(*place)?;
    }
    Ok(())
}
