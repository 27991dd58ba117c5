//! Messages of the base protocol by chance: what a dictionary that has nothing else knows.
use crate::chance::Chance;
use crate::draft::Draft;
use crate::messages::{Sample, credit_request, watchdog};
use anyhow::Result;
use std::alloc::Global;

/// How many samples there are of each kind.
const SAMPLES: u32 = 16;

/// Vendors whose applications a host may have.
const VENDORS: [u32; 4] = [10415, 13019, 5535, 193];

/// Appends samples: watchdogs, capabilities exchanges, disconnects and answers with a failed AVP, and some requests of
/// an application.
pub fn fill(alloc: Global, chance: &mut Chance, samples: &mut Vec<Sample>) -> Result<()> {
    for number in 0..SAMPLES {
        samples.push(watchdog(alloc, chance, true)?)?;
        samples.push(watchdog(alloc, chance, false)?)?;
        for kind in 0..4 {
            samples.push(sample(alloc, chance, kind)?)?;
        }
        if number % 4 == 0 {
            samples.push(credit_request(alloc, chance)?)?;
        }
    }
    Ok(())
}

fn sample(alloc: Global, chance: &mut Chance, kind: u32) -> Result<Sample> {
    let mut draft = Draft::new(alloc);
    let made = match kind {
        0 => fill_capabilities(&mut draft, chance, true),
        1 => fill_capabilities(&mut draft, chance, false),
        2 => fill_disconnect(&mut draft, chance),
        _ => fill_error(&mut draft, chance),
    };
    let sample = Sample::of(draft, false);
    made.and(Ok(sample))
}

/// Who sends the message.
fn origin(draft: &mut Draft) -> Result<()> {
    draft.text(264, b"charging-aa.region-aa.mnc001.mcc262.example", 3)?;
    draft.text(296, b"charging.mnc001.mcc262.example", 0)
}

/// A Capabilities-Exchange-Request of a host with many applications, or the answer (RFC 6733, 5.3).
fn fill_capabilities(draft: &mut Draft, chance: &mut Chance, is_request: bool) -> Result<()> {
    draft.begin(if is_request { 0x80 } else { 0 }, 257, 0)?;
    if !is_request {
        draft.number(268, 2001)?;
    }
    origin(draft)?;
    for number in 0..chance.below(2) + 1 {
        draft.text(257, &[0, 1, 10, 0, 0, (number & 0x7f) as u8], 0)?;
    }
    draft.number(266, 10415)?;
    draft.optional(269, b"gateway")?;
    draft.number(278, chance.word())?;
    for vendor in VENDORS {
        draft.number(265, vendor)?;
    }
    for _ in 0..chance.below(3) + 1 {
        draft.number(258, chance.below(8))?;
    }
    for _ in 0..chance.below(9) + 1 {
        fill_application(draft, chance)?;
    }
    let revision = draft.open(267, 0)?;
    draft.data(&chance.below(100).to_be_bytes())?;
    draft.close(revision)?;
    draft.end()
}

/// An application of a vendor (RFC 6733, 6.11).
fn fill_application(draft: &mut Draft, chance: &mut Chance) -> Result<()> {
    let which = chance.index(VENDORS.len());
    let group = draft.open(260, 0x40)?;
    draft.number(266, VENDORS.get(which).copied().unwrap_or(10415))?;
    draft.number(258, 16_777_216 + chance.below(200))?;
    draft.close(group)
}

/// A Disconnect-Peer-Request (RFC 6733, 5.4.1).
fn fill_disconnect(draft: &mut Draft, chance: &mut Chance) -> Result<()> {
    draft.begin(0x80, 282, 0)?;
    origin(draft)?;
    draft.number(273, chance.below(3))?;
    draft.end()
}

/// A Device-Watchdog-Answer that names what was wrong with the request (RFC 6733, 7.5).
fn fill_error(draft: &mut Draft, chance: &mut Chance) -> Result<()> {
    draft.begin(0, 280, 0)?;
    draft.number(268, 5000 + chance.below(18))?;
    origin(draft)?;
    draft.optional(281, b"an AVP of the request is wrong")?;
    let group = draft.open(279, 0x40)?;
    draft.number(278, chance.word())?;
    for _ in 0..chance.below(3) {
        draft.number(258, chance.word())?;
    }
    draft.close(group)?;
    draft.number(278, chance.word())?;
    draft.end()
}
