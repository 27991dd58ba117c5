//! The job `check`: what the other jobs don't watch. Messages are judged, checked and all their faults listed under
//! dictionaries that are like those in use: the base one, the given texts, and a text as large as 3GPP's; awkward ones
//! under a dictionary of their own. Texts on both sides of each size from which a reader does otherwise are read, lines
//! of hexadecimal of all makes are viewed, and one long script is replayed.
use crate::awkward::Awkward;
use crate::captures::{self, Given};
use crate::chance::Chance;
use crate::digest::Digest;
use crate::judging::{judge_samples, tell};
use crate::messages::{Sample, credit_answer, credit_request, watchdog};
use crate::{base_messages, replay, thresholds, wide};
use anyhow::Result;
use dm_dict::Dictionary;
use std::alloc::Global;

/// How many messages a round has under the base dictionary, under the given texts and under the wide one.
const BASE: u32 = 80;

const READY: u32 = 200;

const WIDE: u32 = 50;

/// Of so many rounds one has an awkward message.
const AWKWARD: u32 = 16;

/// Of so many rounds one reads a text.
const TEXTS: u32 = 6;

/// Of so many rounds one views lines.
const LINES: u32 = 3;

/// How many happenings the script has for each round.
const HAPPENINGS: u32 = 40;

/// Runs so many rounds, each part of all of them behind the one before.
pub fn run(
    alloc: Global,
    text: &[u8],
    chance: &mut Chance,
    amount: u32,
    digest: &mut Digest,
) -> Result<()> {
    let base = Dictionary::base(alloc)?;
    let done = run_over(alloc, &base, text, chance, amount, digest);
    drop(base);
    done?;
    thresholds::run(alloc, chance, amount / TEXTS, digest)?;
    replay::run_one(alloc, chance, amount.saturating_mul(HAPPENINGS), digest)
}

fn run_over(
    alloc: Global,
    base: &Dictionary,
    text: &[u8],
    chance: &mut Chance,
    amount: u32,
    digest: &mut Digest,
) -> Result<()> {
    under_base(alloc, base, chance, amount, digest)?;
    under_ready(alloc, base, text, chance, amount, digest)?;
    under_wide(alloc, base, text, chance, amount, digest)?;
    under_awkward(alloc, base, text, chance, amount, digest)
}

/// Messages of the base protocol under its dictionary alone.
fn under_base(
    alloc: Global,
    base: &Dictionary,
    chance: &mut Chance,
    amount: u32,
    digest: &mut Digest,
) -> Result<()> {
    let mut samples = Vec::new(alloc);
    let filled = base_messages::fill(alloc, chance, &mut samples);
    let messages = amount.saturating_mul(BASE);
    let done = judge_samples(alloc, base, samples.as_slice(), chance, messages, digest);
    drop(samples);
    filled.and(done)
}

/// Messages of a charging network under the given texts, and lines of such messages.
fn under_ready(
    alloc: Global,
    base: &Dictionary,
    text: &[u8],
    chance: &mut Chance,
    amount: u32,
    digest: &mut Digest,
) -> Result<()> {
    match Dictionary::read(alloc, text, base) {
        Ok(dictionary) => {
            let mut samples = Vec::new(alloc);
            let filled = fill_mix(alloc, chance, &mut samples);
            let given = Given {
                alloc,
                dictionary: &dictionary,
                samples: samples.as_slice(),
            };
            let done = judge_and_view(&given, chance, amount, digest);
            drop(samples);
            drop(dictionary);
            filled.and(done)
        }
        Err(fault) => Err(fault.into()),
    }
}

fn judge_and_view(
    given: &Given<'_>,
    chance: &mut Chance,
    amount: u32,
    digest: &mut Digest,
) -> Result<()> {
    let messages = amount.saturating_mul(READY);
    judge_samples(
        given.alloc,
        given.dictionary,
        given.samples,
        chance,
        messages,
        digest,
    )?;
    captures::run(given, chance, amount / LINES, digest)
}

/// Appends samples: two in five a Credit-Control-Request, as many an answer, and the rest watchdogs.
fn fill_mix(alloc: Global, chance: &mut Chance, samples: &mut Vec<Sample>) -> Result<()> {
    for number in 0..20 {
        for _ in 0..2 {
            samples.push(credit_request(alloc, chance)?)?;
            samples.push(credit_answer(alloc, chance)?)?;
        }
        samples.push(watchdog(alloc, chance, number % 2 == 0)?)?;
    }
    Ok(())
}

/// Messages with AVPs of vendors under a text that has these.
fn under_wide(
    alloc: Global,
    base: &Dictionary,
    text: &[u8],
    chance: &mut Chance,
    amount: u32,
    digest: &mut Digest,
) -> Result<()> {
    let mut page = Vec::new(alloc);
    page.extend_from_slice(text)?;
    wide::fill_text(&mut page)?;
    match Dictionary::read(alloc, page.as_slice(), base) {
        Ok(dictionary) => {
            let done = judge_wide(alloc, &dictionary, chance, amount, digest);
            drop(dictionary);
            done
        }
        Err(fault) => Err(fault.into()),
    }
}

fn judge_wide(
    alloc: Global,
    dictionary: &Dictionary,
    chance: &mut Chance,
    amount: u32,
    digest: &mut Digest,
) -> Result<()> {
    let mut samples = Vec::new(alloc);
    let filled = wide::fill_samples(alloc, chance, &mut samples);
    let messages = amount.saturating_mul(WIDE);
    let done = judge_samples(
        alloc,
        dictionary,
        samples.as_slice(),
        chance,
        messages,
        digest,
    );
    drop(samples);
    filled.and(done)
}

/// Awkward messages under a dictionary that has their definitions too.
fn under_awkward(
    alloc: Global,
    base: &Dictionary,
    text: &[u8],
    chance: &mut Chance,
    amount: u32,
    digest: &mut Digest,
) -> Result<()> {
    let mut awkward = Awkward::new(alloc);
    let made = awkward.fill(alloc, text);
    let done = match Dictionary::read(alloc, awkward.text(), base) {
        Ok(dictionary) => {
            let done = judge_awkward(alloc, &dictionary, &awkward, chance, amount, digest);
            drop(dictionary);
            done
        }
        Err(fault) => Err(fault.into()),
    };
    drop(awkward);
    made.and(done)
}

fn judge_awkward(
    alloc: Global,
    dictionary: &Dictionary,
    awkward: &Awkward,
    chance: &mut Chance,
    amount: u32,
    digest: &mut Digest,
) -> Result<()> {
    let mut room = Vec::new(alloc);
    for number in 0..amount / AWKWARD {
        awkward.copy(number, chance, &mut room)?;
        let way = match number / 3 % 4 {
            0 => 0,
            1 => 12,
            2 => 10,
            _ => 15,
        };
        tell(alloc, dictionary, way, room.as_slice(), digest);
    }
    Ok(())
}
