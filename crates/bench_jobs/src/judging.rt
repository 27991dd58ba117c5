//! Messages judged and checked under a dictionary, and all their faults listed.
use crate::chance::Chance;
use crate::digest::Digest;
use crate::messages::Sample;
use anyhow::Result;
use dm_dict::Dictionary;
use dm_wire::{Message, MessageRef};
use std::alloc::Global;

/// So many messages under a dictionary, each the copy of a sample, a fourth of them damaged.
pub fn judge_samples(
    alloc: Global,
    dictionary: &Dictionary,
    samples: &[Sample],
    chance: &mut Chance,
    amount: u32,
    digest: &mut Digest,
) -> Result<()> {
    let mut room = Vec::new(alloc);
    for number in 0..amount {
        if let Some(sample) = samples.get(chance.index(samples.len())) {
            sample.copy(number, &mut room)?;
            if chance.is_one_of(4) {
                sample.damage(chance, &mut room);
            }
            tell(alloc, dictionary, chance.below(16), room.as_slice(), digest);
        }
    }
    Ok(())
}

/// Tells a message in one way. Most are judged where they lie.
pub fn tell(alloc: Global, dictionary: &Dictionary, way: u32, octets: &[u8], digest: &mut Digest) {
    match way {
        0..10 => judge(dictionary, octets, digest),
        10..12 => check(alloc, dictionary, octets, digest),
        12 => list_faults(alloc, dictionary, octets, digest),
        13 => locate_faults(alloc, dictionary, octets, digest),
        14 => list_decoded(alloc, dictionary, octets, digest),
        _ => locate_decoded(alloc, dictionary, octets, digest),
    }
}

/// A message is judged where it lies.
pub fn judge(dictionary: &Dictionary, octets: &[u8], digest: &mut Digest) {
    match MessageRef::read(octets) {
        Ok(message) => {
            let judged = dictionary.judge(&message);
            digest.add_judged(judged);
        }
        Err(fault) => digest.add_code(fault.result_code()),
    }
}

/// A copy of a message is checked.
pub fn check(alloc: Global, dictionary: &Dictionary, octets: &[u8], digest: &mut Digest) {
    match Message::decode(alloc, octets) {
        Ok(message) => {
            let verdict = dictionary.check(alloc, &message);
            match verdict {
                Ok(verdict) => digest.add_verdict(&verdict),
                Err(_) => digest.add(2),
            }
            digest.add_avps(message.avps.as_slice());
        }
        Err(fault) => digest.add_code(fault.result_code()),
    }
}

/// All that is wrong with a message.
pub fn list_faults(alloc: Global, dictionary: &Dictionary, octets: &[u8], digest: &mut Digest) {
    match MessageRef::read(octets) {
        Ok(message) => match dictionary.faults_in(alloc, &message) {
            Ok(faults) => digest.add_faults(faults.as_slice()),
            Err(_) => digest.add(1),
        },
        Err(fault) => digest.add_code(fault.result_code()),
    }
}

/// All that is wrong with a message, and where.
fn locate_faults(alloc: Global, dictionary: &Dictionary, octets: &[u8], digest: &mut Digest) {
    match MessageRef::read(octets) {
        Ok(message) => match dictionary.located_in(alloc, &message) {
            Ok(faults) => digest.add_located(faults.as_slice()),
            Err(_) => digest.add(12),
        },
        Err(fault) => digest.add_code(fault.result_code()),
    }
}

/// All that is wrong with a copy of a message.
fn list_decoded(alloc: Global, dictionary: &Dictionary, octets: &[u8], digest: &mut Digest) {
    match Message::decode(alloc, octets) {
        Ok(message) => match dictionary.faults(alloc, &message) {
            Ok(faults) => digest.add_faults(faults.as_slice()),
            Err(_) => digest.add(13),
        },
        Err(fault) => digest.add_code(fault.result_code()),
    }
}

/// All that is wrong with a copy of a message, and where.
fn locate_decoded(alloc: Global, dictionary: &Dictionary, octets: &[u8], digest: &mut Digest) {
    match Message::decode(alloc, octets) {
        Ok(message) => match dictionary.located(alloc, &message) {
            Ok(faults) => digest.add_located(faults.as_slice()),
            Err(_) => digest.add(14),
        },
        Err(fault) => digest.add_code(fault.result_code()),
    }
}
