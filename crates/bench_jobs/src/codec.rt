//! Messages read, judged, decoded, answered and held: the job of a relay or a server, and of who guards or tests one.
use crate::awkward::Awkward;
use crate::chance::Chance;
use crate::digest::Digest;
use crate::judging::{check, judge, list_faults};
use crate::messages::Samples;
use anyhow::Result;
use dm_base::{KindRef, view};
use dm_dict::Dictionary;
use dm_wire::{Framer, Message, MessageBuf, MessageRef};
use std::alloc::Global;

/// After so many messages comes an awkward one.
const AWKWARD: u32 = 5000;

/// `amount` messages, a third of them damaged.
pub fn run(
    alloc: Global,
    text: &[u8],
    chance: &mut Chance,
    amount: u32,
    digest: &mut Digest,
) -> Result<()> {
    let mut awkward = Awkward::new(alloc);
    let made = awkward.fill(alloc, text);
    let done = match Dictionary::base(alloc) {
        Ok(base) => {
            let done = with_base(alloc, &base, &awkward, chance, amount, digest);
            drop(base);
            done
        }
        Err(error) => Err(error.into()),
    };
    drop(awkward);
    made.and(done)
}

fn with_base(
    alloc: Global,
    base: &Dictionary,
    awkward: &Awkward,
    chance: &mut Chance,
    amount: u32,
    digest: &mut Digest,
) -> Result<()> {
    match Dictionary::read(alloc, awkward.text(), base) {
        Ok(dictionary) => {
            let done = with_dictionary(alloc, &dictionary, awkward, chance, amount, digest);
            drop(dictionary);
            done
        }
        Err(error) => Err(error.into()),
    }
}

fn with_dictionary(
    alloc: Global,
    dictionary: &Dictionary,
    awkward: &Awkward,
    chance: &mut Chance,
    amount: u32,
    digest: &mut Digest,
) -> Result<()> {
    let mut samples = Samples::empty(alloc);
    let mut framer = Framer::new(alloc, 16_777_212);
    let filled = samples.fill(alloc, chance);
    let mut job = Job {
        alloc,
        dictionary,
        samples: &samples,
        digest,
    };
    let done = job.each(awkward, &mut framer, chance, amount);
    drop(framer);
    drop(samples);
    filled.and(done)
}

/// What all messages are told to.
#[derive(Drop)]
struct Job<'a> {
    alloc: Global,
    dictionary: &'a Dictionary,
    samples: &'a Samples,
    digest: &'a mut Digest,
}

impl Job<'_> {
    fn each(
        &mut self,
        awkward: &Awkward,
        framer: &mut Framer,
        chance: &mut Chance,
        amount: u32,
    ) -> Result<()> {
        let mut room = Vec::new(self.alloc);
        for number in 0..amount {
            self.one(framer, chance, number, &mut room)?;
            if number % AWKWARD == 0 {
                awkward.copy(number / AWKWARD, chance, &mut room)?;
                self.tell_awkward(number / AWKWARD, room.as_slice());
            }
        }
        Ok(())
    }

    fn one(
        &mut self,
        framer: &mut Framer,
        chance: &mut Chance,
        number: u32,
        room: &mut Vec<u8>,
    ) -> Result<()> {
        if let Some(sample) = self.samples.pick(chance) {
            sample.copy(number, room)?;
            if chance.is_one_of(3) {
                sample.damage(chance, room);
            }
        }
        self.tell(framer, chance.below(64), room.as_slice());
        Ok(())
    }

    /// Most messages are judged where they lie; of the others each is told in one further way.
    fn tell(&mut self, framer: &mut Framer, way: u32, octets: &[u8]) {
        match way {
            0..32 => judge(self.dictionary, octets, self.digest),
            32..36 => list_faults(self.alloc, self.dictionary, octets, self.digest),
            36..40 => self.view(octets),
            40..48 => check(self.alloc, self.dictionary, octets, self.digest),
            48..56 => self.build_again(octets),
            56..63 => self.hold(octets),
            _ => self.drip(framer, octets),
        }
    }

    fn tell_awkward(&mut self, number: u32, octets: &[u8]) {
        match number / 5 % 3 {
            0 => judge(self.dictionary, octets, self.digest),
            1 => list_faults(self.alloc, self.dictionary, octets, self.digest),
            _ => check(self.alloc, self.dictionary, octets, self.digest),
        }
    }

    fn view(&mut self, octets: &[u8]) {
        match MessageRef::read(octets) {
            Ok(message) => match view(self.dictionary, &message) {
                Ok(kind) => self.add_kind(kind),
                Err(judged) => self.digest.add_judged(judged),
            },
            Err(fault) => self.digest.add_code(fault.result_code()),
        }
    }

    /// A copy of the message is sent on as its answer.
    fn build_again(&mut self, octets: &[u8]) {
        match Message::decode(self.alloc, octets) {
            Ok(message) => {
                let header = message.header.answer();
                let answer = Message::new(header, message.avps);
                match answer.encode(self.alloc) {
                    Ok(encoded) => self.digest.add_octets(encoded.as_slice()),
                    Err(fault) => self.digest.add_code(fault.result_code()),
                }
            }
            Err(fault) => self.digest.add_code(fault.result_code()),
        }
    }

    /// The message is kept as it came, and its AVPs are asked for.
    fn hold(&mut self, octets: &[u8]) {
        let held = match Vec::from_slice(self.alloc, octets) {
            Ok(copy) => MessageBuf::new(self.alloc, copy),
            Err(_) => return self.digest.add(3),
        };
        match held {
            Ok(message) => {
                for index in 0..message.len() {
                    if let Some(avp) = message.get(index) {
                        self.digest.add_avp(avp);
                    }
                }
            }
            Err(fault) => self.digest.add_code(fault.result_code()),
        }
    }

    /// The message comes octet by octet.
    fn drip(&mut self, framer: &mut Framer, octets: &[u8]) {
        for octet in octets {
            if framer.feed(&[*octet]).is_err() {
                self.digest.add(4);
                *framer = Framer::new(self.alloc, 16_777_212);
            }
            match framer.next() {
                Ok(Some(frame)) => self.digest.add_octets(frame.as_slice()),
                Ok(None) => {}
                Err(_) => self.digest.add(5),
            }
        }
    }

    fn add_kind(&mut self, kind: KindRef<'_>) {
        match kind {
            KindRef::Dwr => self.digest.add(9),
            KindRef::Dwa { .. } => self.digest.add(10),
            _ => self.digest.add(11),
        }
    }
}
