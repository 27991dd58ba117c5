//! Scripts of two peers, replayed: half of the happenings in long scripts, half in many short ones as a search over
//! interleavings makes them. The writer of a script keeps a rough idea of where its peers stand, so that most
//! happenings are done and some ignored.
use crate::chance::Chance;
use crate::decimal::push_decimal;
use crate::digest::Digest;
use crate::draft::{Draft, put};
use crate::messages::Samples;
use anyhow::Result;
use dm_replay::replay_text;
use std::alloc::Global;

/// How many happenings a long script has, and the short scripts of a round.
const LONG: u32 = 5000;

/// How many messages of a usual length there are to submit.
const USUAL: usize = 32;

/// How many further AVPs each large message has, in blocks of four.
const LARGE: [u32; 5] = [8, 16, 32, 60, 250];

/// The applications of the peers.
const APPLICATIONS: [u32; 4] = [1, 4, 16_777_238, 16_777_251];

/// A peer.
#[derive(Clone, Copy, PartialEq, Eq, Drop)]
enum Side {
    A,
    B,
}

impl Side {
    fn by_chance(chance: &mut Chance) -> Side {
        if chance.is_one_of(2) {
            Side::A
        } else {
            Side::B
        }
    }

    fn other(self) -> Side {
        match self {
            Side::A => Side::B,
            Side::B => Side::A,
        }
    }

    fn word(self) -> &'static [u8] {
        match self {
            Side::A => b" A",
            Side::B => b" B",
        }
    }
}

/// Replays scripts, about 10,000 happenings a round.
pub fn run(alloc: Global, chance: &mut Chance, amount: u32, digest: &mut Digest) -> Result<()> {
    let mut submits = Submits::new(alloc);
    let done = run_with(alloc, &mut submits, chance, amount, digest);
    drop(submits);
    done
}

fn run_with(
    alloc: Global,
    submits: &mut Submits,
    chance: &mut Chance,
    amount: u32,
    digest: &mut Digest,
) -> Result<()> {
    let samples = Samples::new(alloc, chance)?;
    let filled = submits.fill(alloc, &samples, chance);
    drop(samples);
    filled?;
    let mut script = Script::new(alloc);
    for _ in 0..amount {
        script.write_long(submits, chance)?;
        replay_one(alloc, &script, digest)?;
        short_ones(alloc, &mut script, submits, chance, digest)?;
    }
    Ok(())
}

/// Replays one script of about so many happenings.
pub fn run_one(
    alloc: Global,
    chance: &mut Chance,
    happenings: u32,
    digest: &mut Digest,
) -> Result<()> {
    let mut submits = Submits::new(alloc);
    let done = run_one_with(alloc, &mut submits, chance, happenings, digest);
    drop(submits);
    done
}

fn run_one_with(
    alloc: Global,
    submits: &mut Submits,
    chance: &mut Chance,
    happenings: u32,
    digest: &mut Digest,
) -> Result<()> {
    let samples = Samples::new(alloc, chance)?;
    let filled = submits.fill(alloc, &samples, chance);
    drop(samples);
    filled?;
    let mut script = Script::new(alloc);
    script.write(happenings, submits, chance)?;
    replay_one(alloc, &script, digest)
}

fn replay_one(alloc: Global, script: &Script, digest: &mut Digest) -> Result<()> {
    let (text, good) = replay_text(alloc, script.text.as_slice())?;
    digest.add_octets(text.as_slice());
    digest.add(u64::from(good));
    Ok(())
}

/// Short scripts, about as many happenings in all as a long one has.
fn short_ones(
    alloc: Global,
    script: &mut Script,
    submits: &Submits,
    chance: &mut Chance,
    digest: &mut Digest,
) -> Result<()> {
    let mut count = 0u32;
    for _ in 0..LONG {
        if count >= LONG {
            break;
        }
        let length = chance.below(33) + 8;
        if chance.is_one_of(3) {
            script.write_wild(length, submits, chance)?;
        } else {
            script.write(length, submits, chance)?;
        }
        replay_one(alloc, script, digest)?;
        count = count.wrapping_add(script.happenings);
    }
    Ok(())
}

/// The hexadecimal digits of a number.
fn hex_of(number: u32) -> [u8; 8] {
    let mut digits = [b'0'; 8];
    let mut rest = number;
    for digit in digits.iter_mut() {
        *digit = hex_digit((rest & 15) as u8);
        rest >>= 4;
    }
    digits
}

fn hex_digit(number: u8) -> u8 {
    b"0123456789abcdef"
        .get(usize::from(number))
        .copied()
        .unwrap_or(b'0')
}

/// Appends octets in hexadecimal.
fn push_hex(text: &mut Vec<u8>, octets: &[u8]) -> Result<()> {
    for octet in octets {
        text.push(hex_digit(*octet >> 4))?;
        text.push(hex_digit(*octet & 15))?;
    }
    Ok(())
}

/// Messages to submit, in hexadecimal.
#[derive(Drop)]
struct Submits {
    usual: Vec<Vec<u8>>,
    large: Vec<Vec<u8>>,
}

impl Submits {
    fn new(alloc: Global) -> Submits {
        Submits {
            usual: Vec::new(alloc),
            large: Vec::new(alloc),
        }
    }

    fn fill(&mut self, alloc: Global, samples: &Samples, chance: &mut Chance) -> Result<()> {
        let mut room = Vec::new(alloc);
        for index in 0..USUAL {
            let sample = if index % 2 == 0 {
                samples.request(chance)
            } else {
                samples.answer(chance)
            };
            if let Some(sample) = sample {
                sample.copy(chance.word(), &mut room)?;
                let mut hex = Vec::new(alloc);
                push_hex(&mut hex, room.as_slice())?;
                self.usual.push(hex)?;
            }
        }
        for blocks in LARGE {
            self.large.push(large_hex(alloc, blocks, chance)?)?;
        }
        Ok(())
    }

    /// One by the mix: one in twenty is large, and one in four hundred the largest.
    fn pick(&self, chance: &mut Chance) -> Option<&Vec<u8>> {
        match chance.below(400) {
            0 => self.large.get(LARGE.len() - 1),
            1..20 => self.large.get(chance.index(LARGE.len() - 1)),
            _ => self.usual.get(chance.index(USUAL)),
        }
    }
}

/// A large message in hexadecimal.
fn large_hex(alloc: Global, blocks: u32, chance: &mut Chance) -> Result<Vec<u8>> {
    let mut draft = Draft::new(alloc);
    let made = fill_large(&mut draft, blocks, chance);
    let (octets, _places) = draft.done();
    let mut hex = Vec::new(alloc);
    let put = push_hex(&mut hex, octets.as_slice());
    made.and(put).and(Ok(hex))
}

fn fill_large(draft: &mut Draft, blocks: u32, chance: &mut Chance) -> Result<()> {
    draft.begin(0xc0, 272, 4)?;
    draft.text(263, b"gw01.example.net;1790000000;3;large", 0)?;
    for _ in 0..blocks {
        draft.digits(1, 15, chance)?;
        draft.number(55, chance.word())?;
        draft.long(421, chance.number())?;
        draft.digits(461, 200, chance)?;
    }
    draft.end()
}

/// A script as far as it is written, and where its peers stand at its end.
#[derive(Drop)]
struct Script {
    text: Vec<u8>,
    happenings: u32,
    /// How many links were asked for.
    links: u32,
    /// The link on which both are open, else both are closed; nothing is under way.
    open: Option<u32>,
    /// The side of the lesser host, whose link an election keeps.
    lesser: Side,
}

impl Script {
    fn new(alloc: Global) -> Script {
        Script {
            text: Vec::new(alloc),
            happenings: 0,
            links: 0,
            open: None,
            lesser: Side::A,
        }
    }

    fn write_long(&mut self, submits: &Submits, chance: &mut Chance) -> Result<()> {
        self.write(LONG, submits, chance)
    }

    /// A script of about so many happenings.
    fn write(&mut self, length: u32, submits: &Submits, chance: &mut Chance) -> Result<()> {
        self.begin(chance)?;
        for _ in 0..length {
            if self.happenings >= length {
                break;
            }
            self.go_on(submits, chance)?;
        }
        Ok(())
    }

    /// A script of so many happenings by chance, behind two starts.
    fn write_wild(&mut self, length: u32, submits: &Submits, chance: &mut Chance) -> Result<()> {
        self.begin(chance)?;
        let _first = self.start(Side::A)?;
        let _second = self.start(Side::B)?;
        for _ in 0..length {
            self.wild(submits, chance)?;
        }
        Ok(())
    }

    /// The lines of the two peers.
    fn begin(&mut self, chance: &mut Chance) -> Result<()> {
        self.text.clear();
        self.happenings = 0;
        self.links = 0;
        self.open = None;
        self.lesser = Side::by_chance(chance);
        let which = chance.index(APPLICATIONS.len());
        let application = APPLICATIONS.get(which).copied().unwrap_or(4);
        let other = if chance.is_one_of(64) { 7 } else { application };
        self.peer(Side::A, application, chance)?;
        self.peer(Side::B, other, chance)
    }

    fn peer(&mut self, side: Side, application: u32, chance: &mut Chance) -> Result<()> {
        let letter = if side == self.lesser { b'a' } else { b'n' };
        self.text.extend_from_slice(b"peer")?;
        self.text.extend_from_slice(side.word())?;
        self.text
            .extend_from_slice(&[b' ', letter + chance.below(13) as u8])?;
        push_decimal(&mut self.text, chance.word())?;
        self.text.extend_from_slice(b".mnc001.mcc262.example")?;
        self.number(application)?;
        self.text.push(b'\n')?;
        Ok(())
    }

    fn number(&mut self, number: u32) -> Result<()> {
        self.text.push(b' ')?;
        push_decimal(&mut self.text, number)
    }

    /// A happening: its verb, its link, its side and its numbers, as far as it has them.
    fn line(
        &mut self,
        verb: &[u8],
        link: Option<u32>,
        side: Option<Side>,
        numbers: &[u32],
    ) -> Result<()> {
        self.text.extend_from_slice(verb)?;
        if let Some(link) = link {
            self.number(link)?;
        }
        if let Some(side) = side {
            self.text.extend_from_slice(side.word())?;
        }
        for number in numbers {
            self.number(*number)?;
        }
        self.text.push(b'\n')?;
        self.happenings = self.happenings.wrapping_add(1);
        Ok(())
    }

    fn told(&mut self, verb: &[u8], side: Side) -> Result<()> {
        self.line(verb, None, Some(side), &[])
    }

    /// The link that the side asks for.
    fn start(&mut self, side: Side) -> Result<u32> {
        let link = self.links;
        self.links = link.wrapping_add(1);
        self.told(b"start", side)?;
        Ok(link)
    }

    fn ack(&mut self, link: u32) -> Result<()> {
        self.line(b"ack", Some(link), None, &[])
    }

    fn stop(&mut self, side: Side, chance: &mut Chance) -> Result<()> {
        self.line(b"stop", None, Some(side), &[chance.below(3)])
    }

    fn lose(&mut self, link: u32, chance: &mut Chance) -> Result<()> {
        let kept = [chance.below(2000), chance.below(2000)];
        self.line(b"lose", Some(link), None, &kept)
    }

    /// What is next towards the side comes, now and then in two pieces.
    fn deliver(&mut self, link: u32, side: Side, chance: &mut Chance) -> Result<()> {
        if chance.is_one_of(8) {
            self.line(b"piece", Some(link), Some(side), &[chance.below(60) + 1])?;
        }
        self.line(b"deliver", Some(link), Some(side), &[])
    }

    /// So many deliveries towards the side.
    fn drain(&mut self, link: u32, side: Side, count: u32, chance: &mut Chance) -> Result<()> {
        for _ in 0..count {
            self.deliver(link, side, chance)?;
        }
        Ok(())
    }

    fn submit(&mut self, side: Side, submits: &Submits, chance: &mut Chance) -> Result<()> {
        let Some(hex) = submits.pick(chance) else {
            return Ok(());
        };
        self.text.extend_from_slice(b"submit")?;
        self.text.extend_from_slice(side.word())?;
        self.text.push(b' ')?;
        let at = self.text.len();
        self.text.extend_from_slice(hex.as_slice())?;
        self.text.push(b'\n')?;
        put(
            &mut self.text,
            at.saturating_add(24),
            &hex_of(chance.word()),
        );
        put(
            &mut self.text,
            at.saturating_add(32),
            &hex_of(chance.word()),
        );
        self.happenings = self.happenings.wrapping_add(1);
        Ok(())
    }

    /// What a run goes on with.
    fn go_on(&mut self, submits: &Submits, chance: &mut Chance) -> Result<()> {
        let Some(link) = self.open else {
            return if chance.is_one_of(3) {
                self.open_by_both(chance)
            } else {
                self.open_by_one(chance)
            };
        };
        match chance.below(16) {
            0..6 => self.exchange(link, submits, chance),
            6..10 => self.watch(link, chance),
            10..13 => self.try_in_vain(link, chance),
            _ => self.fall(link, submits, chance),
        }
    }

    /// One side dials.
    fn open_by_one(&mut self, chance: &mut Chance) -> Result<()> {
        let side = Side::by_chance(chance);
        let link = self.start(side)?;
        match chance.below(10) {
            0 => self.line(b"nack", Some(link), None, &[]),
            1 => self.leave(link, side, chance),
            _ => {
                self.ack(link)?;
                self.deliver(link, side.other(), chance)?;
                self.deliver(link, side, chance)?;
                self.open = Some(link);
                Ok(())
            }
        }
    }

    /// The side that dialled gives up before it is answered.
    fn leave(&mut self, link: u32, side: Side, chance: &mut Chance) -> Result<()> {
        self.ack(link)?;
        if chance.is_one_of(2) {
            self.told(b"timeout", side)?;
        } else {
            self.told(b"restart", side)?;
        }
        self.drain(link, side.other(), 2, chance)?;
        self.deliver(link, side, chance)
    }

    /// Both sides dial at once, and an election keeps one connection.
    fn open_by_both(&mut self, chance: &mut Chance) -> Result<()> {
        let lesser = self.lesser;
        let greater = lesser.other();
        let (kept, other) = if chance.is_one_of(2) {
            let kept = self.start(lesser)?;
            (kept, self.start(greater)?)
        } else {
            let other = self.start(greater)?;
            (self.start(lesser)?, other)
        };
        if chance.is_one_of(3) {
            self.mix_acks(kept, other, chance)?;
        } else {
            self.ack(kept)?;
            self.ack(other)?;
        }
        self.deliver(kept, greater, chance)?;
        self.deliver(other, lesser, chance)?;
        self.deliver(kept, lesser, chance)?;
        self.deliver(other, greater, chance)?;
        self.deliver(other, lesser, chance)?;
        self.deliver(kept, greater, chance)?;
        self.open = Some(kept);
        Ok(())
    }

    /// The two connects come about among deliveries.
    fn mix_acks(&mut self, kept: u32, other: u32, chance: &mut Chance) -> Result<()> {
        let (first, second) = if chance.is_one_of(2) {
            (kept, other)
        } else {
            (other, kept)
        };
        self.ack(first)?;
        self.deliver(first, Side::by_chance(chance), chance)?;
        self.ack(second)?;
        self.deliver(second, Side::by_chance(chance), chance)?;
        self.deliver(first, Side::by_chance(chance), chance)
    }

    /// Both users send, and what they sent comes.
    fn exchange(&mut self, link: u32, submits: &Submits, chance: &mut Chance) -> Result<()> {
        let mut to_a = 0u32;
        let mut to_b = 0u32;
        for _ in 0..chance.below(20) + 2 {
            let side = Side::by_chance(chance);
            let coming = match side {
                Side::A => &mut to_a,
                Side::B => &mut to_b,
            };
            if *coming == 0 || chance.is_one_of(2) {
                *coming = coming.wrapping_add(1);
                self.submit(side.other(), submits, chance)?;
            } else {
                *coming = coming.wrapping_sub(1);
                self.deliver(link, side, chance)?;
            }
        }
        self.drain(link, Side::A, to_a, chance)?;
        self.drain(link, Side::B, to_b, chance)
    }

    /// A watchdog and its answer.
    fn watch(&mut self, link: u32, chance: &mut Chance) -> Result<()> {
        let side = Side::by_chance(chance);
        self.told(b"tick", side)?;
        self.deliver(link, side.other(), chance)?;
        self.deliver(link, side, chance)
    }

    /// What an open peer ignores.
    fn try_in_vain(&mut self, link: u32, chance: &mut Chance) -> Result<()> {
        let side = Side::by_chance(chance);
        match chance.below(6) {
            0 => self.told(b"start", side),
            1 => self.ack(link),
            2 => self.line(b"nack", Some(chance.below(link)), None, &[]),
            3 => self.told(b"timeout", side),
            4 => self.deliver(link, side, chance),
            _ => self.deliver(chance.below(link), side, chance),
        }
    }

    /// The connection ends while messages are under way.
    fn fall(&mut self, link: u32, submits: &Submits, chance: &mut Chance) -> Result<()> {
        let side = Side::by_chance(chance);
        let count = chance.below(3);
        for _ in 0..count {
            self.submit(side, submits, chance)?;
        }
        match chance.below(4) {
            0 => self.lose(link, chance)?,
            1 => self.told(b"restart", side)?,
            2 => self.stop(side, chance)?,
            _ => {
                self.told(b"tick", side)?;
                self.told(b"tick", side)?;
                self.told(b"tick", side)?;
            }
        }
        self.drain(link, side.other(), count + 1, chance)?;
        self.deliver(link, side, chance)?;
        self.deliver(link, side.other(), chance)?;
        self.deliver(link, side, chance)?;
        self.open = None;
        Ok(())
    }

    /// Anything, on one of the first two links.
    fn wild(&mut self, submits: &Submits, chance: &mut Chance) -> Result<()> {
        let link = chance.below(2);
        let side = Side::by_chance(chance);
        match chance.below(32) {
            0..7 => self.ack(link),
            7..20 => self.deliver(link, side, chance),
            20..23 => self.submit(side, submits, chance),
            23 => self.line(b"nack", Some(link), None, &[]),
            24 => self.stop(side, chance),
            25 => self.lose(link, chance),
            26 => self.told(b"restart", side),
            27 => self.told(b"timeout", side),
            28 => self.ack(chance.below(5)),
            29 => self.told(b"start", side),
            _ => self.told(b"tick", side),
        }
    }
}
