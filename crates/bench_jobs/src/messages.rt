//! Messages as a charging network sends them, made by chance: two in five a Credit-Control-Request (RFC 8506, 3.1), as
//! many its answer, and the rest watchdogs (RFC 6733, 5.5). They are made once as samples; each message is the copy of
//! one with numbers of its own.
use crate::chance::Chance;
use crate::draft::{Draft, put};
use anyhow::Result;
use std::alloc::Global;

/// How many samples there are of each kind.
const SAMPLES: usize = 32;

/// Where the number of a session stands in a message that begins with a Session-Id, and how many letters it has.
pub const SESSION: usize = 76;

/// A message to be copied.
#[derive(Drop)]
pub struct Sample {
    octets: Vec<u8>,
    /// Where each AVP begins, those in groups too.
    places: Vec<usize>,
    has_session: bool,
}

impl Sample {
    /// The sample that a draft is.
    pub fn of(draft: Draft, has_session: bool) -> Sample {
        let (octets, places) = draft.done();
        Sample {
            octets,
            places,
            has_session,
        }
    }

    /// Copies the message into the room, with the number as its identifiers and in its Session-Id.
    pub fn copy(&self, number: u32, room: &mut Vec<u8>) -> Result<()> {
        room.clear();
        room.extend_from_slice(self.octets.as_slice())?;
        put(room, 12, &number.to_be_bytes());
        put(room, 16, &number.wrapping_mul(0x9e37_79b9).to_be_bytes());
        if self.has_session {
            put(room, SESSION, &letters_of(number));
        }
        Ok(())
    }

    /// Whether the message begins with a Session-Id.
    pub fn has_session(&self) -> bool {
        self.has_session
    }

    /// Damages a copy of this message in one place. Some damages leave it good.
    pub fn damage(&self, chance: &mut Chance, octets: &mut Vec<u8>) {
        let which = chance.index(self.places.len());
        let avp = self.places.get(which).copied().unwrap_or(20);
        let other = chance.index(self.places.len());
        let small = (chance.word() & 0x7f) as u8;
        match chance.below(16) {
            0 => put(octets, 0, &[small]),
            1 => put(octets, 4, &[0xe0]),
            2 => put(octets, 5, &[0, 9, small]),
            3 => put(octets, 3, &[small]),
            4 => put(octets, avp, &[0, 0xff, 0xff, small]),
            5 => self.copy_code(other, avp, octets),
            6 => put(octets, avp.saturating_add(7), &[small]),
            7 => put(octets, avp.saturating_add(5), &[0, 0, 7]),
            8 => put(octets, avp.saturating_add(4), &[0xc0]),
            9 => put(octets, avp.saturating_add(8), &[0xff]),
            10 => put(octets, avp.saturating_add(6), &[1, small]),
            11 => octets.truncate(octets.len().saturating_sub(usize::from(small))),
            12 => put(octets, avp.saturating_add(4), &[0]),
            13 => put(octets, avp, &[0x7f, 0, 0, small, 0]),
            14 => put(octets, avp.saturating_add(11), &[small]),
            _ => put(octets, avp.saturating_add(9), &[small, 0xfe, small]),
        }
    }

    /// An AVP gets the code of another one.
    fn copy_code(&self, other: usize, avp: usize, octets: &mut Vec<u8>) {
        let from = self.places.get(other).copied().unwrap_or(20);
        let mut code = [0u8; 4];
        if let Some(there) = octets.get(from..) {
            for (place, octet) in code.iter_mut().zip(there) {
                *place = *octet;
            }
        }
        put(octets, avp, &code);
    }
}

/// The number as eight letters.
pub fn letters_of(number: u32) -> [u8; 8] {
    let mut letters = [b'a'; 8];
    let mut rest = number;
    for letter in letters.iter_mut() {
        *letter = b'a' + (rest & 15) as u8;
        rest >>= 4;
    }
    letters
}

/// The samples of each kind.
#[derive(Drop)]
pub struct Samples {
    requests: Vec<Sample>,
    answers: Vec<Sample>,
    watchdogs: Vec<Sample>,
    watchdog_answers: Vec<Sample>,
}

impl Samples {
    /// Samples by chance.
    pub fn new(alloc: Global, chance: &mut Chance) -> Result<Samples> {
        let mut samples = Samples::empty(alloc);
        let filled = samples.fill(alloc, chance);
        filled.and(Ok(samples))
    }

    /// No samples yet.
    pub fn empty(alloc: Global) -> Samples {
        Samples {
            requests: Vec::new(alloc),
            answers: Vec::new(alloc),
            watchdogs: Vec::new(alloc),
            watchdog_answers: Vec::new(alloc),
        }
    }

    /// Makes samples by chance.
    pub fn fill(&mut self, alloc: Global, chance: &mut Chance) -> Result<()> {
        for _ in 0..SAMPLES {
            self.requests.push(credit_request(alloc, chance)?)?;
            self.answers.push(credit_answer(alloc, chance)?)?;
            self.watchdogs.push(watchdog(alloc, chance, true)?)?;
            self.watchdog_answers.push(watchdog(alloc, chance, false)?)?;
        }
        Ok(())
    }

    /// A sample by the mix.
    pub fn pick(&self, chance: &mut Chance) -> Option<&Sample> {
        let kinds = match chance.below(50) {
            0..21 => &self.requests,
            21..42 => &self.answers,
            42..46 => &self.watchdogs,
            _ => &self.watchdog_answers,
        };
        kinds.get(chance.index(SAMPLES))
    }

    /// A Credit-Control-Request.
    pub fn request(&self, chance: &mut Chance) -> Option<&Sample> {
        self.requests.get(chance.index(SAMPLES))
    }

    /// A Credit-Control-Answer.
    pub fn answer(&self, chance: &mut Chance) -> Option<&Sample> {
        self.answers.get(chance.index(SAMPLES))
    }

    /// A Device-Watchdog-Request.
    pub fn watchdog(&self, chance: &mut Chance) -> Option<&Sample> {
        self.watchdogs.get(chance.index(SAMPLES))
    }

    /// A Device-Watchdog-Answer.
    pub fn watchdog_answer(&self, chance: &mut Chance) -> Option<&Sample> {
        self.watchdog_answers.get(chance.index(SAMPLES))
    }
}

/// The AVPs of a subscription (RFC 8506, 8.46).
fn subscription(draft: &mut Draft, kind: u32, chance: &mut Chance) -> Result<()> {
    let group = draft.open(443, 0x40)?;
    draft.number(450, kind)?;
    draft.digits(444, 12 + kind % 4, chance)?;
    draft.close(group)
}

/// What a service was granted, asked for or used (RFC 8506, 8.17 to 8.19).
fn units(draft: &mut Draft, code: u32, counters: u32, chance: &mut Chance) -> Result<()> {
    let group = draft.open(code, 0x40)?;
    if counters > 0 {
        draft.number(420, chance.word())?;
    }
    for counter in [421u32, 412, 414].into_iter().take(counters as usize) {
        draft.long(counter, chance.number() >> 20)?;
    }
    draft.close(group)
}

/// A service with its units (RFC 8506, 8.16), of a request or of an answer.
fn service(draft: &mut Draft, is_request: bool, chance: &mut Chance) -> Result<()> {
    let group = draft.open(456, 0x40)?;
    if is_request {
        units(draft, 437, chance.below(2), chance)?;
        units(draft, 446, chance.below(3) + 1, chance)?;
    } else {
        units(draft, 431, chance.below(2) + 1, chance)?;
        draft.number(448, 3600)?;
        draft.number(268, 2001)?;
    }
    draft.number(432, chance.below(1000))?;
    draft.number(439, chance.below(1000))?;
    draft.close(group)
}

/// A Credit-Control-Request by chance.
pub fn credit_request(alloc: Global, chance: &mut Chance) -> Result<Sample> {
    let mut draft = Draft::new(alloc);
    let made = fill_credit_request(&mut draft, chance);
    let sample = Sample::of(draft, true);
    made.and(Ok(sample))
}

fn fill_credit_request(draft: &mut Draft, chance: &mut Chance) -> Result<()> {
    draft.begin(0xc0, 272, 4)?;
    draft.text(
        263,
        b"gw01.example.net;1790000000;3;aaaaaaaaaaaaaaaaaaaaaaaaaaaaaa",
        0,
    )?;
    draft.text(264, b"gateway-aa.region-aa.epc.mnc001.mcc262.example", 6)?;
    draft.text(296, b"epc.mnc001.mcc262.3gppnetwork", 0)?;
    draft.text(283, b"charging.mnc001.mcc262.example", 0)?;
    draft.number(258, 4)?;
    draft.text(461, b"32251@3gpp.org", 0)?;
    draft.number(416, chance.below(4) + 1)?;
    draft.number(415, chance.below(40))?;
    draft.text(293, b"charging-aa.region-aa.mnc001.mcc262.example", 3)?;
    draft.digits(1, 15, chance)?;
    draft.number(278, chance.word())?;
    draft.number(55, chance.word() | 0x8000_0000)?;
    subscription(draft, 0, chance)?;
    subscription(draft, 1, chance)?;
    draft.number(455, 1)?;
    for _ in 0..chance.below(2) + 1 {
        service(draft, true, chance)?;
    }
    draft.vendor(2, 10415, 0x80, chance.word())?;
    draft.text(282, b"relay-aa.region-aa.mnc001.mcc262.example", 0)?;
    if chance.is_one_of(2) {
        let group = draft.open(458, 0)?;
        draft.number(459, 0)?;
        draft.digits(460, 16, chance)?;
        draft.close(group)?;
    }
    draft.end()
}

/// A Credit-Control-Answer by chance.
pub fn credit_answer(alloc: Global, chance: &mut Chance) -> Result<Sample> {
    let mut draft = Draft::new(alloc);
    let made = fill_credit_answer(&mut draft, chance);
    let sample = Sample::of(draft, true);
    made.and(Ok(sample))
}

fn fill_credit_answer(draft: &mut Draft, chance: &mut Chance) -> Result<()> {
    draft.begin(0x40, 272, 4)?;
    draft.text(
        263,
        b"gw01.example.net;1790000000;3;aaaaaaaaaaaaaaaaaaaaaaaaaaaaaa",
        0,
    )?;
    draft.number(268, 2001)?;
    draft.text(264, b"charging-aa.region-aa.mnc001.mcc262.example", 3)?;
    draft.text(296, b"charging.mnc001.mcc262.example", 0)?;
    draft.number(258, 4)?;
    draft.number(416, chance.below(4) + 1)?;
    draft.number(415, chance.below(40))?;
    service(draft, false, chance)?;
    draft.end()
}

/// A Device-Watchdog-Request by chance, or the answer.
pub fn watchdog(alloc: Global, chance: &mut Chance, is_request: bool) -> Result<Sample> {
    let mut draft = Draft::new(alloc);
    let made = fill_watchdog(&mut draft, chance, is_request);
    let sample = Sample::of(draft, false);
    made.and(Ok(sample))
}

fn fill_watchdog(draft: &mut Draft, chance: &mut Chance, is_request: bool) -> Result<()> {
    draft.begin(if is_request { 0x80 } else { 0 }, 280, 0)?;
    if !is_request {
        draft.number(268, 2001)?;
    }
    draft.text(264, b"charging-aa.region-aa.mnc001.mcc262.example", 3)?;
    draft.text(296, b"charging.mnc001.mcc262.example", 0)?;
    draft.number(278, chance.word())?;
    draft.end()
}

/// A Capabilities-Exchange-Request of the host, or the answer (RFC 6733, 5.3): credit control alone.
///
/// The host begins behind 28 octets of a request, and behind 40 of an answer.
pub fn capabilities(alloc: Global, host: &[u8], is_request: bool) -> Result<Vec<u8>> {
    let mut draft = Draft::new(alloc);
    let made = fill_capabilities(&mut draft, host, is_request);
    let (octets, _places) = draft.done();
    made.and(Ok(octets))
}

fn fill_capabilities(draft: &mut Draft, host: &[u8], is_request: bool) -> Result<()> {
    draft.begin(if is_request { 0x80 } else { 0 }, 257, 0)?;
    if !is_request {
        draft.number(268, 2001)?;
    }
    draft.text(264, host, 0)?;
    draft.text(296, b"epc.example.net", 0)?;
    draft.text(257, &[0, 1, 10, 0, 0, 1], 0)?;
    draft.number(266, 10415)?;
    draft.optional(269, b"gateway")?;
    draft.number(258, 4)?;
    draft.end()
}
