//! The lines of a live peer, and of a node of several neighbours: a configuration, and what happens then, message by
//! message in hexadecimal digits.
use crate::chance::Chance;
use crate::digest::Digest;
use crate::draft::put;
use crate::messages::{Sample, Samples, capabilities, letters_of};
use anyhow::Result;
use dm_live::serve_lines;
use std::alloc::Global;

/// How many things happen in one input.
const INPUT: u32 = 1000;

/// How many neighbours there are where there are several.
const NEIGHBOURS: u32 = 12;

/// How many octets a long piece has, or a few more.
const LONG_PIECE: usize = 65_536;

/// How many messages of each kind are kept.
const KEPT: u32 = 32;

const DIGITS: &[u8; 16] = b"0123456789abcdef";

/// A neighbour's host. Its letters behind the first eight are its number's.
const HOST: &[u8] = b"gateway-aaaaaaaa.region1.epc.example.net";

/// Where those letters' digits stand in a Capabilities-Exchange-Request.
const LETTERS: usize = 72;

/// Inputs in which `amount` things happen, and what is answered to them.
pub fn run(alloc: Global, chance: &mut Chance, amount: u32, digest: &mut Digest) -> Result<()> {
    let mut script = Script::new(alloc, *chance);
    let done = script.run(amount, digest);
    drop(script);
    done
}

/// The digit of the lowest four bits.
fn digit_of(number: u32) -> u8 {
    DIGITS[(number & 15) as usize]
}

/// The eight digits of a number.
fn digits_of(number: u32) -> [u8; 8] {
    let mut digits = [b'0'; 8];
    let mut rest = number;
    for digit in digits.iter_mut() {
        rest = rest.rotate_left(4);
        *digit = digit_of(rest);
    }
    digits
}

/// Puts the digits of the number's letters.
fn put_letters(line: &mut Vec<u8>, at: usize, number: u32) {
    let [one, two, three, four, five, six, seven, eight] = letters_of(number);
    put(
        line,
        at,
        &digits_of(u32::from_be_bytes([one, two, three, four])),
    );
    let behind = at.saturating_add(8);
    put(
        line,
        behind,
        &digits_of(u32::from_be_bytes([five, six, seven, eight])),
    );
}

/// A message in digits, to be copied.
#[derive(Drop)]
struct Form {
    digits: Vec<u8>,
    has_session: bool,
}

impl Form {
    fn new(alloc: Global) -> Form {
        Form {
            digits: Vec::new(alloc),
            has_session: false,
        }
    }

    /// Adds the digits of the octets.
    fn spell(&mut self, octets: &[u8]) -> Result<()> {
        for octet in octets {
            self.digits.push(digit_of(u32::from(*octet >> 4)))?;
            self.digits.push(digit_of(u32::from(*octet)))?;
        }
        Ok(())
    }

    /// Adds the message to a line, with the numbers as its identifiers and the first one in its Session-Id.
    fn copy(&self, line: &mut Vec<u8>, number: u32, other: u32) -> Result<()> {
        let at = line.len();
        line.extend_from_slice(self.digits.as_slice())?;
        put(line, at.saturating_add(24), &digits_of(number));
        put(line, at.saturating_add(32), &digits_of(other));
        if self.has_session {
            put_letters(line, at.saturating_add(152), number);
        }
        Ok(())
    }
}

/// Adds a sample to the forms.
fn push_form(
    alloc: Global,
    forms: &mut Vec<Form>,
    sample: Option<&Sample>,
    has_session: bool,
) -> Result<()> {
    let mut octets = Vec::new(alloc);
    if let Some(sample) = sample {
        sample.copy(0, &mut octets)?;
    }
    let mut form = Form::new(alloc);
    form.spell(octets.as_slice())?;
    form.has_session = has_session;
    forms.push(form)?;
    Ok(())
}

/// Adds a decimal number and a space.
fn push_number(line: &mut Vec<u8>, number: u32) -> Result<()> {
    let mut digits = [b' '; 11];
    let mut rest = number;
    let mut length = 1usize;
    for digit in digits.iter_mut().rev().skip(1) {
        *digit = b'0' + (rest % 10) as u8;
        rest /= 10;
        length = length.saturating_add(1);
        if rest == 0 {
            break;
        }
    }
    let spaces = digits.len().saturating_sub(length);
    line.extend_from_slice(digits.get(spaces..).unwrap_or(b"0 "))?;
    Ok(())
}

/// What is kept of a neighbour: its connection, and the number of the node's next request to it.
#[derive(Clone, Copy, Drop)]
struct Link {
    conn: u32,
    own: u32,
}

/// Writes the lines.
#[derive(Drop)]
struct Script {
    alloc: Global,
    chance: Chance,
    requests: Vec<Form>,
    answers: Vec<Form>,
    watchdogs: Vec<Form>,
    watchdog_answers: Vec<Form>,
    call: Form,
    links: Vec<Link>,
    last_conn: u32,
    last_number: u32,
    input: Vec<u8>,
    output: Vec<u8>,
}

impl Script {
    fn new(alloc: Global, chance: Chance) -> Script {
        Script {
            alloc,
            chance,
            requests: Vec::new(alloc),
            answers: Vec::new(alloc),
            watchdogs: Vec::new(alloc),
            watchdog_answers: Vec::new(alloc),
            call: Form::new(alloc),
            links: Vec::new(alloc),
            last_conn: 0,
            last_number: 0,
            input: Vec::new(alloc),
            output: Vec::new(alloc),
        }
    }

    fn run(&mut self, amount: u32, digest: &mut Digest) -> Result<()> {
        match Samples::new(self.alloc, &mut self.chance) {
            Ok(samples) => {
                let added = self.add_forms(&samples);
                drop(samples);
                added?;
            }
            Err(error) => return Err(error),
        }
        for input in 0..amount.div_ceil(INPUT) {
            let count = amount
                .saturating_sub(input.saturating_mul(INPUT))
                .min(INPUT);
            let neighbours = if input % 2 == 0 { NEIGHBOURS } else { 1 };
            self.write_input(neighbours, count)?;
            self.output.clear();
            let mut reader = self.input.as_slice();
            serve_lines(self.alloc, &mut reader, &mut self.output)?;
            digest.add_octets(self.output.as_slice());
        }
        Ok(())
    }

    fn add_forms(&mut self, samples: &Samples) -> Result<()> {
        let alloc = self.alloc;
        for _ in 0..KEPT {
            push_form(
                alloc,
                &mut self.requests,
                samples.request(&mut self.chance),
                true,
            )?;
            push_form(
                alloc,
                &mut self.answers,
                samples.answer(&mut self.chance),
                true,
            )?;
            push_form(
                alloc,
                &mut self.watchdogs,
                samples.watchdog(&mut self.chance),
                false,
            )?;
            let answer = samples.watchdog_answer(&mut self.chance);
            push_form(alloc, &mut self.watchdog_answers, answer, false)?;
        }
        let call = capabilities(alloc, HOST, true)?;
        self.call.spell(call.as_slice())
    }

    /// Writes an input of so many neighbours, in which so many things happen.
    fn write_input(&mut self, neighbours: u32, count: u32) -> Result<()> {
        self.input.clear();
        self.links.clear();
        self.configure(neighbours)?;
        for index in 0..neighbours {
            self.links.push(Link { conn: 0, own: 1 })?;
            self.connect(index)?;
        }
        for _ in 0..count {
            let index = if neighbours > 1 {
                self.chance.below(neighbours)
            } else {
                0
            };
            self.go_on(index)?;
        }
        Ok(())
    }

    fn configure(&mut self, neighbours: u32) -> Result<()> {
        self.input
            .extend_from_slice(b"host charging.epc.example.net\nrealm epc.example.net\n")?;
        self.input
            .extend_from_slice(b"address 10.0.0.2\nvendor 10415\nproduct charging\n")?;
        self.input
            .extend_from_slice(b"auth 4\nfirst 1\nearly 4096\nmax 1048576\n")?;
        for index in 0..neighbours {
            self.input.extend_from_slice(b"peer ")?;
            let at = self.input.len();
            self.input.extend_from_slice(HOST)?;
            put(&mut self.input, at.saturating_add(8), &letters_of(index));
            self.input.extend_from_slice(b"\n")?;
        }
        self.input.extend_from_slice(b"go\n")?;
        Ok(())
    }

    /// One thing happens to a neighbour by chance.
    fn go_on(&mut self, index: u32) -> Result<()> {
        match self.chance.below(1000) {
            0..4 => self.lose(index),
            4..14 => self.send_long(index),
            14..64 => self.tick(index),
            64..114 => self.send_watchdog(index),
            114..314 => self.send_answer(index),
            314..384 => self.send_cut(index),
            384..700 => self.send_request(index),
            700..704 => self.misspell(index),
            _ => self.submit(index),
        }
    }

    /// A number that no message has yet.
    fn next_number(&mut self) -> u32 {
        self.last_number = self.last_number.wrapping_add(1);
        self.last_number
    }

    fn conn_of(&self, index: u32) -> u32 {
        match self.links.get(index as usize) {
            Some(link) => link.conn,
            None => 0,
        }
    }

    /// Begins a line of a word and a connection.
    fn begin_line(&mut self, word: &[u8], conn: u32) -> Result<()> {
        self.input.extend_from_slice(word)?;
        push_number(&mut self.input, conn)
    }

    /// Begins a line of a word, and of the neighbour where there are several.
    fn begin_order(&mut self, word: &[u8], index: u32) -> Result<()> {
        self.input.extend_from_slice(word)?;
        if self.links.len() > 1 {
            push_number(&mut self.input, index)?;
        }
        Ok(())
    }

    fn end_line(&mut self) -> Result<()> {
        self.input.extend_from_slice(b"\n")?;
        Ok(())
    }
}

/// What happens.
impl Script {
    /// The neighbour makes a connection, and says who it is.
    fn connect(&mut self, index: u32) -> Result<()> {
        self.last_conn = self.last_conn.wrapping_add(1);
        let conn = self.last_conn;
        if let Some(link) = self.links.get_mut(index as usize) {
            link.conn = conn;
        }
        self.begin_line(b"accept ", conn)?;
        self.end_line()?;
        self.begin_line(b"octets ", conn)?;
        let number = self.next_number();
        let at = self.input.len();
        self.call.copy(&mut self.input, number, number)?;
        put_letters(&mut self.input, at.saturating_add(LETTERS), index);
        self.end_line()
    }

    /// The connection is lost, and made again.
    fn lose(&mut self, index: u32) -> Result<()> {
        self.begin_line(b"gone ", self.conn_of(index))?;
        self.end_line()?;
        self.connect(index)
    }

    fn add_request(&mut self) -> Result<()> {
        let number = self.next_number();
        match self.requests.get(self.chance.index(self.requests.len())) {
            Some(form) => form.copy(&mut self.input, number, number.wrapping_mul(0x9e37_79b9)),
            None => Ok(()),
        }
    }

    fn add_answer(&mut self) -> Result<()> {
        let number = self.next_number();
        match self.answers.get(self.chance.index(self.answers.len())) {
            Some(form) => form.copy(&mut self.input, number, number.wrapping_mul(0x9e37_79b9)),
            None => Ok(()),
        }
    }

    fn send_request(&mut self, index: u32) -> Result<()> {
        self.begin_line(b"octets ", self.conn_of(index))?;
        self.add_request()?;
        self.end_line()
    }

    fn send_answer(&mut self, index: u32) -> Result<()> {
        self.begin_line(b"octets ", self.conn_of(index))?;
        self.add_answer()?;
        self.end_line()
    }

    fn send_watchdog(&mut self, index: u32) -> Result<()> {
        self.begin_line(b"octets ", self.conn_of(index))?;
        let number = self.next_number();
        if let Some(form) = self.watchdogs.get(self.chance.index(self.watchdogs.len())) {
            form.copy(&mut self.input, number, number)?;
        }
        self.end_line()
    }

    /// A request comes in two pieces.
    fn send_cut(&mut self, index: u32) -> Result<()> {
        self.begin_line(b"octets ", self.conn_of(index))?;
        let before = 40 + self.chance.below(100) as usize * 2;
        let conn = self.conn_of(index);
        let number = self.next_number();
        if let Some(form) = self.requests.get(self.chance.index(self.requests.len()))
            && let Some((front, back)) = form.digits.split_at_checked(before)
        {
            let at = self.input.len();
            self.input.extend_from_slice(front)?;
            put(&mut self.input, at.saturating_add(24), &digits_of(number));
            put(&mut self.input, at.saturating_add(32), &digits_of(number));
            self.input.extend_from_slice(b"\noctets ")?;
            push_number(&mut self.input, conn)?;
            self.input.extend_from_slice(back)?;
        }
        self.end_line()
    }

    /// Many messages come at once.
    fn send_long(&mut self, index: u32) -> Result<()> {
        self.begin_line(b"octets ", self.conn_of(index))?;
        let end = self.input.len().saturating_add(2 * LONG_PIECE);
        for _ in 0..LONG_PIECE {
            if self.input.len() >= end {
                break;
            }
            if self.chance.is_one_of(2) {
                self.add_request()?;
            } else {
                self.add_answer()?;
            }
        }
        self.end_line()
    }

    /// The watchdog's time is over, and the neighbour answers.
    fn tick(&mut self, index: u32) -> Result<()> {
        self.begin_order(b"tick ", index)?;
        self.end_line()?;
        self.begin_line(b"octets ", self.conn_of(index))?;
        let mut number = 0;
        if let Some(link) = self.links.get_mut(index as usize) {
            number = link.own;
            link.own = number.wrapping_add(1);
        }
        let which = self.chance.index(self.watchdog_answers.len());
        if let Some(form) = self.watchdog_answers.get(which) {
            form.copy(&mut self.input, number, number)?;
        }
        self.end_line()
    }

    /// The user sends an answer, or a request of its own.
    fn submit(&mut self, index: u32) -> Result<()> {
        self.begin_order(b"submit ", index)?;
        if self.chance.is_one_of(8) {
            self.add_request()?;
        } else {
            self.add_answer()?;
        }
        self.end_line()
    }

    /// A line that tells nothing.
    fn misspell(&mut self, index: u32) -> Result<()> {
        self.begin_line(b"octets ", self.conn_of(index))?;
        self.add_answer()?;
        self.input.extend_from_slice(b"0\n")?;
        Ok(())
    }
}
