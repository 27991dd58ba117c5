//! Dictionaries read from texts, asked and printed, and the configurations of nodes: what a program waits for when it
//! starts. Most texts are the given one with some definitions behind it; one in so many is as large as 3GPP's.
use crate::chance::Chance;
use crate::decimal::push_decimal;
use crate::digest::Digest;
use anyhow::{Result, bail};
use dm_base::Node;
use dm_dict::{DictFault, Dictionary, Ip};
use dm_peer::Config;
use std::alloc::Global;

/// In so many rounds one text is large.
const LARGE_EVERY: u32 = 26;

/// How many configurations a round makes.
const CONFIGS: u32 = 12;

/// How many names of a dictionary are looked up, and as many codes.
const LOOK_UPS: u32 = 32;

/// The words of names.
pub const WORDS: [&[u8]; 32] = [
    b"Access",
    b"Bearer",
    b"Charging",
    b"Default",
    b"Event",
    b"Flow",
    b"Guaranteed",
    b"Home",
    b"Identifier",
    b"Jitter",
    b"Key",
    b"Location",
    b"Media",
    b"Network",
    b"Offline",
    b"Policy",
    b"Quota",
    b"Rating",
    b"Service",
    b"Traffic",
    b"Usage",
    b"Visited",
    b"Wildcarded",
    b"Extended",
    b"Area",
    b"Boundary",
    b"Context",
    b"Direction",
    b"Envelope",
    b"Failure",
    b"Group",
    b"Host",
];

/// The types of AVPs that are no groups.
const TYPES: [&[u8]; 10] = [
    b" OctetString",
    b" Unsigned32",
    b" UTF8String",
    b" Unsigned64",
    b" Unsigned32",
    b" DiameterIdentity",
    b" Address",
    b" Time",
    b" Integer32",
    b" Enumerated",
];

/// How much a text defines.
#[derive(Clone, Copy, Drop)]
struct Size {
    avps: u32,
    /// One in so many AVPs is a group.
    groups: u32,
    commands: u32,
}

const LARGE: Size = Size {
    avps: 6000,
    groups: 5,
    commands: 300,
};

const SMALL: Size = Size {
    avps: 40,
    groups: 8,
    commands: 4,
};

/// Reads, asks and prints a dictionary a round, and makes some configurations.
pub fn run(
    alloc: Global,
    text: &[u8],
    chance: &mut Chance,
    amount: u32,
    digest: &mut Digest,
) -> Result<()> {
    let base = Dictionary::base(alloc)?;
    let mut sheet = Sheet::new(alloc);
    let done = rounds(alloc, &base, &mut sheet, text, chance, amount, digest);
    drop(sheet);
    drop(base);
    done
}

fn rounds(
    alloc: Global,
    base: &Dictionary,
    sheet: &mut Sheet,
    text: &[u8],
    chance: &mut Chance,
    amount: u32,
    digest: &mut Digest,
) -> Result<()> {
    for round in 0..amount {
        if round % LARGE_EVERY == 1 {
            sheet.write(b"@ 2\n", LARGE, chance)?;
        } else {
            sheet.write(text, SMALL, chance)?;
        }
        read_one(alloc, base, sheet, chance, digest)?;
        for _ in 0..CONFIGS {
            make_config(alloc, chance, digest)?;
        }
    }
    Ok(())
}

fn read_one(
    alloc: Global,
    base: &Dictionary,
    sheet: &Sheet,
    chance: &mut Chance,
    digest: &mut Digest,
) -> Result<()> {
    match Dictionary::read(alloc, sheet.text.as_slice(), base) {
        Ok(dictionary) => {
            look_up(&dictionary, sheet, chance, digest);
            let printed = dictionary.print(alloc);
            drop(dictionary);
            digest.add_octets(printed?.as_slice());
            Ok(())
        }
        Err(fault) => tell_fault(fault, digest),
    }
}

/// Asks a dictionary for some of the sheet's names and codes, which it has or not.
fn look_up(dictionary: &Dictionary, sheet: &Sheet, chance: &mut Chance, digest: &mut Digest) {
    for _ in 0..LOOK_UPS {
        if let Some(definition) = dictionary.avp_by_name(sheet.name(chance.index(sheet.count()))) {
            digest.add(u64::from(definition.code));
        }
        let code = sheet.first_code.wrapping_add(chance.below(8000));
        if let Some(definition) = dictionary.avp_by_code(code, Some(sheet.vendor)) {
            digest.add_octets(definition.name.as_slice());
        }
        let command = sheet.first_command.wrapping_add(chance.below(200));
        if let Some(definition) = dictionary.command(command, chance.is_one_of(2), false) {
            digest.add_octets(definition.name.as_slice());
        }
    }
}

/// Adds which fault a text has, and where.
pub fn tell_fault(fault: DictFault, digest: &mut Digest) -> Result<()> {
    let (kind, line) = match fault {
        DictFault::Syntax(line) => (1, line),
        DictFault::Range(line) => (2, line),
        DictFault::Duplicate(line) => (3, line),
        DictFault::Order(line) => (4, line),
        DictFault::UnknownName(line) => (5, line),
        DictFault::NoMemory => bail!("out of memory"),
    };
    digest.add(kind);
    digest.add(line as u64);
    Ok(())
}

/// The configuration of a node for one of its peers.
fn make_config(alloc: Global, chance: &mut Chance, digest: &mut Digest) -> Result<()> {
    let node = make_node(alloc, chance)?;
    let mut peer = Vec::new(alloc);
    push_host(&mut peer, b"peer", chance)?;
    let config = Config::new(alloc, node, peer, chance.word())?;
    digest.add_octets(config.peer_host());
    digest.add_octets(config.node().host());
    drop(config);
    Ok(())
}

fn make_node(alloc: Global, chance: &mut Chance) -> Result<Node> {
    let mut host = Vec::new(alloc);
    push_host(&mut host, b"node", chance)?;
    let realm = Vec::from_slice(alloc, b"mnc001.mcc262.3gppnetwork.org")?;
    let mut addresses = Vec::new(alloc);
    addresses.push(Ip::V4(chance.word().to_be_bytes()))?;
    let product = String::from_str(alloc, "bench")?;
    let mut auth = Vec::new(alloc);
    for _ in 0..chance.below(4) + 1 {
        auth.push(16_777_216 + chance.below(200))?;
    }
    let acct = Vec::from_slice(alloc, &[3])?;
    Ok(Node::new(host, realm, addresses, 10415, product, auth, acct)?)
}

fn push_host(host: &mut Vec<u8>, front: &[u8], chance: &mut Chance) -> Result<()> {
    host.extend_from_slice(front)?;
    push_decimal(host, chance.word())?;
    host.extend_from_slice(b".epc.mnc001.mcc262.3gppnetwork.org")?;
    Ok(())
}

/// A text of definitions, and the names that it defines.
#[derive(Drop)]
struct Sheet {
    text: Vec<u8>,
    names: Vec<u8>,
    /// Where each name ends.
    ends: Vec<usize>,
    vendor: u32,
    first_code: u32,
    first_command: u32,
}

impl Sheet {
    fn new(alloc: Global) -> Sheet {
        Sheet {
            text: Vec::new(alloc),
            names: Vec::new(alloc),
            ends: Vec::new(alloc),
            vendor: 0,
            first_code: 0,
            first_command: 0,
        }
    }

    fn count(&self) -> usize {
        self.ends.len()
    }

    fn name(&self, index: usize) -> &[u8] {
        let end = self.ends.get(index).copied().unwrap_or(0);
        let start = match index.checked_sub(1) {
            Some(before) => self.ends.get(before).copied().unwrap_or(0),
            None => 0,
        };
        self.names.get(start..end).unwrap_or(&[])
    }

    /// A text that begins with the given one and defines this much. One in eight has a fault near its end.
    fn write(&mut self, front: &[u8], size: Size, chance: &mut Chance) -> Result<()> {
        self.text.clear();
        self.text.extend_from_slice(front)?;
        self.vendor = 10_000 + chance.below(50_000);
        self.first_code = 1000 + chance.below(100_000);
        self.first_command = 8_388_608 + chance.below(1_000_000);
        self.make_names(size.avps.saturating_add(size.commands), chance)?;
        self.text.extend_from_slice(b"@ vendor Operator ")?;
        push_decimal(&mut self.text, self.vendor)?;
        self.text.push(b'\n')?;
        let group = chance.below(size.groups);
        for index in 0..size.avps {
            if index.checked_rem(size.groups) == Some(group) {
                self.put_group(index, size, chance)?;
            } else {
                self.put_avp(index, chance)?;
            }
        }
        let fault = chance.below(16);
        for index in 0..size.commands {
            if index.wrapping_add(2) == size.commands {
                self.put_fault(fault)?;
            }
            self.put_command(index, size, chance)?;
        }
        Ok(())
    }

    /// Names of two to four words and a number, of which no two are alike.
    fn make_names(&mut self, count: u32, chance: &mut Chance) -> Result<()> {
        self.names.clear();
        self.ends.clear();
        for number in 0..count {
            let mut bits = chance.number() as usize;
            for _ in 0..2 + bits % 3 {
                bits >>= 5;
                let word = WORDS.get(bits & 31).copied().unwrap_or(b"Word");
                self.names.extend_from_slice(word)?;
                self.names.push(b'-')?;
            }
            push_decimal(&mut self.names, number)?;
            self.ends.push(self.names.len())?;
        }
        Ok(())
    }

    /// Appends a name.
    fn put_name(&mut self, index: u32) -> Result<()> {
        let index = index as usize;
        let end = self.ends.get(index).copied().unwrap_or(0);
        let start = match index.checked_sub(1) {
            Some(before) => self.ends.get(before).copied().unwrap_or(0),
            None => 0,
        };
        self.text
            .extend_from_slice(self.names.get(start..end).unwrap_or(&[]))?;
        Ok(())
    }

    /// Appends octets and a number.
    fn put_number(&mut self, front: &[u8], number: u32) -> Result<()> {
        self.text.extend_from_slice(front)?;
        push_decimal(&mut self.text, number)
    }

    fn put_avp(&mut self, index: u32, chance: &mut Chance) -> Result<()> {
        let which = chance.index(TYPES.len());
        self.text.extend_from_slice(b"@ ")?;
        self.put_name(index)?;
        self.put_number(b" ", self.first_code.wrapping_add(index))?;
        self.text
            .extend_from_slice(TYPES.get(which).copied().unwrap_or(b" Time"))?;
        self.text.extend_from_slice(b" : Operator")?;
        if which == TYPES.len() - 1 {
            self.put_values(chance)?;
        }
        self.text.push(b'\n')?;
        Ok(())
    }

    /// The values of an Enumerated.
    fn put_values(&mut self, chance: &mut Chance) -> Result<()> {
        for value in 0..chance.below(6) + 1 {
            let front: &[u8] = if value == 0 {
                b" { STATE-"
            } else {
                b", STATE-"
            };
            self.put_number(front, value)?;
            self.put_number(b" ", value)?;
        }
        self.text.extend_from_slice(b" }")?;
        Ok(())
    }

    fn put_group(&mut self, index: u32, size: Size, chance: &mut Chance) -> Result<()> {
        self.text.extend_from_slice(b"< ")?;
        self.put_name(index)?;
        self.put_number(
            b" > ::= < AVP Header: ",
            self.first_code.wrapping_add(index),
        )?;
        self.text.extend_from_slice(b" : Operator >\n")?;
        self.put_rule(chance.below(11) + 5, size, chance)
    }

    fn put_command(&mut self, index: u32, size: Size, chance: &mut Chance) -> Result<()> {
        self.text.extend_from_slice(b"< ")?;
        self.put_name(size.avps.wrapping_add(index))?;
        let code = self.first_command.wrapping_add(index / 2);
        self.put_number(b" > ::= < Diameter Header: ", code)?;
        let rest: &[u8] = if index % 2 == 0 {
            b", REQ, PXY >\n"
        } else {
            b", PXY >\n"
        };
        self.text.extend_from_slice(rest)?;
        self.put_rule(chance.below(31) + 10, size, chance)
    }

    /// A rule of so many entries, a third of them required.
    fn put_rule(&mut self, entries: u32, size: Size, chance: &mut Chance) -> Result<()> {
        let step = chance.below(size.avps / 41) + 1;
        let mut place = chance.below(size.avps);
        for number in 0..entries {
            let (front, behind): (&[u8], &[u8]) = match (number < entries / 3, number % 4) {
                (true, _) => (b"    { ", b" }\n"),
                (false, 1) => (b"    *[ ", b" ]\n"),
                (false, _) => (b"    [ ", b" ]\n"),
            };
            self.text.extend_from_slice(front)?;
            self.put_name(place)?;
            self.text.extend_from_slice(behind)?;
            place = place.wrapping_add(step).checked_rem(size.avps).unwrap_or(0);
        }
        self.text.extend_from_slice(b"    *[ AVP ]\n")?;
        Ok(())
    }

    /// A fault, where this number is one of two.
    fn put_fault(&mut self, fault: u32) -> Result<()> {
        let line: &[u8] = match fault {
            0 => b"< Late > ::= < Diameter Header: 16777000, REQ > { Nowhere-Defined }\n",
            1 => b"@ Origin-Host 1999999 DiameterIdentity : Operator\n",
            _ => b"",
        };
        self.text.extend_from_slice(line)?;
        Ok(())
    }
}
