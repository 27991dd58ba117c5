//! Small texts on both sides of each size from which a reader may do otherwise: rules of a few entries and of many,
//! lists of values, vendors; seldom a text of more than 8,192 AVPs. Some have a name or a number that stands twice.
use crate::chance::Chance;
use crate::decimal::push_decimal;
use crate::dictionaries::{WORDS, tell_fault};
use crate::digest::Digest;
use anyhow::Result;
use dm_dict::Dictionary;
use std::alloc::Global;

/// The entries of rules.
const RULES: [u32; 6] = [16, 17, 32, 33, 64, 65];

/// The values of lists.
const LISTS: [u32; 6] = [8, 9, 32, 33, 64, 65];

/// How many AVPs a text has that are no lists and no groups.
const AVPS: u32 = 66;

/// The fronts of names; behind one stand three digits, so that it has 8, 12, 20 or 31 octets. Without a front a name is
/// made of words.
const FRONTS: [&[u8]; 6] = [
    b"",
    b"",
    b"Entry",
    b"Class-Of-",
    b"Charging-Service-",
    b"Service-Data-Volume-Counter-",
];

/// Which of a list's members has what the first one has.
#[derive(Clone, Copy, Drop)]
enum Twice {
    None,
    Second,
    Last,
}

impl Twice {
    /// The number of the member of this number, of so many.
    fn number(self, number: u32, count: u32) -> u32 {
        let is_first_again = match self {
            Twice::None => false,
            Twice::Second => number == 1,
            Twice::Last => number.wrapping_add(1) == count,
        };
        if is_first_again { 0 } else { number }
    }
}

/// What stands twice in a text.
#[derive(Clone, Copy, Drop)]
struct Faults {
    entry: Twice,
    value_name: Twice,
    value_number: Twice,
    vendor_name: Twice,
    vendor_number: Twice,
}

impl Faults {
    fn none() -> Faults {
        Faults {
            entry: Twice::None,
            value_name: Twice::None,
            value_number: Twice::None,
            vendor_name: Twice::None,
            vendor_number: Twice::None,
        }
    }

    /// One fault, or in seven of ten texts none.
    fn by_chance(chance: &mut Chance) -> Faults {
        let mut faults = Faults::none();
        let twice = if chance.is_one_of(2) {
            Twice::Second
        } else {
            Twice::Last
        };
        match chance.below(20) {
            0 | 1 => faults.entry = twice,
            2 => faults.value_name = twice,
            3 => faults.value_number = twice,
            4 => faults.vendor_name = twice,
            5 => faults.vendor_number = twice,
            _ => {}
        }
        faults
    }
}

/// Reads so many texts, and a large one behind each 48th of them.
pub fn run(alloc: Global, chance: &mut Chance, amount: u32, digest: &mut Digest) -> Result<()> {
    let base = Dictionary::base(alloc)?;
    let mut page = Page::new(alloc);
    let done = rounds(alloc, &base, &mut page, chance, amount, digest);
    drop(page);
    drop(base);
    done
}

fn rounds(
    alloc: Global,
    base: &Dictionary,
    page: &mut Page,
    chance: &mut Chance,
    amount: u32,
    digest: &mut Digest,
) -> Result<()> {
    for round in 0..amount {
        page.write(chance)?;
        read_one(alloc, base, page.text.as_slice(), digest)?;
        if round % 48 == 23 {
            page.write_large(chance)?;
            read_one(alloc, base, page.text.as_slice(), digest)?;
        }
    }
    Ok(())
}

fn read_one(alloc: Global, base: &Dictionary, text: &[u8], digest: &mut Digest) -> Result<()> {
    match Dictionary::read(alloc, text, base) {
        Ok(dictionary) => {
            ask(&dictionary, digest);
            drop(dictionary);
            Ok(())
        }
        Err(fault) => tell_fault(fault, digest),
    }
}

/// Asks for the last vendor, and the names of the first list's values.
fn ask(dictionary: &Dictionary, digest: &mut Digest) {
    let vendor = dictionary.vendor_by_name(b"Operator-116");
    digest.add(u64::from(vendor.unwrap_or(0)));
    if let Some(definition) = dictionary.avp_by_name(b"List-0") {
        for number in 0..70 {
            digest.add(u64::from(definition.values.leaves_out(number)));
            if let Some(name) = definition.values.name(number) {
                digest.add(name.as_slice().len() as u64);
            }
        }
    }
}

/// A text, and the front of its names.
#[derive(Drop)]
struct Page {
    text: Vec<u8>,
    front: &'static [u8],
}

impl Page {
    fn new(alloc: Global) -> Page {
        Page {
            text: Vec::new(alloc),
            front: b"",
        }
    }

    fn write(&mut self, chance: &mut Chance) -> Result<()> {
        let faults = Faults::by_chance(chance);
        self.begin(chance)?;
        self.put_vendors(chance.below(2).wrapping_add(16), faults)?;
        for number in 0..AVPS {
            self.put_avp(number)?;
        }
        for number in 0..4 {
            let which = chance.index(LISTS.len());
            self.put_list(number, LISTS.get(which).copied().unwrap_or(8), faults)?;
        }
        for number in 0..4 {
            let which = chance.index(RULES.len());
            self.put_rule(number, RULES.get(which).copied().unwrap_or(16), faults)?;
        }
        Ok(())
    }

    /// About 8,192 AVPs. The last one of some is defined twice.
    fn write_large(&mut self, chance: &mut Chance) -> Result<()> {
        self.begin(chance)?;
        self.front = b"";
        self.put_vendors(16, Faults::none())?;
        for number in 0..chance.below(200).wrapping_add(8100) {
            self.put_avp(number)?;
        }
        if chance.is_one_of(4) {
            self.put_avp(8000)?;
        }
        Ok(())
    }

    fn begin(&mut self, chance: &mut Chance) -> Result<()> {
        let which = chance.index(FRONTS.len());
        self.front = FRONTS.get(which).copied().unwrap_or(b"");
        self.text.clear();
        self.text.extend_from_slice(b"@ 2\n")?;
        Ok(())
    }

    /// Appends octets and a number.
    fn put_number(&mut self, front: &[u8], number: u32) -> Result<()> {
        self.text.extend_from_slice(front)?;
        push_decimal(&mut self.text, number)
    }

    /// Appends the name of this number: the front and three digits, or words.
    fn put_name(&mut self, number: u32) -> Result<()> {
        if !self.front.is_empty() {
            self.text.extend_from_slice(self.front)?;
            return push_decimal(&mut self.text, number.wrapping_add(100));
        }
        for bits in [number, number / 3] {
            let word = WORDS.get(bits as usize & 31).copied().unwrap_or(b"Word");
            self.text.extend_from_slice(word)?;
            self.text.push(b'-')?;
        }
        push_decimal(&mut self.text, number)
    }

    fn put_vendors(&mut self, count: u32, faults: Faults) -> Result<()> {
        for number in 0..count {
            let name = faults.vendor_name.number(number, count);
            self.put_number(b"@ vendor Operator-", name.wrapping_add(100))?;
            let vendor = faults.vendor_number.number(number, count);
            self.put_number(b" ", vendor.wrapping_add(20_000))?;
            self.text.push(b'\n')?;
        }
        Ok(())
    }

    fn put_avp(&mut self, number: u32) -> Result<()> {
        self.text.extend_from_slice(b"@ ")?;
        self.put_name(number)?;
        self.put_number(b" ", number.wrapping_add(70_000))?;
        self.put_number(b" Unsigned32 : Operator-", number % 16 + 100)?;
        self.text.push(b'\n')?;
        Ok(())
    }

    fn put_list(&mut self, number: u32, count: u32, faults: Faults) -> Result<()> {
        self.put_number(b"@ List-", number)?;
        self.put_number(b" ", number.wrapping_add(60_000))?;
        self.text.extend_from_slice(b" Enumerated")?;
        for value in 0..count {
            let front: &[u8] = if value == 0 { b" { " } else { b", " };
            self.text.extend_from_slice(front)?;
            self.put_name(faults.value_name.number(value, count))?;
            self.put_number(b" ", faults.value_number.number(value, count))?;
        }
        self.text.extend_from_slice(b" }\n")?;
        Ok(())
    }

    fn put_rule(&mut self, number: u32, count: u32, faults: Faults) -> Result<()> {
        self.put_number(b"< Group-", number)?;
        self.put_number(b" > ::= < AVP Header: ", number.wrapping_add(50_000))?;
        self.text.extend_from_slice(b" >\n")?;
        for entry in 0..count {
            self.text.extend_from_slice(b" [ ")?;
            self.put_name(faults.entry.number(entry, count))?;
            self.text.extend_from_slice(b" ]\n")?;
        }
        Ok(())
    }
}
