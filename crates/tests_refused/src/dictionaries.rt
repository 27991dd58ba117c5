//! Dictionaries read and printed, and messages checked.
use crate::each::each_made;
use crate::rows::*;
use dm_dict::{DictFault, Dictionary, NoMemory, Verdict};
use dm_refusal::{Making, refuse_each_request, stop_refusing};
use dm_wire::Message;
use std::alloc::Global;
use std::process::Abort;

/// Whether the dictionary prints the text.
fn prints(alloc: Global, dictionary: &Dictionary, text: &[u8]) -> bool {
    match dictionary.print(alloc) {
        Ok(printed) => printed.as_slice() == text,
        Err(_) => false,
    }
}

/// The base dictionary, which prints this text.
#[derive(Clone, Copy)]
struct ReadBase<'a>(&'a [u8]);

impl Making for ReadBase<'_> {
    type Made = Dictionary;

    type Fault = NoMemory;

    fn call(&self, alloc: Global) -> Result<Dictionary, NoMemory> {
        Dictionary::base(alloc)
    }

    fn is_want_of_memory(&self, _fault: &NoMemory) -> bool {
        true
    }

    fn is_as_expected(&self, alloc: Global, made: &Dictionary) -> bool {
        prints(alloc, made, self.0)
    }
}

/// A text over a dictionary, and what the new one prints.
#[derive(Clone, Copy)]
struct Read<'a>(&'a [u8], &'a Dictionary, &'a [u8]);

impl Making for Read<'_> {
    type Made = Dictionary;

    type Fault = DictFault;

    fn call(&self, alloc: Global) -> Result<Dictionary, DictFault> {
        Dictionary::read(alloc, self.0, self.1)
    }

    fn is_want_of_memory(&self, fault: &DictFault) -> bool {
        *fault == DictFault::NoMemory
    }

    fn is_as_expected(&self, alloc: Global, made: &Dictionary) -> bool {
        prints(alloc, made, self.2)
    }
}

/// A dictionary, and what it prints.
#[derive(Clone, Copy)]
struct Print<'a>(&'a Dictionary, &'a [u8]);

impl Making for Print<'_> {
    type Made = Vec<u8>;

    type Fault = NoMemory;

    fn call(&self, alloc: Global) -> Result<Vec<u8>, NoMemory> {
        self.0.print(alloc)
    }

    fn is_want_of_memory(&self, _fault: &NoMemory) -> bool {
        true
    }

    fn is_as_expected(&self, _alloc: Global, made: &Vec<u8>) -> bool {
        made.as_slice() == self.1
    }
}

/// A text that is refused over a dictionary, and why.
#[derive(Clone, Copy)]
struct Faulty<'a>(&'a [u8], &'a Dictionary, DictFault);

impl Making for Faulty<'_> {
    type Made = Option<DictFault>;

    type Fault = NoMemory;

    fn call(&self, alloc: Global) -> Result<Option<DictFault>, NoMemory> {
        let fault = Dictionary::read(alloc, self.0, self.1).err();
        if fault == Some(DictFault::NoMemory) {
            Err(NoMemory)
        } else {
            Ok(fault)
        }
    }

    fn is_want_of_memory(&self, _fault: &NoMemory) -> bool {
        true
    }

    fn is_as_expected(&self, _alloc: Global, made: &Option<DictFault>) -> bool {
        *made == Some(self.2)
    }
}

fn base(rt: &(impl Abort + AllocGlobal)) -> Dictionary {
    Dictionary::base(rt.alloc()).expect(rt, "memory")
}

fn printed(rt: &(impl Abort + AllocGlobal), dictionary: &Dictionary) -> Vec<u8> {
    dictionary.print(rt.alloc()).expect(rt, "memory")
}

fn check_base(rt: &(impl Abort + AllocGlobal), base: &Dictionary) {
    let text = printed(rt, base);
    each_made(rt, &ReadBase(text.as_slice()), "base");
    each_made(rt, &Print(base, text.as_slice()), "print");
    drop(text);
}

/// The text is read over the dictionary, and what is made is printed.
fn check_text(rt: &(impl Abort + AllocGlobal), text: &[u8], old: &Dictionary) {
    let made = Dictionary::read(rt.alloc(), text, old).expect(rt, "a dictionary");
    let new = printed(rt, &made);
    each_made(rt, &Print(&made, new.as_slice()), "print");
    drop(made);
    each_made(rt, &Read(text, old, new.as_slice()), "read");
    drop(new);
}

fn check_texts(rt: &(impl Abort + AllocGlobal), texts: &[&[u8]], old: &Dictionary) {
    for text in texts {
        check_text(rt, text, old);
    }
}

const TEXTS: [&[u8]; 2] = [
    b"< X > ::= < Diameter Header: 300, REQ > 0*1 < Session-Id > 1* { Host-IP-Address } { AVP }",
    b"@ 2\n@ vendor Acme 99\n@ Colour 5000 Enumerated : Acme { RED 0, BLUE 2 }\n< Ask > ::= < Diameter Header: 300, REQ > { Colour }\n",
];

#[test]
fn texts_read_and_printed(rt: HostRuntime) {
    let base = base(&rt);
    check_base(&rt, &base);
    check_texts(&rt, &TEXTS, &base);
    drop(base);
}

fn check_faults(rt: &(impl Abort + AllocGlobal), rows: &[(&[u8], DictFault)], old: &Dictionary) {
    for (text, fault) in rows {
        each_made(rt, &Faulty(text, old, *fault), "read");
    }
}

const FAULTS: [(&[u8], DictFault); 5] = [
    (
        b"< X > ::= < Diameter Header: 300, REQ > [ User-Name ] { Class }",
        DictFault::Order(1),
    ),
    (
        b"< X > ::= < Diameter Header: 300, REQ > { No-Such }",
        DictFault::UnknownName(1),
    ),
    (b"@ Foo 264 Unsigned32", DictFault::Duplicate(1)),
    (b"< X > ::= <", DictFault::Syntax(1)),
    (b"@ Foo 4294967296 Time", DictFault::Range(1)),
];

#[test]
fn texts_refused(rt: HostRuntime) {
    let base = base(&rt);
    check_faults(&rt, &FAULTS, &base);
    drop(base);
}

/// A message under a dictionary, and how many faults it has.
#[derive(Clone, Copy)]
struct CountFaults<'a>(&'a Dictionary, &'a Message, usize);

impl Making for CountFaults<'_> {
    type Made = usize;

    type Fault = NoMemory;

    fn call(&self, alloc: Global) -> Result<usize, NoMemory> {
        let faults = self.0.faults(alloc, self.1)?;
        Ok(faults.len())
    }

    fn is_want_of_memory(&self, _fault: &NoMemory) -> bool {
        true
    }

    fn is_as_expected(&self, _alloc: Global, made: &usize) -> bool {
        *made == self.2
    }
}

fn check_counts(rt: &(impl Abort + AllocGlobal), rows: &[(&str, usize)], base: &Dictionary) {
    for (digits, count) in rows {
        let octets = octets(rt, digits);
        let message = Message::decode(rt.alloc(), octets.as_slice()).expect(rt, "a message");
        each_made(rt, &CountFaults(base, &message, *count), "faults");
        drop(message);
    }
}

/// A good message, and one that lacks its two required AVPs.
const COUNTS: [(&str, usize); 2] = [(WATCHDOG, 0), (BARE_DWR, 2)];

#[test]
fn all_faults_listed(rt: HostRuntime) {
    let base = base(&rt);
    check_counts(&rt, &COUNTS, &base);
    drop(base);
}

/// A message under a dictionary, and what `check` says of it.
#[derive(Clone, Copy)]
struct Check<'a>(&'a Dictionary, &'a Message, &'a str);

impl Making for Check<'_> {
    type Made = Verdict;

    type Fault = NoMemory;

    fn call(&self, alloc: Global) -> Result<Verdict, NoMemory> {
        self.0.check(alloc, self.1)
    }

    fn is_want_of_memory(&self, _fault: &NoMemory) -> bool {
        true
    }

    fn is_as_expected(&self, alloc: Global, made: &Verdict) -> bool {
        match format!(in alloc; "{made}") {
            Ok(told) => told.as_str() == self.2,
            Err(_) => false,
        }
    }
}

fn check_message(rt: &(impl Abort + AllocGlobal), base: &Dictionary, digits: &str, text: &str) {
    let octets = octets(rt, digits);
    let message = Message::decode(rt.alloc(), octets.as_slice()).expect(rt, "a message");
    each_made(rt, &Check(base, &message, text), text);
    drop(message);
}

fn check_messages(rt: &(impl Abort + AllocGlobal), rows: &[(&str, &str)], base: &Dictionary) {
    for (digits, text) in rows {
        check_message(rt, base, digits, text);
    }
}

const VERDICTS: [(&str, &str); 9] = [
    (CAPABILITIES, "good"),
    (TWICE, "bad 5009 273 -M- 00000001"),
    (TWICE_UNKNOWN, "bad 5001 9999 -M- -"),
    (UNKNOWN, "good"),
    (SHORT_CAUSE, "bad 5014 273 -M- 000000"),
    (SPACE_HOST, "bad 5004 264 -M- 20"),
    (BROKEN_GROUP, "bad 5014 260 -M- -"),
    (STRANGER, "bad 5008 268 -M- 000007d1"),
    (BARE_DWR, "bad 5005 264 -M- 00"),
];

#[test]
fn messages_checked(rt: HostRuntime) {
    let base = base(&rt);
    check_messages(&rt, &VERDICTS, &base);
    drop(base);
}

/// Appends a piece with the number of each place.
fn put_each(
    rt: &(impl Abort + AllocGlobal),
    text: &mut String,
    size: u16,
    front: &str,
    middle: &str,
    back: &str,
) {
    for place in 0..size {
        let code = 80000 + place as u32;
        let line = if middle.is_empty() {
            format!(in rt.alloc(); "{front}{place}{back}").expect(rt, "memory")
        } else {
            format!(in rt.alloc(); "{front}{place}{middle}{code}{back}").expect(rt, "memory")
        };
        text.push_str(line.as_str()).expect(rt, "memory");
        drop(line);
    }
}

/// The text of a command of so many entries, each of which one AVP may fill.
fn rule_text(rt: &(impl Abort + AllocGlobal), size: u16) -> String {
    let mut text = String::new(rt.alloc());
    put_each(rt, &mut text, size, "@ A", " ", " Unsigned32\n");
    let title = "< Ask > ::= < Diameter Header: 300, REQ >";
    text.push_str(title).expect(rt, "memory");
    put_each(rt, &mut text, size, " [ A", "", " ]");
    text
}

/// The text of an AVP that lists so many values and one.
fn list_text(rt: &(impl Abort + AllocGlobal), size: u16) -> String {
    let mut text = String::new(rt.alloc());
    text.push_str("@ 2 @ List 5000 Enumerated { FIRST 0")
        .expect(rt, "memory");
    put_each(rt, &mut text, size, ", V", " ", "");
    text.push_str(" }").expect(rt, "memory");
    text
}

/// Each growth of a long rule and of a long list is refused, those of what is kept of their names and numbers too.
#[test]
fn long_rules_and_lists_read(rt: HostRuntime) {
    let rule = rule_text(&rt, 66);
    let list = list_text(&rt, 66);
    let empty = Dictionary::empty(rt.alloc());
    check_texts(&rt, &[rule.as_bytes(), list.as_bytes()], &empty);
    drop(empty);
    drop(list);
    drop(rule);
}

/// A dictionary of a command of 300 entries, each of which one AVP may fill.
fn long_rule(rt: &(impl Abort + AllocGlobal)) -> Dictionary {
    let text = rule_text(rt, 300);
    let empty = Dictionary::empty(rt.alloc());
    let read = Dictionary::read(rt.alloc(), text.as_bytes(), &empty);
    drop(empty);
    drop(text);
    read.expect(rt, "a dictionary")
}

/// Where no counters of a long rule can be had, they are not wanted: the message is checked all the same.
#[test]
fn long_rule_checked(rt: HostRuntime) {
    let dictionary = long_rule(&rt);
    let digits = "010000208000012c000000000000000100000001000139ab4000000c00000007";
    let octets = octets(&rt, digits);
    let message = Message::decode(rt.alloc(), octets.as_slice()).expect(&rt, "a message");
    refuse_each_request(rt.alloc());
    let checked = dictionary.check(rt.alloc(), &message);
    stop_refusing(rt.alloc());
    assert!(&rt; checked == Ok(Verdict::Good));
    drop(message);
    drop(dictionary);
}
