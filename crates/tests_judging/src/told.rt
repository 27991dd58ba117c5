//! What all calls say of one message: `check`, `faults` and `located` of it, and `judge`, `faults_in` and `located_in`
//! of its octets. They must say the same, and what is wanted.
use dm_dict::{Dictionary, Failed, Fault, Judged, LocatedFault};
use dm_wire::{Avp, AvpList, AvpRef, Header, Message, MessageRef, Octets};
use std::process::Abort;

/// AVPs one behind the other: the first one's code, how far it is from each one's to the next one's, how many they are,
/// and the vendor of all.
#[derive(Clone, Copy)]
pub struct Run {
    pub first: u32,
    pub step: u32,
    pub count: u32,
    pub vendor: Option<u32>,
}

/// The code of the nth.
pub fn code_of(run: &Run, nth: u32) -> u32 {
    run.first.wrapping_add(run.step.wrapping_mul(nth))
}

/// The nth of them alone.
pub fn one_of(run: &Run, nth: u32) -> Run {
    Run {
        first: code_of(run, nth),
        count: 1,
        ..*run
    }
}

/// AVPs without a vendor.
pub fn codes(first: u32, step: u32, count: u32) -> Run {
    Run {
        first,
        step,
        count,
        vendor: None,
    }
}

/// The same in the contrary order.
pub fn reversed(run: &Run) -> Run {
    Run {
        first: code_of(run, run.count.wrapping_sub(1)),
        step: run.step.wrapping_neg(),
        ..*run
    }
}

/// The command whose rule has the entries, and the one that wants a group whose rule has them.
const PLAIN: u32 = 300;

const GROUPED: u32 = 301;

/// The group.
const GROUP: u32 = 7000;

/// What stands before the entries of the one and of the other, and behind them.
const PLAIN_HEAD: &str = "\n< Plain > ::= < Diameter Header: 300, REQ >";

const GROUP_HEAD: &str = "\n< Group > ::= < AVP Header: 7000 >";

const GROUPED_RULE: &str = "\n< Grouped > ::= < Diameter Header: 301, REQ > { Group }";

/// The definitions of these AVPs, each named after its code, and its vendor where it has one.
pub fn put_definitions(rt: &(impl Abort + AllocGlobal), text: &mut String, run: &Run, kind: &str) {
    for nth in 0..run.count {
        let code = code_of(run, nth);
        let line = match run.vendor {
            None => format!(in rt.alloc(); "@ A{code} {code} {kind}\n"),
            Some(vendor) => format!(in rt.alloc(); "@ A{code}-{vendor} {code} {kind} {vendor}\n"),
        };
        let line = line.expect(rt, "memory");
        text.push_str(line.as_str()).expect(rt, "memory");
        drop(line);
    }
}

/// The entries of these AVPs, with this before each name and this behind it.
pub fn put_entries(
    rt: &(impl Abort + AllocGlobal),
    text: &mut String,
    run: &Run,
    front: &str,
    back: &str,
) {
    for nth in 0..run.count {
        let code = code_of(run, nth);
        let entry = match run.vendor {
            None => format!(in rt.alloc(); "{front}A{code}{back}"),
            Some(vendor) => format!(in rt.alloc(); "{front}A{code}-{vendor}{back}"),
        };
        let entry = entry.expect(rt, "memory");
        text.push_str(entry.as_str()).expect(rt, "memory");
        drop(entry);
    }
}

fn text_of(rt: &(impl Abort + AllocGlobal), definitions: &str, entries: &str) -> String {
    let parts = [
        definitions,
        PLAIN_HEAD,
        entries,
        GROUP_HEAD,
        entries,
        GROUPED_RULE,
    ];
    let mut text = String::new(rt.alloc());
    for part in parts {
        text.push_str(part).expect(rt, "memory");
    }
    text
}

fn read(rt: &(impl Abort + AllocGlobal), text: &str) -> Dictionary {
    let empty = Dictionary::empty(rt.alloc());
    let read = Dictionary::read(rt.alloc(), text.as_bytes(), &empty);
    drop(empty);
    read.expect(rt, "a dictionary")
}

/// The dictionary of these definitions, of a command and a group whose rules both have these entries, and of a command
/// that wants the group.
pub fn ruled(rt: &(impl Abort + AllocGlobal), definitions: &str, entries: &str) -> Dictionary {
    let text = text_of(rt, definitions, entries);
    let dictionary = read(rt, text.as_str());
    drop(text);
    dictionary
}

/// A request of the command.
fn request_of(command: u32, avps: Vec<Avp>) -> Message {
    let header = Header {
        request: true,
        proxiable: false,
        error: false,
        retransmit: false,
        command,
        application: 0,
        hop_id: 1,
        end_id: 1,
    };
    Message::new(header, AvpList::from(avps))
}

/// The request whose rule has the entries.
pub fn plain_request(avps: Vec<Avp>) -> Message {
    request_of(PLAIN, avps)
}

/// An AVP with M.
pub fn marked(rt: &(impl Abort + AllocGlobal), code: u32, vendor: Option<u32>, data: &[u8]) -> Avp {
    let data = Octets::from_slice(rt.alloc(), data).expect(rt, "memory");
    Avp::new(code, vendor, true, data)
}

/// One AVP more, with M.
pub fn push_avp(
    rt: &(impl Abort + AllocGlobal),
    avps: &mut Vec<Avp>,
    code: u32,
    vendor: Option<u32>,
    data: &[u8],
) {
    avps.push(marked(rt, code, vendor, data))
        .expect(rt, "memory");
}

/// The AVPs; the data of each is its place among them, from 0 on.
fn numbered(rt: &(impl Abort + AllocGlobal), runs: &[Run]) -> Vec<Avp> {
    let mut avps = Vec::new(rt.alloc());
    let mut number: u32 = 0;
    for run in runs {
        for nth in 0..run.count {
            let data = number.to_be_bytes();
            push_avp(rt, &mut avps, code_of(run, nth), run.vendor, &data);
            number = number.wrapping_add(1);
        }
    }
    avps
}

/// A request of one AVP.
fn request_of_one(rt: &(impl Abort + AllocGlobal), command: u32, avp: Avp) -> Message {
    let mut avps = Vec::new(rt.alloc());
    avps.push(avp).expect(rt, "memory");
    request_of(command, avps)
}

/// The request of the group of the message's AVPs.
fn in_group(rt: &(impl Abort + AllocGlobal), message: &Message) -> Message {
    let octets = message.encode(rt.alloc()).expect(rt, "memory");
    let data = octets.as_slice().get(20..).expect(rt, "a header");
    let group = marked(rt, GROUP, None, data);
    drop(octets);
    request_of_one(rt, GROUPED, group)
}

/// What is said of a message: its first fault in words, or that it is good, and how many faults it has.
#[derive(Clone, Copy)]
pub struct Said<'a> {
    pub words: &'a str,
    pub faults: usize,
}

/// Nothing is wrong.
pub const GOOD: Said<'static> = Said {
    words: "good",
    faults: 0,
};

/// The AVP as a verdict tells it: its code, its vendor where it has one, M, and data of four octets.
pub fn words_of(
    rt: &(impl Abort + AllocGlobal),
    result_code: u32,
    avp: &Run,
    number: u32,
) -> String {
    let code = avp.first;
    match avp.vendor {
        None => format!(in rt.alloc(); "bad {result_code} {code} -M- {number:08x}"),
        Some(vendor) => format!(in rt.alloc();
            "bad {result_code} {code}/{vendor} VM- {number:08x}"
        ),
    }
    .expect(rt, "memory")
}

/// Whether this is told in these words.
fn is_told(rt: &(impl Abort + AllocGlobal), judged: Judged<'_>, words: &str) -> bool {
    let verdict = judged.verdict(rt.alloc()).expect(rt, "memory");
    let told = verdict.to_string(rt.alloc()).expect(rt, "memory");
    told.as_str() == words
}

/// The first of the faults.
fn first_of<'a>(faults: &[Fault<'a>]) -> Judged<'a> {
    match faults {
        [] => Judged::Good,
        [fault, ..] => Judged::Bad {
            code: fault.code,
            failed: fault.failed,
        },
    }
}

fn is_same_avp(avp: &AvpRef<'_>, other: &AvpRef<'_>) -> bool {
    avp.code == other.code && avp.vendor == other.vendor && avp.bytes == other.bytes
}

fn is_same(fault: &Fault<'_>, other: &Fault<'_>) -> bool {
    let is_same_failed = match (fault.failed, other.failed) {
        (Failed::Nothing, Failed::Nothing) => true,
        (Failed::Found(avp), Failed::Found(other)) => is_same_avp(&avp, &other),
        (
            Failed::Example { code, vendor, .. },
            Failed::Example {
                code: other,
                vendor: others,
                ..
            },
        ) => code == other && vendor == others,
        _ => false,
    };
    fault.code == other.code && is_same_failed
}

fn are_same(faults: &[Fault<'_>], others: &[Fault<'_>]) -> bool {
    for (fault, other) in faults.iter().zip(others) {
        if !is_same(fault, other) {
            return false;
        }
    }
    faults.len() == others.len()
}

fn are_located(faults: &[Fault<'_>], located: &[LocatedFault<'_>]) -> bool {
    for (fault, other) in faults.iter().zip(located) {
        if !is_same(fault, &other.fault) {
            return false;
        }
    }
    faults.len() == located.len()
}

fn assert_listed(
    rt: &(impl Abort + AllocGlobal),
    dictionary: &Dictionary,
    message: &Message,
    lying: &MessageRef<'_>,
    said: Said<'_>,
) {
    let held = dictionary.faults(rt.alloc(), message).expect(rt, "memory");
    assert_eq!(rt; held.len(), said.faults);
    assert!(rt; is_told(rt, first_of(held.as_slice()), said.words));
    let faults = dictionary.faults_in(rt.alloc(), lying).expect(rt, "memory");
    assert!(rt; are_same(held.as_slice(), faults.as_slice()));
}

fn assert_located(
    rt: &(impl Abort + AllocGlobal),
    dictionary: &Dictionary,
    message: &Message,
    lying: &MessageRef<'_>,
) {
    let faults = dictionary.faults_in(rt.alloc(), lying).expect(rt, "memory");
    let held = dictionary.located(rt.alloc(), message).expect(rt, "memory");
    assert!(rt; are_located(faults.as_slice(), held.as_slice()));
    drop(held);
    let located = dictionary
        .located_in(rt.alloc(), lying)
        .expect(rt, "memory");
    assert!(rt; are_located(faults.as_slice(), located.as_slice()));
}

fn assert_checked(
    rt: &(impl Abort + AllocGlobal),
    dictionary: &Dictionary,
    message: &Message,
    said: Said<'_>,
) {
    let verdict = dictionary.check(rt.alloc(), message).expect(rt, "memory");
    let told = verdict.to_string(rt.alloc()).expect(rt, "memory");
    assert_eq!(rt; told.as_str(), said.words);
}

/// All calls say this of the message.
fn assert_each_says(
    rt: &(impl Abort + AllocGlobal),
    dictionary: &Dictionary,
    message: &Message,
    said: Said<'_>,
) {
    assert_checked(rt, dictionary, message, said);
    let octets = message.encode(rt.alloc()).expect(rt, "memory");
    let lying = MessageRef::read(octets.as_slice()).expect(rt, "a message");
    assert!(rt;
        is_told(rt, dictionary.judge(&lying), said.words),
        "judge: not {}",
        said.words
    );
    assert_listed(rt, dictionary, message, &lying, said);
    assert_located(rt, dictionary, message, &lying);
}

/// All calls say this of the message, and of the group of its AVPs.
pub fn assert_both(
    rt: &(impl Abort + AllocGlobal),
    dictionary: &Dictionary,
    message: &Message,
    said: Said<'_>,
) {
    assert_each_says(rt, dictionary, message, said);
    let grouped = in_group(rt, message);
    assert_each_says(rt, dictionary, &grouped, said);
    drop(grouped);
}

/// All calls say this of the request of these AVPs, and of the group of them; the data of each is its place.
pub fn assert_said(
    rt: &(impl Abort + AllocGlobal),
    dictionary: &Dictionary,
    runs: &[Run],
    said: Said<'_>,
) {
    let message = plain_request(numbered(rt, runs));
    assert_both(rt, dictionary, &message, said);
    drop(message);
}

/// All calls say this of the request of one AVP, and of the group of it.
pub fn assert_said_of_one(
    rt: &(impl Abort + AllocGlobal),
    dictionary: &Dictionary,
    avp: Avp,
    said: Said<'_>,
) {
    let message = request_of_one(rt, PLAIN, avp);
    assert_both(rt, dictionary, &message, said);
    drop(message);
}

/// All calls say this of the request of so many AVPs without data, and of the group of them.
pub fn assert_said_of_empty(
    rt: &(impl Abort + AllocGlobal),
    dictionary: &Dictionary,
    code: u32,
    count: u32,
    said: Said<'_>,
) {
    let mut avps = Vec::new(rt.alloc());
    for _ in 0..count {
        push_avp(rt, &mut avps, code, None, &[]);
    }
    let message = plain_request(avps);
    assert_both(rt, dictionary, &message, said);
    drop(message);
}

/// All calls say of the request of these AVPs, and of the group of them, that this is wrong first: by this Result-Code
/// the AVP of this number, which is the first of this run (0 of one that is missing). There are so many faults.
pub fn assert_bad(
    rt: &(impl Abort + AllocGlobal),
    dictionary: &Dictionary,
    runs: &[Run],
    result_code: u32,
    avp: &Run,
    number: u32,
    faults: u32,
) {
    let words = words_of(rt, result_code, avp, number);
    let said = Said {
        words: words.as_str(),
        faults: faults as usize,
    };
    assert_said(rt, dictionary, runs, said);
    drop(words);
}

/// The request of these AVPs, inside so many groups.
fn deep_request(rt: &(impl Abort + AllocGlobal), runs: &[Run], depth: u32) -> Message {
    let mut message = plain_request(numbered(rt, runs));
    for _ in 0..depth {
        message = in_group(rt, &message);
    }
    message
}

/// All calls say this of the request of these AVPs inside so many groups.
pub fn assert_said_deep(
    rt: &(impl Abort + AllocGlobal),
    dictionary: &Dictionary,
    runs: &[Run],
    depth: u32,
    said: Said<'_>,
) {
    let message = deep_request(rt, runs, depth);
    assert_each_says(rt, dictionary, &message, said);
    drop(message);
}
