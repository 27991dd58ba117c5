//! Messages in hexadecimal, and the verdicts on them in words.
use dm_dict::{Dictionary, Verdict};
use dm_wire::{Avp, Message, MessageRef};
use std::process::Abort;

/// The vendor, and V where there is one.
fn vendor_text(rt: &(impl Abort + AllocGlobal), vendor: Option<u32>) -> String {
    match vendor {
        Some(vendor) => format!(in rt.alloc(); "/{vendor} V").expect(rt, "memory"),
        None => format!(in rt.alloc(); " -").expect(rt, "memory"),
    }
}

/// Data in hexadecimal, `-` where there is none.
fn data_text(rt: &(impl Abort + AllocGlobal), data: &[u8]) -> String {
    if data.is_empty() {
        String::from_str(rt.alloc(), "-").expect(rt, "memory")
    } else {
        hex::encode(rt.alloc(), data).expect(rt, "memory")
    }
}

/// The AVP as code, vendor, flags and data, behind the Result-Code.
fn failed_text(rt: &(impl Abort + AllocGlobal), code: u32, avp: &Avp) -> String {
    let vendor = vendor_text(rt, avp.vendor);
    let data = data_text(rt, avp.bytes.as_slice());
    let m = if avp.mandatory { "M" } else { "-" };
    let p = if avp.protected { "P" } else { "-" };
    format!(in rt.alloc(); "bad {code} {}{vendor}{m}{p} {data}", avp.code).expect(rt, "memory")
}

/// The verdict in words.
pub fn verdict_text(rt: &(impl Abort + AllocGlobal), verdict: &Verdict) -> String {
    match verdict {
        Verdict::Good => String::from_str(rt.alloc(), "good").expect(rt, "memory"),
        Verdict::Bad { code, failed: None } => {
            format!(in rt.alloc(); "bad {code}").expect(rt, "memory")
        }
        Verdict::Bad {
            code,
            failed: Some(avp),
        } => failed_text(rt, *code, avp),
    }
}

/// The message of these octets.
fn decoded(rt: &(impl Abort + AllocGlobal), message: &str) -> Message {
    let octets = hex::decode(rt.alloc(), message.as_bytes()).expect(rt, "hexadecimal");
    Message::decode(rt.alloc(), octets.as_slice()).expect(rt, "a message")
}

/// What the dictionary says of the octets where they lie.
fn judged_words(rt: &(impl Abort + AllocGlobal), dictionary: &Dictionary, octets: &[u8]) -> String {
    let message = MessageRef::read(octets).expect(rt, "a message");
    let verdict = dictionary
        .judge(&message)
        .verdict(rt.alloc())
        .expect(rt, "memory");
    verdict_text(rt, &verdict)
}

/// Each row is a message and its verdict under the base dictionary, judged where it lies.
pub fn assert_judged_under_base(rt: &(impl Abort + AllocGlobal), rows: &[(&str, &str)]) {
    let base = Dictionary::base(rt.alloc()).expect(rt, "a dictionary");
    for (message, want) in rows {
        let octets = hex::decode(rt.alloc(), message.as_bytes()).expect(rt, "hexadecimal");
        let words = judged_words(rt, &base, octets.as_slice());
        assert_eq!(rt; words.as_str(), *want, "of {message}");
    }
    drop(base);
}

/// What the dictionary says of the message.
fn words(rt: &(impl Abort + AllocGlobal), dictionary: &Dictionary, message: &str) -> String {
    let message = decoded(rt, message);
    let verdict = dictionary.check(rt.alloc(), &message).expect(rt, "memory");
    verdict_text(rt, &verdict)
}

/// What the dictionary of the text over the old one says of the message.
fn words_under(
    rt: &(impl Abort + AllocGlobal),
    old: &Dictionary,
    text: &str,
    message: &str,
) -> String {
    let read = Dictionary::read(rt.alloc(), text.as_bytes(), old);
    let dictionary = read.expect(rt, "a dictionary");
    let words = words(rt, &dictionary, message);
    drop(dictionary);
    words
}

/// Each row is a message and its verdict under the dictionary.
fn assert_verdicts(
    rt: &(impl Abort + AllocGlobal),
    dictionary: &Dictionary,
    rows: &[(&str, &str)],
) {
    for (message, want) in rows {
        let words = words(rt, dictionary, message);
        assert_eq!(rt; words.as_str(), *want, "of {message}");
    }
}

/// Each row is a message and its verdict under the base dictionary.
pub fn assert_under_base(rt: &(impl Abort + AllocGlobal), rows: &[(&str, &str)]) {
    let base = Dictionary::base(rt.alloc()).expect(rt, "a dictionary");
    assert_verdicts(rt, &base, rows);
    drop(base);
}

/// Each row is a message and its verdict under the dictionary of the text alone.
pub fn assert_under_text(rt: &(impl Abort + AllocGlobal), text: &str, rows: &[(&str, &str)]) {
    let empty = Dictionary::empty(rt.alloc());
    let read = Dictionary::read(rt.alloc(), text.as_bytes(), &empty);
    drop(empty);
    let dictionary = read.expect(rt, "a dictionary");
    assert_verdicts(rt, &dictionary, rows);
    drop(dictionary);
}

/// Each row is a text over the old dictionary, a message and its verdict.
fn assert_over(rt: &(impl Abort + AllocGlobal), old: &Dictionary, rows: &[(&str, &str, &str)]) {
    for (text, message, want) in rows {
        let words = words_under(rt, old, text, message);
        assert_eq!(rt; words.as_str(), *want, "of {message} under {text}");
    }
}

/// Each row is a text over the base dictionary, a message and its verdict.
pub fn assert_over_base(rt: &(impl Abort + AllocGlobal), rows: &[(&str, &str, &str)]) {
    let base = Dictionary::base(rt.alloc()).expect(rt, "a dictionary");
    assert_over(rt, &base, rows);
    drop(base);
}

/// Each row is a text alone, a message and its verdict.
pub fn assert_over_empty(rt: &(impl Abort + AllocGlobal), rows: &[(&str, &str, &str)]) {
    let empty = Dictionary::empty(rt.alloc());
    assert_over(rt, &empty, rows);
    drop(empty);
}
