//! Rules of more entries than are counted in one walk without memory: all calls say the same of a message.
use super::counters::put_definition;
use dm_dict::{Dictionary, Failed, Judged, Verdict};
use dm_wire::{Avp, AvpList, Header, Message, MessageRef, Octets};
use std::process::Abort;

/// A dictionary of a command of so many entries, each of which wants one AVP.
fn long_rule(rt: &(impl Abort + AllocGlobal), size: u16) -> String {
    let mut text = String::new(rt.alloc());
    for place in 0..size {
        put_definition(rt, &mut text, place);
    }
    text.push_str("< Q > ::= < Diameter Header: 300, REQ >")
        .expect(rt, "memory");
    for place in 0..size {
        let entry = format!(in rt.alloc(); " {{ A{place} }}").expect(rt, "memory");
        text.push_str(entry.as_str()).expect(rt, "memory");
        drop(entry);
    }
    text
}

/// One AVP more of the entry at the place.
fn push_avp(rt: &(impl Abort + AllocGlobal), avps: &mut Vec<Avp>, place: u16) {
    let data = Octets::from_slice(rt.alloc(), &[0; 4]).expect(rt, "memory");
    let avp = Avp::new(80000 + place as u32, None, true, data);
    avps.push(avp).expect(rt, "memory");
}

/// A request with one AVP of each entry but that at the place, and so many of that one.
fn request(rt: &(impl Abort + AllocGlobal), size: u16, at: u16, count: u32) -> Message {
    let mut avps = Vec::new(rt.alloc());
    for place in 0..size {
        for _ in 0..if place == at { count } else { 1 } {
            push_avp(rt, &mut avps, place);
        }
    }
    let header = Header {
        request: true,
        proxiable: false,
        error: false,
        retransmit: false,
        command: 300,
        application: 0,
        hop_id: 1,
        end_id: 1,
    };
    Message::new(header, AvpList::from(avps))
}

/// The Result-Code and the code of the failed AVP, none of a good message.
type Told = Option<(u32, u32)>;

fn told_of(code: u32, failed: Failed<'_>) -> Told {
    match failed {
        Failed::Nothing => Some((code, 0)),
        Failed::Found(avp) => Some((code, avp.code)),
        Failed::Example { code: avp, .. } => Some((code, avp)),
    }
}

fn checked(rt: &(impl Abort + AllocGlobal), dictionary: &Dictionary, message: &Message) -> Told {
    match dictionary.check(rt.alloc(), message).expect(rt, "memory") {
        Verdict::Good => None,
        Verdict::Bad { code, failed: None } => Some((code, 0)),
        Verdict::Bad {
            code,
            failed: Some(avp),
        } => Some((code, avp.code)),
    }
}

fn judged(dictionary: &Dictionary, message: &MessageRef<'_>) -> Told {
    match dictionary.judge(message) {
        Judged::Good => None,
        Judged::Bad { code, failed } => told_of(code, failed),
    }
}

/// Whether the faults of the message are these alone.
fn is_listed(
    rt: &(impl Abort + AllocGlobal),
    dictionary: &Dictionary,
    message: &Message,
    want: Told,
) -> bool {
    let faults = dictionary.faults(rt.alloc(), message).expect(rt, "memory");
    match faults.as_slice() {
        [] => want == None,
        [one] => want == told_of(one.code, one.failed),
        _ => false,
    }
}

/// Whether the faults of the message with their groups, of which there are none, are these alone.
fn is_located(
    rt: &(impl Abort + AllocGlobal),
    dictionary: &Dictionary,
    message: &MessageRef<'_>,
    want: Told,
) -> bool {
    let located = dictionary
        .located_in(rt.alloc(), message)
        .expect(rt, "memory");
    match located.as_slice() {
        [] => want == None,
        [one] => want == told_of(one.fault.code, one.fault.failed)
            && one.path.as_slice().is_empty(),
        _ => false,
    }
}

fn assert_of_octets(
    rt: &(impl Abort + AllocGlobal),
    dictionary: &Dictionary,
    octets: &[u8],
    want: Told,
) {
    let message = MessageRef::read(octets).expect(rt, "a message");
    assert!(rt; judged(dictionary, &message) == want);
    assert!(rt; is_located(rt, dictionary, &message, want));
}

fn assert_of_message(
    rt: &(impl Abort + AllocGlobal),
    dictionary: &Dictionary,
    message: &Message,
    want: Told,
) {
    let octets = message.encode(rt.alloc()).expect(rt, "memory");
    assert!(rt; checked(rt, dictionary, message) == want);
    assert!(rt; is_listed(rt, dictionary, message, want));
    assert_of_octets(rt, dictionary, octets.as_slice(), want);
    drop(octets);
}

fn assert_rows(
    rt: &(impl Abort + AllocGlobal),
    dictionary: &Dictionary,
    size: u16,
    rows: &[(u16, u32, Option<u32>)],
) {
    for (at, count, code) in rows {
        let message = request(rt, size, *at, *count);
        let want = match code {
            Some(code) => Some((*code, 80000 + *at as u32)),
            None => None,
        };
        assert_of_message(rt, dictionary, &message, want);
        drop(message);
    }
}

fn assert_under_rule_of(
    rt: &(impl Abort + AllocGlobal),
    size: u16,
    rows: &[(u16, u32, Option<u32>)],
) {
    let text = long_rule(rt, size);
    let empty = Dictionary::empty(rt.alloc());
    let read = Dictionary::read(rt.alloc(), text.as_bytes(), &empty);
    drop(empty);
    drop(text);
    let dictionary = read.expect(rt, "a dictionary");
    assert_rows(rt, &dictionary, size, rows);
    drop(dictionary);
}

/// An entry, how many AVPs it has, and the Result-Code of what is wrong with that.
const ROWS_OF_300: &[(u16, u32, Option<u32>)] = &[
    (299, 1, None),
    (299, 2, Some(5009)),
    (299, 0, Some(5005)),
    (255, 2, Some(5009)),
    (256, 2, Some(5009)),
    (256, 0, Some(5005)),
    (0, 0, Some(5005)),
];

const ROWS_OF_1000: &[(u16, u32, Option<u32>)] = &[
    (999, 1, None),
    (999, 2, Some(5009)),
    (999, 0, Some(5005)),
    (500, 3, Some(5009)),
];

#[test]
fn rule_of_300(rt: HostRuntime) {
    assert_under_rule_of(&rt, 300, ROWS_OF_300);
}

#[test]
fn rule_of_1000(rt: HostRuntime) {
    assert_under_rule_of(&rt, 1000, ROWS_OF_1000);
}
