//! Rules and requests that are made by chance: all calls say what is counted by hand (RFC 6733, 3.2, 4.1 and 7.1.5).
use crate::told::{
    GOOD, Run, Said, assert_both, plain_request, push_avp, put_definitions, put_entries, ruled,
    words_of,
};
use dm_dict::{Dictionary, Failed, Fault};
use dm_wire::{Avp, Message};
use std::process::Abort;

/// A definition of an AVP, and how many of it the rule asks for, if it has an entry for it.
#[derive(Clone, Copy)]
struct Made {
    code: u32,
    vendor: Option<u32>,
    is_listed: bool,
    min: u32,
    max: Option<u32>,
}

/// The next number by chance below this one.
fn chance(state: &mut u64, below: u32) -> u32 {
    *state = state
        .wrapping_mul(6_364_136_223_846_793_005)
        .wrapping_add(1_442_695_040_888_963_407);
    let number = (*state >> 33) % u64::from(below.max(1));
    u32::try_from(number).unwrap_or(0)
}

/// One of three vendors.
fn vendor_of(nth: u32) -> Option<u32> {
    match nth % 3 {
        0 => None,
        1 => Some(0),
        _ => Some(256),
    }
}

/// One definition: three have one code, and the next three one that is so far from it.
fn made_by_chance(state: &mut u64, step: u32, nth: u32) -> Made {
    let is_barred = chance(state, 8) == 0;
    let min = if is_barred {
        0
    } else {
        chance(state, 6).saturating_sub(3)
    };
    let max = match chance(state, 4) {
        _ if is_barred => Some(0),
        0 => None,
        more => Some(min.saturating_add(more)),
    };
    Made {
        code: step.wrapping_mul(nth / 3).wrapping_add(20_000),
        vendor: vendor_of(nth),
        is_listed: chance(state, 4) > 0,
        min,
        max,
    }
}

/// So many definitions.
fn all_made(rt: &(impl Abort + AllocGlobal), state: &mut u64, step: u32, count: u32) -> Vec<Made> {
    let mut all = Vec::new(rt.alloc());
    for nth in 0..count {
        all.push(made_by_chance(state, step, nth))
            .expect(rt, "memory");
    }
    all
}

/// The AVP alone.
fn avp_of(made: &Made) -> Run {
    Run {
        first: made.code,
        step: 0,
        count: 1,
        vendor: made.vendor,
    }
}

/// The entry of a definition, if it is listed.
fn put_entry(rt: &(impl Abort + AllocGlobal), entries: &mut String, made: &Made) {
    if !made.is_listed {
        return;
    }
    let min = made.min;
    let front = match made.max {
        None => format!(in rt.alloc(); " {min}* [ "),
        Some(max) => format!(in rt.alloc(); " {min}*{max} [ "),
    };
    let front = front.expect(rt, "memory");
    put_entries(rt, entries, &avp_of(made), front.as_str(), " ]");
    drop(front);
}

/// The dictionary of these definitions; behind their entries stands one for any AVP, of which so many may stand, if it
/// is more than 0.
fn dictionary_of(rt: &(impl Abort + AllocGlobal), all: &[Made], any: u32) -> Dictionary {
    let mut definitions = String::new(rt.alloc());
    let mut entries = String::new(rt.alloc());
    for made in all {
        put_definitions(rt, &mut definitions, &avp_of(made), "Unsigned32");
        put_entry(rt, &mut entries, made);
    }
    if any > 0 {
        let entry = format!(in rt.alloc(); " *{any} [ AVP ]").expect(rt, "memory");
        entries.push_str(entry.as_str()).expect(rt, "memory");
        drop(entry);
    }
    let dictionary = ruled(rt, definitions.as_str(), entries.as_str());
    drop(entries);
    drop(definitions);
    dictionary
}

/// How many of an AVP a request has: as many as the rule asks for, but for one in so many, where it isn't 0.
fn amount(state: &mut u64, made: &Made, wild: u32) -> u32 {
    if wild > 0 && chance(state, wild) == 0 {
        return chance(state, 6);
    }
    if !made.is_listed {
        return 0;
    }
    let most = made.max.unwrap_or(made.min.saturating_add(2));
    let more = most.saturating_sub(made.min).saturating_add(1);
    made.min.saturating_add(chance(state, more))
}

/// One more of each AVP of which there are more than so many; the data of each is its place.
fn push_round(
    rt: &(impl Abort + AllocGlobal),
    avps: &mut Vec<Avp>,
    all: &[Made],
    amounts: &[u32],
    round: u32,
) {
    for (made, amount) in all.iter().zip(amounts) {
        if *amount > round {
            let number = u32::try_from(avps.len()).unwrap_or(0).to_be_bytes();
            push_avp(rt, avps, made.code, made.vendor, &number);
        }
    }
}

/// The AVPs of a request.
fn avps_of(rt: &(impl Abort + AllocGlobal), state: &mut u64, all: &[Made], wild: u32) -> Vec<Avp> {
    let mut amounts = Vec::new(rt.alloc());
    for made in all {
        let amount = amount(state, made, wild);
        amounts.push(amount).expect(rt, "memory");
    }
    let mut avps = Vec::new(rt.alloc());
    for round in 0..6 {
        push_round(rt, &mut avps, all, amounts.as_slice(), round);
    }
    drop(amounts);
    avps
}

/// What is wrong: the Result-Code, the AVP, and its place, if it isn't missing.
#[derive(Clone, Copy)]
struct Wrong {
    result_code: u32,
    code: u32,
    vendor: Option<u32>,
    number: Option<u32>,
}

fn is_of(avp: &Avp, made: &Made) -> bool {
    avp.code == made.code && avp.vendor == made.vendor
}

/// The definition of the AVP.
fn definition_of(all: &[Made], avp: &Avp) -> Option<Made> {
    for made in all {
        if is_of(avp, made) {
            return Some(*made);
        }
    }
    None
}

/// The Result-Code of an AVP that may not stand.
fn barred(all: &[Made], any: u32, avp: &Avp) -> Option<u32> {
    match definition_of(all, avp) {
        None => Some(5001),
        Some(made) if made.is_listed && made.max == Some(0) => Some(5008),
        Some(made) if !made.is_listed && any == 0 => Some(5008),
        Some(_) => None,
    }
}

/// Puts the AVPs that may not stand.
fn push_barred(
    rt: &(impl Abort + AllocGlobal),
    wrongs: &mut Vec<Wrong>,
    all: &[Made],
    any: u32,
    avps: &[Avp],
) {
    for (number, avp) in avps.iter().enumerate() {
        if let Some(result_code) = barred(all, any, avp) {
            let wrong = Wrong {
                result_code,
                code: avp.code,
                vendor: avp.vendor,
                number: u32::try_from(number).ok(),
            };
            wrongs.push(wrong).expect(rt, "memory");
        }
    }
}

/// How many AVPs there are of the definition.
fn count_of(avps: &[Avp], made: &Made) -> u32 {
    let mut count: u32 = 0;
    for avp in avps {
        count = count.saturating_add(u32::from(is_of(avp, made)));
    }
    count
}

/// The place of the first of the definition that has so many before it.
fn place_behind(avps: &[Avp], made: &Made, before: u32) -> Option<u32> {
    let mut left = before;
    for (number, avp) in avps.iter().enumerate() {
        if is_of(avp, made) {
            if left == 0 {
                return u32::try_from(number).ok();
            }
            left = left.saturating_sub(1);
        }
    }
    None
}

/// What is wrong with the number of AVPs of an entry.
fn miscounted(avps: &[Avp], made: &Made) -> Option<Wrong> {
    let count = count_of(avps, made);
    let wrong = Wrong {
        result_code: 5005,
        code: made.code,
        vendor: made.vendor,
        number: None,
    };
    match made.max {
        _ if count < made.min => Some(wrong),
        Some(max) if max > 0 && count > max => Some(Wrong {
            result_code: 5009,
            number: place_behind(avps, made, max),
            ..wrong
        }),
        _ => None,
    }
}

/// Puts what is wrong with the numbers of AVPs.
fn push_miscounted(
    rt: &(impl Abort + AllocGlobal),
    wrongs: &mut Vec<Wrong>,
    all: &[Made],
    avps: &[Avp],
) {
    for made in all {
        if made.is_listed {
            if let Some(wrong) = miscounted(avps, made) {
                wrongs.push(wrong).expect(rt, "memory");
            }
        }
    }
}

/// Whether an entry names the AVP.
fn is_listed(all: &[Made], avp: &Avp) -> bool {
    match definition_of(all, avp) {
        Some(made) => made.is_listed,
        None => false,
    }
}

/// The first AVP that no entry names and that has so many of them before it.
fn first_past_any(all: &[Made], any: u32, avps: &[Avp]) -> Option<Wrong> {
    let mut left = any;
    for (number, avp) in avps.iter().enumerate() {
        if !is_listed(all, avp) {
            if left == 0 {
                return Some(Wrong {
                    result_code: 5009,
                    code: avp.code,
                    vendor: avp.vendor,
                    number: u32::try_from(number).ok(),
                });
            }
            left = left.saturating_sub(1);
        }
    }
    None
}

/// All that is wrong, in the order in which it is looked for.
fn wrongs_of(rt: &(impl Abort + AllocGlobal), all: &[Made], any: u32, avps: &[Avp]) -> Vec<Wrong> {
    let mut wrongs = Vec::new(rt.alloc());
    push_barred(rt, &mut wrongs, all, any, avps);
    push_miscounted(rt, &mut wrongs, all, avps);
    if any > 0 {
        if let Some(wrong) = first_past_any(all, any, avps) {
            wrongs.push(wrong).expect(rt, "memory");
        }
    }
    wrongs
}

/// Whether the fault is this.
fn is_told(fault: &Fault<'_>, wrong: &Wrong) -> bool {
    let is_failed = match (fault.failed, wrong.number) {
        (Failed::Found(avp), Some(number)) => {
            avp.code == wrong.code
                && avp.vendor == wrong.vendor
                && avp.bytes == number.to_be_bytes().as_slice()
        }
        (Failed::Example { code, vendor, .. }, None) => {
            code == wrong.code && vendor == wrong.vendor
        }
        _ => false,
    };
    fault.code == wrong.result_code && is_failed
}

fn are_told(faults: &[Fault<'_>], wrongs: &[Wrong]) -> bool {
    for (fault, wrong) in faults.iter().zip(wrongs) {
        if !is_told(fault, wrong) {
            return false;
        }
    }
    faults.len() == wrongs.len()
}

/// The words for what is wrong first.
fn first_words(rt: &(impl Abort + AllocGlobal), wrongs: &[Wrong]) -> String {
    match wrongs {
        [] => String::from_str(rt.alloc(), GOOD.words).expect(rt, "memory"),
        [wrong, ..] => {
            let avp = Run {
                first: wrong.code,
                step: 0,
                count: 1,
                vendor: wrong.vendor,
            };
            words_of(rt, wrong.result_code, &avp, wrong.number.unwrap_or(0))
        }
    }
}

/// All calls say this of the message.
fn assert_wrong(
    rt: &(impl Abort + AllocGlobal),
    dictionary: &Dictionary,
    message: &Message,
    wrongs: &[Wrong],
) {
    let words = first_words(rt, wrongs);
    let said = Said {
        words: words.as_str(),
        faults: wrongs.len(),
    };
    assert_both(rt, dictionary, message, said);
    drop(words);
    let faults = dictionary.faults(rt.alloc(), message).expect(rt, "memory");
    assert!(rt; are_told(faults.as_slice(), wrongs));
}

/// A request by chance; it says whether it is good.
fn assert_request(
    rt: &(impl Abort + AllocGlobal),
    state: &mut u64,
    dictionary: &Dictionary,
    all: &[Made],
    (any, wild): (u32, u32),
) -> bool {
    let avps = avps_of(rt, state, all, wild);
    let wrongs = wrongs_of(rt, all, any, avps.as_slice());
    let message = plain_request(avps);
    assert_wrong(rt, dictionary, &message, wrongs.as_slice());
    drop(message);
    wrongs.as_slice().is_empty()
}

/// Requests under a dictionary of so many definitions; it says how many are good.
fn assert_requests(rt: &(impl Abort + AllocGlobal), state: &mut u64, step: u32, count: u32) -> u32 {
    let any = chance(state, 4);
    let all = all_made(rt, state, step, count);
    let dictionary = dictionary_of(rt, all.as_slice(), any);
    let mut good: u32 = 0;
    for wild in [0, 0, 4, 20, count, count.saturating_mul(2)] {
        let is_good = assert_request(rt, state, &dictionary, all.as_slice(), (any, wild));
        good = good.saturating_add(u32::from(is_good));
    }
    drop(dictionary);
    good
}

/// The same of so many dictionaries of each step.
fn assert_by_hand(rt: &(impl Abort + AllocGlobal), first: u64, count: u32, rounds: u32) {
    let mut state = first;
    let mut good: u32 = 0;
    for _ in 0..rounds {
        for step in [1, 256, 512] {
            good = good.saturating_add(assert_requests(rt, &mut state, step, count));
        }
    }
    let most = rounds.saturating_mul(3 * 6);
    assert!(rt;
        good >= rounds.saturating_mul(3 * 2) && good < most,
        "{good} are good of {most}"
    );
}

#[test]
fn requests_under_short_rules_are_counted_by_hand(rt: HostRuntime) {
    for count in [3, 10, 21, 22, 42, 44, 60] {
        assert_by_hand(&rt, u64::from(count), count, 12);
    }
}

#[test]
fn requests_under_long_rules_are_counted_by_hand(rt: HostRuntime) {
    for count in [330, 336, 339, 342, 345, 360] {
        assert_by_hand(&rt, u64::from(count), count, 2);
    }
}
