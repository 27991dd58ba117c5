//! Verdicts and names of definitions as text.
use dm_dict::{Dictionary, NoMemory, Verdict};
use dm_wire::codes::{avps, commands};
use dm_wire::{AvpList, Header, Message};
use std::alloc::Global;

/// A Device-Watchdog-Request without AVPs, with this T bit.
fn watchdog(alloc: Global, retransmit: bool) -> Message {
    let header = Header {
        request: true,
        proxiable: false,
        error: false,
        retransmit,
        command: commands::DEVICE_WATCHDOG,
        application: 0,
        hop_id: 1,
        end_id: 1,
    };
    Message::new(header, AvpList::from(Vec::new(alloc)))
}

/// The base dictionary's verdict on the message.
fn verdict_on(alloc: Global, message: &Message) -> Result<Verdict, NoMemory> {
    let base = Dictionary::base(alloc)?;
    let verdict = base.check(alloc, message);
    drop(base);
    verdict
}

/// Whether a verdict and its copy are printed so.
fn is_shown(alloc: Global, verdict: &Verdict, text: &str) -> Result<bool, NoMemory> {
    let copy = verdict.clone()?;
    let shown = copy.to_string(alloc)?;
    Ok(copy == *verdict && shown.as_str() == text)
}

/// Whether the base dictionary's AVP of the code has the name.
fn is_named(alloc: Global, code: u32, name: &str) -> Result<bool, NoMemory> {
    let base = Dictionary::base(alloc)?;
    let found = base.avp_by_code(code, None);
    let same = found.is_some_and(|definition| definition.name.as_str() == Some(name));
    drop(base);
    Ok(same)
}

#[test]
fn verdicts_are_printed(rt: HostRuntime) {
    let alloc = rt.alloc();
    assert!(rt; is_shown(alloc, &Verdict::Good, "good") == Ok(true));
    let mut answer = watchdog(alloc, true);
    answer.header.request = false;
    let bits = verdict_on(alloc, &answer);
    assert!(rt; bits.is_ok_and(|verdict| is_shown(alloc, &verdict, "bad 3008") == Ok(true)));
    let lacking = verdict_on(alloc, &watchdog(alloc, false));
    assert!(rt; lacking.is_ok_and(|v| is_shown(alloc, &v, "bad 5005 264 -M- 00") == Ok(true)));
}

#[test]
fn names_are_text(rt: HostRuntime) {
    assert!(rt; is_named(rt.alloc(), avps::ORIGIN_HOST, "Origin-Host") == Ok(true));
    assert!(rt; is_named(rt.alloc(), avps::FAILED_AVP, "Failed-AVP") == Ok(true));
}
