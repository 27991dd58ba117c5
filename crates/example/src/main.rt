//! Reads Diameter messages in hexadecimal, one a line; prints of each its AVPs by name with their values, what the base
//! dictionary says of it, and the answer to it where it is a request.
#![tactic(auto)]

ghost use Rattle.std.specs.Prelude.{◌≡◌, IfOk, string_bytes};
ghost use Rattle.example.specs.Answering.{AnswersRequest, Describes, line_text};

use anyhow::{Context, Result};
use dm_dict::{Dictionary, Value, ValueFault, Verdict, read_value};
use dm_wire::codes::{avps, results};
use dm_wire::{Avp, AvpList, Header, Message, Octets};
use std::alloc::{AllocError, Global};

fn main(rt: HostRuntime) -> Result<()> {
    let alloc = rt.alloc();
    for line in rt.lines(alloc) {
        let octets = hex::decode(alloc, line?.trim()).context("reading hexadecimal")?;
        let message = Message::decode(alloc, octets.as_slice()).context("reading a message")?;
        let (text, verdict) = judged(alloc, &message)?;
        println!(rt; "{}\n{text}{verdict}", message.header)?;
        if message.header.request {
            let reply = answer(alloc, &message, &verdict)?;
            println!(rt; "{}", Octets::from(reply.encode(alloc)?))?;
        }
    }
    Ok(())
}

/// The message's AVPs as text and the verdict on it. The dictionary is dropped in one place, so this has one way out.
fn judged(alloc: Global, message: &Message) -> Result<(String, Verdict), ValueFault> {
    let dictionary = Dictionary::base(alloc)?;
    let text = describe_all(alloc, &dictionary, message);
    let verdict = dictionary.check(alloc, message);
    drop(dictionary);
    Ok((text?, verdict?))
}

/// A line for each AVP.
fn describe_all(alloc: Global, base: &Dictionary, message: &Message) -> Result<String, AllocError> {
    let mut text = String::new(alloc);
    for avp in &message.avps {
        text.push_str(describe(alloc, base, avp)?.as_str())?;
    }
    Ok(text)
}

/// The name and value of an AVP; or the AVP as it lies, where the dictionary doesn't know it or it has no value.
fn describe(alloc: Global, base: &Dictionary, avp: &Avp) -> Result<String, AllocError>
    ensures { IfOk result (λ text. Describes base.now avp.now (string_bytes text)) }
{
    let Some(definition) = base.avp_by_code(avp.code, avp.vendor) else {
        return format!(in alloc; "  {avp}\n");
    };
    let name = definition.name.as_str().unwrap_or("?");
    match read_value(alloc, definition.kind, avp.bytes.as_slice()) {
        Ok(value) => line(alloc, name, &value),
        Err(ValueFault::NoMemory) => Err(AllocError),
        Err(fault) => format!(in alloc; "  {avp}: {fault}\n"),
    }
}

fn line(alloc: Global, name: &str, value: &Value) -> Result<String, AllocError>
    ensures { IfOk result (λ text. string_bytes text ≡ line_text name.now value.now) }
{
    format!(in alloc; "  {name} {value}\n")
}

/// The answer to a request: its Result-Code by the verdict, the name and realm of this node, and the failed AVP.
fn answer(alloc: Global, request: &Message, verdict: &Verdict) -> Result<Message, ValueFault>
    ensures { IfOk result (λ answer. AnswersRequest request.now verdict.now answer) }
{
    let (code, failed) = match verdict {
        Verdict::Good => (results::SUCCESS, None),
        Verdict::Bad { code, failed } => (*code, failed.as_ref()),
    };
    let header = Header {
        error: code / 1000 == 3,
        ..request.header.answer()
    };
    let mut list = vec![in alloc;
        Value::Uint32(code).to_avp(alloc, avps::RESULT_CODE, None, true)?,
        named(alloc, avps::ORIGIN_HOST, b"example.example")?,
        named(alloc, avps::ORIGIN_REALM, b"example")?,
    ]?;
    if let Some(avp) = failed {
        list.push(failed_avp(alloc, avp)?)?;
    }
    Ok(Message::new(header, AvpList::from(list)))
}

/// The group Failed-AVP with a copy of the AVP (RFC 6733, 7.5).
fn failed_avp(alloc: Global, avp: &Avp) -> Result<Avp, ValueFault> {
    let group = AvpList::from(vec![in alloc; avp.clone()?]?);
    Value::Group(group).to_avp(alloc, avps::FAILED_AVP, None, true)
}

fn named(alloc: Global, code: u32, name: &[u8]) -> Result<Avp, ValueFault> {
    Value::Identity(Octets::from_slice(alloc, name)?).to_avp(alloc, code, None, true)
}
