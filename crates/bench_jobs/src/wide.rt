//! The text of a dictionary as large as 3GPP's, and messages that have its AVPs: those of four vendors, every eighth of
//! them a group of those before it, and every 64th a group of such groups.
use crate::chance::Chance;
use crate::decimal::push_decimal;
use crate::dictionaries::WORDS;
use crate::draft::Draft;
use crate::messages::Sample;
use anyhow::Result;
use std::alloc::Global;

/// How many AVPs are defined.
const AVPS: u32 = 640;

/// The code of the first of them.
const FIRST: u32 = 800;

/// The command of a request that has many of them.
const COMMAND: u32 = 8_388_700;

/// How many samples there are.
const SAMPLES: u32 = 64;

/// The vendors by name and number.
const VENDORS: [(&[u8], u32); 4] = [
    (b"TGPP", 10415),
    (b"Ericsson", 193),
    (b"TGPP2", 5535),
    (b"ETSI", 13019),
];

/// What an AVP's data are.
#[derive(Clone, Copy, Drop)]
enum Kind {
    Number,
    Text,
    Listed,
    Octets,
    Long,
    Identity,
    Group,
    GroupOfGroups,
}

/// The AVP of this index.
fn kind_of(index: u32) -> Kind {
    match index % 8 {
        0 => Kind::Number,
        1 => Kind::Text,
        2 | 6 => Kind::Listed,
        3 => Kind::Octets,
        4 => Kind::Long,
        5 => Kind::Identity,
        _ => {
            if index % 64 == 63 {
                Kind::GroupOfGroups
            } else {
                Kind::Group
            }
        }
    }
}

/// The vendor of the AVP of this index: seven in ten are 3GPP's.
fn vendor_of(index: u32) -> (&'static [u8], u32) {
    let which = (index / 64).saturating_sub(6) as usize;
    VENDORS.get(which).copied().unwrap_or((b"TGPP", 10415))
}

fn code_of(index: u32) -> u32 {
    FIRST.wrapping_add(index)
}

/// How many values the list of this index has.
fn values_of(index: u32) -> u32 {
    index % 41 + 1
}

/// Appends the definitions.
pub fn fill_text(text: &mut Vec<u8>) -> Result<()> {
    for (name, number) in VENDORS {
        text.extend_from_slice(b"@ vendor ")?;
        text.extend_from_slice(name)?;
        push_number(text, b" ", number)?;
        text.push(b'\n')?;
    }
    for index in 0..AVPS {
        push_definition(text, index)?;
    }
    push_command(text, b", REQ, PXY >\n")?;
    push_command(text, b", PXY >\n")
}

/// Appends octets and a number.
fn push_number(text: &mut Vec<u8>, front: &[u8], number: u32) -> Result<()> {
    text.extend_from_slice(front)?;
    push_decimal(text, number)
}

/// Appends the name of the AVP of this index.
fn push_name(text: &mut Vec<u8>, index: u32) -> Result<()> {
    for bits in [index, index / 5, index / 32] {
        let word = WORDS.get(bits as usize & 31).copied().unwrap_or(b"Word");
        text.extend_from_slice(word)?;
        text.push(b'-')?;
    }
    push_decimal(text, index)
}

fn push_definition(text: &mut Vec<u8>, index: u32) -> Result<()> {
    match kind_of(index) {
        Kind::Number => push_avp(text, index, b" Unsigned32 : "),
        Kind::Text => push_avp(text, index, b" UTF8String : "),
        Kind::Octets => push_avp(text, index, b" OctetString : "),
        Kind::Long => push_avp(text, index, b" Unsigned64 : "),
        Kind::Identity => push_avp(text, index, b" DiameterIdentity : "),
        Kind::Listed => push_list(text, index),
        Kind::Group => push_group(text, index, 0),
        Kind::GroupOfGroups => push_group(text, index, 7),
    }
}

fn push_front(text: &mut Vec<u8>, index: u32, kind: &[u8]) -> Result<()> {
    text.extend_from_slice(b"@ ")?;
    push_name(text, index)?;
    push_number(text, b" ", code_of(index))?;
    text.extend_from_slice(kind)?;
    text.extend_from_slice(vendor_of(index).0)?;
    Ok(())
}

fn push_avp(text: &mut Vec<u8>, index: u32, kind: &[u8]) -> Result<()> {
    push_front(text, index, kind)?;
    text.push(b'\n')?;
    Ok(())
}

fn push_list(text: &mut Vec<u8>, index: u32) -> Result<()> {
    push_front(text, index, b" Enumerated : ")?;
    for value in 0..values_of(index) {
        let front: &[u8] = if value == 0 {
            b" { STATE-"
        } else {
            b", STATE-"
        };
        push_number(text, front, value)?;
        push_number(text, b" ", value)?;
    }
    text.extend_from_slice(b" }\n")?;
    Ok(())
}

/// A group of the seven AVPs before it, the first of them required, and of so many groups before these.
fn push_group(text: &mut Vec<u8>, index: u32, groups: u32) -> Result<()> {
    text.extend_from_slice(b"< ")?;
    push_name(text, index)?;
    push_number(text, b" > ::= < AVP Header: ", code_of(index))?;
    text.extend_from_slice(b" : ")?;
    text.extend_from_slice(vendor_of(index).0)?;
    text.extend_from_slice(b" >\n")?;
    push_entry(text, b"  { ", index.wrapping_sub(7), b" }\n")?;
    for back in 1..7 {
        push_entry(text, b"  [ ", index.wrapping_sub(back), b" ]\n")?;
    }
    for back in 0..groups {
        let member = index.wrapping_sub(8).wrapping_sub(back.wrapping_mul(8));
        push_entry(text, b"  *[ ", member, b" ]\n")?;
    }
    text.extend_from_slice(b"  *[ AVP ]\n")?;
    Ok(())
}

fn push_entry(text: &mut Vec<u8>, front: &[u8], index: u32, behind: &[u8]) -> Result<()> {
    text.extend_from_slice(front)?;
    push_name(text, index)?;
    text.extend_from_slice(behind)?;
    Ok(())
}

/// A command whose rule has 45 entries.
fn push_command(text: &mut Vec<u8>, flags: &[u8]) -> Result<()> {
    let name: &[u8] = if flags.len() > 8 {
        b"< Wide-Request"
    } else {
        b"< Wide-Answer"
    };
    text.extend_from_slice(name)?;
    push_number(text, b" > ::= < Diameter Header: ", COMMAND)?;
    text.extend_from_slice(flags)?;
    text.extend_from_slice(
        b"  < Session-Id >\n  { Origin-Host } { Origin-Realm }\n  [ Destination-Realm ] [ User-Name ]\n",
    )?;
    for number in 0..40u32 {
        push_entry(
            text,
            b"  *[ ",
            number.wrapping_mul(16).wrapping_add(15),
            b" ]\n",
        )?;
    }
    Ok(())
}

/// Appends samples: Credit-Control-Requests and requests of the wide command, by turns.
pub fn fill_samples(alloc: Global, chance: &mut Chance, samples: &mut Vec<Sample>) -> Result<()> {
    for number in 0..SAMPLES {
        let mut draft = Draft::new(alloc);
        let made = if number % 2 == 0 {
            fill_credit(&mut draft, chance)
        } else {
            fill_wide(&mut draft, chance)
        };
        samples.push(Sample::of(draft, true))?;
        made?;
    }
    Ok(())
}

fn put_origin(draft: &mut Draft) -> Result<()> {
    draft.text(
        263,
        b"gw01.example.net;1790000000;3;aaaaaaaaaaaaaaaaaaaaaaaaaaaaaa",
        0,
    )?;
    draft.text(264, b"gateway-aa.region-aa.epc.mnc001.mcc262.example", 6)?;
    draft.text(296, b"epc.mnc001.mcc262.3gppnetwork", 0)?;
    draft.text(283, b"charging.mnc001.mcc262.example", 0)
}

/// A Credit-Control-Request with AVPs of the vendors.
fn fill_credit(draft: &mut Draft, chance: &mut Chance) -> Result<()> {
    draft.begin(0xc0, 272, 4)?;
    put_origin(draft)?;
    draft.number(258, 4)?;
    draft.text(461, b"32251@3gpp.org", 0)?;
    draft.number(416, chance.below(4) + 1)?;
    draft.number(415, chance.below(40))?;
    for _ in 0..chance.below(6) + 2 {
        let first = chance.below(AVPS / 8).wrapping_mul(8);
        put_plain(draft, first.wrapping_add(chance.below(7)), chance)?;
    }
    for _ in 0..chance.below(2) + 1 {
        put_large(draft, chance.below(9), chance)?;
    }
    draft.end()
}

/// A request of the wide command: groups that its rule has.
fn fill_wide(draft: &mut Draft, chance: &mut Chance) -> Result<()> {
    draft.begin(0xc0, COMMAND, 0)?;
    put_origin(draft)?;
    draft.digits(1, 15, chance)?;
    for _ in 0..chance.below(8) + 2 {
        let which = chance.below(39);
        if which % 4 == 3 {
            put_large(draft, which / 4, chance)?;
        } else {
            put_small(draft, which.wrapping_mul(16).wrapping_add(15), chance)?;
        }
    }
    draft.end()
}

/// A group of groups.
fn put_large(draft: &mut Draft, which: u32, chance: &mut Chance) -> Result<()> {
    let index = which.wrapping_mul(64).wrapping_add(63);
    let group = draft.open_of(code_of(index), vendor_of(index).1)?;
    put_plain(draft, index.wrapping_sub(7), chance)?;
    for _ in 0..chance.below(4) {
        let back = chance.below(6).wrapping_add(1).wrapping_mul(8);
        put_small(draft, index.wrapping_sub(back), chance)?;
    }
    draft.close(group)
}

/// A group of AVPs.
fn put_small(draft: &mut Draft, index: u32, chance: &mut Chance) -> Result<()> {
    let group = draft.open_of(code_of(index), vendor_of(index).1)?;
    let first = index.wrapping_sub(7);
    for number in 0..chance.below(6).wrapping_add(1) {
        put_plain(draft, first.wrapping_add(number), chance)?;
    }
    draft.close(group)
}

/// An AVP of data by its kind; a group gets none.
fn put_plain(draft: &mut Draft, index: u32, chance: &mut Chance) -> Result<()> {
    let avp = draft.open_of(code_of(index), vendor_of(index).1)?;
    match kind_of(index) {
        Kind::Number => draft.data(&chance.word().to_be_bytes())?,
        Kind::Text => draft.data(b"sip:user-1@mnc001.mcc262.example")?,
        Kind::Octets => draft.data(&[0x62, 0xf2, 0x10, 0x12, 0x34, 0x56, 0x78])?,
        Kind::Long => draft.data(&chance.number().to_be_bytes())?,
        Kind::Identity => draft.data(b"node-aa.region-aa.mnc001.example")?,
        Kind::Listed => draft.data(&value_by_chance(index, chance).to_be_bytes())?,
        Kind::Group | Kind::GroupOfGroups => {}
    }
    draft.close(avp)
}

/// A value of the list, and seldom none of them.
fn value_by_chance(index: u32, chance: &mut Chance) -> u32 {
    if chance.is_one_of(100) {
        1000
    } else {
        chance.below(values_of(index))
    }
}
