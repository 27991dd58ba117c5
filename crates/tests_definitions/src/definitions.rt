//! The base dictionary, told from outside, and that its calls succeed with memory at hand.
ghost use Rattle.dm_tables.specs.Tables.{IsDictionary};

use dm_dict::{AvpType, Dictionary, Form};
use dm_tables::{Tables, base_tables};
use std::alloc::Global;
use std::process::Abort;

/// The AVPs of the base dictionary that aren't groups.
const PLAIN: &str = "\
@ User-Name 1 UTF8String
@ Class 25 OctetString
@ Proxy-State 33 OctetString
@ Event-Timestamp 55 Time
@ Host-IP-Address 257 Address
@ Auth-Application-Id 258 Unsigned32
@ Acct-Application-Id 259 Unsigned32
@ Session-Id 263 UTF8String
@ Origin-Host 264 DiameterIdentity
@ Supported-Vendor-Id 265 Unsigned32
@ Vendor-Id 266 Unsigned32
@ Firmware-Revision 267 Unsigned32
@ Result-Code 268 Unsigned32
@ Product-Name 269 UTF8String
@ Disconnect-Cause 273 Enumerated
@ Origin-State-Id 278 Unsigned32
@ Proxy-Host 280 DiameterIdentity
@ Error-Message 281 UTF8String
@ Destination-Realm 283 DiameterIdentity
@ Redirect-Host 292 DiameterURI
@ Destination-Host 293 DiameterIdentity
@ Error-Reporting-Host 294 DiameterIdentity
@ Origin-Realm 296 DiameterIdentity
@ Experimental-Result-Code 298 Unsigned32
@ Inband-Security-Id 299 Unsigned32
";

/// Its groups and commands, in the printed form.
const PRINTED: &str = "\
< Vendor-Specific-Application-Id > ::= < AVP Header: 260 > 1* { Vendor-Id } 0*1 [ Auth-Application-Id ] \
   0*1 [ Acct-Application-Id ]
< Failed-AVP > ::= < AVP Header: 279 > 1* { AVP }
< Proxy-Info > ::= < AVP Header: 284 > 1*1 { Proxy-Host } 1*1 { Proxy-State } 0* [ AVP ]
< Experimental-Result > ::= < AVP Header: 297 > 1*1 { Vendor-Id } 1*1 { Experimental-Result-Code }
< CER > ::= < Diameter Header: 257, REQ 0 > 1*1 { Origin-Host } 1*1 { Origin-Realm } 1* { Host-IP-Address } \
   1*1 { Vendor-Id } 1*1 { Product-Name } 0*1 [ Origin-State-Id ] 0* [ Supported-Vendor-Id ] \
   0* [ Auth-Application-Id ] 0* [ Inband-Security-Id ] 0* [ Acct-Application-Id ] \
   0* [ Vendor-Specific-Application-Id ] 0*1 [ Firmware-Revision ] 0* [ AVP ]
< CEA > ::= < Diameter Header: 257 0 > 1*1 { Result-Code } 1*1 { Origin-Host } 1*1 { Origin-Realm } \
   1* { Host-IP-Address } 1*1 { Vendor-Id } 1*1 { Product-Name } 0*1 [ Origin-State-Id ] 0*1 [ Error-Message ] \
   0* [ Failed-AVP ] 0* [ Supported-Vendor-Id ] 0* [ Auth-Application-Id ] 0* [ Inband-Security-Id ] \
   0* [ Acct-Application-Id ] 0* [ Vendor-Specific-Application-Id ] 0*1 [ Firmware-Revision ] 0* [ AVP ]
< DWR > ::= < Diameter Header: 280, REQ 0 > 1*1 { Origin-Host } 1*1 { Origin-Realm } 0*1 [ Origin-State-Id ] 0* [ AVP ]
< DWA > ::= < Diameter Header: 280 0 > 1*1 { Result-Code } 1*1 { Origin-Host } 1*1 { Origin-Realm } \
   0*1 [ Error-Message ] 0* [ Failed-AVP ] 0*1 [ Origin-State-Id ] 0* [ AVP ]
< DPR > ::= < Diameter Header: 282, REQ 0 > 1*1 { Origin-Host } 1*1 { Origin-Realm } 1*1 { Disconnect-Cause } 0* [ AVP ]
< DPA > ::= < Diameter Header: 282 0 > 1*1 { Result-Code } 1*1 { Origin-Host } 1*1 { Origin-Realm } \
   0*1 [ Error-Message ] 0* [ Failed-AVP ] 0* [ AVP ]
< answer-message > ::= < Diameter Header: 0, ERR 0 > 0*1 < Session-Id > 1*1 { Origin-Host } 1*1 { Origin-Realm } \
   1*1 { Result-Code } 0*1 [ Origin-State-Id ] 0*1 [ Error-Message ] 0*1 [ Error-Reporting-Host ] 0* [ Failed-AVP ] \
   0*1 [ Experimental-Result ] 0* [ Proxy-Info ] 0* [ AVP ]
";

/// The same as a person writes them.
const WRITTEN: &str = "\
< Vendor-Specific-Application-Id > ::= < AVP Header: 260 > 1*{ Vendor-Id } [ Auth-Application-Id ] \
   [ Acct-Application-Id ]
< Failed-AVP > ::= < AVP Header: 279 > 1*{ AVP }
< Proxy-Info > ::= < AVP Header: 284 > { Proxy-Host } { Proxy-State } *[ AVP ]
< Experimental-Result > ::= < AVP Header: 297 > { Vendor-Id } { Experimental-Result-Code }
< CER > ::= < Diameter Header: 257, REQ > { Origin-Host } { Origin-Realm } 1*{ Host-IP-Address } { Vendor-Id } \
   { Product-Name } [ Origin-State-Id ] *[ Supported-Vendor-Id ] *[ Auth-Application-Id ] *[ Inband-Security-Id ] \
   *[ Acct-Application-Id ] *[ Vendor-Specific-Application-Id ] [ Firmware-Revision ] *[ AVP ]
< CEA > ::= < Diameter Header: 257 > { Result-Code } { Origin-Host } { Origin-Realm } 1*{ Host-IP-Address } \
   { Vendor-Id } { Product-Name } [ Origin-State-Id ] [ Error-Message ] *[ Failed-AVP ] *[ Supported-Vendor-Id ] \
   *[ Auth-Application-Id ] *[ Inband-Security-Id ] *[ Acct-Application-Id ] *[ Vendor-Specific-Application-Id ] \
   [ Firmware-Revision ] *[ AVP ]
< DWR > ::= < Diameter Header: 280, REQ > { Origin-Host } { Origin-Realm } [ Origin-State-Id ] *[ AVP ]
< DWA > ::= < Diameter Header: 280 > { Result-Code } { Origin-Host } { Origin-Realm } [ Error-Message ] \
   *[ Failed-AVP ] [ Origin-State-Id ] *[ AVP ]
< DPR > ::= < Diameter Header: 282, REQ > { Origin-Host } { Origin-Realm } { Disconnect-Cause } *[ AVP ]
< DPA > ::= < Diameter Header: 282 > { Result-Code } { Origin-Host } { Origin-Realm } [ Error-Message ] \
   *[ Failed-AVP ] *[ AVP ]
< answer-message > ::= < Diameter Header: 0, ERR > 0*1 < Session-Id > { Origin-Host } { Origin-Realm } \
   { Result-Code } [ Origin-State-Id ] [ Error-Message ] [ Error-Reporting-Host ] *[ Failed-AVP ] \
   [ Experimental-Result ] *[ Proxy-Info ] *[ AVP ]
";

/// The text of the base dictionary, with its groups and commands in this form.
fn base_text(rt: &(impl Abort + AllocGlobal), others: &str) -> String {
    format!(in rt.alloc(); "{PLAIN}{others}").expect(rt, "memory")
}

fn prints(alloc: Global, definitions: &Dictionary, text: &[u8]) -> bool {
    match definitions.print(alloc) {
        Ok(printed) => printed.as_slice() == text,
        Err(_) => false,
    }
}

fn base(rt: &(impl Abort + AllocGlobal)) -> Dictionary {
    Dictionary::base(rt.alloc()).expect(rt, "the base definitions")
}

fn read(rt: &(impl Abort + AllocGlobal), text: &[u8]) -> Dictionary {
    let empty = Dictionary::empty(rt.alloc());
    let read = Dictionary::read(rt.alloc(), text, &empty);
    drop(empty);
    read.expect(rt, "definitions")
}

/// Whether the definitions are printed as the base dictionary's.
fn prints_base(rt: &(impl Abort + AllocGlobal), definitions: &Dictionary) -> bool {
    let text = base_text(rt, PRINTED);
    let same = prints(rt.alloc(), definitions, text.as_bytes());
    drop(text);
    same
}

fn reads_as_base(rt: &(impl Abort + AllocGlobal), others: &str) -> bool {
    let text = base_text(rt, others);
    let definitions = read(rt, text.as_bytes());
    drop(text);
    let same = prints_base(rt, &definitions);
    drop(definitions);
    same
}

fn has_user_name(definitions: &Dictionary) -> bool {
    definitions.avp_by_name(b"User-Name").is_some()
        || definitions.avp_by_code(1, None).is_some()
        || definitions.command(257, true, false).is_some()
}

fn finds_avps(base: &Dictionary) -> Option<bool> {
    let by_name = base.avp_by_name(b"Failed-AVP")?;
    let by_code = base.avp_by_code(279, None)?;
    Some(by_name == by_code && by_name.kind == AvpType::Grouped)
}

fn finds_no_others(base: &Dictionary) -> bool {
    base.avp_by_name(b"AVP").is_none()
        && base.avp_by_code(279, Some(0)).is_none()
        && base.command(257, true, true).is_none()
}

fn finds_places(tables: &Tables) -> Option<bool>
    requires { IsDictionary tables.now }
{
    let name = b"Vendor-Id".as_slice();
    let place = tables.avp_place_by_name(name)?;
    let avp = tables.avps.as_slice().get(place)?;
    let cer = tables.command_by_code(257, true, false)?;
    let entry = cer.rule.as_slice().get(3)?;
    Some(
        tables.avp_place_by_code(266, None)? == place
            && avp.name.as_slice() == name
            && entry.name.as_slice() == name
            && entry.form == Form::Required,
    )
}

fn copies(base: &Dictionary) -> Option<bool> {
    let cer = base.command(257, true, false)?;
    let copy = cer.clone().ok()?;
    Some(copy == *cer)
}

fn assert_base(rt: &(impl Abort + AllocGlobal), base: &Dictionary) {
    assert!(rt; prints_base(rt, base), "printed");
    assert!(rt; finds_avps(base) == Some(true), "AVPs");
    assert!(rt; finds_no_others(base), "no others");
    assert!(rt; copies(base) == Some(true), "a copy");
}

#[test]
fn base_is_read(rt: HostRuntime) {
    assert!(rt; reads_as_base(&rt, WRITTEN));
    assert!(rt; reads_as_base(&rt, PRINTED));
}

#[test]
fn base_is_printed_and_found(rt: HostRuntime) {
    let base = base(&rt);
    assert_base(&rt, &base);
    drop(base);
}

#[test]
fn base_tables_are_found(rt: HostRuntime) {
    let tables = base_tables(rt.alloc()).expect(&rt, "the base tables");
    assert!(rt; finds_places(&tables) == Some(true), "a place");
    drop(tables);
}

#[test]
fn empty_prints_nothing(rt: HostRuntime) {
    let empty = Dictionary::empty(rt.alloc());
    assert!(rt; prints(rt.alloc(), &empty, b""));
    assert!(rt; !has_user_name(&empty));
    drop(empty);
}
