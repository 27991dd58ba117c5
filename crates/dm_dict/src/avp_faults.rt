//! All faults of AVPs under a rule, each with the groups round it or without (RFC 6733, 4.1, 4.4 and 7.1.5).
ghost use Rattle.std.specs.Prelude.{◌≡◌, ◌<◌, ◌^◌, [], List, slice_get, map, flat_map, OnOk};
ghost use Rattle.std.specs.Option.{option_and_then, option_copied};
ghost use Rattle.dm_wire.specs.declared.avp.Avp.{Avp};
ghost use Rattle.dm_tables.specs.Tables.{IsTables};
ghost use Rattle.dm_dict.specs.Apart.{IsFit};
ghost use Rattle.dm_dict.specs.Linked.{IsLinked, IsRule};
ghost use Rattle.dm_wire.specs.Borrowed.{avp_of, size_of, Lists};
ghost use Rattle.dm_dict.specs.Faults.{avp_faults, entry_faults};
ghost use Rattle.dm_dict.specs.Located.{here, no_groups, avp_located, each_located, group_located, list_located};
ghost use Rattle.dm_dict.specs.Locating.{AddsAt, HasRoomInside};
ghost use Rattle.dm_dict.specs.Rules.{definition};

use crate::avps::has_failed_avp_code;
use crate::codes::{AVP_NOT_ALLOWED, AVP_UNSUPPORTED, INVALID_AVP_LENGTH, INVALID_AVP_VALUE};
use crate::data::data_fault_code;
use crate::entry_faults::push_faults_of_all_entries;
use crate::fault::Fault;
use crate::findings::Findings;
use crate::judged::Failed;
use crate::linked::{Linked, LinkedAvp, LinkedRule};
use crate::occurrences::count_group_occurrence;
use crate::path::{Path, Step};
use crate::rules::{has_entry_allowing_avps, look_up_avp_by_marks};
use dm_tables::{AvpDef, Tables};
use dm_value::{AvpType, NoMemory};
use dm_wire::{AvpRef, AvpsRef, spells_avps};
use indexmap::IndexMap;
use std::alloc::Global;

/// Adds what is wrong with an AVP of this definition, but for its members.
#[inline(always)]
fn add_faults_of_avp_itself<'a>(
    findings: &mut Findings<'a>,
    path: Option<&Path>,
    def: Option<&AvpDef>,
    allowed: bool,
    avp: AvpRef<'a>,
) -> Result<(), NoMemory>
    ensures { OnOk result (AddsAt findings.old findings.new (option_copied path.entry)
        (map here (avp_faults no_groups allowed (avp_of avp.entry) (option_copied def.entry)))) }
{
    let failed = Failed::Found(avp);
    let Some(def) = def else {
        if avp.mandatory {
            let code = AVP_UNSUPPORTED;
            return findings.add_fault(path, Fault { code, failed });
        }
        return Ok(());
    };
    if !allowed {
        let code = AVP_NOT_ALLOWED;
        findings.add_fault(path, Fault { code, failed })?;
    }
    if has_failed_avp_code(avp) {
        return Ok(());
    }
    if let AvpType::Grouped = def.kind {
        return Ok(());
    }
    match data_fault_code(def, avp.bytes) {
        Some(code) => findings.add_fault(path, Fault { code, failed }),
        None => Ok(()),
    }
}

/// Adds the faults of the entries of the rule.
fn add_faults_of_all_entries<'a>(
    alloc: Global,
    findings: &mut Findings<'a>,
    path: Option<&Path>,
    tables: &Tables,
    rule: LinkedRule<'_>,
    list: AvpsRef<'a>,
) -> Result<(), NoMemory>
    requires tables { IsTables tables.now }
    requires fit { IsFit tables.now.avps.items }
    requires rule { IsRule tables.now.avps.items rule }
    ensures { OnOk result ((l : List Avp) → Lists list.entry l
        → AddsAt findings.old findings.new (option_copied path.entry)
        (map here (flat_map (entry_faults tables.now.avps.items rule.entry.entries.now l) rule.entry.entries.now))) }
{
    let Some(path) = path else {
        return push_faults_of_all_entries(alloc, tables, rule, list, &mut findings.faults);
    };
    let mut faults = Vec::new(alloc);
    push_faults_of_all_entries(alloc, tables, rule, list, &mut faults)?;
    findings.add_faults(Some(path), faults.as_slice())?;
    Ok(())
}

/// Adds the faults of the AVP that is the nth of its code and vendor, whose definition has this place, inside which so
/// many groups may stand.
#[cycle(locating)]
fn add_avp_faults<'a>(
    alloc: Global,
    findings: &mut Findings<'a>,
    path: Option<&Path>,
    nth: usize,
    dictionary: &Linked,
    place: Option<usize>,
    allowed: bool,
    avp: AvpRef<'a>,
    groups_allowed: u32,
) -> Result<(), NoMemory>
    requires linked { IsLinked dictionary.now }
    requires fit { IsFit dictionary.now.tables.avps.items }
    requires def { option_and_then (slice_get dictionary.now.tables.avps.items) place
        ≡ definition dictionary.now.tables.avps.items (avp_of avp) }
    requires room { HasRoomInside (option_copied path) groups_allowed }
    ensures { OnOk result (AddsAt findings.old findings.new (option_copied path.entry)
        (avp_located (group_located groups_allowed dictionary.now.tables.avps.items nth) allowed
        (avp_of avp.entry) (definition dictionary.now.tables.avps.items (avp_of avp.entry)))) }
{
    let Some(LinkedAvp { def, links }) = dictionary.linked_avp_at(place) else {
        return add_faults_of_avp_itself(findings, path, None, allowed, avp);
    };
    add_faults_of_avp_itself(findings, path, Some(def), allowed, avp)?;
    if has_failed_avp_code(avp) {
        return Ok(());
    }
    if let AvpType::Grouped = def.kind {
        let rule = LinkedRule {
            entries: &def.rule,
            links,
        };
        return add_group_faults(
            alloc,
            findings,
            path,
            nth,
            dictionary,
            rule,
            avp,
            groups_allowed,
        );
    }
    Ok(())
}

/// Adds the faults of the Grouped AVP of this rule that is the nth of its code and vendor, where so many groups may
/// stand inside each other.
#[cycle(locating)]
fn add_group_faults<'a>(
    alloc: Global,
    findings: &mut Findings<'a>,
    path: Option<&Path>,
    nth: usize,
    dictionary: &Linked,
    rule: LinkedRule<'_>,
    avp: AvpRef<'a>,
    groups_allowed: u32,
) -> Result<(), NoMemory>
    requires linked { IsLinked dictionary.now }
    requires fit { IsFit dictionary.now.tables.avps.items }
    requires rule { IsRule dictionary.now.tables.avps.items rule }
    requires room { HasRoomInside (option_copied path) groups_allowed }
    ensures { OnOk result (AddsAt findings.old findings.new (option_copied path.entry)
        (group_located groups_allowed dictionary.now.tables.avps.items nth rule.entry.entries.now (avp_of avp.entry))) }
{
    if groups_allowed == 0 {
        let (code, failed) = (INVALID_AVP_VALUE, Failed::Found(avp));
        return findings.add_fault(path, Fault { code, failed });
    }
    if !spells_avps(avp.bytes) {
        let emptied = AvpRef { bytes: &[], ..avp };
        let (code, failed) = (INVALID_AVP_LENGTH, Failed::Found(emptied));
        return findings.add_fault(path, Fault { code, failed });
    }
    let list = AvpsRef::Spelled(avp.bytes);
    let Some(path) = path else {
        return add_faults_under_rule(
            alloc,
            findings,
            None,
            dictionary,
            rule,
            list,
            groups_allowed - 1,
        );
    };
    let inside = path.inside(Step {
        nth,
        code: avp.code,
        vendor: avp.vendor,
    });
    add_faults_under_rule(
        alloc,
        findings,
        Some(&inside),
        dictionary,
        rule,
        list,
        groups_allowed - 1,
    )?;
    Ok(())
}

/// Adds the faults of each AVP under the rule, where so many groups may stand inside each other.
#[cycle(locating)]
fn add_each_avp_faults<'a>(
    alloc: Global,
    findings: &mut Findings<'a>,
    path: Option<&Path>,
    numbers: &mut IndexMap<(u32, Option<u32>), usize>,
    dictionary: &Linked,
    rule: LinkedRule<'_>,
    list: AvpsRef<'a>,
    groups_allowed: u32,
) -> Result<(), NoMemory>
    requires linked { IsLinked dictionary.now }
    requires fit { IsFit dictionary.now.tables.avps.items }
    requires rule { IsRule dictionary.now.tables.avps.items rule }
    requires room { HasRoomInside (option_copied path) groups_allowed }
    requires none { numbers.old.entries ≡ [] }
    requires size { size_of list < 2 ^ 64 }
    ensures { OnOk result ((l : List Avp) → Lists list.entry l
        → AddsAt findings.old findings.new (option_copied path.entry)
        (each_located (group_located groups_allowed dictionary.now.tables.avps.items) dictionary.now.tables.avps.items
        rule.entry.entries.now [] l)) }
{
    let mut left = list;
    while let Some((avp, rest)) = left.split_first() {
        let (place, entry) = look_up_avp_by_marks(dictionary, rule, avp);
        let allowed = has_entry_allowing_avps(rule.entries, entry);
        let nth = count_group_occurrence(numbers, path, dictionary, place, avp)?;
        add_avp_faults(
            alloc,
            findings,
            path,
            nth,
            dictionary,
            place,
            allowed,
            avp,
            groups_allowed,
        )?;
        left = rest;
    }
    Ok(())
}

/// Adds the faults of AVPs under the rule, where so many groups may stand inside each other.
#[cycle(locating)]
pub(crate) fn add_faults_under_rule<'a>(
    alloc: Global,
    findings: &mut Findings<'a>,
    path: Option<&Path>,
    dictionary: &Linked,
    rule: LinkedRule<'_>,
    list: AvpsRef<'a>,
    groups_allowed: u32,
) -> Result<(), NoMemory>
    requires linked { IsLinked dictionary.now }
    requires fit { IsFit dictionary.now.tables.avps.items }
    requires rule { IsRule dictionary.now.tables.avps.items rule }
    requires room { HasRoomInside (option_copied path) groups_allowed }
    ensures { OnOk result ((l : List Avp) → Lists list.entry l
        → AddsAt findings.old findings.new (option_copied path.entry)
        (list_located groups_allowed dictionary.now.tables.avps.items rule.entry.entries.now l)) }
{
    let mut numbers = IndexMap::new(alloc);
    let done = add_each_avp_faults(
        alloc,
        findings,
        path,
        &mut numbers,
        dictionary,
        rule,
        list,
        groups_allowed,
    );
    drop(numbers);
    done?;
    add_faults_of_all_entries(alloc, findings, path, &dictionary.tables, rule, list)
}
