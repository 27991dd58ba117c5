//! The first fault of AVPs under a rule, groups and all, and which AVP is Failed-AVP, whose data isn't read (RFC 6733,
//! 4.1, 4.4, 7.1.5 and 7.5).
ghost use Rattle.std.specs.Prelude.{◌≡◌, false, List, slice_get};
ghost use Rattle.std.specs.Option.{option_and_then};
ghost use Rattle.dm_wire.specs.declared.avp.Avp.{Avp};
ghost use Rattle.dm_dict.specs.Apart.{IsFit};
ghost use Rattle.dm_dict.specs.Linked.{IsLinked, IsRule};
ghost use Rattle.dm_wire.specs.Borrowed.{avp_of, Lists};
ghost use Rattle.dm_dict.specs.Faults.{is_failed_avp, avp_faults, group_faults, list_faults, first};
ghost use Rattle.dm_dict.specs.Found.{finds_missing};
ghost use Rattle.dm_dict.specs.Judgement.{shown};
ghost use Rattle.dm_dict.specs.Passed.{IsGoodBut};
ghost use Rattle.dm_dict.specs.Rules.{definition};

use crate::codes::{
    AVP_NOT_ALLOWED, AVP_UNSUPPORTED, FAILED_AVP, INVALID_AVP_LENGTH, INVALID_AVP_VALUE,
};
use crate::counts::{MANY_ENTRIES, count_avp_at_entry, zero_counters, zero_counters_if_long_rule};
use crate::data::is_unlisted_value;
use crate::judged::{Failed, Judged};
use crate::linked::{Linked, LinkedAvp, LinkedRule};
use crate::rules::{has_entry_allowing_avps, look_up_avp_by_marks};
use crate::windows::judge_entries;
use dm_value::{AvpType, ValueFault, value_fault};
use dm_wire::{AvpRef, AvpsRef, spells_avps};
use std::alloc::Global;

/// Whether the AVP is Failed-AVP, whose data isn't read.
pub(crate) fn has_failed_avp_code(avp: AvpRef<'_>) -> bool
    ensures { result ≡ is_failed_avp (avp_of avp.entry) }
{
    avp.code == FAILED_AVP && avp.vendor == None
}

/// The first fault of an AVP, whose definition has this place, inside which so many groups may stand.
#[cycle(judge)]
fn judge_avp<'a>(
    dictionary: &Linked,
    place: Option<usize>,
    allowed: bool,
    avp: AvpRef<'a>,
    groups_allowed: u32,
    alloc: Option<Global>,
) -> Judged<'a>
    requires linked { IsLinked dictionary.now }
    requires fit { IsFit dictionary.now.tables.avps.items }
    requires def { option_and_then (slice_get dictionary.now.tables.avps.items) place
        ≡ definition dictionary.now.tables.avps.items (avp_of avp) }
    ensures fault { shown result ≡ first (avp_faults (group_faults groups_allowed dictionary.now.tables.avps.items)
        allowed (avp_of avp.entry) (definition dictionary.now.tables.avps.items (avp_of avp.entry))) }
    ensures missing { finds_missing result ≡ false }
{
    let failed = Failed::Found(avp);
    let Some(LinkedAvp { def, links }) = dictionary.linked_avp_at(place) else {
        if avp.mandatory {
            return Judged::Bad {
                code: AVP_UNSUPPORTED,
                failed,
            };
        }
        return Judged::Good;
    };
    if !allowed {
        return Judged::Bad {
            code: AVP_NOT_ALLOWED,
            failed,
        };
    }
    if has_failed_avp_code(avp) {
        return Judged::Good;
    }
    if let AvpType::Grouped = def.kind {
        let rule = LinkedRule {
            entries: &def.rule,
            links,
        };
        return judge_group(dictionary, rule, avp, groups_allowed, alloc);
    }
    match value_fault(def.kind, avp.bytes) {
        Some(ValueFault::WrongLength) => Judged::Bad {
            code: INVALID_AVP_LENGTH,
            failed,
        },
        Some(ValueFault::WrongValue) => Judged::Bad {
            code: INVALID_AVP_VALUE,
            failed,
        },
        _ if is_unlisted_value(def, avp.bytes) => Judged::Bad {
            code: INVALID_AVP_VALUE,
            failed,
        },
        _ => Judged::Good,
    }
}

/// The first fault of a Grouped AVP of this rule, where so many groups may stand inside each other.
#[cycle(judge)]
fn judge_group<'a>(
    dictionary: &Linked,
    rule: LinkedRule<'_>,
    avp: AvpRef<'a>,
    groups_allowed: u32,
    alloc: Option<Global>,
) -> Judged<'a>
    requires linked { IsLinked dictionary.now }
    requires fit { IsFit dictionary.now.tables.avps.items }
    requires rule { IsRule dictionary.now.tables.avps.items rule }
    ensures fault { shown result ≡ first (group_faults groups_allowed dictionary.now.tables.avps.items
        rule.entry.entries.now (avp_of avp.entry)) }
    ensures missing { finds_missing result ≡ false }
{
    if groups_allowed == 0 {
        return Judged::Bad {
            code: INVALID_AVP_VALUE,
            failed: Failed::Found(avp),
        };
    }
    if !spells_avps(avp.bytes) {
        return Judged::Bad {
            code: INVALID_AVP_LENGTH,
            failed: Failed::Found(AvpRef { bytes: &[], ..avp }),
        };
    }
    let list = AvpsRef::Spelled(avp.bytes);
    judge_list(dictionary, rule, list, groups_allowed - 1, alloc)
}

/// The first fault of a list of AVPs under the rule, of which those before `from` are good, and counted by these
/// counters for the first of its entries.
#[cycle(judge)]
#[inline(never)]
pub(crate) fn judge_list_from<'a>(
    dictionary: &Linked,
    rule: LinkedRule<'_>,
    list: AvpsRef<'a>,
    from: AvpsRef<'a>,
    groups_allowed: u32,
    alloc: Option<Global>,
    counts: &mut [u16],
) -> Judged<'a>
    requires linked { IsLinked dictionary.now }
    requires fit { IsFit dictionary.now.tables.avps.items }
    requires rule { IsRule dictionary.now.tables.avps.items rule }
    requires good { (l : List Avp) → Lists list l → (m : List Avp) × Lists from m
        × IsGoodBut groups_allowed dictionary.now.tables.avps.items rule.entries.now l m counts.old }
    ensures fault { (l : List Avp) → Lists list.entry l
        → shown result ≡ first (list_faults groups_allowed dictionary.now.tables.avps.items rule.entry.entries.now l) }
    ensures missing { finds_missing result ≡ false }
{
    let mut left = from;
    while let Some((avp, rest)) = left.split_first() {
        let (place, at) = look_up_avp_by_marks(dictionary, rule, avp);
        let allowed = has_entry_allowing_avps(rule.entries, at);
        match judge_avp(dictionary, place, allowed, avp, groups_allowed, alloc) {
            Judged::Good => {}
            Judged::Bad { code, failed } => return Judged::Bad { code, failed },
        }
        count_avp_at_entry(counts, 0, at);
        left = rest;
    }
    judge_entries(&dictionary.tables, rule, counts, list)
}

/// The first fault of a list of AVPs under a rule of any length, by counters on the stack.
#[cycle(judge)]
#[inline(never)]
fn judge_list_with_stack_counters<'a>(
    dictionary: &Linked,
    rule: LinkedRule<'_>,
    list: AvpsRef<'a>,
    groups_allowed: u32,
    alloc: Option<Global>,
) -> Judged<'a>
    requires linked { IsLinked dictionary.now }
    requires fit { IsFit dictionary.now.tables.avps.items }
    requires rule { IsRule dictionary.now.tables.avps.items rule }
    ensures fault { (l : List Avp) → Lists list.entry l
        → shown result ≡ first (list_faults groups_allowed dictionary.now.tables.avps.items rule.entry.entries.now l) }
    ensures missing { finds_missing result ≡ false }
{
    let mut counts = zero_counters::<MANY_ENTRIES>();
    judge_list_from(
        dictionary,
        rule,
        list,
        list,
        groups_allowed,
        alloc,
        &mut counts,
    )
}

/// The first fault of a list of AVPs under the rule, where so many groups may stand inside each other; by a counter for
/// each entry of a long rule where there is memory for that.
#[cycle(judge)]
fn judge_list<'a>(
    dictionary: &Linked,
    rule: LinkedRule<'_>,
    list: AvpsRef<'a>,
    groups_allowed: u32,
    alloc: Option<Global>,
) -> Judged<'a>
    requires linked { IsLinked dictionary.now }
    requires fit { IsFit dictionary.now.tables.avps.items }
    requires rule { IsRule dictionary.now.tables.avps.items rule }
    ensures fault { (l : List Avp) → Lists list.entry l
        → shown result ≡ first (list_faults groups_allowed dictionary.now.tables.avps.items rule.entry.entries.now l) }
    ensures missing { finds_missing result ≡ false }
{
    let Some(mut counts) = zero_counters_if_long_rule(alloc, rule.entries) else {
        return judge_list_with_stack_counters(dictionary, rule, list, groups_allowed, alloc);
    };
    let room = counts.as_mut_slice();
    let judged = judge_list_from(dictionary, rule, list, list, groups_allowed, alloc, room);
    drop(counts);
    judged
}
