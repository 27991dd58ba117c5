//! The first fault of a message's AVPs under its rule: they are judged from the first on that doesn't pass (RFC 6733,
//! 4.1 and 7.1.5).
ghost use Rattle.std.specs.Prelude.{◌≡◌, ◌<◌, ◌≤◌, ℕ, false, List, slice_index, IfSome, IfNone};
ghost use Rattle.dm_wire.specs.declared.avp.Avp.{Avp};
ghost use Rattle.dm_dict.specs.Apart.{IsFit};
ghost use Rattle.dm_dict.specs.Linked.{IsLinked, IsRule};
ghost use Rattle.dm_wire.specs.Borrowed.{Lists, size_of};
ghost use Rattle.dm_dict.specs.Faults.{list_faults, first};
ghost use Rattle.dm_dict.specs.Found.{finds_missing};
ghost use Rattle.dm_dict.specs.Judgement.{shown};
ghost use Rattle.dm_dict.specs.Limits.{group_limit};
ghost use Rattle.dm_dict.specs.Passed.{IsGoodBut, PassesList};

use crate::avps::judge_list_from;
use crate::counts::{FEW_ENTRIES, MANY_ENTRIES, zero_counters, zero_counters_if_long_rule};
use crate::entries::counters_show_no_fault;
use crate::judge::GROUPS;
use crate::judged::Judged;
use crate::linked::{Linked, LinkedRule};
use crate::passing::{pass_avp_with_row, pass_looked_up_avp, pass_unmarked_nonmandatory_avp};
use crate::rules::allowed_row_for_avp_by_seat;
use dm_wire::AvpsRef;
use std::alloc::Global;

/// The AVPs from the first on that isn't passed as one without a definition that isn't mandatory; those before it are
/// counted.
#[inline(always)]
fn pass_leading_unmarked_nonmandatory_avps<'a>(
    dictionary: &Linked,
    rule: LinkedRule<'_>,
    list: AvpsRef<'a>,
    counts: &mut [u16],
) -> AvpsRef<'a>
    requires linked { IsLinked dictionary.now }
    requires fit { IsFit dictionary.now.tables.avps.items }
    requires rule { IsRule dictionary.now.tables.avps.items rule }
    ensures passed { PassesList group_limit dictionary.now.tables.avps.items rule.entry.entries.now
        list.entry result counts.old counts.new }
    ensures less { size_of result ≤ size_of list.entry }
{
    let mut behind = list;
    while let Some((avp, rest)) = behind.split_first() {
        if !pass_unmarked_nonmandatory_avp(dictionary, rule, avp, counts) {
            return behind;
        }
        behind = rest;
    }
    behind
}

/// The AVPs from the first on that isn't seen to be good by its row; those before it are counted.
// (A loop of its own, so that what it works with stays in the processor's registers.)
#[inline(always)]
fn pass_leading_avps_with_rows<'a>(
    dictionary: &Linked,
    rule: LinkedRule<'_>,
    list: AvpsRef<'a>,
    counts: &mut [u16],
) -> AvpsRef<'a>
    requires linked { IsLinked dictionary.now }
    requires fit { IsFit dictionary.now.tables.avps.items }
    requires rule { IsRule dictionary.now.tables.avps.items rule }
    ensures passed { PassesList group_limit dictionary.now.tables.avps.items rule.entry.entries.now
        list.entry result counts.old counts.new }
    ensures less { size_of result ≤ size_of list.entry }
{
    let mut left = list;
    while let Some((avp, rest)) = left.split_first() {
        let Some((at, row)) = allowed_row_for_avp_by_seat(dictionary, rule, avp) else {
            return left;
        };
        if !pass_avp_with_row(dictionary, at, row, avp, GROUPS, counts) {
            return left;
        }
        left = rest;
    }
    left
}

/// The AVPs behind the first, where it has no row and is seen to be good, and behind those without a definition that
/// follow it; they are counted. None where the first isn't such an AVP; then nothing is counted.
#[inline(always)]
fn pass_avps_without_row<'a>(
    dictionary: &Linked,
    rule: LinkedRule<'_>,
    list: AvpsRef<'a>,
    counts: &mut [u16],
) -> Option<AvpsRef<'a>>
    requires linked { IsLinked dictionary.now }
    requires fit { IsFit dictionary.now.tables.avps.items }
    requires rule { IsRule dictionary.now.tables.avps.items rule }
    ensures passed { IfSome result (λ left. PassesList group_limit dictionary.now.tables.avps.items
        rule.entry.entries.now list.entry left counts.old counts.new) }
    ensures less { IfSome result (λ left. size_of left < size_of list.entry) }
    ensures same { IfNone result (counts.new ≡ counts.old) }
{
    let Some((avp, rest)) = list.split_first() else {
        return None;
    };
    if pass_unmarked_nonmandatory_avp(dictionary, rule, avp, counts) {
        return Some(pass_leading_unmarked_nonmandatory_avps(dictionary, rule, rest, counts));
    }
    if allowed_row_for_avp_by_seat(dictionary, rule, avp).is_none()
        && pass_looked_up_avp(dictionary, rule, avp, GROUPS, counts)
    {
        Some(rest)
    } else {
        None
    }
}

/// The AVPs of a message from the first on that isn't seen to be good under the rule; those before it are counted.
#[inline(always)]
fn pass_good_avps<'a>(
    dictionary: &Linked,
    rule: LinkedRule<'_>,
    list: AvpsRef<'a>,
    counts: &mut [u16],
) -> AvpsRef<'a>
    requires linked { IsLinked dictionary.now }
    requires fit { IsFit dictionary.now.tables.avps.items }
    requires rule { IsRule dictionary.now.tables.avps.items rule }
    requires zero { (i : ℕ) → slice_index counts.old i ≡ 0 }
    ensures { (l : List Avp) → Lists list.entry l → (m : List Avp) × Lists result m
        × IsGoodBut group_limit dictionary.now.tables.avps.items rule.entry.entries.now l m counts.new }
{
    let mut left = list;
    'others: loop {
        let from = pass_leading_avps_with_rows(dictionary, rule, left, counts);
        let Some(rest) = pass_avps_without_row(dictionary, rule, from, counts) else {
            return from;
        };
        left = rest;
    }
}

/// The first fault of AVPs under the rule, by these counters, all zero, for the first of its entries.
#[inline(always)]
fn judge_avps_with_counters<'a>(
    dictionary: &Linked,
    rule: LinkedRule<'_>,
    list: AvpsRef<'a>,
    alloc: Option<Global>,
    counts: &mut [u16],
) -> Judged<'a>
    requires linked { IsLinked dictionary.now }
    requires fit { IsFit dictionary.now.tables.avps.items }
    requires rule { IsRule dictionary.now.tables.avps.items rule }
    requires zero { (i : ℕ) → slice_index counts.old i ≡ 0 }
    ensures fault { (l : List Avp) → Lists list.entry l
        → shown result ≡ first (list_faults group_limit dictionary.now.tables.avps.items rule.entry.entries.now l) }
    ensures missing { finds_missing result ≡ false }
{
    let left = pass_good_avps(dictionary, rule, list, counts);
    if left.split_first().is_none() && counters_show_no_fault(rule, counts) {
        return Judged::Good;
    }
    judge_list_from(dictionary, rule, list, left, GROUPS, alloc, counts)
}

/// The first fault of AVPs under a rule of many entries, by counters on the stack.
// (A function of its own in the machine's code too, as the next one: its locals would be zeroed at its caller's entry.)
#[inline(never)]
fn judge_avps_with_stack_counters<'a>(
    dictionary: &Linked,
    rule: LinkedRule<'_>,
    list: AvpsRef<'a>,
    alloc: Option<Global>,
) -> Judged<'a>
    requires linked { IsLinked dictionary.now }
    requires fit { IsFit dictionary.now.tables.avps.items }
    requires rule { IsRule dictionary.now.tables.avps.items rule }
    ensures fault { (l : List Avp) → Lists list.entry l
        → shown result ≡ first (list_faults group_limit dictionary.now.tables.avps.items rule.entry.entries.now l) }
    ensures missing { finds_missing result ≡ false }
{
    let mut counts = zero_counters::<MANY_ENTRIES>();
    judge_avps_with_counters(dictionary, rule, list, alloc, &mut counts)
}

/// The first fault of AVPs under a rule of any length; by a counter for each entry of a long one where there is memory
/// for that.
#[inline(never)]
fn judge_avps_with_many_counters<'a>(
    dictionary: &Linked,
    rule: LinkedRule<'_>,
    list: AvpsRef<'a>,
    alloc: Option<Global>,
) -> Judged<'a>
    requires linked { IsLinked dictionary.now }
    requires fit { IsFit dictionary.now.tables.avps.items }
    requires rule { IsRule dictionary.now.tables.avps.items rule }
    ensures fault { (l : List Avp) → Lists list.entry l
        → shown result ≡ first (list_faults group_limit dictionary.now.tables.avps.items rule.entry.entries.now l) }
    ensures missing { finds_missing result ≡ false }
{
    let Some(mut counts) = zero_counters_if_long_rule(alloc, rule.entries) else {
        return judge_avps_with_stack_counters(dictionary, rule, list, alloc);
    };
    let room = counts.as_mut_slice();
    let judged = judge_avps_with_counters(dictionary, rule, list, alloc, room);
    drop(counts);
    judged
}

/// The first fault of the AVPs of a message under its rule.
#[inline(always)]
pub(crate) fn judge_message_avps<'a>(
    dictionary: &Linked,
    rule: LinkedRule<'_>,
    list: AvpsRef<'a>,
    alloc: Option<Global>,
) -> Judged<'a>
    requires linked { IsLinked dictionary.now }
    requires fit { IsFit dictionary.now.tables.avps.items }
    requires rule { IsRule dictionary.now.tables.avps.items rule }
    ensures fault { (l : List Avp) → Lists list.entry l
        → shown result ≡ first (list_faults group_limit dictionary.now.tables.avps.items rule.entry.entries.now l) }
    ensures missing { finds_missing result ≡ false }
{
    if rule.entries.as_slice().len() > FEW_ENTRIES {
        return judge_avps_with_many_counters(dictionary, rule, list, alloc);
    }
    let mut counts = zero_counters::<FEW_ENTRIES>();
    judge_avps_with_counters(dictionary, rule, list, alloc, &mut counts)
}
