//! Whether a list has as many AVPs as an entry of a rule wants, and what counters alone show of that, of all entries
//! too; the failed AVP of an entry (RFC 6733, 3.2, 7.1.5 and 7.5).
ghost use Rattle.std.specs.Prelude.{◌≡◌, ◌<◌, ◌≤◌, true, false, nat_lt, None, List, length, min};
ghost use Rattle.std.specs.Prelude.{slice_get, slice_index_or, flat_map};
ghost use Rattle.dm_wire.specs.declared.avp.Avp.{Avp};
ghost use Rattle.dm_tables.specs.declared.def.AvpDef.{AvpDef};
ghost use Rattle.dm_tables.specs.declared.rule.Entry.{Entry};
ghost use Rattle.dm_tables.specs.Tables.{IsTables};
ghost use Rattle.dm_dict.specs.Apart.{IsFit};
ghost use Rattle.dm_dict.specs.Linked.{IsRule};
ghost use Rattle.dm_wire.specs.Borrowed.{Lists};
ghost use Rattle.dm_dict.specs.Faults.{example, entry_faults, first};
ghost use Rattle.dm_dict.specs.Found.{is_found, finds_missing};
ghost use Rattle.dm_dict.specs.Judgement.{failed_of, shown};
ghost use Rattle.dm_dict.specs.Rules.{count, counted_avps};
ghost use Rattle.dm_dict.specs.Bounds.{rule_bounds};
ghost use Rattle.dm_dict.specs.Counters.{IsCounted};
ghost use Rattle.dm_dict.specs.Limits.{counter_limit};

use crate::codes::{AVP_OCCURS_TOO_MANY_TIMES, MISSING_AVP};
use crate::judged::{Failed, Judged};
use crate::linked::LinkedRule;
use crate::rules::entry_counts_avp;
use dm_tables::{Entry, Rule, Tables};
use dm_value::least_len;
use dm_wire::AvpsRef;

/// The example of an AVP that the entry names; `AVP` has none.
pub(crate) fn missing_avp_example(tables: &Tables, entry: &Entry) -> Failed<'static>
    requires { IsTables tables.now }
    ensures example { failed_of result ≡ example tables.now.avps.items entry.now }
    ensures made { is_found result ≡ false }
{
    if b"AVP".as_slice() == entry.name.as_slice() {
        return Failed::Nothing;
    }
    match tables.avp_by_name(entry.name.as_slice()) {
        Some(def) => Failed::Example {
            code: def.code,
            vendor: def.vendor,
            zeros: least_len(def.kind),
        },
        None => Failed::Nothing,
    }
}

/// The AVP that has `max` before it among those that the entry at the place counts.
fn first_avp_past_max<'a>(
    tables: &Tables,
    rule: LinkedRule<'_>,
    at: usize,
    max: u32,
    list: AvpsRef<'a>,
) -> Failed<'a>
    requires tables { IsTables tables.now }
    requires fit { IsFit tables.now.avps.items }
    requires rule { IsRule tables.now.avps.items rule }
    requires within { at < length rule.entries.now }
    ensures { (l : List Avp) (e : Entry) → Lists list.entry l → e ≡ slice_index_or rule.entry.entries.now at e
        → failed_of result ≡ slice_get (counted_avps tables.now.avps.items rule.entry.entries.now l e) max }
{
    let mut before = max;
    let mut left = list;
    while let Some((avp, rest)) = left.split_first() {
        if entry_counts_avp(tables, rule, at, avp) {
            if before == 0 {
                return Failed::Found(avp);
            }
            before -= 1;
        }
        left = rest;
    }
    Failed::Nothing
}

/// Whether the entry at the place, which has this counter, counts more AVPs of the list than `number`.
fn entry_counts_more_than(
    tables: &Tables,
    rule: LinkedRule<'_>,
    at: usize,
    number: u32,
    counter: u16,
    list: AvpsRef<'_>,
) -> bool
    requires tables { IsTables tables.now }
    requires fit { IsFit tables.now.avps.items }
    requires rule { IsRule tables.now.avps.items rule }
    requires within { at < length rule.entries.now }
    ensures { (l : List Avp) (e : Entry) → Lists list.entry l → e ≡ slice_index_or rule.entry.entries.now at e
        → counter ≡ min (count tables.now.avps.items rule.entry.entries.now l e) counter_limit
        → result ≡ nat_lt number (count tables.now.avps.items rule.entry.entries.now l e) }
{
    if counter < u16::MAX || number < u16::MAX as u32 {
        return number < counter as u32;
    }
    match first_avp_past_max(tables, rule, at, number, list) {
        Failed::Nothing => false,
        Failed::Found(_) | Failed::Example { .. } => true,
    }
}

/// The first fault of the entry at the place, which has this counter, by its bounds.
#[inline(never)]
fn judge_entry_by_bounds<'a>(
    tables: &Tables,
    rule: LinkedRule<'_>,
    at: usize,
    counter: u16,
    list: AvpsRef<'a>,
) -> Judged<'a>
    requires tables { IsTables tables.now }
    requires fit { IsFit tables.now.avps.items }
    requires rule { IsRule tables.now.avps.items rule }
    requires within { at < length rule.entries.now }
    ensures fault { (l : List Avp) (e : Entry) → Lists list.entry l → e ≡ slice_index_or rule.entry.entries.now at e
        → counter ≡ min (count tables.now.avps.items rule.entry.entries.now l e) counter_limit
        → shown result ≡ first (entry_faults tables.now.avps.items rule.entry.entries.now l e) }
    ensures missing { finds_missing result ≡ false }
{
    let entry = &rule.entries.as_slice()[at];
    if entry.min > 0 && !entry_counts_more_than(tables, rule, at, entry.min - 1, counter, list) {
        let failed = missing_avp_example(tables, entry);
        return Judged::Bad {
            code: MISSING_AVP,
            failed,
        };
    }
    match entry.max {
        Some(max) => {
            if max > 0 && entry_counts_more_than(tables, rule, at, max, counter, list) {
                let failed = first_avp_past_max(tables, rule, at, max, list);
                return Judged::Bad {
                    code: AVP_OCCURS_TOO_MANY_TIMES,
                    failed,
                };
            }
            Judged::Good
        }
        None => Judged::Good,
    }
}

/// True only where the entry has no fault, as the counter alone shows.
fn counter_shows_entry_good(entry: &Entry, counter: u16) -> bool
    ensures { (avps : List AvpDef) (rule : List Entry) (l : List Avp)
        → counter ≡ min (count avps rule l entry.now) counter_limit → result ≡ true
        → None ≡ first (entry_faults avps rule l entry.now) }
{
    if (counter as u32) < entry.min {
        return false;
    }
    match entry.max {
        Some(max) => max == 0 || (counter < u16::MAX && counter as u32 <= max),
        None => true,
    }
}

/// True only where no entry of the rule has a fault, as the counter of each alone shows.
fn each_counter_shows_entry_good(rule: &Rule, counts: &[u16]) -> bool
    requires room { length rule.now ≤ length counts.now }
    ensures { (avps : List AvpDef) (l : List Avp) → IsCounted avps rule.now l 0 counts.now → result ≡ true
        → None ≡ first (flat_map (entry_faults avps rule.now l) rule.now) }
{
    for (at, entry) in rule.as_slice().iter().enumerate() {
        if !counter_shows_entry_good(entry, counts[at]) {
            return false;
        }
    }
    true
}

/// True only where no entry of the rule has a fault, as the counters alone show, where there are enough: by its bounds,
/// eight beside each other, where there is a counter for each of them.
#[inline(always)]
pub(crate) fn counters_show_no_fault(rule: LinkedRule<'_>, counts: &[u16]) -> bool
    requires bounds { rule.links.now.bounds ≡ rule_bounds rule.entries.now }
    ensures { (avps : List AvpDef) (l : List Avp) → IsCounted avps rule.entry.entries.now l 0 counts.now → result ≡ true
        → None ≡ first (flat_map (entry_faults avps rule.entry.entries.now l) rule.entry.entries.now) }
{
    let bounds = rule.links.bounds();
    if bounds.padded_count() <= counts.len() {
        bounds.are_seen_kept_by(counts)
    } else {
        rule.entries.as_slice().len() <= counts.len()
            && each_counter_shows_entry_good(rule.entries, counts)
    }
}

/// The first fault of the entry at the place, which has this counter.
pub(crate) fn judge_entry<'a>(
    tables: &Tables,
    rule: LinkedRule<'_>,
    at: usize,
    counter: u16,
    list: AvpsRef<'a>,
) -> Judged<'a>
    requires tables { IsTables tables.now }
    requires fit { IsFit tables.now.avps.items }
    requires rule { IsRule tables.now.avps.items rule }
    requires within { at < length rule.entries.now }
    ensures fault { (l : List Avp) (e : Entry) → Lists list.entry l → e ≡ slice_index_or rule.entry.entries.now at e
        → counter ≡ min (count tables.now.avps.items rule.entry.entries.now l e) counter_limit
        → shown result ≡ first (entry_faults tables.now.avps.items rule.entry.entries.now l e) }
    ensures missing { finds_missing result ≡ false }
{
    if counter_shows_entry_good(&rule.entries.as_slice()[at], counter) {
        Judged::Good
    } else {
        judge_entry_by_bounds(tables, rule, at, counter, list)
    }
}
