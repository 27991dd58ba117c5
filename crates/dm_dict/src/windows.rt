//! Whether a list has as many AVPs as the entries of a rule want: those that have counters, and those behind them that
//! have a bound, a window of entries at a time (RFC 6733, 3.2 and 7.1.5).
ghost use Rattle.std.specs.Prelude.{◌≡◌, ◌+◌, ◌<◌, ◌≤◌, ◌⊎◌, ℕ, true, false, List, length, drop, slice_index};
ghost use Rattle.std.specs.Prelude.{slice_index_or, flat_map};
ghost use Rattle.std.specs.Option.{option_or};
ghost use Rattle.dm_wire.specs.declared.avp.Avp.{Avp};
ghost use Rattle.dm_tables.specs.declared.def.AvpDef.{AvpDef};
ghost use Rattle.dm_tables.specs.declared.rule.Entry.{Entry};
ghost use Rattle.dm_tables.specs.Tables.{IsTables};
ghost use Rattle.dm_dict.specs.Apart.{IsFit};
ghost use Rattle.dm_dict.specs.Linked.{IsRule};
ghost use Rattle.dm_wire.specs.Borrowed.{Lists};
ghost use Rattle.dm_dict.specs.Counters.{IsCounted, is_bounded};
ghost use Rattle.dm_dict.specs.Faults.{entry_faults, first};
ghost use Rattle.dm_dict.specs.Found.{finds_missing};
ghost use Rattle.dm_dict.specs.Judgement.{shown};
ghost use Rattle.dm_dict.specs.Limits.{middle_window, window};

use crate::counts::{
    MANY_ENTRIES, MIDDLE_WINDOW, SHORT_WINDOW, WINDOW, count_avps_at_entries_from, zero_counters,
};
use crate::entries::judge_entry;
use crate::judged::Judged;
use crate::linked::LinkedRule;
use dm_tables::{Entry, Rule, Tables};
use dm_wire::AvpsRef;

/// Whether the number of the entry's AVPs has a bound: a min, or a max other than 0.
fn has_min_or_positive_max(entry: &Entry) -> bool
    ensures { result ≡ is_bounded entry.now }
{
    match entry.max {
        Some(max) => entry.min > 0 || max > 0,
        None => entry.min > 0,
    }
}

/// The place of the next entry from `from` on that has a bound, or the end of the rule.
fn next_bounded_entry(rule: &Rule, from: usize) -> usize
    ensures above { from ≤ result }
    ensures bounded { (e : Entry) → result < length rule.now → e ≡ slice_index_or rule.now result e
        → is_bounded e ≡ true }
    ensures passed { (avps : List AvpDef) (l : List Avp)
        → first (flat_map (entry_faults avps rule.now l) (drop from rule.now))
        ≡ first (flat_map (entry_faults avps rule.now l) (drop result rule.now)) }
{
    let mut at = from;
    while at < rule.as_slice().len() && !has_min_or_positive_max(&rule.as_slice()[at]) {
        at += 1;
    }
    at
}

/// The end of so many entries from `from` on, or of the entries.
fn window_end(size: usize, from: usize, most: usize) -> usize
    requires { from ≤ size }
    ensures above { from ≤ result }
    ensures within { result ≤ size }
    ensures most { result ≤ from + most }
    ensures last { (result ≡ size) ⊎ (result ≡ from + most) }
{
    if size - from < most {
        size
    } else {
        from + most
    }
}

/// The first fault of the entries from `from` on that have these counters.
fn judge_window<'a>(
    tables: &Tables,
    rule: LinkedRule<'_>,
    from: usize,
    counts: &[u16],
    list: AvpsRef<'a>,
) -> Judged<'a>
    requires tables { IsTables tables.now }
    requires fit { IsFit tables.now.avps.items }
    requires rule { IsRule tables.now.avps.items rule }
    requires within { from ≤ length rule.entries.now }
    ensures fault { (l : List Avp) → Lists list.entry l
        → IsCounted tables.now.avps.items rule.entry.entries.now l from counts.now
        → first (flat_map (entry_faults tables.now.avps.items rule.entry.entries.now l)
        (drop from rule.entry.entries.now))
        ≡ option_or (shown result) (first (flat_map (entry_faults tables.now.avps.items rule.entry.entries.now l)
        (drop (from + length counts.now) rule.entry.entries.now))) }
    ensures missing { finds_missing result ≡ false }
{
    for at in from..window_end(rule.entries.as_slice().len(), from, counts.len()) {
        match judge_entry(tables, rule, at, counts[at - from], list) {
            Judged::Good => {}
            Judged::Bad { code, failed } => return Judged::Bad { code, failed },
        }
    }
    Judged::Good
}

/// The first fault of the entries from `from` on that have these counters, all zero, for which all AVPs are looked up
/// once more.
fn count_and_judge_window<'a>(
    tables: &Tables,
    rule: LinkedRule<'_>,
    from: usize,
    counts: &mut [u16],
    list: AvpsRef<'a>,
) -> Judged<'a>
    requires tables { IsTables tables.now }
    requires fit { IsFit tables.now.avps.items }
    requires rule { IsRule tables.now.avps.items rule }
    requires within { from ≤ length rule.entries.now }
    requires zero { (i : ℕ) → slice_index counts.old i ≡ 0 }
    ensures fault { (l : List Avp) → Lists list.entry l
        → first (flat_map (entry_faults tables.now.avps.items rule.entry.entries.now l)
        (drop from rule.entry.entries.now))
        ≡ option_or (shown result) (first (flat_map (entry_faults tables.now.avps.items rule.entry.entries.now l)
        (drop (from + length counts.old) rule.entry.entries.now))) }
    ensures missing { finds_missing result ≡ false }
{
    count_avps_at_entries_from(tables, rule, from, list, counts);
    judge_window(tables, rule, from, counts, list)
}

/// The first fault of a window of so many entries from `from` on.
// (A function of its own in the machine's code too: its counters are cleared at each call.)
#[inline(never)]
fn judge_sized_window<'a, const SIZE: usize>(
    tables: &Tables,
    rule: LinkedRule<'_>,
    from: usize,
    list: AvpsRef<'a>,
) -> Judged<'a>
    requires tables { IsTables tables.now }
    requires fit { IsFit tables.now.avps.items }
    requires rule { IsRule tables.now.avps.items rule }
    requires size { SIZE ≤ window }
    requires within { from ≤ length rule.entries.now }
    ensures fault { (l : List Avp) → Lists list.entry l
        → first (flat_map (entry_faults tables.now.avps.items rule.entry.entries.now l)
        (drop from rule.entry.entries.now))
        ≡ option_or (shown result) (first (flat_map (entry_faults tables.now.avps.items rule.entry.entries.now l)
        (drop (from + SIZE) rule.entry.entries.now))) }
    ensures missing { finds_missing result ≡ false }
{
    let mut counts = zero_counters::<SIZE>();
    count_and_judge_window(tables, rule, from, &mut counts, list)
}

/// The first fault of the last entries, those from `from` on, where they are no more than so many.
#[inline(always)]
fn judge_last_entries_in_window<'a, const SIZE: usize>(
    tables: &Tables,
    rule: LinkedRule<'_>,
    from: usize,
    list: AvpsRef<'a>,
) -> Judged<'a>
    requires tables { IsTables tables.now }
    requires fit { IsFit tables.now.avps.items }
    requires rule { IsRule tables.now.avps.items rule }
    requires size { SIZE ≤ window }
    requires within { from ≤ length rule.entries.now }
    requires last { length rule.entries.now ≤ from + SIZE }
    ensures fault { (l : List Avp) → Lists list.entry l
        → shown result ≡ first (flat_map (entry_faults tables.now.avps.items rule.entry.entries.now l)
        (drop from rule.entry.entries.now)) }
    ensures missing { finds_missing result ≡ false }
{
    judge_sized_window::<SIZE>(tables, rule, from, list)
}

/// The first fault of the last entries, those from `from` on, where they are no more than a middle window: by the
/// fewest counters that do. (So a rule has no more counters cleared than four times its entries.)
fn judge_last_entries<'a>(
    tables: &Tables,
    rule: LinkedRule<'_>,
    from: usize,
    list: AvpsRef<'a>,
) -> Judged<'a>
    requires tables { IsTables tables.now }
    requires fit { IsFit tables.now.avps.items }
    requires rule { IsRule tables.now.avps.items rule }
    requires within { from ≤ length rule.entries.now }
    requires last { length rule.entries.now ≤ from + middle_window }
    ensures fault { (l : List Avp) → Lists list.entry l
        → shown result ≡ first (flat_map (entry_faults tables.now.avps.items rule.entry.entries.now l)
        (drop from rule.entry.entries.now)) }
    ensures missing { finds_missing result ≡ false }
{
    let left = rule.entries.as_slice().len() - from;
    if left > SHORT_WINDOW {
        judge_last_entries_in_window::<MIDDLE_WINDOW>(tables, rule, from, list)
    } else if left > MANY_ENTRIES {
        judge_last_entries_in_window::<SHORT_WINDOW>(tables, rule, from, list)
    } else {
        judge_last_entries_in_window::<MANY_ENTRIES>(tables, rule, from, list)
    }
}

/// The first fault of the entries from `start` on. Each window of them begins at an entry that has a bound.
fn judge_entries_from<'a>(
    tables: &Tables,
    rule: LinkedRule<'_>,
    start: usize,
    list: AvpsRef<'a>,
) -> Judged<'a>
    requires tables { IsTables tables.now }
    requires fit { IsFit tables.now.avps.items }
    requires rule { IsRule tables.now.avps.items rule }
    ensures fault { (l : List Avp) → Lists list.entry l
        → shown result ≡ first (flat_map (entry_faults tables.now.avps.items rule.entry.entries.now l)
        (drop start rule.entry.entries.now)) }
    ensures missing { finds_missing result ≡ false }
{
    let size = rule.entries.as_slice().len();
    let mut from = next_bounded_entry(rule.entries, start);
    while from < size && size - from > MIDDLE_WINDOW {
        match judge_sized_window::<WINDOW>(tables, rule, from, list) {
            Judged::Good => {}
            Judged::Bad { code, failed } => return Judged::Bad { code, failed },
        }
        from = next_bounded_entry(rule.entries, window_end(size, from, WINDOW));
    }
    if from < size {
        judge_last_entries(tables, rule, from, list)
    } else {
        Judged::Good
    }
}

/// The first fault of the entries of the rule, of which the first ones have these counters.
pub(crate) fn judge_entries<'a>(
    tables: &Tables,
    rule: LinkedRule<'_>,
    counts: &[u16],
    list: AvpsRef<'a>,
) -> Judged<'a>
    requires tables { IsTables tables.now }
    requires fit { IsFit tables.now.avps.items }
    requires rule { IsRule tables.now.avps.items rule }
    ensures fault { (l : List Avp) → Lists list.entry l
        → IsCounted tables.now.avps.items rule.entry.entries.now l 0 counts.now
        → shown result ≡ first (flat_map (entry_faults tables.now.avps.items rule.entry.entries.now l)
        rule.entry.entries.now) }
    ensures missing { finds_missing result ≡ false }
{
    match judge_window(tables, rule, 0, counts, list) {
        Judged::Good => judge_entries_from(tables, rule, counts.len(), list),
        Judged::Bad { code, failed } => Judged::Bad { code, failed },
    }
}
