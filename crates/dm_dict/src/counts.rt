//! How many AVPs the entries of a rule count, by counters for entries one behind the other, each up to 65535
//! (RFC 6733, 3.2).
ghost use Rattle.std.specs.Prelude.{◌≡◌, ◌+◌, ◌<◌, ◌≤◌, ℕ, List, length, min, slice_index, IfSome};
ghost use Rattle.std.specs.Prelude.{if◌then◌else◌};
ghost use Rattle.dm_wire.specs.declared.avp.Avp.{Avp};
ghost use Rattle.dm_tables.specs.Tables.{IsTables};
ghost use Rattle.dm_dict.specs.Apart.{IsFit};
ghost use Rattle.dm_dict.specs.Linked.{IsRule};
ghost use Rattle.dm_wire.specs.Borrowed.{Lists};
ghost use Rattle.dm_dict.specs.Counters.{IsCounted};
ghost use Rattle.dm_dict.specs.Rules.{is_at};
ghost use Rattle.dm_dict.specs.Limits.{counter_limit, window};

use crate::linked::LinkedRule;
use crate::rules::look_up_avp;
use dm_tables::{Rule, Tables};
use dm_wire::AvpsRef;
use std::alloc::Global;

/// The most entries of a rule for which few counters do.
pub(crate) const FEW_ENTRIES: usize = 32;

/// The most entries of a rule that are counted on the stack while its AVPs are judged.
pub(crate) const MANY_ENTRIES: usize = 256;

/// How many further entries of a rule are counted on the stack in one walk, and how many where no more are left.
pub(crate) const WINDOW: usize = 65536;

pub(crate) const MIDDLE_WINDOW: usize = 16384;

pub(crate) const SHORT_WINDOW: usize = 4096;

/// So many counters, all zero.
#[inline(always)]
pub(crate) fn zero_counters<const SIZE: usize>() -> [u16; SIZE]
    requires { SIZE ≤ window }
    ensures { (i : ℕ) → slice_index result i ≡ 0 }
{
    [0; SIZE]
}

/// A counter for each entry of a rule that has more of them than are counted on the stack, if there is memory for that.
pub(crate) fn zero_counters_if_long_rule(alloc: Option<Global>, rule: &Rule) -> Option<Vec<u16>>
    ensures zero { IfSome result (λ counts. (i : ℕ) → slice_index counts.items i ≡ 0) }
    ensures size { IfSome result (λ counts. length counts.items ≡ length rule.now) }
{
    let size = rule.as_slice().len();
    match alloc {
        Some(alloc) if size > MANY_ENTRIES => vec![in alloc; 0; size].ok(),
        _ => None,
    }
}

/// One AVP more for the entry at the place, if it has one of the counters, which are for those from `from` on. A
/// counter stops at 65535.
#[inline(always)]
pub(crate) fn count_avp_at_entry(counts: &mut [u16], from: usize, at: Option<usize>)
    ensures size { length counts.new ≡ length counts.old }
    ensures counted { (i : ℕ) → i < length counts.new
        → slice_index counts.new i
        ≡ (if is_at at (from + i) then min (slice_index counts.old i + 1) counter_limit else slice_index counts.old i) }
{
    if let Some(at) = at {
        if at >= from && at - from < counts.len() {
            counts[at - from] = counts[at - from].saturating_add(1);
        }
    }
}

/// How many AVPs of the list each of the entries from `from` on counts that have counters, up to 65535.
pub(crate) fn count_avps_at_entries_from(
    tables: &Tables,
    rule: LinkedRule<'_>,
    from: usize,
    list: AvpsRef<'_>,
    counts: &mut [u16],
)
    requires tables { IsTables tables.now }
    requires fit { IsFit tables.now.avps.items }
    requires rule { IsRule tables.now.avps.items rule }
    requires zero { (i : ℕ) → slice_index counts.old i ≡ 0 }
    ensures size { length counts.new ≡ length counts.old }
    ensures counted { (l : List Avp) → Lists list.entry l
        → IsCounted tables.now.avps.items rule.entry.entries.now l from counts.new }
{
    let mut left = list;
    while let Some((avp, rest)) = left.split_first() {
        let (_, at) = look_up_avp(tables, rule, avp);
        count_avp_at_entry(counts, from, at);
        left = rest;
    }
}
