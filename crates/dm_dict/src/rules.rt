//! Under which entry of a rule an AVP stands, and whether it may (RFC 6733, 3.2).
ghost use Rattle.std.specs.Prelude.{◌≡◌, ◌<◌, ℕ, length, slice_get, slice_index_or, IfSome};
ghost use Rattle.std.specs.List.{position_from};
ghost use Rattle.std.specs.Option.{option_and_then};
ghost use Rattle.dm_tables.specs.Definitions.{is_coded};
ghost use Rattle.dm_tables.specs.declared.rule.Entry.{Entry};
ghost use Rattle.dm_tables.specs.Tables.{IsTables};
ghost use Rattle.dm_dict.specs.Rules.{definition, is_at, counts, entry_for, allows};
ghost use Rattle.dm_dict.specs.Apart.{IsFit};
ghost use Rattle.dm_dict.specs.Linked.{IsLinked, IsRule};
ghost use Rattle.dm_dict.specs.Rows.{StandsAt};
ghost use Rattle.dm_wire.specs.Borrowed.{avp_of};

use crate::linked::{Linked, LinkedRule};
use crate::rows::Row;
use dm_tables::{Rule, Tables};
use dm_wire::AvpRef;

/// Whether an AVP may stand under the entry at the place: its max isn't 0.
#[inline(always)]
pub(crate) fn entry_allows_avps(rule: &Rule, at: usize) -> bool
    requires { at < length rule.now }
    ensures { result ≡ allows (slice_get rule.now at) }
{
    rule.as_slice()[at].max != Some(0)
}

/// Whether an AVP may stand under the entry: there is one, and its max isn't 0.
pub(crate) fn has_entry_allowing_avps(rule: &Rule, at: Option<usize>) -> bool
    ensures { result ≡ allows (option_and_then (slice_get rule.now) at) }
{
    match at {
        Some(at) if at < rule.as_slice().len() => entry_allows_avps(rule, at),
        _ => false,
    }
}

/// The place of the AVP's definition, and where under the rule the AVP stands: at the entry that is linked to its
/// definition, else at `AVP`. An AVP without definition stands at `AVP`.
#[inline(always)]
pub(crate) fn pair_place_with_entry(
    tables: &Tables,
    rule: LinkedRule<'_>,
    place: Option<usize>,
    avp: AvpRef<'_>,
) -> (Option<usize>, Option<usize>)
    requires tables { IsTables tables.now }
    requires fit { IsFit tables.now.avps.items }
    requires rule { IsRule tables.now.avps.items rule }
    requires def { place ≡ position_from (is_coded avp.code avp.vendor) 0 tables.now.avps.items }
    ensures def { option_and_then (slice_get tables.now.avps.items) result.0
        ≡ definition tables.now.avps.items (avp_of avp.entry) }
    ensures entry { option_and_then (slice_get rule.entry.entries.now) result.1
        ≡ entry_for rule.entry.entries.now (definition tables.now.avps.items (avp_of avp.entry)) }
    ensures counts { (i : ℕ) (e : Entry) → i < length rule.entry.entries.now
        → e ≡ slice_index_or rule.entry.entries.now i e
        → is_at result.1 i ≡ counts rule.entry.entries.now e (definition tables.now.avps.items (avp_of avp.entry)) }
    ensures within { IfSome result.0 (λ i. i < length tables.now.avps.items) }
    ensures inside { IfSome result.1 (λ i. i < length rule.entry.entries.now) }
{
    let entry = rule.links.entry_place(avp.code, avp.vendor, place);
    (place, entry)
}

/// Where the definition of the AVP stands among the AVPs, and where under the rule the AVP stands.
#[inline(always)]
pub(crate) fn look_up_avp(
    tables: &Tables,
    rule: LinkedRule<'_>,
    avp: AvpRef<'_>,
) -> (Option<usize>, Option<usize>)
    requires tables { IsTables tables.now }
    requires fit { IsFit tables.now.avps.items }
    requires rule { IsRule tables.now.avps.items rule }
    ensures def { option_and_then (slice_get tables.now.avps.items) result.0
        ≡ definition tables.now.avps.items (avp_of avp.entry) }
    ensures entry { option_and_then (slice_get rule.entry.entries.now) result.1
        ≡ entry_for rule.entry.entries.now (definition tables.now.avps.items (avp_of avp.entry)) }
    ensures counts { (i : ℕ) (e : Entry) → i < length rule.entry.entries.now
        → e ≡ slice_index_or rule.entry.entries.now i e
        → is_at result.1 i ≡ counts rule.entry.entries.now e (definition tables.now.avps.items (avp_of avp.entry)) }
{
    let place = tables.avp_place_by_code(avp.code, avp.vendor);
    pair_place_with_entry(tables, rule, place, avp)
}

/// Where the definition of the AVP stands among the AVPs, and where under the rule the AVP stands; by the marks of the
/// codes first.
#[inline(always)]
pub(crate) fn look_up_avp_by_marks(
    dictionary: &Linked,
    rule: LinkedRule<'_>,
    avp: AvpRef<'_>,
) -> (Option<usize>, Option<usize>)
    requires linked { IsLinked dictionary.now }
    requires fit { IsFit dictionary.now.tables.avps.items }
    requires rule { IsRule dictionary.now.tables.avps.items rule }
    ensures def { option_and_then (slice_get dictionary.now.tables.avps.items) result.0
        ≡ definition dictionary.now.tables.avps.items (avp_of avp.entry) }
    ensures entry { option_and_then (slice_get rule.entry.entries.now) result.1
        ≡ entry_for rule.entry.entries.now (definition dictionary.now.tables.avps.items (avp_of avp.entry)) }
    ensures counts { (i : ℕ) (e : Entry) → i < length rule.entry.entries.now
        → e ≡ slice_index_or rule.entry.entries.now i e
        → is_at result.1 i ≡ counts rule.entry.entries.now e
        (definition dictionary.now.tables.avps.items (avp_of avp.entry)) }
    ensures within { IfSome result.0 (λ i. i < length dictionary.now.tables.avps.items) }
    ensures inside { IfSome result.1 (λ i. i < length rule.entry.entries.now) }
{
    let place = dictionary.avp_place_by_code(avp.code, avp.vendor);
    pair_place_with_entry(&dictionary.tables, rule, place, avp)
}

/// The place of the entry under which the AVP stands, and its row, where it is the one at the seat of its code; else
/// None.
#[inline(always)]
pub(crate) fn allowed_row_for_avp_by_seat(
    dictionary: &Linked,
    rule: LinkedRule<'_>,
    avp: AvpRef<'_>,
) -> Option<(usize, Row)>
    requires linked { IsLinked dictionary.now }
    requires fit { IsFit dictionary.now.tables.avps.items }
    requires rule { IsRule dictionary.now.tables.avps.items rule }
    ensures { IfSome result (λ found. StandsAt dictionary.now.tables.avps.items rule.entry.entries.now
        (avp_of avp.entry) found.0 found.1) }
{
    match rule.links.allowed_row_at_seat(avp.code, avp.vendor) {
        Some((at, row)) => Some((at, row)),
        None => None,
    }
}

/// Whether the entry at the place counts the AVP.
pub(crate) fn entry_counts_avp(
    tables: &Tables,
    rule: LinkedRule<'_>,
    at: usize,
    avp: AvpRef<'_>,
) -> bool
    requires tables { IsTables tables.now }
    requires fit { IsFit tables.now.avps.items }
    requires rule { IsRule tables.now.avps.items rule }
    requires within { at < length rule.entries.now }
    ensures { (e : Entry) → e ≡ slice_index_or rule.entry.entries.now at e
        → result ≡ counts rule.entry.entries.now e (definition tables.now.avps.items (avp_of avp.entry)) }
{
    let (_, place) = look_up_avp(tables, rule, avp);
    match place {
        Some(place) => place == at,
        None => false,
    }
}
