//! AVPs that are seen to be good, of types Grouped and Enumerated too, the data of Failed-AVP aside, by one pass that
//! keeps no fault (RFC 6733, 4.1, 4.4 and 7.1.5). What isn't seen to be good may be good.
ghost use Rattle.std.specs.Prelude.{◌≡◌, ◌<◌, ◌≤◌, ℕ, true, false, None, Some, List, length, IfSome};
ghost use Rattle.std.specs.Prelude.{slice_get, slice_index, flat_map};
ghost use Rattle.std.specs.Option.{option_and_then};
ghost use Rattle.dm_wire.specs.declared.avp.Avp.{Avp};
ghost use Rattle.dm_wire.specs.Borrowed.{avp_of};
ghost use Rattle.dm_wire.specs.Spelling.{SpellsList};
ghost use Rattle.dm_dict.specs.Apart.{IsFit};
ghost use Rattle.dm_dict.specs.Counters.{IsCounted};
ghost use Rattle.dm_dict.specs.Faults.{Fault as AFault, avp_faults, entry_faults, group_faults};
ghost use Rattle.dm_dict.specs.Faults.{list_faults, first};
ghost use Rattle.dm_dict.specs.Linked.{IsLinked, IsRule};
ghost use Rattle.dm_dict.specs.Passed.{PassesNext, PassesOctets};
ghost use Rattle.dm_dict.specs.Rows.{StandsAt};
ghost use Rattle.dm_dict.specs.Rules.{definition, allows};
ghost use Rattle.dm_tables.specs.declared.def.AvpDef.{AvpDef};
ghost use Rattle.dm_tables.specs.declared.rule.Entry.{Entry};

use crate::codes::FAILED_AVP;
use crate::counts::{FEW_ENTRIES, MANY_ENTRIES, count_avp_at_entry, zero_counters};
use crate::data::{is_data_good, is_enumerated_good};
use crate::entries::counters_show_no_fault;
use crate::linked::{Linked, LinkedRule};
use crate::rows::Row;
use crate::rules::{
    allowed_row_for_avp_by_seat, entry_allows_avps, look_up_avp_by_marks, pair_place_with_entry,
};
use dm_tables::Rule;
use dm_value::AvpType;
use dm_wire::laws::spelled_avps_are_members;
use dm_wire::{AvpRef, first_avp};

/// True only where nothing is wrong with an AVP, whose definition has this place and which stands there under the rule,
/// inside which so many groups may stand.
#[cycle(passing)]
#[inline(always)]
fn is_avp_seen_good(
    dictionary: &Linked,
    rule: &Rule,
    place: Option<usize>,
    at: Option<usize>,
    avp: AvpRef<'_>,
    groups_allowed: u32,
) -> bool
    requires linked { IsLinked dictionary.now }
    requires fit { IsFit dictionary.now.tables.avps.items }
    requires def { option_and_then (slice_get dictionary.now.tables.avps.items) place
        ≡ definition dictionary.now.tables.avps.items (avp_of avp) }
    requires within { IfSome place (λ i. i < length dictionary.now.tables.avps.items) }
    requires inside { IfSome at (λ i. i < length rule.now) }
    ensures { result ≡ true → None ≡ first (avp_faults (group_faults groups_allowed dictionary.now.tables.avps.items)
        (allows (option_and_then (slice_get rule.now) at))
        (avp_of avp.entry) (definition dictionary.now.tables.avps.items (avp_of avp.entry))) }
{
    let Some(place) = place else {
        return !avp.mandatory;
    };
    let Some(at) = at else {
        return false;
    };
    if !entry_allows_avps(rule, at) {
        return false;
    }
    let kind = dictionary.avp_def_at(place).kind;
    is_defined_avp_seen_good(dictionary, kind, place, avp, groups_allowed)
}

/// True only where nothing is wrong with an AVP of the definition at the place that may stand where it stands: it is
/// Failed-AVP, whose data isn't read.
// (A function of its own in the machine's code too: it's wanted where something else is wrong.)
#[inline(never)]
fn has_failed_avp_code_at(dictionary: &Linked, place: usize) -> bool
    requires { place < length dictionary.now.tables.avps.items }
    ensures { (groups : List Entry → Avp → List AFault) (a : Avp) → slice_get dictionary.now.tables.avps.items place
        ≡ definition dictionary.now.tables.avps.items a → result ≡ true
        → None ≡ first (avp_faults groups true a (definition dictionary.now.tables.avps.items a)) }
{
    let def = dictionary.avp_def_at(place);
    def.code == FAILED_AVP && def.vendor == None
}

/// True only where nothing is wrong with an AVP that may stand where it stands, whose definition is of this type and
/// has this place.
#[cycle(passing)]
#[inline(always)]
fn is_defined_avp_seen_good(
    dictionary: &Linked,
    kind: AvpType,
    place: usize,
    avp: AvpRef<'_>,
    groups_allowed: u32,
) -> bool
    requires linked { IsLinked dictionary.now }
    requires fit { IsFit dictionary.now.tables.avps.items }
    requires def { slice_get dictionary.now.tables.avps.items place
        ≡ definition dictionary.now.tables.avps.items (avp_of avp) }
    requires within { place < length dictionary.now.tables.avps.items }
    requires kind { (d : AvpDef) → slice_get dictionary.now.tables.avps.items place ≡ Some d → kind ≡ d.kind }
    ensures { result ≡ true → None ≡ first (avp_faults (group_faults groups_allowed dictionary.now.tables.avps.items)
        true (avp_of avp.entry) (definition dictionary.now.tables.avps.items (avp_of avp.entry))) }
{
    if let AvpType::Grouped = kind {
        let rule = LinkedRule {
            entries: &dictionary.avp_def_at(place).rule,
            links: dictionary.avp_links_at(place),
        };
        return is_group_seen_good(dictionary, rule, avp.bytes, groups_allowed)
            || has_failed_avp_code_at(dictionary, place);
    }
    if let AvpType::Enumerated = kind {
        return is_enumerated_good(dictionary, place, avp.bytes)
            || has_failed_avp_code_at(dictionary, place);
    }
    is_data_good(kind, avp.bytes) || has_failed_avp_code_at(dictionary, place)
}

/// True only where nothing is wrong with an AVP that stands under the rule at this entry, which has this row; then it
/// is counted. Where it isn't seen the answer is no, and nothing is counted.
#[inline(always)]
pub(crate) fn pass_avp_with_row(
    dictionary: &Linked,
    at: usize,
    row: Row,
    avp: AvpRef<'_>,
    groups_allowed: u32,
    counts: &mut [u16],
) -> bool
    requires linked { IsLinked dictionary.now }
    requires fit { IsFit dictionary.now.tables.avps.items }
    requires def { slice_get dictionary.now.tables.avps.items row.place
        ≡ definition dictionary.now.tables.avps.items (avp_of avp) }
    requires within { row.place < length dictionary.now.tables.avps.items }
    requires kind { (d : AvpDef) → slice_get dictionary.now.tables.avps.items row.place ≡ Some d → row.kind ≡ d.kind }
    ensures passed { result ≡ true → (rule : List Entry)
        → StandsAt dictionary.now.tables.avps.items rule (avp_of avp.entry) at row
        → PassesNext groups_allowed dictionary.now.tables.avps.items rule (avp_of avp.entry) counts.old counts.new }
    ensures same { result ≡ false → counts.new ≡ counts.old }
{
    let Row { kind, place, .. } = row;
    if !is_defined_avp_seen_good(dictionary, kind, place, avp, groups_allowed) {
        return false;
    }
    count_avp_at_entry(counts, 0, Some(at));
    true
}

/// True only for an AVP that has no definition, as the marks of the codes tell at once, and wants none: it isn't
/// mandatory. Then it is counted, else nothing is.
#[inline(always)]
pub(crate) fn pass_unmarked_nonmandatory_avp(
    dictionary: &Linked,
    rule: LinkedRule<'_>,
    avp: AvpRef<'_>,
    counts: &mut [u16],
) -> bool
    requires linked { IsLinked dictionary.now }
    requires fit { IsFit dictionary.now.tables.avps.items }
    requires rule { IsRule dictionary.now.tables.avps.items rule }
    ensures passed { result ≡ true → (depth : ℕ) → PassesNext depth dictionary.now.tables.avps.items
        rule.entry.entries.now (avp_of avp.entry) counts.old counts.new }
    ensures same { result ≡ false → counts.new ≡ counts.old }
{
    if avp.mandatory || !dictionary.is_code_unmarked(avp.code) {
        return false;
    }
    let (_, any) = pair_place_with_entry(&dictionary.tables, rule, None, avp);
    count_avp_at_entry(counts, 0, any);
    true
}

/// True only where nothing is wrong with an AVP, which is looked up under the rule; then it is counted. Where it isn't
/// seen the answer is no, and nothing is counted.
#[cycle(passing)]
#[inline(always)]
pub(crate) fn pass_looked_up_avp(
    dictionary: &Linked,
    rule: LinkedRule<'_>,
    avp: AvpRef<'_>,
    groups_allowed: u32,
    counts: &mut [u16],
) -> bool
    requires linked { IsLinked dictionary.now }
    requires fit { IsFit dictionary.now.tables.avps.items }
    requires rule { IsRule dictionary.now.tables.avps.items rule }
    ensures passed { result ≡ true → PassesNext groups_allowed dictionary.now.tables.avps.items rule.entry.entries.now
        (avp_of avp.entry) counts.old counts.new }
    ensures same { result ≡ false → counts.new ≡ counts.old }
{
    let AvpRef {
        code,
        vendor,
        mandatory,
        protected,
        bytes,
    } = avp;
    pass_avp_parts(
        dictionary,
        rule,
        code,
        vendor,
        mandatory,
        protected,
        bytes,
        groups_allowed,
        counts,
    )
}

/// True only where nothing is wrong with an AVP of these parts, which is looked up under the rule; then it is counted.
/// Where it isn't seen the answer is no, and nothing is counted.
// (A function of its own in the machine's code too, to which nothing is handed by its place in memory: few AVPs have no
// row, and the others' loop neither writes theirs down nor keeps registers for these.)
#[cycle(passing)]
#[inline(never)]
fn pass_avp_parts(
    dictionary: &Linked,
    rule: LinkedRule<'_>,
    code: u32,
    vendor: Option<u32>,
    mandatory: bool,
    protected: bool,
    bytes: &[u8],
    groups_allowed: u32,
    counts: &mut [u16],
) -> bool
    requires linked { IsLinked dictionary.now }
    requires fit { IsFit dictionary.now.tables.avps.items }
    requires rule { IsRule dictionary.now.tables.avps.items rule }
    ensures passed { result ≡ true → PassesNext groups_allowed dictionary.now.tables.avps.items rule.entry.entries.now
        (record { code = code; vendor = vendor; mandatory = mandatory; protected = protected; bytes = bytes.entry.now })
        counts.old counts.new }
    ensures same { result ≡ false → counts.new ≡ counts.old }
{
    let avp = AvpRef {
        code,
        vendor,
        mandatory,
        protected,
        bytes,
    };
    let (place, at) = look_up_avp_by_marks(dictionary, rule, avp);
    if !is_avp_seen_good(dictionary, rule.entries, place, at, avp, groups_allowed) {
        return false;
    }
    count_avp_at_entry(counts, 0, at);
    true
}

/// True only where nothing is wrong with a Grouped AVP of this rule and these octets, where so many groups may stand
/// inside each other.
#[cycle(passing)]
fn is_group_seen_good(
    dictionary: &Linked,
    rule: LinkedRule<'_>,
    octets: &[u8],
    groups_allowed: u32,
) -> bool
    requires linked { IsLinked dictionary.now }
    requires fit { IsFit dictionary.now.tables.avps.items }
    requires rule { IsRule dictionary.now.tables.avps.items rule }
    ensures { (a : Avp) → a.bytes ≡ octets.now → result ≡ true
        → None ≡ first (group_faults groups_allowed dictionary.now.tables.avps.items rule.entry.entries.now a) }
{
    spelled_avps_are_members();
    groups_allowed > 0 && are_members_seen_good(dictionary, rule, octets, groups_allowed - 1)
}

/// The octets of AVPs from the first on that has no row, if those before it are seen to be good by theirs; these are
/// counted.
// (A loop of its own, so that what it works with stays in the processor's registers.)
#[cycle(passing)]
#[inline(always)]
fn pass_spelled_avps_until_no_row<'a>(
    dictionary: &Linked,
    rule: LinkedRule<'_>,
    octets: &'a [u8],
    groups_allowed: u32,
    counts: &mut [u16],
) -> Option<&'a [u8]>
    requires linked { IsLinked dictionary.now }
    requires fit { IsFit dictionary.now.tables.avps.items }
    requires rule { IsRule dictionary.now.tables.avps.items rule }
    ensures passed { IfSome result (λ left. PassesOctets groups_allowed dictionary.now.tables.avps.items
        rule.entry.entries.now octets.now left.now counts.old counts.new) }
    ensures less { IfSome result (λ left. length left.now ≤ length octets.now) }
{
    let mut left = octets;
    while let Some((avp, size)) = first_avp(left) {
        let Some((entry, row)) = allowed_row_for_avp_by_seat(dictionary, rule, avp) else {
            return Some(left);
        };
        count_avp_at_entry(counts, 0, Some(entry));
        if !is_defined_avp_seen_good(dictionary, row.kind, row.place, avp, groups_allowed) {
            return None;
        }
        left = &left[size..];
    }
    Some(left)
}

/// The octets behind the first AVP, which has no row, if it is seen to be good; it is counted.
#[cycle(passing)]
#[inline(always)]
fn pass_spelled_avp_without_row<'a>(
    dictionary: &Linked,
    rule: LinkedRule<'_>,
    octets: &'a [u8],
    groups_allowed: u32,
    counts: &mut [u16],
) -> Option<&'a [u8]>
    requires linked { IsLinked dictionary.now }
    requires fit { IsFit dictionary.now.tables.avps.items }
    requires rule { IsRule dictionary.now.tables.avps.items rule }
    ensures passed { IfSome result (λ left. PassesOctets groups_allowed dictionary.now.tables.avps.items
        rule.entry.entries.now octets.now left.now counts.old counts.new) }
    ensures less { IfSome result (λ left. length left.now < length octets.now) }
{
    let Some((avp, size)) = first_avp(octets) else {
        return None;
    };
    if pass_unmarked_nonmandatory_avp(dictionary, rule, avp, counts) {
        return Some(&octets[size..]);
    }
    if pass_looked_up_avp(dictionary, rule, avp, groups_allowed, counts) {
        Some(&octets[size..])
    } else {
        None
    }
}

/// True only where the octets are AVPs, one after the other, and nothing is wrong with each of them under the rule;
/// then they are counted.
#[cycle(passing)]
#[inline(always)]
fn pass_spelled_avps(
    dictionary: &Linked,
    rule: LinkedRule<'_>,
    octets: &[u8],
    groups_allowed: u32,
    counts: &mut [u16],
) -> bool
    requires linked { IsLinked dictionary.now }
    requires fit { IsFit dictionary.now.tables.avps.items }
    requires rule { IsRule dictionary.now.tables.avps.items rule }
    requires zero { (i : ℕ) → slice_index counts.old i ≡ 0 }
    ensures { result ≡ true → (l : List Avp) × SpellsList l octets.now
        × (first (list_faults groups_allowed dictionary.now.tables.avps.items rule.entry.entries.now l)
        ≡ first (flat_map (entry_faults dictionary.now.tables.avps.items rule.entry.entries.now l)
        rule.entry.entries.now))
        × IsCounted dictionary.now.tables.avps.items rule.entry.entries.now l 0 counts.new }
{
    let mut left = octets;
    while let Some(behind) = pass_spelled_avps_until_no_row(
        dictionary,
        rule,
        left,
        groups_allowed,
        counts,
    ) {
        if behind.is_empty() {
            return true;
        }
        let Some(rest) = pass_spelled_avp_without_row(
            dictionary,
            rule,
            behind,
            groups_allowed,
            counts,
        ) else {
            return false;
        };
        left = rest;
    }
    false
}

/// True only where the octets are AVPs and nothing is wrong with them under the rule, by these counters, all zero. It
/// is seen where there is one for each of its entries.
#[cycle(passing)]
#[inline(always)]
fn are_members_seen_good_with_counters(
    dictionary: &Linked,
    rule: LinkedRule<'_>,
    octets: &[u8],
    groups_allowed: u32,
    counts: &mut [u16],
) -> bool
    requires linked { IsLinked dictionary.now }
    requires fit { IsFit dictionary.now.tables.avps.items }
    requires rule { IsRule dictionary.now.tables.avps.items rule }
    requires zero { (i : ℕ) → slice_index counts.old i ≡ 0 }
    ensures { result ≡ true → (l : List Avp) × SpellsList l octets.now
        × (None ≡ first (list_faults groups_allowed dictionary.now.tables.avps.items rule.entry.entries.now l)) }
{
    pass_spelled_avps(dictionary, rule, octets, groups_allowed, counts)
        && counters_show_no_fault(rule, counts)
}

/// True only where the octets are AVPs and nothing is wrong with them under a rule of few entries.
#[cycle(passing)]
fn are_members_seen_good_with_few_counters(
    dictionary: &Linked,
    rule: LinkedRule<'_>,
    octets: &[u8],
    groups_allowed: u32,
) -> bool
    requires linked { IsLinked dictionary.now }
    requires fit { IsFit dictionary.now.tables.avps.items }
    requires rule { IsRule dictionary.now.tables.avps.items rule }
    ensures { result ≡ true → (l : List Avp) × SpellsList l octets.now
        × (None ≡ first (list_faults groups_allowed dictionary.now.tables.avps.items rule.entry.entries.now l)) }
{
    let mut counts = zero_counters::<FEW_ENTRIES>();
    are_members_seen_good_with_counters(dictionary, rule, octets, groups_allowed, &mut counts)
}

/// True only where the octets are AVPs and nothing is wrong with them under a rule of many entries.
// (A function of its own in the machine's code too: its counters would be zeroed at its caller's entry.)
#[cycle(passing)]
#[inline(never)]
fn are_members_seen_good_with_many_counters(
    dictionary: &Linked,
    rule: LinkedRule<'_>,
    octets: &[u8],
    groups_allowed: u32,
) -> bool
    requires linked { IsLinked dictionary.now }
    requires fit { IsFit dictionary.now.tables.avps.items }
    requires rule { IsRule dictionary.now.tables.avps.items rule }
    ensures { result ≡ true → (l : List Avp) × SpellsList l octets.now
        × (None ≡ first (list_faults groups_allowed dictionary.now.tables.avps.items rule.entry.entries.now l)) }
{
    let mut counts = zero_counters::<MANY_ENTRIES>();
    are_members_seen_good_with_counters(dictionary, rule, octets, groups_allowed, &mut counts)
}

/// True only where the octets are AVPs and nothing is wrong with them under the rule, where so many groups may stand
/// inside each other. Under a rule of more entries than are counted on the stack it isn't seen, and the answer is no.
#[cycle(passing)]
fn are_members_seen_good(
    dictionary: &Linked,
    rule: LinkedRule<'_>,
    octets: &[u8],
    groups_allowed: u32,
) -> bool
    requires linked { IsLinked dictionary.now }
    requires fit { IsFit dictionary.now.tables.avps.items }
    requires rule { IsRule dictionary.now.tables.avps.items rule }
    ensures { result ≡ true → (l : List Avp) × SpellsList l octets.now
        × (None ≡ first (list_faults groups_allowed dictionary.now.tables.avps.items rule.entry.entries.now l)) }
{
    let size = rule.entries.as_slice().len();
    if size <= FEW_ENTRIES {
        are_members_seen_good_with_few_counters(dictionary, rule, octets, groups_allowed)
    } else {
        size <= MANY_ENTRIES
            && are_members_seen_good_with_many_counters(dictionary, rule, octets, groups_allowed)
    }
}
