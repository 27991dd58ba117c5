//! Which of its code and vendor a Grouped AVP is in its list, and whether an AVP is one (RFC 6733, 4.1 and 4.4).
ghost use Rattle.std.specs.Prelude.{◌≡◌, ◌<◌, ◌+◌, ◌^◌, ◌++◌, ◌∷◌, [], ℕ, true, Some, Option};
ghost use Rattle.std.specs.Prelude.{List, length, slice_get, if◌then◌else◌, IfOk, OnOk};
ghost use Rattle.std.specs.Option.{option_and_then, option_copied};
ghost use Rattle.dm_wire.specs.declared.avp.Avp.{Avp};
ghost use Rattle.dm_wire.specs.Borrowed.{avp_of};
ghost use Rattle.dm_dict.specs.declared.path.Path.{Path};
ghost use Rattle.dm_dict.specs.Linked.{IsLinked};
ghost use Rattle.dm_dict.specs.Located.{occurrence};
ghost use Rattle.dm_dict.specs.Numbers.{is_key_of, times_counted, is_wanted, AreNumbered};
ghost use Rattle.dm_dict.specs.Rules.{definition};

use crate::linked::Linked;
use crate::path::Path;
use dm_value::{AvpType, NoMemory};
use dm_wire::AvpRef;
use indexmap::IndexMap;

/// Counts one more of a code and vendor, and tells how many there are with it.
fn increment_code_and_vendor_count(
    numbers: &mut IndexMap<(u32, Option<u32>), usize>,
    code: u32,
    vendor: Option<u32>,
) -> Result<usize, NoMemory>
    ensures nth { IfOk result (λ nth. times_counted numbers.old.entries code vendor + 1 < 2 ^ 64
        → nth ≡ times_counted numbers.old.entries code vendor + 1) }
    ensures counted { IfOk result (λ nth. (c : ℕ) (v : Option ℕ) → times_counted numbers.new.entries c v
        ≡ (if is_key_of code vendor (c, v) then nth else times_counted numbers.old.entries c v)) }
{
    let key = (code, vendor);
    let nth = match numbers.get(&key) {
        Some(before) => before.saturating_add(1),
        None => 1,
    };
    numbers.insert(key, nth)?;
    Ok(nth)
}

/// Whether the definition at the place is that of a group.
fn is_group_at(dictionary: &Linked, place: Option<usize>) -> bool
    requires { IsLinked dictionary.now }
    ensures { (path : Path) → result
        ≡ is_wanted (Some path) (option_and_then (slice_get dictionary.now.tables.avps.items) place) }
{
    match dictionary.linked_avp_at(place) {
        Some(avp) => match avp.def.kind {
            AvpType::Grouped => true,
            _ => false,
        },
        None => false,
    }
}

/// Counts the AVP, whose definition has this place, and tells which of its code and vendor it is behind those that were
/// counted. Of an AVP that is no group, and where no path is kept, nothing is counted, and the number means nothing.
pub(crate) fn count_group_occurrence<'a>(
    numbers: &mut IndexMap<(u32, Option<u32>), usize>,
    path: Option<&Path>,
    dictionary: &Linked,
    place: Option<usize>,
    avp: AvpRef<'a>,
) -> Result<usize, NoMemory>
    requires linked { IsLinked dictionary.now }
    requires def { option_and_then (slice_get dictionary.now.tables.avps.items) place
        ≡ definition dictionary.now.tables.avps.items (avp_of avp) }
    ensures nth { IfOk result (λ nth. (p : List Avp) → length p + 1 < 2 ^ 64
        → AreNumbered (option_copied path.entry) dictionary.now.tables.avps.items p numbers.old.entries
        → is_wanted (option_copied path.entry) (definition dictionary.now.tables.avps.items (avp_of avp.entry)) ≡ true
        → nth ≡ occurrence p (avp_of avp.entry)) }
    ensures counted { OnOk result ((p : List Avp) → length p + 1 < 2 ^ 64
        → AreNumbered (option_copied path.entry) dictionary.now.tables.avps.items p numbers.old.entries
        → AreNumbered (option_copied path.entry) dictionary.now.tables.avps.items (p
        ++ avp_of avp.entry ∷ []) numbers.new.entries) }
{
    let Some(_) = path else {
        return Ok(0);
    };
    if is_group_at(dictionary, place) {
        return increment_code_and_vendor_count(numbers, avp.code, avp.vendor);
    }
    Ok(0)
}
