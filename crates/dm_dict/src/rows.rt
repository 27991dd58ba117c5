//! What is to be known of the AVPs that the entries of a rule name (RFC 6733, 3.2).
ghost use Rattle.std.specs.Prelude.{◌≡◌, ◌++◌, ◌∷◌, [], IfOk, OnOk};
ghost use Rattle.dm_tables.specs.Guesses.{AreGuessed};
ghost use Rattle.dm_tables.specs.Tables.{IsTables};
ghost use Rattle.dm_dict.specs.Links.{rule_rows};
ghost use Rattle.dm_dict.specs.Rows.{names_avps, linked_row, row_link};

use dm_tables::{AvpDef, Entry, NameGuesses, Rule, Tables};
use dm_value::{AvpType, NoMemory};
use std::alloc::Global;

/// An entry of a rule, linked to the definition that has its name. The entry `AVP` isn't linked.
#[derive(Clone, Copy)]
pub(crate) struct Row {
    /// The place of the definition among the AVPs.
    pub(crate) place: usize,
    /// The AVP Code.
    pub(crate) code: u32,
    /// The Vendor-ID, where the AVP has one.
    pub(crate) vendor: Option<u32>,
    /// The type of its data.
    pub(crate) kind: AvpType,
    pub(crate) linked: bool,
    /// Whether an AVP may stand there: the entry's max isn't 0.
    pub(crate) allowed: bool,
}

impl Row {
    /// The place of the definition, if the entry is linked.
    #[inline(always)]
    pub(crate) fn linked_place(&self) -> Option<usize>
        ensures { result ≡ row_link self.now }
    {
        if self.linked { Some(self.place) } else { None }
    }

    /// Whether the AVPs of this code and vendor are those that the entry names.
    #[inline(always)]
    pub(crate) fn names_code_and_vendor(&self, code: u32, vendor: Option<u32>) -> bool
        ensures { result ≡ names_avps code vendor self.now }
    {
        self.linked && code == self.code && vendor == self.vendor
    }
}

/// Adds the row of an entry that has this link.
fn push_row(
    rows: &mut Vec<Row>,
    avps: &[AvpDef],
    entry: &Entry,
    link: Option<usize>,
) -> Result<(), NoMemory>
    ensures { OnOk result (rows.new.items ≡ rows.old.items ++ linked_row avps.now entry.now link ∷ []) }
{
    match link {
        Some(place) if place < avps.len() => rows.push(Row {
            place,
            code: avps[place].code,
            vendor: avps[place].vendor,
            kind: avps[place].kind,
            linked: true,
            allowed: entry.max != Some(0),
        })?,
        _ => rows.push(Row {
            place: 0,
            code: 0,
            vendor: None,
            kind: AvpType::OctetString,
            linked: false,
            allowed: false,
        })?,
    }
    Ok(())
}

/// The rows of the entries of a rule, in order.
pub(crate) fn rows_of_rule(
    alloc: Global,
    tables: &Tables,
    guesses: &NameGuesses,
    rule: &Rule,
) -> Result<Vec<Row>, NoMemory>
    requires tables { IsTables tables.now }
    requires guesses { AreGuessed tables.now.avps.items guesses.now.places.items }
    ensures { IfOk result (λ rows. rows.items ≡ rule_rows tables.now.avps.items rule.now) }
{
    let entries = rule.as_slice();
    let mut rows = Vec::with_capacity(alloc, entries.len())?;
    for entry in entries {
        let link = tables.avp_place_by_own_name_guesses(guesses, entry.name.as_slice());
        push_row(&mut rows, tables.avps.as_slice(), entry, link)?;
    }
    Ok(rows)
}
