//! The links of a rule: which definition each of its entries names, and the entries' bounds (RFC 6733, 3.2).
ghost use Rattle.std.specs.Prelude.{◌≡◌, ◌<◌, ℕ, true, Some, None, if◌then◌else◌, nat_eq, length, slice_get};
ghost use Rattle.std.specs.Prelude.{IfOk, IfSome, OnOk};
ghost use Rattle.std.specs.List.{position_from};
ghost use Rattle.std.specs.Option.{option_eq, option_or};
ghost use Rattle.indexmap.specs.IndexMap.{get_by};
ghost use Rattle.dm_tables.specs.Guesses.{AreGuessed};
ghost use Rattle.dm_tables.specs.Tables.{IsTables};
ghost use Rattle.dm_dict.specs.Links.{no_links, rule_links};
ghost use Rattle.dm_dict.specs.Limits.{short_rule};
ghost use Rattle.dm_dict.specs.Rows.{has_link, names_avps};

use crate::bounds::Bounds;
use crate::rows::{Row, rows_of_rule};
use crate::seats::{CROWDED, seats_of_rows};
use dm_tables::{NameGuesses, Rule, Tables};
use dm_value::NoMemory;
use indexmap::IndexMap;
use std::alloc::Global;
use std::fmt::{self, Debug, Formatter, Write};
use std::marker::Model;

/// The rows of the entries of a rule, in order, with their bounds.
///
/// A contract sees it as the list of the rows and the bounds.
#[derive(Drop)]
pub(crate) struct Links {
    items: Vec<Row>,
    /// The place of the first entry without a link.
    any: Option<usize>,
    /// The places of the links of a long rule.
    places: IndexMap<usize, usize>,
    /// Which entry may name the AVPs of a code, by the code's lowest bits.
    seats: [u8; 128],
    bounds: Bounds,
}

impl Model for Links {
    ghost use Rattle.dm_dict.specs.Links.{LinkedEntries, IsPlaced};

    ghost Value = { LinkedEntries };

    ghost view = { λ links. record { rows = links.items.items; bounds = links.bounds } };

    ghost invariant = { IsPlaced };
}

/// The links of rows, shown as a list.
#[derive(Clone, Copy)]
struct LinksShown<'a>(&'a [Row]);

impl Debug for LinksShown<'_> {
    fn fmt<W: Write>(&self, f: &mut Formatter<W>) -> fmt::Result {
        let mut list = f.debug_list();
        for row in self.0 {
            let _ = list.entry(&row.linked_place());
        }
        list.finish()
    }
}

/// The entries that have a link, by its lowest bits, as they are shown: 255 where there is none, 254 where there are
/// several.
fn shown_entries_by_link_bits(rows: &[Row]) -> [u8; 128] {
    let mut seats = [255; 128];
    for (at, row) in rows.iter().enumerate() {
        if row.linked {
            let slot = row.place % 128;
            seats[slot] = if seats[slot] == 255 && at < 254 {
                at as u8
            } else {
                254
            };
        }
    }
    seats
}

impl Debug for Links {
    /// The links and what finds them.
    fn fmt<W: Write>(&self, f: &mut Formatter<W>) -> fmt::Result {
        f.debug_struct("Links")
            .field("items", &LinksShown(self.items.as_slice()))
            .field("any", &self.any)
            .field("places", &self.places)
            .field("seats", &shown_entries_by_link_bits(self.items.as_slice()))
            .finish()
    }
}

/// The most entries among which a link is sooner found one by one than by its hash.
const SHORT_RULE: usize = 16;

/// Notes the place of the link, if there is one, unless one is noted.
fn note_first_place(
    places: &mut IndexMap<usize, usize>,
    link: Option<usize>,
    place: usize,
) -> Result<(), NoMemory>
    ensures { OnOk result ((k : ℕ) → get_by (nat_eq k) places.new
        ≡ option_or (get_by (nat_eq k) places.old) (if option_eq nat_eq (Some k) link then Some place else None)) }
{
    let Some(link) = link else {
        return Ok(());
    };
    if let Some(_) = places.get(&link) {
        return Ok(());
    }
    places.insert(link, place)?;
    Ok(())
}

/// The places of the links of the rows: of each the first.
fn first_place_of_each_link(alloc: Global, rows: &[Row]) -> Result<IndexMap<usize, usize>, NoMemory>
    ensures { IfOk result (λ places. (k : ℕ)
        → get_by (nat_eq k) places ≡ position_from (has_link (Some k)) 0 rows.now) }
{
    let mut places = IndexMap::new(alloc);
    places.reserve(rows.len())?;
    for (place, row) in rows.iter().enumerate() {
        note_first_place(&mut places, row.linked_place(), place)?;
    }
    Ok(places)
}

/// The places of the links of a long rule. Those of a short one aren't wanted.
fn first_places_if_long_rule(
    alloc: Global,
    rows: &[Row],
) -> Result<IndexMap<usize, usize>, NoMemory>
    ensures { IfOk result (λ places. short_rule < length rows.now → (k : ℕ)
        → get_by (nat_eq k) places ≡ position_from (has_link (Some k)) 0 rows.now) }
{
    if rows.len() <= SHORT_RULE {
        Ok(IndexMap::new(alloc))
    } else {
        first_place_of_each_link(alloc, rows)
    }
}

/// The place of the first of the rows that has this link, one after the other.
#[inline(always)]
fn first_place_of_link(rows: &[Row], link: Option<usize>) -> Option<usize>
    ensures { result ≡ position_from (has_link link) 0 rows.now }
{
    for (place, row) in rows.iter().enumerate() {
        if link == row.linked_place() {
            return Some(place);
        }
    }
    None
}

impl Links {
    /// The links of no entries. It never answers want of memory.
    pub(crate) fn empty(alloc: Global) -> Links
        ensures { result ≡ no_links }
    {
        Links {
            items: Vec::new(alloc),
            any: None,
            places: IndexMap::new(alloc),
            seats: seats_of_rows(&[]),
            bounds: Bounds::empty(alloc),
        }
    }

    /// The links of the rows of the `Vec`, which is moved and not copied, with these bounds.
    fn new(alloc: Global, items: Vec<Row>, bounds: Bounds) -> Result<Links, NoMemory>
        ensures { IfOk result (λ linked. linked ≡ record { rows = items.items; bounds = bounds }) }
    {
        let places = first_places_if_long_rule(alloc, items.as_slice())?;
        let any = first_place_of_link(items.as_slice(), None);
        let seats = seats_of_rows(items.as_slice());
        Ok(Links {
            items,
            any,
            places,
            seats,
            bounds,
        })
    }

    /// The links of the entries of a rule.
    pub(crate) fn of_rule(
        alloc: Global,
        tables: &Tables,
        guesses: &NameGuesses,
        rule: &Rule,
    ) -> Result<Links, NoMemory>
        requires tables { IsTables tables.now }
        requires guesses { AreGuessed tables.now.avps.items guesses.now.places.items }
        ensures { IfOk result (λ links. links ≡ rule_links tables.now.avps.items rule.now) }
    {
        let items = rows_of_rule(alloc, tables, guesses, rule)?;
        let bounds = Bounds::of_rule(alloc, rule)?;
        Links::new(alloc, items, bounds)
    }

    /// The bounds of the entries.
    #[inline(always)]
    pub(crate) fn bounds(&self) -> &Bounds
        ensures { result.now ≡ self.now.bounds }
    {
        &self.bounds
    }

    /// The place of the first entry that has the link.
    fn linked_entry_place(&self, definition: usize) -> Option<usize>
        ensures { result ≡ position_from (has_link (Some definition)) 0 self.now.rows }
    {
        if self.items.len() <= SHORT_RULE {
            first_place_of_link(self.items.as_slice(), Some(definition))
        } else {
            self.places.get(&definition).copied()
        }
    }

    /// The place of the first entry that has the link, else of the first that has none; found without a seat.
    #[inline(never)]
    fn linked_or_any_entry_place(&self, definition: usize) -> Option<usize>
        ensures { result ≡ option_or (position_from (has_link (Some definition)) 0 self.now.rows)
            (position_from (has_link None) 0 self.now.rows) }
    {
        self.linked_entry_place(definition).or(self.any)
    }

    /// The place of the first entry that names the AVPs of this code and vendor, and its row, where the code's seat has
    /// it and an AVP may stand there. None doesn't tell that there is no such entry.
    #[inline(always)]
    pub(crate) fn allowed_row_at_seat(&self, code: u32, vendor: Option<u32>) -> Option<(usize, Row)>
        ensures place { IfSome result (λ found. Some found.0 ≡ position_from (names_avps code vendor) 0 self.now.rows) }
        ensures row { IfSome result (λ found. Some found.1 ≡ slice_get self.now.rows found.0) }
        ensures own { IfSome result (λ found. names_avps code vendor found.1 ≡ true) }
        ensures allowed { IfSome result (λ found. found.1.allowed ≡ true) }
    {
        let seat = self.seats[(code % 128) as usize];
        if seat >= CROWDED {
            return None;
        }
        let row = self.items[usize::from(seat)];
        if code == row.code && vendor == row.vendor {
            Some((usize::from(seat), row))
        } else {
            None
        }
    }

    /// The place of the first entry that has the link, to the definition of this code and vendor, else of the first
    /// that has none.
    #[inline(always)]
    pub(crate) fn entry_place(
        &self,
        code: u32,
        vendor: Option<u32>,
        link: Option<usize>,
    ) -> Option<usize>
        ensures { ((k : ℕ) → link ≡ Some k
            → position_from (names_avps code vendor) 0 self.now.rows
            ≡ position_from (has_link (Some k)) 0 self.now.rows)
            → result ≡ option_or (position_from (has_link link) 0 self.now.rows)
            (position_from (has_link None) 0 self.now.rows) }
    {
        let Some(definition) = link else {
            return self.any;
        };
        let seat = self.seats[(code % 128) as usize];
        if seat > CROWDED {
            return self.any;
        }
        if seat == CROWDED {
            return self.linked_or_any_entry_place(definition);
        }
        if self.items[usize::from(seat)].names_code_and_vendor(code, vendor) {
            Some(usize::from(seat))
        } else {
            self.any
        }
    }
}
