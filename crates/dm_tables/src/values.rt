//! The values that an Enumerated AVP lists, and sets of their numbers (RFC 6733, 4.3.1).
ghost use Rattle.std.specs.Prelude.{◌≡◌, ◌<◌, [], ℤ, length, IfOk, OnOk, find};
ghost use Rattle.std.specs.List.{list_any, position_from};
ghost use Rattle.std.specs.Map.{lookup};
ghost use Rattle.std.specs.Option.{option_copied, option_map};
ghost use Rattle.std.specs.Ordering.{int_eq};
ghost use Rattle.indexmap.specs.IndexSet.{insert_key};
ghost use Rattle.dm_tables.specs.Listed.{has_number, is_unlisted};
ghost use Rattle.dm_tables.specs.Limits.{short_list};
ghost use Rattle.dm_tables.specs.Numbered.{with_place};

use crate::NoMemory;
use crate::tables::member_at;
use dm_wire::Octets;
use indexmap::{IndexMap, IndexSet};
use std::alloc::{AllocError, Global};
use std::fmt::{self, Debug, Formatter, Write};
use std::marker::Model;

/// A value that an Enumerated AVP lists.
#[derive(Debug, Drop, PartialEq, Eq)]
pub struct EnumValue {
    /// The name.
    pub name: Octets,
    /// The number, which isn't negative: a dictionary text can't write a negative one.
    pub number: i32,
}

impl Clone for EnumValue {
    ghost is_clone = { λ value copy. copy ≡ value };

    fn clone(&self) -> Result<EnumValue, AllocError> {
        Ok(EnumValue {
            name: self.name.clone()?,
            number: self.number,
        })
    }
}

/// The values that an Enumerated AVP lists, in order, and of a list of more than eight where the first of each number
/// stands among them.
///
/// A contract sees it as the list of the values.
#[derive(Drop)]
pub struct Values {
    items: Vec<EnumValue>,
    /// The places of the numbers of a long list.
    places: IndexMap<i32, usize>,
}

impl Model for Values {
    ghost use Rattle.std.specs.Prelude.{List};
    ghost use Rattle.dm_tables.specs.declared.values.EnumValue.{EnumValue};

    ghost Value = { List EnumValue };

    ghost use Rattle.dm_tables.specs.Numbered.{IsNumbered};

    ghost view = { λ values. values.items.items };

    ghost invariant = { IsNumbered };
}

/// Where the first value of each number stands in a short list, shown as the index of a long one is.
#[derive(Clone, Copy)]
struct PlacesShown<'a>(&'a [EnumValue]);

impl Debug for PlacesShown<'_> {
    fn fmt<W: Write>(&self, f: &mut Formatter<W>) -> fmt::Result {
        let mut map = f.debug_map();
        for (place, value) in self.0.iter().enumerate() {
            if !is_number_among(&self.0[..place], &value.number) {
                let _ = map.entry(&value.number, &place);
            }
        }
        map.finish()
    }
}

impl Debug for Values {
    /// The values, and where the first of each number stands among them.
    fn fmt<W: Write>(&self, f: &mut Formatter<W>) -> fmt::Result {
        let mut shown = f.debug_struct("Values");
        let _ = shown.field("items", &self.items);
        if self.items.len() <= SHORT_LIST {
            let _ = shown.field("places", &PlacesShown(self.items.as_slice()));
        } else {
            let _ = shown.field("places", &self.places);
        }
        shown.finish()
    }
}

/// The most values among which a number is sooner found one by one than by its hash.
const SHORT_LIST: usize = 8;

/// Puts a number behind the others, if it isn't there.
pub fn note_number(numbers: &mut IndexSet<i32>, number: &i32) -> Result<(), AllocError>
    ensures { OnOk result (numbers.new.keys ≡ insert_key int_eq numbers.old.keys number.now) }
{
    numbers.insert(*number)?;
    Ok(())
}

/// Whether a number is there.
pub fn is_number_noted(numbers: &IndexSet<i32>, number: &i32) -> bool
    ensures { result ≡ list_any (int_eq number.now) numbers.now.keys }
{
    numbers.contains(number)
}

/// Puts the place of a value under its number, if no earlier value has the number.
fn note_first_place(
    places: &mut IndexMap<i32, usize>,
    number: &i32,
    place: usize,
) -> Result<(), AllocError>
    ensures { OnOk result (places.new.entries ≡ with_place places.old.entries number.now place) }
{
    if places.contains_key(number) {
        return Ok(());
    }
    places.insert(*number, place)?;
    Ok(())
}

/// Where the first value of each number stands.
fn first_places_by_number(
    alloc: Global,
    values: &[EnumValue],
) -> Result<IndexMap<i32, usize>, AllocError>
    ensures { IfOk result (λ places. (n : ℤ)
        → lookup (int_eq n) places.entries ≡ position_from (has_number n) 0 values.now) }
{
    let mut places = IndexMap::new(alloc);
    let mut place: usize = 0;
    for value in values {
        note_first_place(&mut places, &value.number, place)?;
        place += 1;
    }
    Ok(places)
}

/// Where the first value of each number of a long list stands. Those of a short one aren't wanted.
fn first_places_if_long(
    alloc: Global,
    values: &[EnumValue],
) -> Result<IndexMap<i32, usize>, AllocError>
    ensures { IfOk result (λ places. short_list < length values.now → (n : ℤ)
        → lookup (int_eq n) places.entries ≡ position_from (has_number n) 0 values.now) }
{
    if values.len() <= SHORT_LIST {
        Ok(IndexMap::new(alloc))
    } else {
        first_places_by_number(alloc, values)
    }
}

/// The first of the values that has the number, found by looking at one after the other.
fn value_of_number_among<'a>(values: &'a [EnumValue], number: &i32) -> Option<&'a EnumValue>
    ensures { option_copied result ≡ find (has_number number.now) values.now }
{
    values.iter().find(|value| *number == value.number)
}

/// Whether one of the values has the number, found by looking at one after the other.
fn is_number_among(values: &[EnumValue], number: &i32) -> bool
    ensures { result ≡ list_any (has_number number.now) values.now }
{
    values.iter().any(|value| *number == value.number)
}

impl Values {
    /// No values. It never answers want of memory.
    pub fn empty(alloc: Global) -> Values
        ensures { result ≡ [] }
    {
        Values {
            items: Vec::new(alloc),
            places: IndexMap::new(alloc),
        }
    }

    /// The values of the `Vec`, which is moved and not copied; or want of memory for the index of their
    /// numbers.
    pub fn new(alloc: Global, values: Vec<EnumValue>) -> Result<Values, NoMemory>
        ensures { IfOk result (λ list. list ≡ values.items) }
    {
        let places = first_places_if_long(alloc, values.as_slice())?;
        Ok(Values {
            items: values,
            places,
        })
    }

    /// The values, in order. It never answers want of memory.
    pub fn as_slice(&self) -> &[EnumValue]
        ensures { result.now ≡ self.now }
    {
        self.items.as_slice()
    }

    /// Whether a value has the number.
    fn has_value_of_number(&self, number: &i32) -> bool
        ensures { result ≡ list_any (has_number number.now) self.now }
    {
        if self.items.len() <= SHORT_LIST {
            is_number_among(self.items.as_slice(), number)
        } else {
            self.index_has_number(number)
        }
    }

    /// Whether a value of a long list has the number, by the index.
    fn index_has_number(&self, number: &i32) -> bool
        requires { short_list < length self.now }
        ensures { result ≡ list_any (has_number number.now) self.now }
    {
        self.places.contains_key(number)
    }

    /// Whether there is a list and the number isn't in it. It never answers want of memory, and takes no
    /// longer for a longer list than for one of eight.
    pub fn leaves_out(&self, number: i32) -> bool
        ensures { result ≡ is_unlisted self.now number }
    {
        !self.items.is_empty() && !self.has_value_of_number(&number)
    }

    /// The first value of the number. It never answers want of memory, and takes no longer for a
    /// longer list than for one of eight.
    fn first_value_of_number(&self, number: &i32) -> Option<&EnumValue>
        ensures { option_copied result ≡ find (has_number number.now) self.now }
    {
        if self.items.len() <= SHORT_LIST {
            value_of_number_among(self.items.as_slice(), number)
        } else {
            self.indexed_first_value_of_number(number)
        }
    }

    /// The first value of the number in a long list, by the index.
    fn indexed_first_value_of_number(&self, number: &i32) -> Option<&EnumValue>
        requires { short_list < length self.now }
        ensures { option_copied result ≡ find (has_number number.now) self.now }
    {
        let place = self.places.get(number).copied();
        member_at(self.items.as_slice(), place)
    }

    /// The name of the first value of the number. It never answers want of memory, and takes no longer for a
    /// longer list than for one of eight.
    pub fn name(&self, number: i32) -> Option<&Octets>
        ensures { option_copied result ≡ option_map (λ v. v.name) (find (has_number number) self.now) }
    {
        match self.first_value_of_number(&number) {
            Some(value) => Some(&value.name),
            None => None,
        }
    }
}

impl Clone for Values {
    ghost is_clone = { λ values copy. copy ≡ values };

    fn clone(&self) -> Result<Values, AllocError> {
        let items = self.items.clone()?;
        let places = first_places_if_long(*self.items.allocator(), items.as_slice())?;
        Ok(Values { items, places })
    }
}

impl PartialEq for Values {
    ghost use Rattle.std.specs.Cmp.Lexicographic.{pointwise};
    ghost use Rattle.std.specs.Cmp.Rules.{comparing};
    ghost use Rattle.std.proofs.Common.{rules};
    ghost use Rattle.dm_tables.specs.ValueEquality.{value_eq};

    ghost eq = { pointwise value_eq };

    ghost laws = { Prim.search (comparing, rules) depth 14 };

    fn eq(&self, other: &Values) -> bool {
        self.as_slice() == other.as_slice()
    }
}

impl Eq for Values {
    ghost use Rattle.std.specs.Cmp.Rules.{comparing};
    ghost use Rattle.std.proofs.Common.{rules};

    ghost laws = { Prim.search (comparing, rules) depth 14 };
}
