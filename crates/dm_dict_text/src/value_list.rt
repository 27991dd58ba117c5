//! The list of values of an item of a dictionary text (own).
ghost use Rattle.std.specs.Prelude.{◌≡◌, ◌≤◌, pos, unsigned_abs, [], ◌∷◌, ◌++◌, true, false, map, fold};
ghost use Rattle.std.specs.Prelude.{OnOk, IfOk, IfErr};
ghost use Rattle.std.specs.List.{list_any};
ghost use Rattle.dm_grammar.specs.Views.{view_word, view_value};
ghost use Rattle.dm_tables.specs.Listed.{has_number};
ghost use Rattle.dm_tables.specs.Sound.{is_value};
ghost use Rattle.dm_dict_text.specs.Meaning.{number};
ghost use Rattle.dm_dict_text.specs.Faults.{StopsAtFirst, listed_value_faults, with_value, value_list_faults};

use crate::DictFault;
use crate::number::number_of_digit_word;
use dm_grammar::ValueItem;
use dm_tables::{EnumValue, NoMemory, Values, is_number_noted, note_number};
use dm_wire::Octets;
use indexmap::IndexSet;
use std::alloc::Global;

/// The greatest value that is listed.
const VALUE_LIMIT: u32 = 2147483647;

/// The number of a value, at most 2147483647, as a signed one, which is never negative.
fn signed_value_number(number: u32) -> i32
    requires { number ≤ 2147483647 }
    ensures { result ≡ pos number }
{
    number as i32
}

/// The most values among which a name or a number is looked for one by one.
const SHORT_LIST: usize = 32;

/// The values of a list so far, and the names and the numbers of a long one.
#[derive(Drop)]
struct Listing<'a> {
    values: Vec<EnumValue>,
    is_long: bool,
    names: IndexSet<&'a [u8]>,
    numbers: IndexSet<i32>,
}

/// Whether one of the values has the name.
fn has_value_named(values: &[EnumValue], name: &[u8]) -> bool
    ensures { result ≡ list_any (is_value name.now) values.now }
{
    values.iter().any(|value| value.name.as_slice() == name)
}

/// Whether one of the values has the number.
fn has_value_numbered(values: &[EnumValue], number: &i32) -> bool
    ensures { result ≡ list_any (has_number number.now) values.now }
{
    values.iter().any(|value| *number == value.number)
}

impl<'a> Listing<'a> {
    ghost use Rattle.dm_dict_text.specs.Listing.{IsListing};

    /// No values, of a list that will have so many. It never answers want of memory.
    fn empty_for(alloc: Global, count: usize) -> Listing<'a>
        ensures empty { result.values.items ≡ [] }
        ensures listing { IsListing result }
    {
        Listing {
            values: Vec::new(alloc),
            is_long: count > SHORT_LIST,
            names: IndexSet::new(alloc),
            numbers: IndexSet::new(alloc),
        }
    }

    /// Whether a value has the name.
    fn has_name(&self, name: &[u8]) -> bool
        requires { IsListing self.now }
        ensures { result ≡ list_any (is_value name.now) self.now.values.items }
    {
        if self.is_long {
            self.names.contains(name)
        } else {
            has_value_named(self.values.as_slice(), name)
        }
    }

    /// Whether a value has the number.
    fn has_number(&self, number: &i32) -> bool
        requires { IsListing self.now }
        ensures { result ≡ list_any (has_number number.now) self.now.values.items }
    {
        if self.is_long {
            is_number_noted(&self.numbers, number)
        } else {
            has_value_numbered(self.values.as_slice(), number)
        }
    }

    /// Notes the name and the number of a further value of a long list.
    fn note_name_and_number(&mut self, name: &'a [u8], number: &i32) -> Result<(), NoMemory>
        requires listing { IsListing self.old }
        requires name { list_any (is_value name.now) self.old.values.items ≡ false }
        requires number { list_any (has_number number.now) self.old.values.items ≡ false }
        ensures values { self.new.values.items ≡ self.old.values.items }
        ensures long { self.new.is_long ≡ self.old.is_long }
        ensures names { OnOk result (self.new.is_long ≡ true → map (λ k. k.now) self.new.names.keys
            ≡ map (λ v. v.name) self.old.values.items ++ name.now ∷ []) }
        ensures numbers { OnOk result (self.new.is_long ≡ true → self.new.numbers.keys
            ≡ map (λ v. v.number) self.old.values.items ++ number.now ∷ []) }
    {
        if self.is_long {
            self.names.insert(name)?;
            note_number(&mut self.numbers, number)?;
        }
        Ok(())
    }

    /// The number of a value that may stand behind the others, or its first fault.
    fn check_value(&self, item: &ValueItem<'a>) -> Result<i32, DictFault>
        requires { IsListing self.now }
        ensures number { IfOk result (λ n. n ≡ pos (number (view_word item.now.number))) }
        ensures small { IfOk result (λ n. unsigned_abs n ≤ 2147483647) }
        ensures good { IfOk result (λ _. listed_value_faults self.now.values.items (view_value item.now) ≡ []) }
        ensures fault { IfErr result (StopsAtFirst (listed_value_faults self.now.values.items (view_value item.now))) }
    {
        if self.has_name(item.name.text) {
            return Err(DictFault::Duplicate(item.name.line));
        }
        let number = signed_value_number(number_of_digit_word(item.number, VALUE_LIMIT)?);
        if self.has_number(&number) {
            return Err(DictFault::Duplicate(item.number.line));
        }
        Ok(number)
    }

    /// Adds a value behind the others, or gives its first fault.
    fn add(&mut self, alloc: Global, item: &ValueItem<'a>) -> Result<(), DictFault>
        requires { IsListing self.old }
        ensures good { OnOk result (listed_value_faults self.old.values.items (view_value item.now) ≡ []) }
        ensures added { OnOk result (self.new.values.items ≡ with_value self.old.values.items (view_value item.now)) }
        ensures listing { OnOk result (IsListing self.new) }
        ensures fault { IfErr result (StopsAtFirst (listed_value_faults self.old.values.items (view_value item.now))) }
    {
        let number = self.check_value(item)?;
        let word = item.name.text;
        self.note_name_and_number(word, &number)?;
        let name = Octets::from_slice(alloc, word)?;
        self.values.push(EnumValue { name, number })?;
        Ok(())
    }

    /// Adds the values of the items, in order, where there are none; or gives the first fault.
    fn add_all(&mut self, alloc: Global, items: &[ValueItem<'a>]) -> Result<(), DictFault>
        requires empty { self.old.values.items ≡ [] }
        requires listing { IsListing self.old }
        ensures added { OnOk result (self.new.values.items ≡ fold with_value [] (map view_value items.now)) }
        ensures good { OnOk result (value_list_faults (map view_value items.now) ≡ []) }
        ensures fault { IfErr result (StopsAtFirst (value_list_faults (map view_value items.now))) }
    {
        for item in items {
            self.add(alloc, item)?;
        }
        Ok(())
    }
}

/// The values of the items.
fn values_of_items(alloc: Global, items: &[ValueItem<'_>]) -> Result<Vec<EnumValue>, DictFault>
    ensures value { IfOk result (λ values. values.items ≡ fold with_value [] (map view_value items.now)) }
    ensures good { IfOk result (λ _. value_list_faults (map view_value items.now) ≡ []) }
    ensures fault { IfErr result (StopsAtFirst (value_list_faults (map view_value items.now))) }
{
    let mut listing = Listing::empty_for(alloc, items.len());
    let done = listing.add_all(alloc, items);
    let Listing { values, .. } = listing;
    done.and(Ok(values))
}

/// The list of the items.
pub fn value_list_of_items(alloc: Global, items: &[ValueItem<'_>]) -> Result<Values, DictFault>
    ensures value { IfOk result (λ list. list ≡ fold with_value [] (map view_value items.now)) }
    ensures good { IfOk result (λ _. value_list_faults (map view_value items.now) ≡ []) }
    ensures fault { IfErr result (StopsAtFirst (value_list_faults (map view_value items.now))) }
{
    if items.is_empty() {
        return Ok(Values::empty(alloc));
    }
    let values = values_of_items(alloc, items)?;
    Ok(Values::new(alloc, values)?)
}
