//! The entries of an item of a dictionary text, checked one after the other, and the rule that they make (RFC 6733,
//! 3.2).
ghost use Rattle.std.specs.Prelude.{◌≡◌, ◌++◌, [], ◌∷◌, true, false, map, fold, OnOk, IfOk, IfErr};
ghost use Rattle.dm_grammar.specs.Views.{view_entry};
ghost use Rattle.dm_tables.specs.Forms.{form_number};
ghost use Rattle.dm_tables.specs.Sound.{is_repeated};
ghost use Rattle.dm_dict_text.specs.Meaning.{min_of, max_of};
ghost use Rattle.dm_dict_text.specs.Faults.{StopsAtFirst, rule_entry_faults, with_entry, rule_faults};

use crate::DictFault;
use crate::bounds::entry_bounds;
use dm_grammar::{EntryItem, Form};
use dm_tables::{Entry, NoMemory, Rule};
use dm_wire::Octets;
use indexmap::IndexSet;
use std::alloc::Global;

/// The place of a form in a rule: fixed, then required, then optional entries.
fn form_rank(form: Form) -> u8
    ensures { result ≡ form_number form }
{
    match form {
        Form::Fixed => 0,
        Form::Required => 1,
        Form::Optional => 2,
    }
}

/// The most entries among which a name is looked for one by one.
const SHORT_RULE: usize = 32;

/// The entries of a rule so far, the names of a long one, and the form that was reached.
#[derive(Drop)]
struct Entries<'a> {
    entries: Vec<Entry>,
    is_long: bool,
    names: IndexSet<&'a [u8]>,
    reached: Form,
}

/// Whether one of the entries has the name.
fn has_entry_named(entries: &[Entry], name: &[u8]) -> bool
    ensures { result ≡ is_repeated entries.now name.now }
{
    entries.iter().any(|entry| entry.name.as_slice() == name)
}

impl<'a> Entries<'a> {
    ghost use Rattle.dm_dict_text.specs.Entries.{IsNoted};

    /// No entries, of a rule that will have so many. It never answers want of memory.
    fn empty_for(alloc: Global, count: usize) -> Entries<'a>
        ensures empty { result.entries.items ≡ [] }
        ensures noted { IsNoted result }
    {
        Entries {
            entries: Vec::new(alloc),
            is_long: count > SHORT_RULE,
            names: IndexSet::new(alloc),
            reached: Form::Fixed,
        }
    }

    /// Whether an entry has the name.
    fn has_name(&self, name: &[u8]) -> bool
        requires { IsNoted self.now }
        ensures { result ≡ is_repeated self.now.entries.items name.now }
    {
        if self.is_long {
            self.names.contains(name)
        } else {
            has_entry_named(self.entries.as_slice(), name)
        }
    }

    /// Notes the name of a further entry of a long rule.
    fn note_name(&mut self, name: &'a [u8]) -> Result<(), NoMemory>
        requires noted { IsNoted self.old }
        requires new { is_repeated self.old.entries.items name.now ≡ false }
        ensures entries { self.new.entries.items ≡ self.old.entries.items }
        ensures reached { self.new.reached ≡ self.old.reached }
        ensures long { self.new.is_long ≡ self.old.is_long }
        ensures names { OnOk result (self.new.is_long ≡ true → map (λ k. k.now) self.new.names.keys
            ≡ map (λ e. e.name) self.old.entries.items ++ name.now ∷ []) }
    {
        if self.is_long {
            self.names.insert(name)?;
        }
        Ok(())
    }

    /// The least and the greatest number of an entry that may stand behind the others, or its first fault.
    fn check_entry(&self, item: &EntryItem<'a>) -> Result<(u32, Option<u32>), DictFault>
        requires { IsNoted self.now }
        ensures min { IfOk result (λ b. b.0 ≡ min_of (view_entry item.now).form (view_entry item.now).qualifier) }
        ensures max { IfOk result (λ b. b.1 ≡ max_of (view_entry item.now).qualifier) }
        ensures good { IfOk result (λ _. rule_entry_faults self.now.entries.items (view_entry item.now) ≡ []) }
        ensures new { IfOk result (λ _. is_repeated self.now.entries.items item.now.name.text.now ≡ false) }
        ensures fault { IfErr result (StopsAtFirst (rule_entry_faults self.now.entries.items (view_entry item.now))) }
    {
        let range = entry_bounds(item)?;
        let word = item.name;
        if self.has_name(word.text) {
            return Err(DictFault::Duplicate(word.line));
        }
        if form_rank(item.form) < form_rank(self.reached) {
            return Err(DictFault::Order(word.line));
        }
        Ok(range)
    }

    /// Adds an entry behind the others, or gives its first fault.
    fn add(&mut self, alloc: Global, item: &EntryItem<'a>) -> Result<(), DictFault>
        requires { IsNoted self.old }
        ensures good { OnOk result (rule_entry_faults self.old.entries.items (view_entry item.now) ≡ []) }
        ensures added { OnOk result (self.new.entries.items ≡ with_entry self.old.entries.items (view_entry item.now)) }
        ensures noted { OnOk result (IsNoted self.new) }
        ensures fault { IfErr result (StopsAtFirst (rule_entry_faults self.old.entries.items (view_entry item.now))) }
    {
        let (min, max) = self.check_entry(item)?;
        let form = item.form;
        let word = item.name.text;
        self.note_name(word)?;
        let name = Octets::from_slice(alloc, word)?;
        self.entries.push(Entry {
            form,
            name,
            min,
            max,
        })?;
        self.reached = form;
        Ok(())
    }

    /// Makes room for so many entries more.
    fn reserve(&mut self, count: usize) -> Result<(), NoMemory>
        ensures entries { self.new.entries.items ≡ self.old.entries.items }
        ensures noted { IsNoted self.old → IsNoted self.new }
    {
        self.entries.reserve(count)?;
        if self.is_long {
            self.names.reserve(count)?;
        }
        Ok(())
    }

    /// Adds the entries of the items, in order, where there are none; or gives the first fault.
    fn add_all(&mut self, alloc: Global, items: &[EntryItem<'a>]) -> Result<(), DictFault>
        requires empty { self.old.entries.items ≡ [] }
        requires noted { IsNoted self.old }
        ensures added { OnOk result (self.new.entries.items ≡ fold with_entry [] (map view_entry items.now)) }
        ensures good { OnOk result (rule_faults (map view_entry items.now) ≡ []) }
        ensures fault { IfErr result (StopsAtFirst (rule_faults (map view_entry items.now))) }
    {
        for item in items {
            self.add(alloc, item)?;
        }
        Ok(())
    }

    /// Adds the entries of the items, in order, where there are none, or gives the first fault; room for them is taken
    /// first.
    fn reserve_and_add_all(
        &mut self,
        alloc: Global,
        items: &[EntryItem<'a>],
    ) -> Result<(), DictFault>
        requires empty { self.old.entries.items ≡ [] }
        requires noted { IsNoted self.old }
        ensures added { OnOk result (self.new.entries.items ≡ fold with_entry [] (map view_entry items.now)) }
        ensures good { OnOk result (rule_faults (map view_entry items.now) ≡ []) }
        ensures fault { IfErr result (StopsAtFirst (rule_faults (map view_entry items.now))) }
    {
        self.reserve(items.len())?;
        self.add_all(alloc, items)
    }
}

/// The entries of the items.
fn entries_of_items(alloc: Global, items: &[EntryItem<'_>]) -> Result<Vec<Entry>, DictFault>
    ensures value { IfOk result (λ entries. entries.items ≡ fold with_entry [] (map view_entry items.now)) }
    ensures good { IfOk result (λ _. rule_faults (map view_entry items.now) ≡ []) }
    ensures fault { IfErr result (StopsAtFirst (rule_faults (map view_entry items.now))) }
{
    let mut rule = Entries::empty_for(alloc, items.len());
    let done = rule.reserve_and_add_all(alloc, items);
    let Entries { entries, .. } = rule;
    done.and(Ok(entries))
}

/// The rule of the items.
pub fn rule_of_items(alloc: Global, items: &[EntryItem<'_>]) -> Result<Rule, DictFault>
    ensures value { IfOk result (λ rule. rule ≡ fold with_entry [] (map view_entry items.now)) }
    ensures good { IfOk result (λ _. rule_faults (map view_entry items.now) ≡ []) }
    ensures fault { IfErr result (StopsAtFirst (rule_faults (map view_entry items.now))) }
{
    let entries = entries_of_items(alloc, items)?;
    Ok(Rule::from_vec(entries))
}
