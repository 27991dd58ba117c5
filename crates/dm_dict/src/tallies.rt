//! What each entry of a rule lacks and has room for, as the AVPs of a list are counted (RFC 6733, 3.2 and 7.1.5).
ghost use Rattle.std.specs.Prelude.{◌≡◌, ◌<◌, ◌∷◌, [], ℕ, List, length, slice_index_or, IfOk};
ghost use Rattle.dm_wire.specs.declared.avp.Avp.{Avp};
ghost use Rattle.dm_wire.specs.Borrowed.{avp_of, Lists};
ghost use Rattle.dm_tables.specs.declared.def.AvpDef.{AvpDef};
ghost use Rattle.dm_tables.specs.declared.rule.Entry.{Entry};
ghost use Rattle.dm_tables.specs.Tables.{IsTables};
ghost use Rattle.dm_dict.specs.Apart.{IsFit};
ghost use Rattle.dm_dict.specs.Linked.{IsRule};
ghost use Rattle.dm_dict.specs.Rules.{definition, is_at, counts};
ghost use Rattle.dm_dict.specs.Tallies.{IsTally, AreTallied};

use crate::linked::LinkedRule;
use crate::rules::look_up_avp;
use dm_tables::{Entry, Rule, Tables};
use dm_value::NoMemory;
use dm_wire::{AvpRef, AvpsRef};
use std::alloc::Global;

/// The tally of an entry.
#[derive(Clone, Copy)]
pub(crate) struct Tally<'a> {
    /// How many AVPs it lacks.
    pub(crate) lack: u32,
    /// How many more it has room for, where it has a maximum.
    pub(crate) room: Option<u32>,
    /// The first AVP past its maximum.
    pub(crate) excess: Option<AvpRef<'a>>,
}

impl<'a> Tally<'a> {
    /// The tally of an entry that has counted none.
    fn before_counting(entry: &Entry) -> Tally<'a>
        ensures { (l : List Avp) → IsTally entry.now l l result }
    {
        Tally {
            lack: entry.min,
            room: entry.max,
            excess: None,
        }
    }

    /// Counts an AVP.
    fn count_avp(&mut self, avp: AvpRef<'a>)
        ensures { (e : Entry) (l m : List Avp) → IsTally e l (avp_of avp.entry ∷ m) self.old → IsTally e l m self.new }
    {
        self.lack = self.lack.saturating_sub(1);
        match self.room {
            Some(0) => self.excess = self.excess.or(Some(avp)),
            Some(room) => self.room = Some(room - 1),
            None => {}
        }
    }
}

/// The tallies of the entries of a rule that have counted none, or want of memory for them.
fn empty_tallies<'a>(alloc: Global, rule: &Rule) -> Result<Vec<Tally<'a>>, NoMemory>
    ensures size { IfOk result (λ tallies. length tallies.items ≡ length rule.now) }
    ensures tallied { IfOk result (λ tallies. (avps : List AvpDef) (l : List Avp)
        → AreTallied avps rule.now l l tallies.items) }
{
    let entries = rule.as_slice();
    let mut tallies = Vec::with_capacity(alloc, entries.len())?;
    for entry in entries {
        tallies.push(Tally::before_counting(entry))?;
    }
    Ok(tallies)
}

/// Counts an AVP under the entry at this place, if there is one.
fn tally_at_entry<'a>(tallies: &mut [Tally<'a>], at: Option<usize>, avp: AvpRef<'a>)
    ensures { (avps : List AvpDef) (rule : List Entry) (l m : List Avp)
        → ((i : ℕ) (e : Entry) → i < length rule → e ≡ slice_index_or rule i e
        → is_at at i ≡ counts rule e (definition avps (avp_of avp.entry)))
        → AreTallied avps rule l (avp_of avp.entry ∷ m) tallies.old → AreTallied avps rule l m tallies.new }
{
    if let Some(at) = at {
        if at < tallies.len() {
            tallies[at].count_avp(avp);
        }
    }
}

/// Counts the AVPs of the list.
fn tally_avps<'a>(
    tallies: &mut [Tally<'a>],
    tables: &Tables,
    rule: LinkedRule<'_>,
    list: AvpsRef<'a>,
)
    requires tables { IsTables tables.now }
    requires fit { IsFit tables.now.avps.items }
    requires rule { IsRule tables.now.avps.items rule }
    ensures tallied { (l : List Avp) → Lists list.entry l
        → AreTallied tables.now.avps.items rule.entry.entries.now l l tallies.old
        → AreTallied tables.now.avps.items rule.entry.entries.now l [] tallies.new }
{
    let mut left = list;
    while let Some((avp, rest)) = left.split_first() {
        let (_, at) = look_up_avp(tables, rule, avp);
        tally_at_entry(tallies, at, avp);
        left = rest;
    }
}

/// The tallies of the entries of the rule, which have counted the AVPs of the list, or want of memory for them.
pub(crate) fn tallies_of_rule<'a>(
    alloc: Global,
    tables: &Tables,
    rule: LinkedRule<'_>,
    list: AvpsRef<'a>,
) -> Result<Vec<Tally<'a>>, NoMemory>
    requires tables { IsTables tables.now }
    requires fit { IsFit tables.now.avps.items }
    requires rule { IsRule tables.now.avps.items rule }
    ensures size { IfOk result (λ tallies. length tallies.items ≡ length rule.entry.entries.now) }
    ensures tallied { IfOk result (λ tallies. (l : List Avp) → Lists list.entry l
        → AreTallied tables.now.avps.items rule.entry.entries.now l [] tallies.items) }
{
    let mut tallies = empty_tallies(alloc, rule.entries)?;
    tally_avps(tallies.as_mut_slice(), tables, rule, list);
    Ok(tallies)
}
