//! The links of the AVPs' rules, of which most have no entries (RFC 6733, 3.2).
ghost use Rattle.std.specs.Prelude.{◌≡◌, ◌<◌, ◌≤◌, ◌++◌, [], ◌∷◌, Some, length, slice_get, OnErr, OnOk};
ghost use Rattle.dm_tables.specs.Guesses.{AreGuessed};
ghost use Rattle.dm_tables.specs.Tables.{IsTables};
ghost use Rattle.dm_dict.specs.Links.{no_links, rule_links};
ghost use Rattle.dm_dict.specs.RuleLinks.{begun_links};

use crate::links::Links;
use dm_tables::{AvpDef, NameGuesses, Rule, Tables};
use dm_value::NoMemory;
use std::alloc::Global;
use std::fmt::{self, Debug, Formatter, Write};
use std::marker::Model;

/// The links of rules, in order. Those of all rules without entries are kept once.
///
/// A contract sees it as the list of the links of each rule.
#[derive(Drop)]
pub(crate) struct RuleLinks {
    /// The links of a rule without entries, where there is a rule, and then those of each rule with entries.
    kept: Vec<Links>,
    /// Where each rule's links are among those that are kept.
    places: Vec<usize>,
}

impl Model for RuleLinks {
    ghost use Rattle.std.specs.Prelude.{List};
    ghost use Rattle.dm_dict.specs.Links.{LinkedEntries};

    ghost Value = { List LinkedEntries };

    ghost use Rattle.dm_dict.specs.RuleLinks.{shown_links, AreRulesKept};

    ghost view = { λ links. shown_links links.kept.items links.places.items };

    ghost invariant = { AreRulesKept };
}

impl Debug for RuleLinks {
    /// The links of each rule, as a list.
    fn fmt<W: Write>(&self, f: &mut Formatter<W>) -> fmt::Result {
        let mut list = f.debug_list();
        for place in 0..self.places.len() {
            let _ = list.entry(self.links_at(place));
        }
        list.finish()
    }
}

/// How many of the AVPs have rules with entries.
fn count_rules_with_entries(avps: &[AvpDef]) -> usize
    ensures { result ≤ length avps.now }
{
    let mut count: usize = 0;
    for avp in avps {
        if !avp.rule.as_slice().is_empty() {
            count = count.saturating_add(1);
        }
    }
    count
}

/// Keeps the links of a rule without entries, where nothing is kept yet.
fn keep_empty_links_once(alloc: Global, kept: &mut Vec<Links>) -> Result<(), NoMemory>
    ensures begun { OnOk result (kept.new.items ≡ begun_links kept.old.items) }
    ensures same { OnErr result (kept.new.items ≡ kept.old.items) }
{
    if kept.is_empty() {
        kept.push(Links::empty(alloc))?;
    }
    Ok(())
}

impl RuleLinks {
    /// The links of no rules. It never answers want of memory.
    pub(crate) fn empty(alloc: Global) -> RuleLinks
        ensures { result ≡ [] }
    {
        RuleLinks {
            kept: Vec::new(alloc),
            places: Vec::new(alloc),
        }
    }

    /// Makes room for the links of these AVPs' rules.
    pub(crate) fn reserve(&mut self, avps: &[AvpDef]) -> Result<(), NoMemory>
        ensures { self.new ≡ self.old }
    {
        self.kept
            .reserve(count_rules_with_entries(avps).saturating_add(1))?;
        self.places.reserve(avps.len())?;
        Ok(())
    }

    /// Adds the links of a rule without entries behind the others.
    fn push_empty_links(&mut self, alloc: Global) -> Result<(), NoMemory>
        ensures { OnOk result (self.new ≡ self.old ++ no_links ∷ []) }
    {
        keep_empty_links_once(alloc, &mut self.kept)?;
        self.places.push(0)?;
        Ok(())
    }

    /// Adds links behind the others.
    fn push_links(&mut self, alloc: Global, links: Links) -> Result<(), NoMemory>
        ensures { OnOk result (self.new ≡ self.old ++ links ∷ []) }
    {
        keep_empty_links_once(alloc, &mut self.kept)?;
        self.kept.push(links)?;
        self.places.push(self.kept.len() - 1)?;
        Ok(())
    }

    /// Adds the links of one more rule behind the others.
    pub(crate) fn push_links_of_rule(
        &mut self,
        alloc: Global,
        tables: &Tables,
        guesses: &NameGuesses,
        rule: &Rule,
    ) -> Result<(), NoMemory>
        requires tables { IsTables tables.now }
        requires guesses { AreGuessed tables.now.avps.items guesses.now.places.items }
        ensures { OnOk result (self.new ≡ self.old ++ rule_links tables.now.avps.items rule.now ∷ []) }
    {
        if rule.as_slice().is_empty() {
            self.push_empty_links(alloc)
        } else {
            let links = Links::of_rule(alloc, tables, guesses, rule)?;
            self.push_links(alloc, links)
        }
    }

    /// The links of the rule at the place.
    #[inline(always)]
    pub(crate) fn links_at(&self, place: usize) -> &Links
        requires { place < length self.now }
        ensures { Some result.now ≡ slice_get self.now place }
    {
        &self.kept[self.places[place]]
    }
}
