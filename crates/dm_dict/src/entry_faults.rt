//! All faults of the numbers of AVPs that the entries of a rule want (RFC 6733, 3.2 and 7.1.5).
ghost use Rattle.std.specs.Prelude.{◌≡◌, List, false, nat_lt, length, flat_map, OnOk, if◌then◌else◌, [], ◌∷◌};
ghost use Rattle.dm_wire.specs.declared.avp.Avp.{Avp};
ghost use Rattle.dm_tables.specs.Tables.{IsTables};
ghost use Rattle.dm_dict.specs.Apart.{IsFit};
ghost use Rattle.dm_dict.specs.Linked.{IsRule};
ghost use Rattle.dm_wire.specs.Borrowed.{Lists};
ghost use Rattle.dm_dict.specs.Codes.{missing_avp};
ghost use Rattle.dm_dict.specs.Faults.{example, excess_faults, entry_faults};
ghost use Rattle.dm_dict.specs.Found.{is_missing_found};
ghost use Rattle.dm_dict.specs.Judgement.{failed_of};
ghost use Rattle.dm_dict.specs.Listing.{Adds};
ghost use Rattle.dm_dict.specs.Rules.{counted_avps};
ghost use Rattle.dm_dict.specs.Tallies.{IsTally, AreTallied};

use crate::codes::{AVP_OCCURS_TOO_MANY_TIMES, MISSING_AVP};
use crate::entries::missing_avp_example;
use crate::fault::Fault;
use crate::judged::Failed;
use crate::linked::LinkedRule;
use crate::tallies::{Tally, tallies_of_rule};
use dm_tables::{Entry, Rule, Tables};
use dm_value::NoMemory;
use dm_wire::AvpsRef;
use std::alloc::Global;

/// Lists a fault of an entry behind the others.
fn push_fault_of_entry<'a>(
    faults: &mut Vec<Fault<'a>>,
    code: u32,
    failed: Failed<'a>,
) -> Result<(), NoMemory>
    requires { is_missing_found code failed ≡ false }
    ensures { OnOk result (Adds faults.old.items faults.new.items
        (record { code = code; failed = failed_of failed.entry } ∷ [])) }
{
    faults.push(Fault { code, failed })?;
    Ok(())
}

/// Lists that the entry, which has this tally, lacks AVPs, where it does.
fn push_lack_fault<'a>(
    tables: &Tables,
    entry: &Entry,
    tally: Tally<'a>,
    faults: &mut Vec<Fault<'a>>,
) -> Result<(), NoMemory>
    requires { IsTables tables.now }
    ensures { OnOk result ((l : List Avp) → IsTally entry.now l [] tally.entry
        → Adds faults.old.items faults.new.items (if nat_lt (length l) entry.now.min then
        record { code = missing_avp; failed = example tables.now.avps.items entry.now } ∷ [] else [])) }
{
    if tally.lack > 0 {
        return push_fault_of_entry(faults, MISSING_AVP, missing_avp_example(tables, entry));
    }
    Ok(())
}

/// Lists the first AVP past the maximum of the entry, which has this tally, where there is one and the maximum isn't 0.
fn push_excess_fault<'a>(
    entry: &Entry,
    tally: Tally<'a>,
    faults: &mut Vec<Fault<'a>>,
) -> Result<(), NoMemory>
    ensures { OnOk result ((l : List Avp) → IsTally entry.now l [] tally.entry
        → Adds faults.old.items faults.new.items (excess_faults entry.now.max l)) }
{
    match tally.excess {
        Some(avp) => {
            if entry.max == Some(0) {
                return Ok(());
            }
            push_fault_of_entry(faults, AVP_OCCURS_TOO_MANY_TIMES, Failed::Found(avp))
        }
        None => Ok(()),
    }
}

/// Lists the faults of the entry, which has this tally.
fn push_entry_faults<'a>(
    tables: &Tables,
    entry: &Entry,
    tally: Tally<'a>,
    faults: &mut Vec<Fault<'a>>,
) -> Result<(), NoMemory>
    requires { IsTables tables.now }
    ensures { OnOk result ((rule : List Entry) (l : List Avp)
        → IsTally entry.now (counted_avps tables.now.avps.items rule l entry.now) [] tally.entry
        → Adds faults.old.items faults.new.items (entry_faults tables.now.avps.items rule l entry.now)) }
{
    push_lack_fault(tables, entry, tally, faults)?;
    push_excess_fault(entry, tally, faults)
}

/// Lists the faults of the entries of the rule, which have these tallies.
fn push_tallied_faults<'a>(
    tables: &Tables,
    rule: &Rule,
    tallies: &[Tally<'a>],
    faults: &mut Vec<Fault<'a>>,
) -> Result<(), NoMemory>
    requires tables { IsTables tables.now }
    requires size { length tallies.now ≡ length rule.now }
    ensures { OnOk result ((l : List Avp) → AreTallied tables.now.avps.items rule.now l [] tallies.now
        → Adds faults.old.items faults.new.items (flat_map (entry_faults tables.now.avps.items rule.now l) rule.now)) }
{
    let entries = rule.as_slice();
    for at in 0..entries.len() {
        push_entry_faults(tables, &entries[at], tallies[at], faults)?;
    }
    Ok(())
}

/// Lists the faults of the entries of the rule.
pub(crate) fn push_faults_of_all_entries<'a>(
    alloc: Global,
    tables: &Tables,
    rule: LinkedRule<'_>,
    list: AvpsRef<'a>,
    faults: &mut Vec<Fault<'a>>,
) -> Result<(), NoMemory>
    requires tables { IsTables tables.now }
    requires fit { IsFit tables.now.avps.items }
    requires rule { IsRule tables.now.avps.items rule }
    ensures { OnOk result ((l : List Avp) → Lists list.entry l
        → Adds faults.old.items faults.new.items
        (flat_map (entry_faults tables.now.avps.items rule.entry.entries.now l) rule.entry.entries.now)) }
{
    let tallies = tallies_of_rule(alloc, tables, rule, list)?;
    let done = push_tallied_faults(tables, rule.entries, tallies.as_slice(), faults);
    drop(tallies);
    done
}
