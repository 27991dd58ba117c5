//! Tables with the links of their rules, so that an AVP's place under a rule is found by its code (RFC 6733, 3.2
//! and 4.1).
ghost use Rattle.std.specs.Prelude.{◌≡◌, ◌<◌, ◌++◌, ◌%◌, [], ℕ, true, nat_eq, Option, None, Some, find, length};
ghost use Rattle.std.specs.Prelude.{option_map, slice_get, slice_index, IfOk, IfSome, OnOk};
ghost use Rattle.std.specs.List.{position_from};
ghost use Rattle.std.specs.Option.{option_and_then, option_copied};
ghost use Rattle.dm_tables.specs.declared.def.AvpDef.{AvpDef};
ghost use Rattle.dm_tables.specs.Definitions.{nothing_defined, is_coded, is_headed};
ghost use Rattle.dm_tables.specs.Guesses.{AreGuessed};
ghost use Rattle.dm_tables.specs.Tables.{defined, IsTables, IsDictionary};
ghost use Rattle.dm_dict.specs.Links.{rule_links};
ghost use Rattle.dm_dict.specs.Marks.{AreMarked};
ghost use Rattle.dm_dict.specs.Linked.{IsLinked, avp_links, command_links};

use crate::command_guesses::{command_slot, guesses_of_commands, is_command_of_code};
use crate::links::Links;
use crate::marks::code_marks;
use crate::rule_links::RuleLinks;
use dm_tables::{AvpDef, CommandDef, NameGuesses, Rule, Tables};
use dm_value::NoMemory;
use std::alloc::Global;
use std::fmt::{self, Debug, Formatter, Write};

/// Tables, the links of each AVP's rule and of each command's, in the same order, and the marks of the AVPs' codes.
#[derive(Drop)]
pub(crate) struct Linked {
    pub(crate) tables: Tables,
    pub(crate) avps: RuleLinks,
    pub(crate) commands: Vec<Links>,
    pub(crate) marks: [u16; 512],
    /// Where commands may stand, by their codes.
    heads: [u16; 64],
}

/// Marks, shown as 1 where there is one.
#[derive(Clone, Copy)]
struct MarksShown<'a>(&'a [u16]);

impl Debug for MarksShown<'_> {
    fn fmt<W: Write>(&self, f: &mut Formatter<W>) -> fmt::Result {
        let mut list = f.debug_list();
        for mark in self.0 {
            let _ = list.entry(&u8::from(*mark != 0));
        }
        list.finish()
    }
}

impl Debug for Linked {
    /// The tables, the links, and which lowest bits of codes are marked.
    fn fmt<W: Write>(&self, f: &mut Formatter<W>) -> fmt::Result {
        f.debug_struct("Linked")
            .field("tables", &self.tables)
            .field("avps", &self.avps)
            .field("commands", &self.commands)
            .field("marks", &MarksShown(&self.marks))
            .finish()
    }
}

/// A rule with its links.
#[derive(Clone, Copy)]
pub(crate) struct LinkedRule<'d> {
    pub(crate) entries: &'d Rule,
    pub(crate) links: &'d Links,
}

/// The definition of an AVP with the links of its rule.
#[derive(Clone, Copy)]
pub(crate) struct LinkedAvp<'d> {
    pub(crate) def: &'d AvpDef,
    pub(crate) links: &'d Links,
}

/// The definition of a command with the links of its rule.
#[derive(Clone, Copy)]
pub(crate) struct LinkedCommand<'d> {
    pub(crate) def: &'d CommandDef,
    pub(crate) links: &'d Links,
}

/// Adds the links of each AVP's rule behind the others.
fn link_avps(
    alloc: Global,
    tables: &Tables,
    guesses: &NameGuesses,
    links: &mut RuleLinks,
) -> Result<(), NoMemory>
    requires tables { IsTables tables.now }
    requires guesses { AreGuessed tables.now.avps.items guesses.now.places.items }
    ensures { OnOk result (links.new ≡ links.old ++ avp_links (defined tables.now)) }
{
    links.reserve(tables.avps.as_slice())?;
    for def in tables.avps.as_slice() {
        links.push_links_of_rule(alloc, tables, guesses, &def.rule)?;
    }
    Ok(())
}

/// Adds the links of each command's rule behind the others.
fn link_commands(
    alloc: Global,
    tables: &Tables,
    guesses: &NameGuesses,
    links: &mut Vec<Links>,
) -> Result<(), NoMemory>
    requires tables { IsTables tables.now }
    requires guesses { AreGuessed tables.now.avps.items guesses.now.places.items }
    ensures { OnOk result (links.new.items ≡ links.old.items ++ command_links (defined tables.now)) }
{
    links.reserve(tables.commands.as_slice().len())?;
    for def in tables.commands.as_slice() {
        links.push(Links::of_rule(alloc, tables, guesses, &def.rule)?)?;
    }
    Ok(())
}

impl Linked {
    /// No definitions. It never answers want of memory.
    pub(crate) fn empty(alloc: Global) -> Linked
        ensures empty { defined result.tables ≡ nothing_defined }
        ensures linked { IsLinked result }
    {
        Linked {
            tables: Tables::empty(alloc),
            avps: RuleLinks::empty(alloc),
            commands: Vec::new(alloc),
            marks: [0; 512],
            heads: guesses_of_commands(&[]),
        }
    }

    /// The tables with their links, or want of memory for the links.
    pub(crate) fn new(alloc: Global, tables: Tables) -> Result<Linked, NoMemory>
        requires { IsDictionary tables }
        ensures same { IfOk result (λ linked. linked.tables ≡ tables) }
        ensures linked { IfOk result IsLinked }
    {
        let marks = code_marks(tables.avps.as_slice());
        let heads = guesses_of_commands(tables.commands.as_slice());
        let mut linked = Linked {
            tables,
            avps: RuleLinks::empty(alloc),
            commands: Vec::new(alloc),
            marks,
            heads,
        };
        let done = linked.link_rules(alloc);
        done.and(Ok(linked))
    }

    /// Links the tables, where there are no links.
    fn link_rules(&mut self, alloc: Global) -> Result<(), NoMemory>
        requires dictionary { IsDictionary self.old.tables }
        requires avps { self.old.avps ≡ [] }
        requires commands { self.old.commands.items ≡ [] }
        requires marks { AreMarked self.old.tables.avps.items self.old.marks }
        ensures same { OnOk result (self.new.tables ≡ self.old.tables) }
        ensures linked { OnOk result (IsLinked self.new) }
    {
        let guesses = NameGuesses::of_avps(alloc, self.tables.avps.as_slice())?;
        let done = self.link_rules_with_guesses(alloc, &guesses);
        drop(guesses);
        done
    }

    /// Links the tables, where there are no links, by these guesses of where names are defined.
    fn link_rules_with_guesses(
        &mut self,
        alloc: Global,
        guesses: &NameGuesses,
    ) -> Result<(), NoMemory>
        requires dictionary { IsDictionary self.old.tables }
        requires guesses { AreGuessed self.old.tables.avps.items guesses.now.places.items }
        requires avps { self.old.avps ≡ [] }
        requires commands { self.old.commands.items ≡ [] }
        requires marks { AreMarked self.old.tables.avps.items self.old.marks }
        ensures same { OnOk result (self.new.tables ≡ self.old.tables) }
        ensures linked { OnOk result (IsLinked self.new) }
    {
        link_avps(alloc, &self.tables, guesses, &mut self.avps)?;
        link_commands(alloc, &self.tables, guesses, &mut self.commands)
    }

    /// Whether no definition's code has the lowest bits of this one, so that it has no definition.
    #[inline(always)]
    pub(crate) fn is_code_unmarked(&self, code: u32) -> bool
        requires { IsLinked self.now }
        ensures mark { result ≡ nat_eq (slice_index self.now.marks (code % 512)) 0 }
        ensures none { result ≡ true → (vendor : Option ℕ)
            → None ≡ position_from (is_coded code vendor) 0 self.now.tables.avps.items }
    {
        self.marks[(code % 512) as usize] == 0
    }

    /// The place of the AVP of a code and vendor. Where no definition's code has its lowest bits, or the first one that
    /// has them is it, it is known at once.
    #[inline(always)]
    pub(crate) fn avp_place_by_code(&self, code: u32, vendor: Option<u32>) -> Option<usize>
        requires { IsLinked self.now }
        ensures { result ≡ position_from (is_coded code vendor) 0 self.now.tables.avps.items }
    {
        if self.is_code_unmarked(code) {
            return None;
        }
        let first = usize::from(self.marks[(code % 512) as usize]) - 1;
        match self.tables.avp_place_if_code_matches(first, code, vendor) {
            Some(place) => Some(place),
            None => self.tables.avp_place_by_code(code, vendor),
        }
    }

    /// The AVP of a code and vendor.
    pub(crate) fn avp_by_code(&self, code: u32, vendor: Option<u32>) -> Option<&AvpDef>
        requires { IsLinked self.now }
        ensures { option_copied result ≡ find (is_coded code vendor) self.now.tables.avps.items }
    {
        self.avp_def_at_optional_place(self.avp_place_by_code(code, vendor))
    }

    /// The AVP at the place, where there is one.
    fn avp_def_at_optional_place(&self, place: Option<usize>) -> Option<&AvpDef>
        ensures { option_copied result ≡ option_and_then (slice_get self.now.tables.avps.items) place }
    {
        match place {
            Some(place) if place < self.tables.avps.as_slice().len() => {
                Some(&self.tables.avps.as_slice()[place])
            }
            _ => None,
        }
    }

    /// The definition of the AVP at the place.
    #[inline(always)]
    pub(crate) fn avp_def_at(&self, place: usize) -> &AvpDef
        requires { place < length self.now.tables.avps.items }
        ensures { Some result.now ≡ slice_get self.now.tables.avps.items place }
    {
        &self.tables.avps.as_slice()[place]
    }

    /// The links of the rule of the AVP at the place.
    #[inline(always)]
    pub(crate) fn avp_links_at(&self, place: usize) -> &Links
        requires linked { IsLinked self.now }
        requires within { place < length self.now.tables.avps.items }
        ensures { (def : AvpDef) → Some def ≡ slice_get self.now.tables.avps.items place
            → result.now ≡ rule_links self.now.tables.avps.items def.rule }
    {
        self.avps.links_at(place)
    }

    /// The definition of an AVP at the place, with the links of its rule.
    pub(crate) fn linked_avp_at(&self, place: Option<usize>) -> Option<LinkedAvp<'_>>
        requires { IsLinked self.now }
        ensures def { option_map (λ avp. avp.def.now) result
            ≡ option_and_then (slice_get self.now.tables.avps.items) place }
        ensures links { IfSome result (λ avp. avp.links.now
            ≡ rule_links self.now.tables.avps.items avp.def.now.rule) }
    {
        match place {
            Some(place) if place < self.tables.avps.as_slice().len() => Some(LinkedAvp {
                def: &self.tables.avps.as_slice()[place],
                links: self.avps.links_at(place),
            }),
            _ => None,
        }
    }

    /// True only where the command at the place is the first that has the code with REQ and ERR. Where there is none at
    /// the place the answer is no.
    #[inline(always)]
    fn has_command_at(&self, place: usize, code: u32, request: bool, err: bool) -> bool
        requires { IsLinked self.now }
        ensures { result ≡ true
            → Some place ≡ position_from (is_headed code request err) 0 self.now.tables.commands.items }
    {
        let commands = self.tables.commands.as_slice();
        if place >= commands.len() {
            return false;
        }
        is_command_of_code(&commands[place], code, request, err)
    }

    /// The place of the command of a code with REQ and ERR. Where it is the one that is guessed it's known at once.
    #[inline(always)]
    fn command_place(&self, code: u32, request: bool, err: bool) -> Option<usize>
        requires { IsLinked self.now }
        ensures { result ≡ position_from (is_headed code request err) 0 self.now.tables.commands.items }
    {
        let place = usize::from(self.heads[command_slot(code, request)]);
        if self.has_command_at(place, code, request, err) {
            Some(place)
        } else {
            self.tables.command_place(code, request, err)
        }
    }

    /// The command of a code with REQ and ERR, with the links of its rule.
    pub(crate) fn linked_command(
        &self,
        code: u32,
        request: bool,
        err: bool,
    ) -> Option<LinkedCommand<'_>>
        requires { IsLinked self.now }
        ensures def { option_map (λ command. command.def.now) result
            ≡ find (is_headed code request err) self.now.tables.commands.items }
        ensures links { IfSome result (λ command. command.links.now
            ≡ rule_links self.now.tables.avps.items command.def.now.rule) }
    {
        self.linked_command_at(self.command_place(code, request, err))
    }

    /// The definition of a command at the place, with the links of its rule.
    fn linked_command_at(&self, place: Option<usize>) -> Option<LinkedCommand<'_>>
        requires { IsLinked self.now }
        ensures def { option_map (λ command. command.def.now) result
            ≡ option_and_then (slice_get self.now.tables.commands.items) place }
        ensures links { IfSome result (λ command. command.links.now
            ≡ rule_links self.now.tables.avps.items command.def.now.rule) }
    {
        match place {
            Some(place) if place < self.commands.len() => Some(LinkedCommand {
                def: &self.tables.commands.as_slice()[place],
                links: &self.commands[place],
            }),
            _ => None,
        }
    }
}
