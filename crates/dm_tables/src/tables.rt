//! The tables of a dictionary: its definitions in order, and an index for each key.
ghost use Rattle.std.specs.Prelude.{◌≡◌, ◌++◌, OnOk, IfSome, Some, true, map, nat_eq, slice_get, find};
ghost use Rattle.std.specs.List.{list_any, position_from};
ghost use Rattle.std.specs.Option.{option_copied, option_and_then};
ghost use Rattle.std.specs.Cmp.Lexicographic.{pointwise};
ghost use Rattle.indexmap.specs.IndexMap.{insert_entry};
ghost use Rattle.dm_tables.specs.Definitions.{is_named, is_coded, is_titled, is_headed};
ghost use Rattle.dm_tables.specs.Definitions.{with_vendor, with_avp, with_command};
ghost use Rattle.dm_tables.specs.Sound.{each_after, is_sound_vendor, is_sound_avp, is_sound_command};
ghost use Rattle.dm_tables.specs.Guesses.{AreGuessed};

use crate::name_guesses::NO_GUESS;
use crate::vendors::Vendors;
use crate::{AvpDef, CommandDef, NameGuesses, NoMemory, VendorDef};
use indexmap::IndexMap;
use std::alloc::Global;

/// Definitions in order, and where each stands among them by its keys.
#[derive(Debug, Drop)]
pub struct Tables {
    pub vendors: Vendors,
    pub avps: Vec<AvpDef>,
    pub commands: Vec<CommandDef>,
    pub names: IndexMap<Vec<u8>, usize>,
    pub codes: IndexMap<(u32, Option<u32>), usize>,
    pub titles: IndexMap<Vec<u8>, usize>,
    pub heads: IndexMap<(u32, bool, bool), usize>,
    /// Where an AVP of a code may stand, by the lowest bits of the code. It is a guess, and looked at before it is
    /// taken.
    pub guesses: [u16; 512],
}

/// Puts the place of a definition under its name, in the stead of an earlier one.
pub fn set_place_of_name(
    alloc: Global,
    names: &mut IndexMap<Vec<u8>, usize>,
    name: &[u8],
    place: usize,
) -> Result<(), NoMemory>
    ensures { OnOk result (map (λ e. (e.0.items, e.1)) names.new.entries
        ≡ insert_entry (pointwise nat_eq) (map (λ e. (e.0.items, e.1)) names.old.entries) name.now place) }
{
    let key = Vec::from_slice(alloc, name)?;
    names.insert(key, place)?;
    Ok(())
}

/// The member at a place, where there is one.
pub fn member_at<T>(members: &[T], place: Option<usize>) -> Option<&T>
    ensures { option_copied result ≡ option_and_then (slice_get members.now) place }
{
    match place {
        Some(place) if place < members.len() => Some(&members[place]),
        _ => None,
    }
}

impl Tables {
    ghost use Rattle.dm_tables.specs.Tables.{defined, guess_at, guessed, IsIndexed, IsTables};
    ghost use Rattle.dm_tables.specs.Definitions.{nothing_defined};

    /// No definitions. It never answers want of memory.
    pub fn empty(alloc: Global) -> Tables
        ensures empty { defined result ≡ nothing_defined }
        ensures indexed { IsTables result }
    {
        Tables {
            vendors: Vendors::empty(alloc),
            avps: Vec::new(alloc),
            commands: Vec::new(alloc),
            names: IndexMap::new(alloc),
            codes: IndexMap::new(alloc),
            titles: IndexMap::new(alloc),
            heads: IndexMap::new(alloc),
            guesses: [u16::MAX; 512],
        }
    }

    /// Makes room for so many AVPs and commands more, so that none is moved while they are added.
    pub fn reserve(&mut self, avps: usize, commands: usize) -> Result<(), NoMemory>
        ensures same { defined self.new ≡ defined self.old }
        ensures tables { IsTables self.old → IsTables self.new }
    {
        self.avps.reserve(avps)?;
        self.names.reserve(avps)?;
        self.codes.reserve(avps)?;
        self.commands.reserve(commands)?;
        self.titles.reserve(commands)?;
        self.heads.reserve(commands)?;
        Ok(())
    }

    /// Adds a vendor behind the others. After want of memory the tables are of no use.
    pub fn add_vendor(&mut self, alloc: Global, vendor: VendorDef) -> Result<(), NoMemory>
        requires tables { IsTables self.old }
        requires sound { is_sound_vendor self.old.vendors.items.items vendor ≡ true }
        ensures added { OnOk result (defined self.new ≡ with_vendor (defined self.old) vendor) }
        ensures tables { OnOk result (IsTables self.new) }
    {
        self.vendors.add(alloc, vendor)
    }

    /// Adds an AVP behind the others. After want of memory the tables are of no use.
    pub fn add_avp(&mut self, alloc: Global, avp: AvpDef) -> Result<(), NoMemory>
        requires tables { IsTables self.old }
        requires sound { is_sound_avp self.old.avps.items avp ≡ true }
        ensures added { OnOk result (defined self.new ≡ with_avp (defined self.old) avp) }
        ensures tables { OnOk result (IsTables self.new) }
    {
        let place = self.avps.as_slice().len();
        let code = (avp.code, avp.vendor);
        let noted = set_place_of_name(alloc, &mut self.names, avp.name.as_slice(), place);
        self.guesses[(avp.code % 512) as usize] = u16::try_from(place).unwrap_or(u16::MAX);
        self.avps.push(avp)?;
        self.codes.insert(code, place)?;
        noted
    }

    /// Adds a command behind the others. After want of memory the tables are of no use.
    pub fn add_command(&mut self, alloc: Global, command: CommandDef) -> Result<(), NoMemory>
        requires tables { IsTables self.old }
        requires sound { is_sound_command self.old.commands.items command ≡ true }
        ensures added { OnOk result (defined self.new ≡ with_command (defined self.old) command) }
        ensures tables { OnOk result (IsTables self.new) }
    {
        let place = self.commands.as_slice().len();
        let head = (command.code, command.request, command.err);
        let noted = set_place_of_name(alloc, &mut self.titles, command.name.as_slice(), place);
        self.commands.push(command)?;
        self.heads.insert(head, place)?;
        noted
    }

    /// Adds copies of the vendors behind the others.
    fn add_vendor_copies(&mut self, alloc: Global, vendors: &[VendorDef]) -> Result<(), NoMemory>
        requires tables { IsTables self.old }
        requires sound { each_after is_sound_vendor self.old.vendors.items.items vendors.now ≡ true }
        ensures vendors { OnOk result (self.new.vendors.items.items ≡ self.old.vendors.items.items ++ vendors.now) }
        ensures avps { OnOk result (self.new.avps.items ≡ self.old.avps.items) }
        ensures commands { OnOk result (self.new.commands.items ≡ self.old.commands.items) }
        ensures tables { OnOk result (IsTables self.new) }
    {
        for vendor in vendors {
            self.add_vendor(alloc, vendor.clone()?)?;
        }
        Ok(())
    }

    /// Adds copies of the AVPs behind the others.
    fn add_avp_copies(&mut self, alloc: Global, avps: &[AvpDef]) -> Result<(), NoMemory>
        requires tables { IsTables self.old }
        requires sound { each_after is_sound_avp self.old.avps.items avps.now ≡ true }
        ensures vendors { OnOk result (self.new.vendors.items.items ≡ self.old.vendors.items.items) }
        ensures avps { OnOk result (self.new.avps.items ≡ self.old.avps.items ++ avps.now) }
        ensures commands { OnOk result (self.new.commands.items ≡ self.old.commands.items) }
        ensures tables { OnOk result (IsTables self.new) }
    {
        for avp in avps {
            self.add_avp(alloc, avp.clone()?)?;
        }
        Ok(())
    }

    /// Adds copies of the commands behind the others.
    fn add_command_copies(&mut self, alloc: Global, commands: &[CommandDef]) -> Result<(), NoMemory>
        requires tables { IsTables self.old }
        requires sound { each_after is_sound_command self.old.commands.items commands.now ≡ true }
        ensures vendors { OnOk result (self.new.vendors.items.items ≡ self.old.vendors.items.items) }
        ensures avps { OnOk result (self.new.avps.items ≡ self.old.avps.items) }
        ensures commands { OnOk result (self.new.commands.items ≡ self.old.commands.items ++ commands.now) }
        ensures tables { OnOk result (IsTables self.new) }
    {
        for command in commands {
            self.add_command(alloc, command.clone()?)?;
        }
        Ok(())
    }

    /// Adds copies of all definitions of the other tables, where these have none. After want of memory the tables are
    /// of no use.
    pub fn fill_with_copies_of(&mut self, alloc: Global, other: &Tables) -> Result<(), NoMemory>
        requires tables { IsTables self.old }
        requires empty { defined self.old ≡ nothing_defined }
        requires other { IsTables other.now }
        ensures copy { OnOk result (defined self.new ≡ defined other.now) }
        ensures tables { OnOk result (IsTables self.new) }
    {
        self.add_vendor_copies(alloc, other.vendors.items.as_slice())?;
        self.add_avp_copies(alloc, other.avps.as_slice())?;
        self.add_command_copies(alloc, other.commands.as_slice())
    }

    /// The place of the AVP of a name.
    pub fn avp_place_by_name(&self, name: &[u8]) -> Option<usize>
        requires { IsIndexed self.now }
        ensures { result ≡ position_from (is_named name.now) 0 self.now.avps.items }
    {
        self.names.get(name).copied()
    }

    /// The place of the AVP of a name, as `avp_place_by_name` tells it.
    // (A function of its own in the machine's code too: it is seldom called.)
    #[inline(never)]
    fn avp_place_by_name_outlined(&self, name: &[u8]) -> Option<usize>
        requires { IsIndexed self.now }
        ensures { result ≡ position_from (is_named name.now) 0 self.now.avps.items }
    {
        self.avp_place_by_name(name)
    }

    /// The place that is guessed, where the AVP that stands there has the name; else None, which doesn't tell that no
    /// AVP has it.
    fn avp_place_if_name_matches(&self, guess: u16, name: &[u8]) -> Option<usize>
        requires { IsTables self.now }
        ensures { IfSome result (λ place.
            position_from (is_named name.now) 0 self.now.avps.items ≡ Some place) }
    {
        let avps = self.avps.as_slice();
        let place = usize::from(guess);
        if place < avps.len() && name == avps[place].name.as_slice() {
            Some(place)
        } else {
            None
        }
    }

    /// The place of the AVP of a name, by guesses that are these AVPs'. It is that of `avp_place_by_name`, and mostly
    /// known without the index.
    pub fn avp_place_by_own_name_guesses(&self, guesses: &NameGuesses, name: &[u8]) -> Option<usize>
        requires tables { IsTables self.now }
        requires guesses { AreGuessed self.now.avps.items guesses.now.places.items }
        ensures { result ≡ position_from (is_named name.now) 0 self.now.avps.items }
    {
        let guess = guesses.guess_place_or_surely_none(name);
        if guess == NO_GUESS {
            return None;
        }
        match self.avp_place_if_name_matches(guess, name) {
            Some(place) => Some(place),
            None => self.avp_place_by_name_outlined(name),
        }
    }

    /// The place of the AVP of a code and vendor, by their index.
    fn indexed_avp_place_by_code(&self, code: u32, vendor: Option<u32>) -> Option<usize>
        requires { IsIndexed self.now }
        ensures { result ≡ position_from (is_coded code vendor) 0 self.now.avps.items }
    {
        self.codes.get(&(code, vendor)).copied()
    }

    /// The place of the AVP of a code and vendor, where it stands as guessed. None doesn't tell that there is no such
    /// AVP.
    fn avp_place_by_code_if_guessed(&self, code: u32, vendor: Option<u32>) -> Option<usize>
        requires { IsTables self.now }
        ensures value { result ≡ guessed self.now code vendor }
        ensures found { IfSome result (λ place.
            position_from (is_coded code vendor) 0 self.now.avps.items ≡ Some place) }
    {
        let place = usize::from(self.guesses[(code % 512) as usize]);
        self.avp_place_if_code_matches(place, code, vendor)
    }

    /// The place, where the AVP that stands there has the code and vendor; else None.
    #[inline(always)]
    pub fn avp_place_if_code_matches(
        &self,
        place: usize,
        code: u32,
        vendor: Option<u32>,
    ) -> Option<usize>
        requires { IsTables self.now }
        ensures value { result ≡ guess_at code vendor place (slice_get self.now.avps.items place) }
        // It is where they are found.
        ensures found { IfSome result (λ place.
            position_from (is_coded code vendor) 0 self.now.avps.items ≡ Some place) }
    {
        let avps = self.avps.as_slice();
        if place >= avps.len() {
            return None;
        }
        let avp = &avps[place];
        if code == avp.code && vendor == avp.vendor {
            Some(place)
        } else {
            None
        }
    }

    /// The place of the AVP of a code and vendor.
    pub fn avp_place_by_code(&self, code: u32, vendor: Option<u32>) -> Option<usize>
        requires { IsTables self.now }
        ensures { result ≡ position_from (is_coded code vendor) 0 self.now.avps.items }
    {
        match self.avp_place_by_code_if_guessed(code, vendor) {
            Some(place) => Some(place),
            None => self.indexed_avp_place_by_code(code, vendor),
        }
    }

    /// The place of the command of a code with REQ and ERR.
    pub fn command_place(&self, code: u32, request: bool, err: bool) -> Option<usize>
        requires { IsIndexed self.now }
        ensures { result ≡ position_from (is_headed code request err) 0 self.now.commands.items }
    {
        self.heads.get(&(code, request, err)).copied()
    }

    /// The AVP of a name.
    pub fn avp_by_name(&self, name: &[u8]) -> Option<&AvpDef>
        requires { IsIndexed self.now }
        ensures { option_copied result ≡ find (is_named name.now) self.now.avps.items }
    {
        member_at(self.avps.as_slice(), self.avp_place_by_name(name))
    }

    /// The AVP of a code and vendor.
    pub fn avp_by_code(&self, code: u32, vendor: Option<u32>) -> Option<&AvpDef>
        requires { IsTables self.now }
        ensures { option_copied result ≡ find (is_coded code vendor) self.now.avps.items }
    {
        member_at(self.avps.as_slice(), self.avp_place_by_code(code, vendor))
    }

    /// The command of a name.
    pub fn command_by_name(&self, name: &[u8]) -> Option<&CommandDef>
        requires { IsIndexed self.now }
        ensures { option_copied result ≡ find (is_titled name.now) self.now.commands.items }
    {
        let place = self.titles.get(name).copied();
        member_at(self.commands.as_slice(), place)
    }

    /// The command of a code with REQ and ERR.
    pub fn command_by_code(&self, code: u32, request: bool, err: bool) -> Option<&CommandDef>
        requires { IsIndexed self.now }
        ensures { option_copied result ≡ find (is_headed code request err) self.now.commands.items }
    {
        member_at(
            self.commands.as_slice(),
            self.command_place(code, request, err),
        )
    }

    /// Whether there is an AVP of the name.
    pub fn has_avp_named(&self, name: &[u8]) -> bool
        requires { IsIndexed self.now }
        ensures { result ≡ list_any (is_named name.now) self.now.avps.items }
    {
        self.avp_by_name(name).is_some()
    }

    /// Whether there is an AVP of the name, by guesses that are these AVPs'.
    pub fn has_avp_by_own_name_guesses(&self, guesses: &NameGuesses, name: &[u8]) -> bool
        requires tables { IsTables self.now }
        requires guesses { AreGuessed self.now.avps.items guesses.now.places.items }
        ensures { result ≡ list_any (is_named name.now) self.now.avps.items }
    {
        self.avp_place_by_own_name_guesses(guesses, name).is_some()
    }

    /// Whether there is an AVP of the code and vendor.
    pub fn has_avp_of_code(&self, code: u32, vendor: Option<u32>) -> bool
        requires { IsIndexed self.now }
        ensures { result ≡ list_any (is_coded code vendor) self.now.avps.items }
    {
        self.indexed_avp_place_by_code(code, vendor).is_some()
    }

    /// Whether there is a command of the name.
    pub fn has_command_named(&self, name: &[u8]) -> bool
        requires { IsIndexed self.now }
        ensures { result ≡ list_any (is_titled name.now) self.now.commands.items }
    {
        self.command_by_name(name).is_some()
    }

    /// Whether there is a command of the code with REQ and ERR.
    pub fn has_command_of_code(&self, code: u32, request: bool, err: bool) -> bool
        requires { IsIndexed self.now }
        ensures { result ≡ list_any (is_headed code request err) self.now.commands.items }
    {
        self.command_by_code(code, request, err).is_some()
    }
}
