//! Guesses where the AVP of a name stands (RFC 6733, 3.2).
ghost use Rattle.std.specs.Prelude.{◌≡◌, ◌≤◌, ◌<◌, ◌*◌, ◌++◌, [], ◌∷◌, length, min, slice_index, List, IfOk};
ghost use Rattle.dm_tables.specs.declared.def.AvpDef.{AvpDef};
ghost use Rattle.dm_tables.specs.Guesses.{name_hash, slot_of, kept_place, with_guess, AreGuessed};

use crate::{AvpDef, NoMemory};
use std::alloc::Global;
use std::hash::{FoldHasher, Hasher};

/// Where AVPs of names may stand, by a hash of the name. What is told is a guess, and looked at before it is taken;
/// that no place is told is sure.
#[derive(Debug, Drop)]
pub struct NameGuesses {
    pub places: Vec<u16>,
}

/// No AVP has a name of this slot.
pub(crate) const NO_GUESS: u16 = u16::MAX;

/// The last place that is guessed.
const LAST_GUESS: usize = 65534;

/// The most slots.
const MOST_SLOTS: usize = 65536;

/// A hash of the name, which takes all of its octets at once.
fn hash_of_name(name: &[u8]) -> u64
    ensures { result ≡ name_hash name.now }
{
    let mut hasher = FoldHasher::default();
    hasher.write(name);
    hasher.finish()
}

/// The guess of a slot once the AVP at the place is noted in it: a guess that it had stays.
fn guess_keeping_first(guess: u16, place: usize) -> u16
    ensures { result ≡ kept_place guess place }
{
    if guess == NO_GUESS {
        place.min(LAST_GUESS) as u16
    } else {
        guess
    }
}

/// How many slots the names of so many AVPs have: eight or more for each, so that few share one, as far as the AVPs are
/// few; none for none, which takes no memory.
fn slot_count(avps: usize) -> usize
    ensures enough { min (8 * avps) 65536 ≤ result }
    ensures few { result < 131072 }
{
    if avps == 0 {
        0
    } else {
        avps.saturating_mul(8).min(MOST_SLOTS).next_power_of_two()
    }
}

impl NameGuesses {
    /// The guesses of no AVPs, for so many, or want of memory.
    pub fn empty_for(alloc: Global, avps: usize) -> Result<NameGuesses, NoMemory>
        ensures { IfOk result (λ guesses. AreGuessed [] guesses.places.items) }
    {
        let places = vec![in alloc; NO_GUESS; slot_count(avps)]?;
        Ok(NameGuesses { places })
    }

    /// The guesses of these AVPs, or want of memory.
    pub fn of_avps(alloc: Global, avps: &[AvpDef]) -> Result<NameGuesses, NoMemory>
        ensures { IfOk result (λ guesses. AreGuessed avps.now guesses.places.items) }
    {
        let mut guesses = NameGuesses::empty_for(alloc, avps.len())?;
        guesses.note_names_of_all(avps);
        Ok(guesses)
    }

    /// Notes the names of the AVPs, where none is noted.
    pub fn note_names_of_all(&mut self, avps: &[AvpDef])
        requires { AreGuessed [] self.old.places.items }
        ensures { AreGuessed avps.now self.new.places.items }
    {
        for (place, avp) in avps.iter().enumerate() {
            self.note_name(avp.name.as_slice(), place);
        }
    }

    /// The slot of a name.
    fn slot_of_name(&self, name: &[u8]) -> usize
        ensures { result ≡ slot_of (length self.now.places.items) name.now }
    {
        hash_of_name(name) as usize & self.places.len().saturating_sub(1)
    }

    /// Notes the name of the AVP at the place, behind the others.
    pub fn note_name(&mut self, name: &[u8], place: usize)
        ensures noted { self.new.places.items ≡ with_guess self.old.places.items name.now place }
        // The guesses of some AVPs become those of one more.
        ensures guessed { (avps : List AvpDef) (avp : AvpDef) → avp.name ≡ name.now
            → AreGuessed avps self.old.places.items → AreGuessed (avps ++ avp ∷ []) self.new.places.items }
    {
        let slot = self.slot_of_name(name);
        if slot < self.places.len() {
            self.places[slot] = guess_keeping_first(self.places[slot], place);
        }
    }

    /// The place that is guessed for a name, to be looked at before it is taken; `NO_GUESS` where no AVP has a name of
    /// its slot.
    pub(crate) fn guess_place_or_surely_none(&self, name: &[u8]) -> u16
        ensures { result ≡ slice_index self.now.places.items (slot_of (length self.now.places.items) name.now) }
    {
        self.places
            .get(self.slot_of_name(name))
            .copied()
            .unwrap_or(0)
    }
}
