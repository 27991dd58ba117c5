//! The lines of happenings, read.
ghost use Rattle.std.specs.Prelude.{◌≡◌, ◌≢◌, IfOk, IfSome, IfNone, MatchOption};
ghost use Rattle.dm_text.specs.Words.{words};
ghost use Rattle.dm_world.specs.declared.happening.Happening.{Happening};
ghost use Rattle.dm_replay.specs.HappeningLines.{verb_of, TellsArguments, TellsHappening};

use crate::arguments::{
    only_link_and_side_left, only_link_and_two_numbers_left, only_link_left,
    only_link_side_and_number_left, only_side_and_cause_left, only_side_and_word_left,
    only_side_left,
};
use crate::verb::{Verb, read_verb};
use dm_machine::Conn;
use dm_text::{Words, read_hex_word};
use dm_wire::Octets;
use dm_world::Happening;
use std::alloc::{AllocError, Global};

/// The happening that a line tells; None where it tells none.
pub fn read_happening(alloc: Global, line: &[u8]) -> Result<Option<Happening>, AllocError>
    ensures { IfOk result (λ read. MatchOption read ((h : Happening) → TellsHappening h line.now → ⊥)
        (λ h. TellsHappening h line.now)) }
{
    let mut left = Words::new(line);
    let Some(word) = left.next() else {
        return Ok(None);
    };
    match read_verb(word) {
        Some(Verb::Submit) => read_submit(alloc, &mut left),
        Some(verb) => Ok(read_happening_of_verb(verb, &mut left)),
        None => Ok(None),
    }
}

/// The happening of a verb and its arguments; None where these are others.
fn read_happening_of_verb(verb: Verb, left: &mut Words<'_>) -> Option<Happening>
    requires { verb ≢ Verb.Submit }
    ensures verb { IfSome result (λ h. verb_of h ≡ verb) }
    ensures told { IfSome result (λ h. TellsArguments h (words left.old)) }
    ensures none { IfNone result ((h : Happening) → verb_of h ≡ verb → TellsArguments h (words left.old) → ⊥) }
{
    match verb {
        Verb::Start => Some(Happening::Start(only_side_left(left)?)),
        Verb::Stop => {
            let (side, cause) = only_side_and_cause_left(left)?;
            Some(Happening::Stop(side, cause))
        }
        Verb::Timeout => Some(Happening::Timeout(only_side_left(left)?)),
        Verb::Tick => Some(Happening::Tick(only_side_left(left)?)),
        Verb::Restart => Some(Happening::Restart(only_side_left(left)?)),
        Verb::Ack => Some(Happening::Ack(Conn(only_link_left(left)?))),
        Verb::Nack => Some(Happening::Nack(Conn(only_link_left(left)?))),
        Verb::Deliver => {
            let (link, side) = only_link_and_side_left(left)?;
            Some(Happening::Deliver(Conn(link), side))
        }
        Verb::Piece => {
            let (link, side, count) = only_link_side_and_number_left(left)?;
            Some(Happening::Piece(Conn(link), side, count))
        }
        Verb::Lose => {
            let (link, to_a, to_b) = only_link_and_two_numbers_left(left)?;
            Some(Happening::Lose(Conn(link), to_a, to_b))
        }
        Verb::Submit => None,
    }
}

/// The Submit of a side and octets in hexadecimal; None where the words tell none.
fn read_submit(alloc: Global, left: &mut Words<'_>) -> Result<Option<Happening>, AllocError>
    ensures verb { IfOk result (λ read. IfSome read (λ h. verb_of h ≡ Verb.Submit)) }
    ensures told { IfOk result (λ read. IfSome read (λ h. TellsArguments h (words left.old))) }
    ensures none { IfOk result (λ read. IfNone read ((h : Happening) → verb_of h ≡ Verb.Submit
        → TellsArguments h (words left.old) → ⊥)) }
{
    let Some((side, word)) = only_side_and_word_left(left) else {
        return Ok(None);
    };
    match read_hex_word(alloc, word)? {
        Some(octets) => Ok(Some(Happening::Submit(side, Octets::from_vec(octets)))),
        None => Ok(None),
    }
}
