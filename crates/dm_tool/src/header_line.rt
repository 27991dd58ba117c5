//! The first line of a message, read as show prints it, and flags read by their letters.
ghost use Rattle.std.specs.Prelude.{◌≡◌, ◌∷◌, ℕ, Bool, List, IfSome, IfNone};
ghost use Rattle.dm_wire.specs.declared.message.Header.{Header};
ghost use Rattle.dm_tool.specs.Text.{flag_mark, header_marks};
ghost use Rattle.dm_text.specs.Numbers.{TellsNumber};
ghost use Rattle.dm_text.specs.Words.{words};
ghost use Rattle.dm_tool.specs.Messages.{TellsHeader, TellsNames};

use dm_text::{Words, read_number};
use dm_wire::Header;

/// The header that a line tells, as show prints it; None where it tells none.
pub fn read_header_line(line: &[u8]) -> Option<Header>
    ensures told { IfSome result (λ h. TellsHeader h line.now) }
    ensures none { IfNone result ((h : Header) → TellsHeader h line.now → ⊥) }
{
    let mut words = Words::new(line);
    let command = next_named_number(&mut words, b"message")?;
    let flags = read_header_flags(words.next()?)?;
    let names = read_rest_as_header_numbers(&mut words)?;
    Some(Header {
        request: flags.request,
        proxiable: flags.proxiable,
        error: flags.error,
        retransmit: flags.retransmit,
        command,
        application: names.application,
        hop_id: names.hop_id,
        end_id: names.end_id,
    })
}

/// The numbers of a header behind its flags.
#[derive(Drop)]
struct Names {
    application: u32,
    hop_id: u32,
    end_id: u32,
}

/// The numbers that the words left tell, each behind its name; None where they tell others, or more words follow.
fn read_rest_as_header_numbers(left: &mut Words<'_>) -> Option<Names>
    ensures told { IfSome result (λ n. TellsNames n.application n.hop_id n.end_id (words left.old)) }
    ensures none { IfNone result ((a h e : ℕ) → TellsNames a h e (words left.old) → ⊥) }
{
    let application = next_named_number(left, b"app")?;
    let hop_id = next_named_number(left, b"hop")?;
    let end_id = next_named_number(left, b"end")?;
    if left.next().is_some() {
        return None;
    }
    Some(Names {
        application,
        hop_id,
        end_id,
    })
}

/// The number behind this name, where these are the next two words, else None.
fn next_named_number(left: &mut Words<'_>, name: &[u8]) -> Option<u32>
    ensures told { IfSome result (λ n. (digits : List ℕ)
        × (words left.old ≡ name.now ∷ digits ∷ words left.new) × TellsNumber n digits) }
    ensures none { IfNone result ((n : ℕ) (digits : List ℕ) (more : List (List ℕ))
        → words left.old ≡ name.now ∷ digits ∷ more → TellsNumber n digits → ⊥) }
{
    let word = left.next()?;
    if word != name {
        return None;
    }
    read_number(left.next()?)
}

/// The flags of a header.
#[derive(Drop)]
struct Flags {
    request: bool,
    proxiable: bool,
    error: bool,
    retransmit: bool,
}

/// The flags that a word tells, each by its letter or `-` in its place; None where it tells none.
fn read_header_flags(word: &[u8]) -> Option<Flags>
    ensures told { IfSome result (λ f. word.now ≡ header_marks f.request f.proxiable f.error f.retransmit) }
    ensures none { IfNone result ((r p e t : Bool) → word.now ≡ header_marks r p e t → ⊥) }
{
    let [request, proxiable, error, retransmit] = word else {
        return None;
    };
    let (request, proxiable) = read_two_flags(*request, b'R', *proxiable, b'P')?;
    let (error, retransmit) = read_two_flags(*error, b'E', *retransmit, b'T')?;
    Some(Flags {
        request,
        proxiable,
        error,
        retransmit,
    })
}

/// Whether two flags are set: of each its letter stands there, or `-`; None where another octet does.
pub fn read_two_flags(first: u8, letter: u8, second: u8, other: u8) -> Option<(bool, bool)>
    ensures first { IfSome result (λ set. first ≡ flag_mark set.0 letter) }
    ensures second { IfSome result (λ set. second ≡ flag_mark set.1 other) }
    ensures none { IfNone result ((f g : Bool) → first ≡ flag_mark f letter → second ≡ flag_mark g other → ⊥) }
{
    let first = read_flag(first, letter)?;
    let second = read_flag(second, other)?;
    Some((first, second))
}

/// Whether a flag is set: its letter stands there, or `-`; None where another octet does.
pub fn read_flag(octet: u8, letter: u8) -> Option<bool>
    ensures told { IfSome result (λ set. octet ≡ flag_mark set letter) }
    ensures none { IfNone result ((set : Bool) → octet ≡ flag_mark set letter → ⊥) }
{
    if octet == letter {
        Some(true)
    } else if octet == b'-' {
        Some(false)
    } else {
        None
    }
}
