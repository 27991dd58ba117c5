//! The words behind a happening's verb.
ghost use Rattle.std.specs.Prelude.{◌≡◌, ◌∷◌, [], ℕ, List, IfSome, IfNone};
ghost use Rattle.dm_text.specs.Words.{words};
ghost use Rattle.dm_text.specs.Numbers.{TellsNumber, TellsLongNumber};
ghost use Rattle.dm_base.specs.declared.kind.Cause.{Cause};
ghost use Rattle.dm_world.specs.declared.side.Side.{Side};
ghost use Rattle.dm_base.specs.Built.{cause_number};
ghost use Rattle.dm_replay.specs.HappeningLines.{side_name};

use dm_base::Cause;
use dm_text::Words;
use dm_words::{
    next_long_number, next_number, only_two_numbers_left, only_word_left,
    read_disconnect_cause_by_number,
};
use dm_world::Side;

/// The side that a word names; None where it names none.
pub fn read_side(word: &[u8]) -> Option<Side>
    ensures told { IfSome result (λ side. word.now ≡ side_name side) }
    ensures none { IfNone result ((side : Side) → word.now ≡ side_name side → ⊥) }
{
    match word {
        b"A" => Some(Side::A),
        b"B" => Some(Side::B),
        _ => None,
    }
}

/// The side that the next word names; None where it names none.
pub fn next_side(left: &mut Words<'_>) -> Option<Side>
    ensures told { IfSome result (λ side. words left.old ≡ side_name side ∷ words left.new) }
    ensures none { IfNone result ((side : Side) (more : List (List ℕ)) → words left.old ≡ side_name side ∷ more → ⊥) }
{
    read_side(left.next()?)
}

/// The side that the next word names; None where it names none, or another word follows.
pub fn only_side_left(left: &mut Words<'_>) -> Option<Side>
    ensures told { IfSome result (λ side. words left.old ≡ side_name side ∷ []) }
    ensures none { IfNone result ((side : Side) → words left.old ≡ side_name side ∷ [] → ⊥) }
{
    let side = next_side(left)?;
    if left.next().is_some() {
        return None;
    }
    Some(side)
}

/// The side and the cause that the two words left tell; None where they are others.
pub fn only_side_and_cause_left(left: &mut Words<'_>) -> Option<(Side, Cause)>
    ensures told { IfSome result (λ r. (number : List ℕ) × (words left.old ≡ side_name r.0 ∷ number ∷ [])
        × TellsNumber (cause_number r.1) number) }
    ensures none { IfNone result ((side : Side) (cause : Cause) (number : List ℕ)
        → words left.old ≡ side_name side ∷ number ∷ [] → TellsNumber (cause_number cause) number → ⊥) }
{
    let (side, word) = only_side_and_word_left(left)?;
    let cause = read_disconnect_cause_by_number(word)?;
    Some((side, cause))
}

/// The link that the next word names; None where it names none, or another word follows.
pub fn only_link_left(left: &mut Words<'_>) -> Option<u64>
    ensures told { IfSome result (λ n. (number : List ℕ) × (words left.old ≡ number ∷ []) × TellsLongNumber n number) }
    ensures none { IfNone result ((n : ℕ) (number : List ℕ) → words left.old ≡ number ∷ []
        → TellsLongNumber n number → ⊥) }
{
    let link = next_long_number(left)?;
    if left.next().is_some() {
        return None;
    }
    Some(link)
}

/// The link and the side that the two words left tell; None where they are others.
pub fn only_link_and_side_left(left: &mut Words<'_>) -> Option<(u64, Side)>
    ensures told { IfSome result (λ r. (number : List ℕ) × (words left.old ≡ number ∷ side_name r.1 ∷ [])
        × TellsLongNumber r.0 number) }
    ensures none { IfNone result ((n : ℕ) (side : Side) (number : List ℕ)
        → words left.old ≡ number ∷ side_name side ∷ [] → TellsLongNumber n number → ⊥) }
{
    let link = next_long_number(left)?;
    let side = only_side_left(left)?;
    Some((link, side))
}

/// The side and the number that the two words left tell; None where they are others.
fn only_side_and_number_left(left: &mut Words<'_>) -> Option<(Side, u32)>
    ensures told { IfSome result (λ r. (a : List ℕ) × (words left.old ≡ side_name r.0 ∷ a ∷ []) × TellsNumber r.1 a) }
    ensures none { IfNone result ((side : Side) (n : ℕ) (a : List ℕ) → words left.old ≡ side_name side ∷ a ∷ []
        → TellsNumber n a → ⊥) }
{
    let side = next_side(left)?;
    let number = next_number(left)?;
    if left.next().is_some() {
        return None;
    }
    Some((side, number))
}

/// The link, the side and the number that the three words left tell; None where they are others.
pub fn only_link_side_and_number_left(left: &mut Words<'_>) -> Option<(u64, Side, u32)>
    ensures told { IfSome result (λ r. (number a : List ℕ) × (words left.old ≡ number ∷ side_name r.1 ∷ a ∷ [])
        × TellsLongNumber r.0 number × TellsNumber r.2 a) }
    ensures none { IfNone result ((m : ℕ) (side : Side) (n : ℕ) (number a : List ℕ)
        → words left.old ≡ number ∷ side_name side ∷ a ∷ [] → TellsLongNumber m number → TellsNumber n a → ⊥) }
{
    let link = next_long_number(left)?;
    let (side, number) = only_side_and_number_left(left)?;
    Some((link, side, number))
}

/// The link and the two numbers that the three words left tell; None where they are others.
pub fn only_link_and_two_numbers_left(left: &mut Words<'_>) -> Option<(u64, u32, u32)>
    ensures told { IfSome result (λ r. (number a b : List ℕ) × (words left.old ≡ number ∷ a ∷ b ∷ [])
        × TellsLongNumber r.0 number × TellsNumber r.1 a × TellsNumber r.2 b) }
    ensures none { IfNone result ((m n k : ℕ) (number a b : List ℕ) → words left.old ≡ number ∷ a ∷ b ∷ []
        → TellsLongNumber m number → TellsNumber n a → TellsNumber k b → ⊥) }
{
    let link = next_long_number(left)?;
    let (first, second) = only_two_numbers_left(left)?;
    Some((link, first, second))
}

/// The side that the first of the two words left names, and the second; None where they are others.
pub fn only_side_and_word_left<'a>(left: &mut Words<'a>) -> Option<(Side, &'a [u8])>
    ensures told { IfSome result (λ r. words left.old ≡ side_name r.0 ∷ r.1.now ∷ []) }
    ensures none { IfNone result ((side : Side) (word : List ℕ) → words left.old ≡ side_name side ∷ word ∷ [] → ⊥) }
{
    let side = next_side(left)?;
    let word = only_word_left(left)?;
    Some((side, word))
}
