//! Numbers that the next words tell.
ghost use Rattle.std.specs.Prelude.{◌≡◌, ◌∷◌, [], ℕ, List, IfSome, IfNone};
ghost use Rattle.dm_text.specs.Words.{words};
ghost use Rattle.dm_text.specs.Numbers.{TellsNumber, TellsLongNumber};

use crate::last_word::only_word_left;
use dm_text::{Words, read_long_number, read_number};

/// The number of 64 bits that the next word tells; None where there is no word, or it tells none.
pub fn next_long_number(left: &mut Words<'_>) -> Option<u64>
    ensures told { IfSome result (λ n. (number : List ℕ) × (words left.old ≡ number ∷ words left.new)
        × TellsLongNumber n number) }
    ensures none { IfNone result ((n : ℕ) (number : List ℕ) (more : List (List ℕ)) → words left.old ≡ number ∷ more
        → TellsLongNumber n number → ⊥) }
{
    read_long_number(left.next()?)
}

/// The number of 32 bits that the next word tells; None where there is no word, or it tells none.
pub fn next_number(left: &mut Words<'_>) -> Option<u32>
    ensures told { IfSome result (λ n. (number : List ℕ) × (words left.old ≡ number ∷ words left.new)
        × TellsNumber n number) }
    ensures none { IfNone result ((n : ℕ) (number : List ℕ) (more : List (List ℕ)) → words left.old ≡ number ∷ more
        → TellsNumber n number → ⊥) }
{
    read_number(left.next()?)
}

/// The two numbers of 32 bits that the next two words tell, which are the last ones; None where there are fewer words
/// or more, or one tells none.
pub fn only_two_numbers_left(left: &mut Words<'_>) -> Option<(u32, u32)>
    ensures told { IfSome result (λ r. (first second : List ℕ) × (words left.old ≡ first ∷ second ∷ [])
        × TellsNumber r.0 first × TellsNumber r.1 second) }
    ensures none { IfNone result ((n m : ℕ) (first second : List ℕ) → words left.old ≡ first ∷ second ∷ []
        → TellsNumber n first → TellsNumber m second → ⊥) }
{
    let first = next_number(left)?;
    let second = read_number(only_word_left(left)?)?;
    Some((first, second))
}
