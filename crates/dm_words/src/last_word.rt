//! The last word of a line.
ghost use Rattle.std.specs.Prelude.{◌≡◌, ◌∷◌, [], ℕ, List, IfSome, IfNone};
ghost use Rattle.dm_text.specs.Words.{words};

use dm_text::Words;

/// The next word, where it is the last one; None where there is none, or another behind it.
pub fn only_word_left<'a>(left: &mut Words<'a>) -> Option<&'a [u8]>
    ensures told { IfSome result (λ word. words left.old ≡ word.now ∷ []) }
    ensures none { IfNone result ((word : List ℕ) → words left.old ≡ word ∷ [] → ⊥) }
{
    let word = left.next()?;
    if left.next().is_some() {
        return None;
    }
    Some(word)
}
