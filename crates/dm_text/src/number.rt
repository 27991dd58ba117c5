//! The numbers that words tell.
ghost use Rattle.std.specs.Prelude.{◌≤◌, ℕ, IfSome, IfNone};
ghost use Rattle.dm_text.specs.Numbers.{TellsUpTo, TellsNumber, TellsLongNumber};

/// The number that a word tells: decimal digits alone, at most 4294967295. None for any other word.
pub fn read_number(word: &[u8]) -> Option<u32>
    ensures told { IfSome result (λ n. TellsNumber n word.now) }
    ensures none { IfNone result ((n : ℕ) → TellsNumber n word.now → ⊥) }
{
    match read_number_up_to(word, u64::from(u32::MAX)) {
        Some(number) => Some(number as u32),
        None => None,
    }
}

/// The number that a word tells: decimal digits alone, at most 18446744073709551615. None for any other word.
pub fn read_long_number(word: &[u8]) -> Option<u64>
    ensures told { IfSome result (λ n. TellsLongNumber n word.now) }
    ensures none { IfNone result ((n : ℕ) → TellsLongNumber n word.now → ⊥) }
{
    read_number_up_to(word, u64::MAX)
}

/// The number that a word tells, decimal digits alone, where it is at most this one; else None.
fn read_number_up_to(word: &[u8], most: u64) -> Option<u64>
    requires { 9 ≤ most }
    ensures told { IfSome result (λ n. TellsUpTo most n word.now) }
    ensures none { IfNone result ((n : ℕ) → TellsUpTo most n word.now → ⊥) }
{
    if word.is_empty() {
        return None;
    }
    let mut number: u64 = 0;
    for octet in word {
        if !octet.is_ascii_digit() {
            return None;
        }
        let digit = u64::from(*octet - b'0');
        if number > (most - digit) / 10 {
            return None;
        }
        number = number * 10 + digit;
    }
    Some(number)
}
