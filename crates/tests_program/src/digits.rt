//! Words of digits of each length, with a bad digit at each place.
use dm_text::read_hex_word;
use std::alloc::Global;
use std::process::Abort;

/// The longest word.
const MOST: usize = 100;

/// Octets next to those of digits, and some that differ from a digit in one bit.
const BAD: &[u8] = b"/:@G`g \x00\xb0\xe1";

/// The value of the digit at a place.
fn worth(place: usize) -> usize {
    place % 16 * 7 % 16
}

/// The digit at a place, in either case by turns.
fn digit(place: usize) -> u8 {
    let digits = if place / 16 % 2 == 0 {
        b"0123456789abcdef"
    } else {
        b"0123456789ABCDEF"
    };
    digits[place % 16 * 7 % 16]
}

/// The octet of the digits at twice the place.
fn octet(place: usize) -> u8 {
    let high = worth(place.saturating_mul(2));
    let low = worth(place.saturating_mul(2).saturating_add(1));
    (high.saturating_mul(16).saturating_add(low) % 256) as u8
}

/// The word of so many digits.
fn word(rt: &(impl Abort + AllocGlobal), length: usize) -> Vec<u8> {
    let mut word = Vec::new(rt.alloc());
    for place in 0..length.min(MOST) {
        word.push(digit(place)).expect(rt, "memory");
    }
    word
}

/// Whether these are the octets of a word of so many digits.
fn are_those(octets: &[u8], length: usize) -> bool {
    if octets.len() != length / 2 {
        return false;
    }
    octets
        .iter()
        .enumerate()
        .all(|(place, read)| *read == octet(place))
}

/// Whether a word is read as it should be: an even number of digits.
fn is_read(alloc: Global, word: &[u8]) -> bool {
    match read_hex_word(alloc, word) {
        Ok(Some(octets)) => word.len() % 2 == 0 && are_those(octets.as_slice(), word.len()),
        Ok(None) => word.len() % 2 == 1,
        Err(_) => false,
    }
}

/// Whether a word with a bad digit is no octets.
fn is_refused(alloc: Global, word: &[u8]) -> bool {
    match read_hex_word(alloc, word) {
        Ok(octets) => octets.is_none(),
        Err(_) => false,
    }
}

/// Whether the word is refused with each bad digit at the place.
fn is_refused_at(alloc: Global, word: &mut [u8], place: usize) -> bool {
    let mut is_so = true;
    for bad in BAD {
        if let Some(octet) = word.get_mut(place) {
            *octet = *bad;
        }
        is_so = is_so && is_refused(alloc, word);
    }
    if let Some(octet) = word.get_mut(place) {
        *octet = digit(place);
    }
    is_so
}

/// Whether a word of so many digits is read, and with a bad digit anywhere is not.
fn is_told(rt: &(impl Abort + AllocGlobal), length: usize) -> bool {
    let mut word = word(rt, length);
    let mut is_so = is_read(rt.alloc(), word.as_slice());
    for place in 0..length {
        is_so = is_so && is_refused_at(rt.alloc(), word.as_mut_slice(), place);
    }
    is_so && is_read(rt.alloc(), word.as_slice())
}

#[test]
fn a_bad_digit_at_each_place(rt: HostRuntime) {
    for length in 0..MOST {
        assert!(rt; is_told(&rt, length), "of {length} digits");
    }
}
