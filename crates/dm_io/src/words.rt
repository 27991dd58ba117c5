//! The words of a program's command line.
ghost use Rattle.std.specs.Prelude.{◌≡◌, ◌≢◌, drop, IfOk, IfErr};
ghost use Rattle.std.specs.Vec.Iter.{into_iter_items};

use std::alloc::Global;
use std::env;
use std::env::Args;
use std::io::ErrorKind;
use std::rt::Env;

/// Why the words of the command line can't be had.
#[derive(Clone, Copy)]
pub enum WordsFault {
    /// One of them isn't UTF-8.
    NotText,
    /// No memory was left for them.
    NoMemory,
}

/// The words after the program's name.
pub fn command_line_words(rt: &(impl Env + AllocGlobal)) -> Result<Vec<String>, WordsFault> {
    match env::args(rt) {
        Ok(words) => words_after_first(rt.alloc(), words),
        Err(error) => Err(words_fault(error.kind())),
    }
}

/// Why the words can't be had: one of them isn't UTF-8, which is invalid data, or else no memory was left.
fn words_fault(kind: ErrorKind) -> WordsFault
    ensures text { kind ≡ ErrorKind.InvalidData → result ≡ WordsFault.NotText }
    ensures memory { kind ≢ ErrorKind.InvalidData → result ≡ WordsFault.NoMemory }
{
    if kind == ErrorKind::InvalidData {
        WordsFault::NotText
    } else {
        WordsFault::NoMemory
    }
}

/// All words but the first.
fn words_after_first(alloc: Global, words: Args) -> Result<Vec<String>, WordsFault>
    ensures behind { IfOk result (λ kept. kept.items ≡ drop 1 (into_iter_items words)) }
    ensures fault { IfErr result (λ fault. fault ≡ WordsFault.NoMemory) }
{
    let mut words = words;
    let mut kept = Vec::new(alloc);
    let _ = words.next();
    for word in words {
        if kept.push(word).is_err() {
            return Err(WordsFault::NoMemory);
        }
    }
    Ok(kept)
}
