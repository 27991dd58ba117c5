//! The dictionary of a run, and what is said where its texts have a fault.
ghost use Rattle.std.specs.Prelude.{◌≡◌, ◌⊎◌, ℕ, IfOk, IfErr};
ghost use Rattle.dm_dict_text.specs.declared.fault.DictFault.TheVariants as faults_of;
ghost use Rattle.dm_dict_text.specs.Outcome.{Defines, IsFirstFault};
ghost use Rattle.dm_tables.specs.Base.{base_definitions};

use anyhow::{Context, Error, Result};
use dm_dict::{DictFault, Dictionary};
use dm_text::{Lines, Words};
use dm_view_lines::push_limited_file_as_lines;
use std::alloc::Global;
use std::fs::File;
use std::{fs, io, str};

/// The version of a run's texts, which stands before the first line of all.
const VERSION: &[u8] = b"@ 2 ";

/// The base dictionary and behind it what the text defines; or the first fault of the text, or want of memory.
fn dictionary_over_base(alloc: Global, text: &[u8]) -> Result<Dictionary, DictFault>
    ensures defines { IfOk result (λ dictionary. Defines text.now base_definitions dictionary) }
    ensures fault { IfErr result (λ fault. (fault ≡ faults_of.NoMemory)
        ⊎ IsFirstFault text.now base_definitions fault) }
{
    let base = Dictionary::base(alloc)?;
    let read = Dictionary::read(alloc, text, &base);
    drop(base);
    read
}

/// The dictionary of the files of these names: the base one where none is named.
pub fn dictionary_of_files(
    rt: &HostRuntime,
    names: &[&str],
    files: Vec<File>,
) -> Result<Dictionary> {
    if names.is_empty() {
        drop(files);
        return Dictionary::base(rt.alloc()).context("dmview: dictionary");
    }
    let mut text = Vec::new(rt.alloc());
    let mut ends = Vec::new(rt.alloc());
    let done = push_versioned_text_and_ends(names, files, &mut text, &mut ends);
    done?;
    match dictionary_over_base(rt.alloc(), text.as_slice()) {
        Ok(dictionary) => Ok(dictionary),
        Err(fault) => Err(dictionary_error(rt, names, text.as_slice(), ends.as_slice(), fault)),
    }
}

/// Appends the texts of the files as one text of version 2, whose version stands before the first line, and where each
/// ends.
fn push_versioned_text_and_ends(
    names: &[&str],
    files: Vec<File>,
    text: &mut Vec<u8>,
    ends: &mut Vec<usize>,
) -> Result<()> {
    text.extend_from_slice(VERSION)?;
    let mut at: usize = 0;
    for file in files {
        let name = names.get(at).copied().unwrap_or("?");
        push_limited_file_as_lines(file, text).context(format_args!("dmview: {name}"))?;
        ends.extend_from_slice(&[text.len()])?;
        at = at.saturating_add(1);
    }
    Ok(())
}

/// The line of a fault, counted through all files, and what is wrong with it.
fn fault_line_and_words(fault: DictFault) -> (usize, &'static str)
    ensures syntax { (line : ℕ) → fault ≡ faults_of.Syntax line → result.0 ≡ line }
    ensures range { (line : ℕ) → fault ≡ faults_of.Range line → result.0 ≡ line }
    ensures duplicate { (line : ℕ) → fault ≡ faults_of.Duplicate line → result.0 ≡ line }
    ensures order { (line : ℕ) → fault ≡ faults_of.Order line → result.0 ≡ line }
    ensures unknown { (line : ℕ) → fault ≡ faults_of.UnknownName line → result.0 ≡ line }
{
    match fault {
        DictFault::Syntax(line) => (line, "this can't stand here"),
        DictFault::Range(line) => (line, "number out of range"),
        DictFault::Duplicate(line) => (line, "there already"),
        DictFault::Order(line) => (line, "entry out of order"),
        DictFault::UnknownName(line) => (line, "unknown name"),
        DictFault::NoMemory => (usize::MAX, "out of memory"),
    }
}

/// What is said of a fault: the file and the line there, what is wrong, and the file beside it that has a name of that
/// line which is nowhere defined.
fn dictionary_error(
    rt: &HostRuntime,
    names: &[&str],
    text: &[u8],
    ends: &[usize],
    fault: DictFault,
) -> Error {
    let (line, words) = fault_line_and_words(fault);
    let Some((name, number)) = file_and_line(names, text, ends, line) else {
        return Error::msg(format_args!("dmview: dictionary: {words}"));
    };
    if let DictFault::UnknownName(_) = fault {
        if let Some(found) = Lines::new(text).nth(line.saturating_sub(1)) {
            return unknown_name_error(rt, name, number, text, found);
        }
    }
    Error::msg(format_args!("dmview: {name}: line {number}: {words}"))
}

/// The file of a line that is counted through all files, and its number there; None where no file has it.
fn file_and_line<'a>(
    names: &[&'a str],
    text: &[u8],
    ends: &[usize],
    line: usize,
) -> Option<(&'a str, usize)> {
    let mut left = line;
    let mut start: usize = 0;
    for (name, end) in names.iter().zip(ends) {
        let count = count_lines(text.get(start..*end).unwrap_or(&[]));
        if left <= count {
            return Some((*name, left));
        }
        left -= count;
        start = *end;
    }
    None
}

/// How many lines a text has.
fn count_lines(text: &[u8]) -> usize {
    let mut count: usize = 0;
    for _ in Lines::new(text) {
        count = count.saturating_add(1);
    }
    count
}

/// What is said of a name in this line of a file that the text doesn't define.
fn unknown_name_error(
    rt: &HostRuntime,
    name: &str,
    number: usize,
    text: &[u8],
    line: &[u8],
) -> Error {
    let folder = match name.rsplit_once('/') {
        Some((folder, _)) => folder,
        None => ".",
    };
    for word in Words::new(line) {
        if is_capitalised_name(word) && !text_defines_name(text, word) {
            if let Ok(Some(error)) = error_with_defining_file(rt, name, number, folder, word) {
                return error;
            }
        }
    }
    Error::msg(format_args!("dmview: {name}: line {number}: unknown name"))
}

/// What is said of an unknown name that a file in this folder defines; None where none does.
fn error_with_defining_file(
    rt: &HostRuntime,
    name: &str,
    number: usize,
    folder: &str,
    word: &[u8],
) -> io::Result<Option<Error>> {
    for entry in fs::read_dir(rt, folder)? {
        let entry = entry?;
        let path = entry.path();
        if file_defines_name(rt, path.as_str(), word) {
            return Ok(Some(Error::msg(format_args!(
                "dmview: {name}: line {number}: unknown name {}, which {} defines",
                name_or_question_mark(word),
                path.as_str()
            ))));
        }
    }
    Ok(None)
}

/// A name as text; `?` where it isn't UTF-8.
fn name_or_question_mark(word: &[u8]) -> &str {
    str::from_utf8(word).unwrap_or("?")
}

/// Whether the file at this path can be read and defines the name.
fn file_defines_name(rt: &HostRuntime, path: &str, word: &[u8]) -> bool {
    let mut text = Vec::new(rt.alloc());
    let Ok(file) = File::open(rt, path) else {
        return false;
    };
    match push_limited_file_as_lines(file, &mut text) {
        Ok(()) => text_defines_name(text.as_slice(), word),
        Err(_) => false,
    }
}

/// Whether a word has letters, digits and `-` alone, and begins with a capital letter.
fn is_capitalised_name(word: &[u8]) -> bool {
    match word {
        [first, rest @ ..] => {
            first.is_ascii_uppercase()
                && rest.iter().all(|b| b.is_ascii_alphanumeric() || *b == b'-')
        }
        [] => false,
    }
}

/// Whether a line of the text begins with `@` or `<` and the name.
fn text_defines_name(text: &[u8], word: &[u8]) -> bool {
    let text = text.strip_prefix(VERSION).unwrap_or(text);
    Lines::new(text).any(|line| {
        let mut words = Words::new(line);
        matches!(words.next(), Some([b'@'] | [b'<'])) && words.next() == Some(word)
    })
}
