//! Texts of dictionaries that are cut or changed anywhere.
use dm_dict::{DictFault, Dictionary};
use std::alloc::Global;
use std::process::Abort;

/// The line that a text is refused at, 0 where it isn't; none where memory is wanted.
fn line_of(alloc: Global, text: &[u8], old: &Dictionary) -> Option<usize> {
    match Dictionary::read(alloc, text, old) {
        Ok(_) => Some(0),
        Err(
            DictFault::Syntax(line)
            | DictFault::Range(line)
            | DictFault::Duplicate(line)
            | DictFault::Order(line)
            | DictFault::UnknownName(line),
        ) => Some(line),
        Err(DictFault::NoMemory) => None,
    }
}

/// How many of the texts are read, none where a fault names no line of the whole text.
fn count_cut(alloc: Global, text: &[u8], old: &Dictionary) -> Option<u32> {
    let mut read = 0u32;
    for size in 0..text.len() {
        match line_of(alloc, &text[..size], old) {
            Some(0) => read = read.saturating_add(1),
            Some(1..=36) => {}
            _ => return None,
        }
    }
    Some(read)
}

/// The same with the octet of each place replaced by this one.
fn count_changed(alloc: Global, text: &mut [u8], mark: u8, old: &Dictionary) -> Option<u32> {
    let mut read = 0u32;
    for place in 0..text.len() {
        let kept = text[place];
        text[place] = mark;
        match line_of(alloc, text, old) {
            Some(0) => read = read.saturating_add(1),
            Some(1..=36) => {}
            _ => return None,
        }
        text[place] = kept;
    }
    Some(read)
}

/// The text of the base dictionary.
fn base_text(rt: &(impl Abort + AllocGlobal)) -> Vec<u8> {
    let base = Dictionary::base(rt.alloc()).expect(rt, "memory");
    let text = base.print(rt.alloc()).expect(rt, "memory");
    drop(base);
    text
}

/// Whether nothing was added to the dictionary.
fn is_empty(rt: &(impl Abort + AllocGlobal), old: &Dictionary) -> bool {
    old.print(rt.alloc()).expect(rt, "memory").is_empty()
}

#[test]
fn cut_texts(rt: HostRuntime) {
    let text = base_text(&rt);
    let empty = Dictionary::empty(rt.alloc());
    let read = count_cut(rt.alloc(), text.as_slice(), &empty);
    let left = is_empty(&rt, &empty);
    drop(empty);
    assert!(&rt; left && read.is_some(), "{read:?}");
}

#[test]
fn changed_texts(rt: HostRuntime) {
    let mut text = base_text(&rt);
    let empty = Dictionary::empty(rt.alloc());
    for mark in [b'<', b'*', 0xff] {
        let read = count_changed(rt.alloc(), text.as_mut_slice(), mark, &empty);
        assert!(&rt; read.is_some(), "of {mark}");
    }
    let left = is_empty(&rt, &empty);
    drop(empty);
    assert!(&rt; left);
}
