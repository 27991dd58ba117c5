//! Texts of lengths on both sides of those that are looked at at once, eight octets and sixteen, with each octet that
//! matters at each place.
use crate::dictionary::dictionary;
use dm_dict::Dictionary;
use dm_view_lines::{Task, lines_report};
use std::alloc::{AllocError, Global};

/// How many octets stand in a text beside the one that matters.
const LENGTHS: &[usize] = &[0, 6, 7, 8, 14, 15, 16, 22, 30, 31, 32];

/// What stands among them, how JSON says it (RFC 8259, 7), and whether it is shown as text, and not in hexadecimal.
const MARKS: &[(&str, &str, bool)] = &[
    (" ", " ", true),
    ("!", "!", true),
    ("#", "#", true),
    ("[", "[", true),
    ("]", "]", true),
    ("~", "~", true),
    ("é", "é", true),
    ("\"", "\\\"", false),
    ("\\", "\\\\", true),
    ("\n", "\\n", false),
    ("\u{0}", "\\u0000", false),
    ("\u{1f}", "\\u001f", false),
    ("\u{7f}", "\u{7f}", false),
];

/// How long a text of an AVP is, in octets, with its padding.
fn padded(length: usize) -> usize {
    length.saturating_add(3) / 4 * 4
}

/// So many octets `a`, and the mark at this place.
fn text_of(alloc: Global, length: usize, place: usize, mark: &str) -> Result<String, AllocError> {
    let mut text = String::new(alloc);
    for _ in 0..place {
        text.push_str("a")?;
    }
    text.push_str(mark)?;
    for _ in place..length {
        text.push_str("a")?;
    }
    Ok(text)
}

/// The line of a message whose one AVP has this text.
fn line_of(alloc: Global, text: &str) -> Result<String, AllocError> {
    let digits = hex::encode(alloc, text.as_bytes())?;
    let long = text.len().saturating_add(8);
    let whole = padded(long).saturating_add(20);
    let mut line = format!(in alloc;
        "01{whole:06x}8000012c0000000400000011000000220000177940{long:06x}{}",
        digits.as_str()
    )?;
    for _ in long..padded(long) {
        line.push_str("00")?;
    }
    Ok(line)
}

/// What JSON has of it.
fn json_of(alloc: Global, said: &str) -> Result<String, AllocError> {
    format!(in alloc;
        "{{\"number\":1,\"header\":{{\"command\":\"Thing\",\"code\":300,\"flags\":[\"request\"],\"application\":4,\"hop_by_hop\":17,\"end_to_end\":34}},\"avps\":[{{\"name\":\"Words\",\"code\":6009,\"flags\":[\"mandatory\"],\"value\":\"{said}\"}}]}}\n"
    )
}

/// What is shown of it.
fn shown_of(alloc: Global, text: &str, is_text: bool) -> Result<String, AllocError> {
    let value = if is_text {
        format!(in alloc; "\"{text}\"")?
    } else {
        hex::encode(alloc, text.as_bytes())?
    };
    format!(in alloc;
        "1: Thing 300 request, application 4, hop-by-hop 17 (0x00000011), end-to-end 34 (0x00000022)\n  Words 6009 -M- {}\n",
        value.as_str()
    )
}

/// Whether this is said of the line.
fn is_said(
    alloc: Global,
    dictionary: &Dictionary,
    task: Task,
    line: &str,
    want: &str,
) -> Result<bool, AllocError> {
    match lines_report(alloc, dictionary, task, line.as_bytes()) {
        Ok((text, _)) => {
            let same = text.as_slice() == want.as_bytes();
            drop(text);
            Ok(same)
        }
        Err(_) => Ok(false),
    }
}

/// Whether a text with a mark at this place is said as it has to be.
fn is_escaped(
    alloc: Global,
    dictionary: &Dictionary,
    length: usize,
    place: usize,
    mark: (&str, &str, bool),
) -> Result<bool, AllocError> {
    let text = text_of(alloc, length, place, mark.0)?;
    let said = text_of(alloc, length, place, mark.1)?;
    let line = line_of(alloc, text.as_str())?;
    let json = json_of(alloc, said.as_str())?;
    let shown = shown_of(alloc, text.as_str(), mark.2)?;
    let in_json = is_said(
        alloc,
        dictionary,
        Task::ShowJson,
        line.as_str(),
        json.as_str(),
    )?;
    let in_text = is_said(alloc, dictionary, Task::Show, line.as_str(), shown.as_str())?;
    Ok(in_json && in_text)
}

/// The first place at which a text with a mark isn't said as it has to be.
fn wrong_place(
    alloc: Global,
    dictionary: &Dictionary,
    length: usize,
    mark: (&str, &str, bool),
) -> Option<usize> {
    (0..=length).find(|place| is_escaped(alloc, dictionary, length, *place, mark) != Ok(true))
}

/// The first length and place at which a text with a mark isn't said as it has to be.
fn wrong_text(
    alloc: Global,
    dictionary: &Dictionary,
    mark: (&str, &str, bool),
) -> Option<(usize, usize)> {
    for length in LENGTHS {
        if let Some(place) = wrong_place(alloc, dictionary, *length, mark) {
            return Some((*length, place));
        }
    }
    None
}

#[test]
fn at_each_place(rt: HostRuntime) {
    let dictionary = dictionary(&rt);
    for mark in MARKS {
        assert!(&rt;
            wrong_text(rt.alloc(), &dictionary, *mark) == None,
            "{}",
            mark.1
        );
    }
    drop(dictionary);
}
