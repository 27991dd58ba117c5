//! The dictionary of the tests, and what is said of lines under it.
use dm_dict::Dictionary;
use dm_view_lines::{Task, lines_report, say_lines, say_stream, stream_report};
use std::alloc::Global;
use std::io::BufReader;
use std::process::Abort;

/// An AVP of each type, one of a vendor, and two commands.
const TEXT: &str = "@ 2
@ vendor Acme 99
@ Octets 6001 OctetString
@ Whole 6002 Integer32
@ Long 6003 Integer64
@ Count 6004 Unsigned32
@ Large 6005 Unsigned64
< Group > ::= < AVP Header: 6006 > *[ AVP ]
@ Place 6007 Address
@ When 6008 Time
@ Words 6009 UTF8String
@ Host 6010 DiameterIdentity
@ Where 6011 DiameterURI
@ Colour 6012 Enumerated { RED 0, BLUE 2 }
@ Acme-Count 6004 Unsigned32 : Acme
< Thing > ::= < Diameter Header: 300, REQ > { Count } *[ AVP ]
< Strict > ::= < Diameter Header: 301, REQ > { Count }
";

/// The dictionary of the text over the base one.
pub fn dictionary(rt: &(impl Abort + AllocGlobal)) -> Dictionary {
    let base = Dictionary::base(rt.alloc()).expect(rt, "memory");
    let read = Dictionary::read(rt.alloc(), TEXT.as_bytes(), &base);
    drop(base);
    read.expect(rt, "a dictionary")
}

/// The sizes of the pieces in which an input is read.
pub const PIECES: [usize; 3] = [1, 7, 65_536];

/// Writes what is said of an input that is read in pieces of this size: of its lines, or of the stream that they are.
fn read_said(
    alloc: Global,
    dictionary: &Dictionary,
    task: Task,
    is_stream: bool,
    input: &str,
    size: usize,
    text: &mut Vec<u8>,
) -> Option<bool> {
    let Ok(mut reader) = BufReader::with_capacity(alloc, size, input.as_bytes()) else {
        return None;
    };
    let said = if is_stream {
        say_stream(alloc, dictionary, task, false, &mut reader, text)
    } else {
        say_lines(alloc, dictionary, task, false, &mut reader, text)
    };
    drop(reader);
    said.ok()
}

/// Whether this is said of an input, in whatever pieces it is read, and whether nothing of it is bad.
fn says_read(
    alloc: Global,
    dictionary: &Dictionary,
    task: Task,
    is_stream: bool,
    input: &str,
    want: &str,
) -> Option<bool> {
    let mut good = true;
    for size in PIECES {
        let mut text = Vec::new(alloc);
        let read = read_said(alloc, dictionary, task, is_stream, input, size, &mut text);
        let same = text.as_slice() == want.as_bytes();
        drop(text);
        match read {
            Some(fine) if same => good = good && fine,
            _ => return None,
        }
    }
    Some(good)
}

/// Whether this is said of the input, and whether none of its lines is bad.
fn says(
    alloc: Global,
    dictionary: &Dictionary,
    task: Task,
    input: &str,
    want: &str,
) -> Option<bool> {
    match lines_report(alloc, dictionary, task, input.as_bytes()) {
        Ok((text, good)) => {
            let same = text.as_slice() == want.as_bytes();
            drop(text);
            if same { Some(good) } else { None }
        }
        Err(_) => None,
    }
}

/// Of each input this is said, and none of its lines is bad, or some is.
pub fn assert_said(rt: &(impl Abort + AllocGlobal), task: Task, rows: &[(&str, &str, bool)]) {
    let dictionary = dictionary(rt);
    for (input, want, good) in rows {
        assert!(rt;
            says(rt.alloc(), &dictionary, task, input, want) == Some(*good),
            "of {input}"
        );
        assert!(rt;
            says_read(rt.alloc(), &dictionary, task, false, input, want) == Some(*good),
            "in pieces, of {input}"
        );
    }
    drop(dictionary);
}

/// Whether this is said of the input as one stream, and whether all of it is good.
fn says_stream(
    alloc: Global,
    dictionary: &Dictionary,
    task: Task,
    input: &str,
    want: &str,
) -> Option<bool> {
    match stream_report(alloc, dictionary, task, input.as_bytes()) {
        Ok((text, good)) => {
            let same = text.as_slice() == want.as_bytes();
            drop(text);
            if same { Some(good) } else { None }
        }
        Err(_) => None,
    }
}

/// Of each input as one stream this is said, and all of it is good, or not.
pub fn assert_streamed(rt: &(impl Abort + AllocGlobal), task: Task, rows: &[(&str, &str, bool)]) {
    let dictionary = dictionary(rt);
    for (input, want, good) in rows {
        assert!(rt;
            says_stream(rt.alloc(), &dictionary, task, input, want) == Some(*good),
            "of {input}"
        );
        assert!(rt;
            says_read(rt.alloc(), &dictionary, task, true, input, want) == Some(*good),
            "in pieces, of {input}"
        );
    }
    drop(dictionary);
}
