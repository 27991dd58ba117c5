//! What the words of the command line run, what that prints, and how the program ends.
use super::{SHORT, SHORT_TEXT, WATCHDOG_REQUEST, WATCHDOG_TEXT};
use dm_text::{read_long_number, read_number};
use dm_tool::{Held, WordsFault, ending, run_program, run_words};
use std::process::Abort;

/// A message without the Origin-Host that its command wants, without spaces.
const BARE: &str = "0100001480000118000000000000000100000001";

/// The words of the command line, which stand apart by spaces.
fn word_list(rt: &(impl Abort + AllocGlobal), words: &str) -> Vec<String> {
    let mut list = Vec::new(rt.alloc());
    for word in words.split_whitespace() {
        let word = String::from_str(rt.alloc(), word).expect(rt, "memory");
        list.push(word).expect(rt, "memory");
    }
    list
}

/// The status and the line for standard error, where the words print this text for the input.
fn ends(
    rt: &(impl Abort + AllocGlobal),
    words: &str,
    input: &str,
    want: &str,
) -> Option<(u8, &'static str)> {
    let list = word_list(rt, words);
    let mut reader = input.as_bytes();
    let mut text = Vec::new(rt.alloc());
    let outcome = run_words(rt.alloc(), list.as_slice(), &mut reader, &mut text);
    let same = text.as_slice() == want.as_bytes();
    drop(text);
    drop(list);
    if same { Some(ending(outcome)) } else { None }
}

/// Each list of words prints this text for the input, and ends with this status and line.
fn assert_ends(rt: &(impl Abort + AllocGlobal), rows: &[(&str, &str, &str, u8, &'static str)]) {
    for (words, input, want, status, line) in rows {
        assert!(rt;
            ends(rt, words, input, want) == Some((*status, *line)),
            "of {words}"
        );
    }
}

#[test]
fn words_run_their_command(rt: HostRuntime) {
    let rows = &[
        ("show", WATCHDOG_REQUEST, WATCHDOG_TEXT, 0, ""),
        ("show", "0g", "fault hex\n", 1, ""),
        ("check", WATCHDOG_REQUEST, "good\n", 0, ""),
        ("check", BARE, "bad 5005 264 -M- 00\n", 1, ""),
        ("check", "%%", "fault hex\n", 1, ""),
        (
            "check --dict",
            "%%\n0100001480000118000000000000000100000001",
            "bad 5005 264 -M- 00\n",
            1,
            "",
        ),
        (
            "check --dict",
            "@ Foo 264 Unsigned32\n%%",
            "fault dict Duplicate 1\n",
            1,
            "",
        ),
        ("check --dict", "%%", "", 0, ""),
        (
            "build",
            SHORT_TEXT,
            "010000145000012c000000040000000affffffff\n",
            0,
            "",
        ),
        ("build", SHORT, "fault syntax 1\n", 1, ""),
        ("replay", "", "", 0, ""),
        ("replay", "start A", "fault syntax 1\n", 1, ""),
    ];
    assert_ends(&rt, rows);
}

#[test]
fn other_words_run_nothing(rt: HostRuntime) {
    let rows = &[
        ("", SHORT, "", 2, "dmpeer: usage"),
        ("paint", SHORT, "", 2, "dmpeer: usage"),
        ("Show", SHORT, "", 2, "dmpeer: usage"),
        ("show x", SHORT, "", 2, "dmpeer: usage"),
        ("show --dict", SHORT, "", 2, "dmpeer: usage"),
        ("--dict check", SHORT, "", 2, "dmpeer: usage"),
        ("check --dict x", SHORT, "", 2, "dmpeer: usage"),
        ("build build", SHORT_TEXT, "", 2, "dmpeer: usage"),
    ];
    assert_ends(&rt, rows);
}

/// Whether the program prints this text for the words and the input, and this on standard error, and ends with this
/// status.
fn says(
    rt: &(impl Abort + AllocGlobal),
    words: Result<Vec<String>, WordsFault>,
    input: &str,
    want: &str,
    line: &str,
    status: u8,
) -> bool {
    let mut reader = Held {
        rest: input.as_bytes(),
    };
    let mut text = Vec::new(rt.alloc());
    let mut errors = Vec::new(rt.alloc());
    let ended = run_program(rt.alloc(), words, &mut reader, &mut text, &mut errors);
    let same = text.as_slice() == want.as_bytes() && errors.as_slice() == line.as_bytes();
    drop(text);
    drop(errors);
    same && ended.told && ended.status == status
}

/// With statuses 2 and 3 a line stands on standard error, and with the others nothing.
#[test]
fn the_program_tells_how_it_ends(rt: HostRuntime) {
    let rows = &[
        ("show", SHORT, SHORT_TEXT, "", 0),
        ("show", "0g", "fault hex\n", "", 1),
        ("paint", SHORT, "", "dmpeer: usage\n", 2),
        ("show --dict", SHORT, "", "dmpeer: usage\n", 2),
    ];
    for (words, input, want, line, status) in rows {
        let list = word_list(&rt, words);
        assert!(rt;
            says(&rt, Ok(list), input, want, line, *status),
            "of {words}"
        );
    }
}

/// A word that isn't UTF-8 chooses no command, and without memory for the words none is run.
#[test]
fn words_that_are_not_there(rt: HostRuntime) {
    let rows = &[
        (WordsFault::NotText, "dmpeer: usage\n", 2),
        (WordsFault::NoMemory, "dmpeer: memory\n", 3),
    ];
    for (fault, line, status) in rows {
        assert!(rt;
            says(&rt, Err(*fault), SHORT, "", line, *status),
            "of {line}"
        );
    }
}

/// The greatest numbers of 32 and 64 bits, and words that tell none.
#[test]
fn numbers_of_words(rt: HostRuntime) {
    let rows = &[
        ("0", Some(0), Some(0)),
        ("007", Some(7), Some(7)),
        ("4294967295", Some(4294967295), Some(4294967295)),
        ("4294967296", None, Some(4294967296)),
        ("18446744073709551615", None, Some(18446744073709551615)),
        ("18446744073709551616", None, None),
        ("18446744073709551620", None, None),
        ("99999999999999999999", None, None),
        ("", None, None),
        ("-1", None, None),
        ("1x", None, None),
    ];
    for (word, short, long) in rows {
        assert!(rt; read_number(word.as_bytes()) == *short, "of {word}");
        assert!(rt; read_long_number(word.as_bytes()) == *long, "of {word}");
    }
}
