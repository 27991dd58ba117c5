//! Lines that are said as they are read.
use crate::each::each;
use dm_dict::Dictionary;
use dm_refusal::{
    End, Subject, end_of_answered_call, end_of_repeated_call, refuse_nth_request,
    was_request_refused_and_stop,
};
use dm_view_lines::{RunFault, Task, say_lines, say_stream};
use std::alloc::Global;
use std::cell::Cell;
use std::io::BufReader;

/// What is said, whether of one stream, in colours or without, of what input, what is written, and the size of the
/// pieces in which it is read; how much was written when an earlier request was refused.
#[derive(Clone, Copy)]
struct Row<'a> {
    dictionary: &'a Dictionary,
    task: Task,
    is_stream: bool,
    coloured: bool,
    input: &'a str,
    text: &'a str,
    size: usize,
    written: &'a Cell<usize>,
}

/// Writes what is said of the input, in pieces, with the nth request refused from the first read on.
fn said(
    alloc: Global,
    row: &Row<'_>,
    nth: u32,
    text: &mut Vec<u8>,
) -> (Result<bool, RunFault>, bool) {
    let Row {
        dictionary,
        task,
        is_stream,
        coloured,
        ..
    } = *row;
    let Ok(mut reader) = BufReader::with_capacity(alloc, row.size, row.input.as_bytes()) else {
        return (Err(RunFault::Memory), false);
    };
    refuse_nth_request(alloc, nth);
    let said = if is_stream {
        say_stream(alloc, dictionary, task, coloured, &mut reader, text)
    } else {
        say_lines(alloc, dictionary, task, coloured, &mut reader, text)
    };
    let refused = was_request_refused_and_stop(alloc);
    drop(reader);
    (said, refused)
}

/// Whether the text of some lines of these is written, each of them whole.
fn is_front(written: &[u8], text: &str) -> bool {
    match text.as_bytes().strip_prefix(written) {
        Some([]) => true,
        Some([first, ..]) => *first != b' ' && (written.is_empty() || written.ends_with(b"\n")),
        None => false,
    }
}

/// Whether what is said is JSON, which asks for room at once and can do without it.
fn is_json(task: Task) -> bool {
    match task {
        Task::ShowJson | Task::CheckJson => true,
        Task::Show | Task::Check => false,
    }
}

/// How the run ends when its nth request is refused: what was said of the lines before is written, at a later request
/// no less; or all of it is, where JSON did without the room. There is room for what is written.
fn end_of(alloc: Global, row: &Row<'_>, nth: u32) -> End {
    let Ok(mut text) = Vec::with_capacity(alloc, 4096) else {
        return End::Alone;
    };
    let (first, refused) = said(alloc, row, nth, &mut text);
    let front = is_front(text.as_slice(), row.text) && text.len() >= row.written.get();
    let whole = text.as_slice() == row.text.as_bytes();
    let spared = refused && whole && is_json(row.task);
    if !spared {
        row.written.set(text.len());
    }
    drop(text);
    match first {
        Ok(_) if spared => End::Again,
        Ok(_) => end_of_answered_call(refused, whole),
        Err(RunFault::Memory) => end_of_repeated_call(refused, front),
        Err(_) => End::Fault,
    }
}

impl<R: AllocGlobal> Subject<R> for Row<'_> {
    fn end_when_refused(&self, rt: &R, nth: u32) -> End {
        end_of(rt.alloc(), self, nth)
    }
}

/// A watchdog, a line that is no hexadecimal, a line that says nothing, and a watchdog without its line's end.
const LINES: &str = "\
01000038800001180000000000000001000000010000010840000011612e6578616d706c65000000000001284000000f6578616d706c6500
xyz
# nothing
0x01000038 80000118 000000000000000100000001 0000010840000011612e6578616d706c65000000 000001284000000f6578616d706c6500";

const SHOWN: &str = "\
1: DWR 280 request, application 0, hop-by-hop 1 (0x00000001), end-to-end 1 (0x00000001)
  Origin-Host 264 -M- a.example
  Origin-Realm 296 -M- example
2: no hexadecimal
4: DWR 280 request, application 0, hop-by-hop 1 (0x00000001), end-to-end 1 (0x00000001)
  Origin-Host 264 -M- a.example
  Origin-Realm 296 -M- example
";

const CHECKED: &str =
    "{\"number\":1,\"verdict\":\"good\",\"header\":{\"command\":\"DWR\",\"code\":280,\"flags\":[\"request\"],\"application\":0,\"hop_by_hop\":1,\"end_to_end\":1},\"faults\":[]}\n{\"number\":2,\"verdict\":\"bad\",\"error\":\"no hexadecimal\"}\n{\"number\":4,\"verdict\":\"good\",\"header\":{\"command\":\"DWR\",\"code\":280,\"flags\":[\"request\"],\"application\":0,\"hop_by_hop\":1,\"end_to_end\":1},\"faults\":[]}\n{\"good\":2,\"bad\":1}\n";

/// Two watchdogs in three lines, and the front of a third one.
const STREAM: &str = "\
010000388000011800000000000000010000000100000108
40000011612e6578616d706c65000000000001284000000f6578616d706c65000100003880000118000000000000000100000001
0000010840000011612e6578616d706c65000000000001284000000f6578616d706c6500010000388000";

const STREAMED: &str = "\
\u{1b}[1m1: good DWR 280 request, application 0, hop-by-hop 1 (0x00000001), end-to-end 1 (0x00000001)\u{1b}[0m
\u{1b}[1m2: good DWR 280 request, application 0, hop-by-hop 1 (0x00000001), end-to-end 1 (0x00000001)\u{1b}[0m
\u{1b}[1m3: no message: the stream ends inside it, at octet 6\u{1b}[0m
\u{1b}[1m2 good, 1 bad\u{1b}[0m
";

#[test]
fn lines_are_said(rt: HostRuntime) {
    let dictionary = Dictionary::base(rt.alloc()).expect(&rt, "memory");
    for (task, is_stream, input, text) in [
        (Task::Show, false, LINES, SHOWN),
        (Task::CheckJson, false, LINES, CHECKED),
        (Task::Check, true, STREAM, STREAMED),
    ] {
        for size in [1usize, 50, 65_536] {
            let written = Cell::new(0usize);
            let row = Row {
                dictionary: &dictionary,
                task,
                is_stream,
                coloured: is_stream,
                input,
                text,
                size,
                written: &written,
            };
            each(&rt, &row, "what is said of lines");
        }
    }
    drop(dictionary);
}
