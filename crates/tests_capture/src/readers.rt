//! Readers that fail: nothing of the capture is lost, and a further call goes on.
use crate::told::read_told;
use std::alloc::Global;
use std::io;
use std::io::{BufReader, Error, ErrorKind, Read};
use std::process::Abort;

/// Gives at most five octets a read; each second read is interrupted, and each fifth fails.
#[derive(Drop)]
struct Faltering<'a> {
    rest: &'a [u8],
    reads: u32,
}

impl Read for Faltering<'_> {
    fn read(&mut self, buf: &mut [u8]) -> io::Result<usize> {
        self.reads = self.reads.saturating_add(1);
        if self.reads % 5 == 0 {
            return Err(Error::from(ErrorKind::BrokenPipe));
        }
        if self.reads % 2 == 0 {
            return Err(Error::from(ErrorKind::Interrupted));
        }
        let count = self.rest.len().min(buf.len()).min(5);
        let (front, rest) = self.rest.split_at(count);
        buf[..count].copy_from_slice(front);
        self.rest = rest;
        Ok(count)
    }
}

/// What is told of the capture that the hexadecimal digits are, by a reader that falters.
fn told_faltering(alloc: Global, digits: &str) -> Option<String> {
    let Ok(octets) = hex::decode(alloc, digits) else {
        return None;
    };
    let device = Faltering {
        rest: &octets,
        reads: 0,
    };
    let Ok(mut reader) = BufReader::with_capacity(alloc, 7, device) else {
        return None;
    };
    let text = read_told(alloc, &mut reader);
    drop(reader);
    drop(octets);
    text.ok()
}

fn assert_faltering(rt: &(impl Abort + AllocGlobal), digits: &str, want: &str) {
    let text = told_faltering(rt.alloc(), digits).expect(rt, "what is told");
    assert!(rt; text.as_str() == want, "{text}");
    drop(text);
}

#[test]
fn goes_on_behind_failures(rt: HostRuntime) {
    assert_faltering(
        &rt,
        "d4c3b2a10200040000000000000000000000040001000000010000000200000001000000010000006101000000020000000300000001000000626364",
        "unreadable\nunreadable\nunreadable\nunreadable\n1 1 1 2 Decimal(6) 1 61\nunreadable\n2 1 1 2 Decimal(6) 1 626364\nunreadable\nwhole\n",
    );
}

#[test]
fn ends_inside_a_record(rt: HostRuntime) {
    assert_faltering(
        &rt,
        "d4c3b2a10200040000000000000000000000040001000000010000000200000001000000010000006101000000020000000300000003000000626364010000",
        "unreadable\nunreadable\nunreadable\nunreadable\n1 1 1 2 Decimal(6) 1 61\nunreadable\n2 1 1 2 Decimal(6) 3 626364\nunreadable\n60 CutRecord\n",
    );
}
