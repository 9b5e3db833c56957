ghost use Rattle.std.specs.Prelude.{ℕ, ◌≡◌, List, Option, None};

use crate::asserting::holds;
use crate::reading::word;
use pl_io::{
    Failed, LineFault, LineReader, MemSink, MemSource, Sink, Source, StdSink, StdSource, SureSink,
    SureSource, put,
};
use std::alloc::Global;
use std::process::Abort;

// Gives one byte at a time.
#[derive(Drop)]
struct Drops<'a> {
    bytes: &'a [u8],
}

impl<'a> Source for Drops<'a> {
    ghost left = { λ _. None };

    ghost faults = { λ _. 0 };

    fn read(&mut self, buf: &mut [u8]) -> Result<usize, Failed> {
        match self.bytes {
            [] => Ok(0),
            [first, rest @ ..] => {
                buf[0] = *first;
                self.bytes = rest;
                Ok(1)
            }
        }
    }
}

/// The lines up to the end or a fault, numbered from 1, a newline behind each; and the fault.
fn read_on<S: Source>(
    rt: &impl Abort,
    alloc: Global,
    reader: &mut LineReader,
    src: &mut S,
) -> (Vec<u8>, Option<LineFault>) {
    let mut text = Vec::new(alloc);
    for number in 1..10u64 {
        match reader.next(src) {
            Ok(Some(line)) => {
                holds(rt, "its number", line.number == number);
                text.extend_from_slice(line.bytes()).expect(rt, "memory");
                text.push(b'\n').expect(rt, "memory");
            }
            Ok(None) => return (text, None),
            Err(fault) => return (text, Some(fault)),
        }
    }
    panic!(rt; "too many lines")
}

/// Reads to the end or to a fault, and compares the lines, and the fault here and at the next call.
fn assert_reads<S: Source>(
    rt: &impl Abort,
    alloc: Global,
    src: &mut S,
    limits: (u32, u64),
    lines: &[u8],
    fault: Option<LineFault>,
) {
    let mut reader = LineReader::new(alloc, limits.0, limits.1).expect(rt, "memory");
    let (text, found) = read_on(rt, alloc, &mut reader, src);
    holds(rt, "the lines", text.as_slice() == lines);
    holds(rt, "the fault", found == fault);
    let (text, found) = read_on(rt, alloc, &mut reader, src);
    holds(rt, "no line then", text.is_empty());
    holds(rt, "the same fault then", found == fault);
}

/// Takes a text off in which `/` stands for a newline.
fn text(rt: &impl Abort, alloc: Global, rest: &mut &str) -> String {
    let text = word(rest).replace(alloc, "/", "\n");
    text.expect(rt, "memory")
}

fn fault(name: &str) -> Option<LineFault> {
    match name {
        "total" => Some(LineFault::Total),
        "long" => Some(LineFault::Long(1)),
        _ => None,
    }
}

/// Texts, how long a line and how long all may be, the lines, and the fault.
const READ: &str = "ab/cd/ 4 5 ab/ total
ab/cd/ 4 6 ab/cd/ none
ab/cd/ 4 7 ab/cd/ none
ab/cd 4 5 ab/cd/ none
ab/cd 4 4 ab/ total
abcd/ 4 9 abcd/ none
abcde/ 4 9  long
abcde 4 9  long
abcde 4 4  total
 4 0  none
 0 9  none
//x 4 9 //x/ none
a\r/b\r/ 4 9 a\r/b\r/ none
a 0 9  long";

fn assert_row(rt: &impl Abort, alloc: Global, row: &str) {
    let mut rest = row;
    let bytes = text(rt, alloc, &mut rest);
    let bytes = bytes.as_bytes();
    let limits = (
        word(&mut rest).parse().unwrap_or(0),
        word(&mut rest).parse().unwrap_or(0),
    );
    let lines = text(rt, alloc, &mut rest);
    let (lines, fault) = (lines.as_bytes(), fault(rest));
    let mut whole = SureSource::new(alloc, bytes).expect(rt, "memory");
    assert_reads(rt, alloc, &mut whole, limits, lines, fault);
    assert_reads(rt, alloc, &mut Drops { bytes }, limits, lines, fault);
}

#[test]
fn lines_within_limits(rt: HostRuntime) {
    for row in READ.lines() {
        assert_row(&rt, rt.alloc(), row);
    }
}

/// Reads two lines from a source whose read of this number fails.
fn assert_fails_at(
    rt: &impl Abort,
    alloc: Global,
    read: u64,
    lines: &[u8],
    fault: Option<LineFault>,
) {
    let mut source = MemSource::new(alloc, b"ab\ncd", &[read]).expect(rt, "memory");
    assert_reads(rt, alloc, &mut source, (9, 9), lines, fault);
}

#[test]
fn a_read_that_fails(rt: HostRuntime) {
    let alloc = rt.alloc();
    assert_fails_at(&rt, alloc, 1, b"", Some(LineFault::Read));
    assert_fails_at(&rt, alloc, 2, b"ab\n", Some(LineFault::Read));
    assert_fails_at(&rt, alloc, 5, b"ab\ncd\n", None);
}

#[test]
fn a_write_that_fails(rt: HostRuntime) {
    let mut second = MemSink::new(rt.alloc(), 9, &[2]).expect(&rt, "memory");
    put(&mut second, b"abc").expect(&rt, "the first write");
    let failed = put(&mut second, b"def");
    holds(&rt, "the second write", failed == Err(Failed));
    holds(&rt, "the first bytes", second.bytes() == b"abc".as_slice());
    put(&mut second, b"ghi").expect(&rt, "the third write");
    holds(&rt, "all bytes", second.bytes() == b"abcghi".as_slice());
}

#[test]
fn a_sink_with_little_room(rt: HostRuntime) {
    let mut small = MemSink::new(rt.alloc(), 3, &[]).expect(&rt, "memory");
    let failed = put(&mut small, b"abcd");
    holds(&rt, "a write of too much", failed == Err(Failed));
    holds(&rt, "what has room", small.bytes() == b"abc".as_slice());
    put(&mut small, b"").expect(&rt, "a write of nothing");
}

#[test]
fn a_sink_that_counts(rt: HostRuntime) {
    let mut sure = SureSink::new(rt.alloc()).expect(&rt, "memory");
    put(&mut sure, b"abcde").expect(&rt, "a write");
    holds(&rt, "how many", sure.taken() == 5);
}

#[test]
fn a_source_over_memory(rt: HostRuntime) {
    let bytes: &[u8] = b"ab\ncd\n";
    let mut source = StdSource::new(bytes);
    assert_reads(&rt, rt.alloc(), &mut source, (4, 9), bytes, None);
}

#[test]
fn a_sink_over_memory(rt: HostRuntime) {
    let mut text = Vec::new(rt.alloc());
    let mut sink = StdSink::new(&mut text);
    put(&mut sink, b"ab").expect(&rt, "the first write");
    put(&mut sink, b"c").expect(&rt, "the second write");
    holds(&rt, "the bytes", text.as_slice() == b"abc".as_slice());
}
