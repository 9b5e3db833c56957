//! Runs of the program over memory.
use crate::asserting::holds;
use pl_io::{MemSink, MemSource, Source};
use pl_main::run;
use pl_turn::{Gate, NoGate};
use std::alloc::Global;
use std::process::Abort;
use std::sync::Wait;
use std::thread::Threads;

/// What fails: the reads and the writes of these numbers, from 1.
pub type Failing<'a> = (&'a [u64], &'a [u64]);

pub const NONE: Failing<'static> = (&[], &[]);

/// The room of an output, in bytes.
pub const ROOM: usize = 20_000;

/// A status, and what was written.
pub type Ended = (u8, MemSink);

/// The words of a text.
pub fn words_of(rt: &impl Abort, alloc: Global, text: &str) -> Vec<String> {
    let mut words = Vec::new(alloc);
    for word in text.split_whitespace() {
        let owned = String::from_str(alloc, word).expect(rt, "memory");
        words.push(owned).expect(rt, "memory");
    }
    words
}

pub fn joined(rt: &impl Abort, alloc: Global, front: &str, rest: &[u8]) -> Vec<u8> {
    let mut bytes = Vec::from_slice(alloc, front.as_bytes()).expect(rt, "memory");
    bytes.extend_from_slice(rest).expect(rt, "memory");
    bytes
}

/// The two sides of a row, which ` => ` parts; the second is empty where nothing parts them.
pub fn sides(row: &str) -> (&str, &str) {
    let (front, rest) = row.split_once(" =>").unwrap_or((row, ""));
    (front, rest.strip_prefix(' ').unwrap_or(rest))
}

/// The text with a newline behind it.
pub fn line_of(rt: &impl Abort, alloc: Global, text: &str) -> String {
    format!(in alloc; "{text}\n").expect(rt, "memory")
}

pub fn count_newlines(bytes: &[u8]) -> usize {
    let mut count = 0usize;
    for byte in bytes {
        if *byte == b'\n' {
            count = count.wrapping_add(1);
        }
    }
    count
}

/// What some words do with a source. The sink has room for so many bytes.
pub fn does_within<R: Abort + Threads + Wait + Sync, S: Source>(
    rt: &R,
    alloc: Global,
    words: &str,
    source: &mut S,
    room: usize,
) -> Ended {
    let owned = words_of(rt, alloc, words);
    let mut sink = MemSink::new(alloc, room, &[]).expect(rt, "memory");
    let status = run(rt, alloc, &owned, source, &mut sink, &NoGate);
    (status, sink)
}

/// What some words do with an input. The sink has room for so many bytes.
pub fn does_in<R: Abort + Threads + Wait + Sync>(
    rt: &R,
    alloc: Global,
    words: &str,
    input: &[u8],
    room: usize,
) -> Ended {
    let mut source = MemSource::new(alloc, input, &[]).expect(rt, "memory");
    does_within(rt, alloc, words, &mut source, room)
}

/// What some words do with an input.
pub fn does<R: Abort + Threads + Wait + Sync, G: Gate + Sync>(
    rt: &R,
    alloc: Global,
    words: &str,
    input: &[u8],
    failing: Failing<'_>,
    gate: &G,
) -> Ended {
    let owned = words_of(rt, alloc, words);
    let mut source = MemSource::new(alloc, input, failing.0).expect(rt, "memory");
    let mut sink = MemSink::new(alloc, ROOM, failing.1).expect(rt, "memory");
    let status = run(rt, alloc, &owned, &mut source, &mut sink, gate);
    (status, sink)
}

/// Asserts that these words end with this status over this input and write this text.
pub fn assert_does<R: Abort + Threads + Wait + Sync>(
    rt: &R,
    alloc: Global,
    words: &str,
    failing: Failing<'_>,
    input: &[u8],
    status: u8,
    text: &[u8],
) {
    let (found, sink) = does(rt, alloc, words, input, failing, &NoGate);
    holds(rt, words, found == status && sink.bytes() == text);
}

/// Asserts that these words end with this status over this input and write this one line.
pub fn assert_says<R: Abort + Threads + Wait + Sync>(
    rt: &R,
    alloc: Global,
    words: &str,
    input: &[u8],
    status: u8,
    line: &str,
) {
    let text = line_of(rt, alloc, line);
    assert_does(rt, alloc, words, NONE, input, status, text.as_bytes());
}

/// Asserts that `replay` takes this journal, with an entry in each line, and finds it `finished` or `unfinished`.
pub fn assert_legal<R: Abort + Threads + Wait + Sync>(
    rt: &R,
    alloc: Global,
    head: &str,
    journal: &[u8],
    end: &str,
) {
    let input = joined(rt, alloc, head, journal);
    let entries = count_newlines(journal);
    let line = format!(in alloc; "journal ok: entries {entries} {end}").expect(rt, "memory");
    assert_says(rt, alloc, "replay", &input, 0, line.as_str());
}
