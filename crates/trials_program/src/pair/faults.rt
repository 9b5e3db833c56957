//! A pair and a crew that are stopped at each read and at each write, and wherever the output has no room left.
use crate::asserting::holds;
use crate::breaking::Breaking;
use crate::running::{Ended, NONE, ROOM, assert_legal, count_newlines, does, does_in, does_within};
use crate::worked::{HEAD, INPUT, JOURNAL, OPEN};
use pl_turn::NoGate;
use std::alloc::Global;
use std::process::Abort;
use std::sync::Wait;
use std::thread::Threads;

const TEAMS: [&str; 2] = ["run pair 8 7", "run crew 8 2 7"];

/// What was written, without a last line that is torn.
fn whole_lines(written: &[u8]) -> &[u8] {
    let mut end = 0;
    for (place, byte) in written.iter().enumerate() {
        if *byte == b'\n' {
            end = place.wrapping_add(1);
        }
    }
    written.get(..end).unwrap_or(b"")
}

/// Whether this is less than the open entry's line.
fn is_torn(written: &[u8]) -> bool {
    OPEN.as_bytes().starts_with(written) && written.len() < OPEN.len()
}

/// Asserts that what was written is a legal journal that has not ended, but for a last line that is torn.
fn assert_front<R: Abort + Threads + Wait + Sync>(rt: &R, alloc: Global, written: &[u8]) {
    let lines = whole_lines(written);
    if lines.is_empty() {
        holds(rt, "a torn line", is_torn(written));
        return;
    }
    assert_legal(rt, alloc, HEAD, lines, "unfinished");
}

/// How many rounds a journal has closed.
fn closed(journal: &[u8]) -> usize {
    let mut count = 0usize;
    for line in std::str::from_utf8(journal).unwrap_or("").lines() {
        if line.ends_with(" close") {
            count = count.wrapping_add(1);
        }
    }
    count
}

/// Whether rounds are written whole: nothing, the open entry, or rounds behind it.
fn is_whole(written: &[u8]) -> bool {
    written.is_empty() || written == OPEN.as_bytes() || written.ends_with(b" close\n")
}

/// Asserts that a run has written whole rounds: nothing before the six lines of the model have come, and the round of each
/// message behind them.
fn assert_rounds<R: Abort + Threads + Wait + Sync>(
    rt: &R,
    alloc: Global,
    ended: &Ended,
    status: u8,
    lines: usize,
) {
    let (found, sink) = ended;
    holds(rt, "the status", *found == status);
    let written = sink.bytes();
    holds(rt, "what is written", written.is_empty() == (lines < 6));
    holds(rt, "its rounds", closed(written) == lines.saturating_sub(6));
    holds(rt, "whole rounds", is_whole(written));
    assert_front(rt, alloc, written);
}

/// Each read behind these bytes fails.
fn breaks_off<R: Abort + Threads + Wait + Sync>(rt: &R, alloc: Global, words: &str, came: &[u8]) {
    let mut source = Breaking::new(came);
    let ended = does_within(rt, alloc, words, &mut source, ROOM);
    assert_rounds(rt, alloc, &ended, 4, count_newlines(came));
}

#[test]
fn stops_at_each_read(rt: HostRuntime) {
    let input = INPUT.as_bytes();
    for words in &TEAMS {
        for given in 0..input.len() {
            breaks_off(&rt, rt.alloc(), words, input.get(..given).unwrap_or(b""));
        }
    }
}

/// Whether the lines before one that could not be written are there, each whole.
fn is_before(written: &[u8], line: u64) -> bool {
    whole_lines(written).len() == written.len()
        && count_newlines(written).wrapping_add(1) as u64 == line
}

/// Runs with a write that fails.
fn fails_at<R: Abort + Threads + Wait + Sync>(rt: &R, alloc: Global, words: &str, write: u64) {
    let input = INPUT.as_bytes();
    let (status, sink) = does(rt, alloc, words, input, (&[], &[write]), &NoGate);
    holds(rt, "the status", status == 5);
    holds(rt, "the lines before it", is_before(sink.bytes(), write));
    assert_front(rt, alloc, sink.bytes());
}

/// A journal of the worked input has twelve lines at least.
#[test]
fn stops_at_each_write(rt: HostRuntime) {
    for words in &TEAMS {
        for write in 1..13 {
            fails_at(&rt, rt.alloc(), words, write);
        }
    }
}

/// Runs with room for so many bytes.
fn fills_up<R: Abort + Threads + Wait + Sync>(rt: &R, alloc: Global, words: &str, room: usize) {
    let (status, sink) = does_in(rt, alloc, words, INPUT.as_bytes(), room);
    holds(rt, "the status", status == 5);
    holds(rt, "no room left", sink.bytes().len() == room);
    assert_front(rt, alloc, sink.bytes());
}

/// No journal is shorter than the worked one.
#[test]
fn stops_where_no_room_is_left(rt: HostRuntime) {
    for words in &TEAMS {
        for room in 0..JOURNAL.len() {
            fills_up(&rt, rt.alloc(), words, room);
        }
    }
}

#[test]
fn stops_at_a_longer_line(rt: HostRuntime) {
    let alloc = rt.alloc();
    let blanks = " ".repeat(alloc, 4097).expect(&rt, "memory");
    let (front, _) = INPUT.split_once("end\n").unwrap_or(("", ""));
    let input = format!(in alloc; "{front}{blanks}\nend\n").expect(&rt, "memory");
    for words in &TEAMS {
        let ended = does(&rt, alloc, words, input.as_bytes(), NONE, &NoGate);
        assert_rounds(&rt, alloc, &ended, 6, 8);
    }
}
