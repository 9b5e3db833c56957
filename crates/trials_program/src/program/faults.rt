//! The worked run, stopped at each read and at each write, and wherever the output has no room left.
use crate::asserting::holds;
use crate::breaking::Breaking;
use crate::running::{
    Ended, ROOM, assert_does, count_newlines, does_in, does_within, joined, line_of, sides,
};
use crate::worked::{HEAD, INPUT, JOURNAL};
use std::alloc::Global;
use std::process::Abort;
use std::sync::Wait;
use std::thread::Threads;

/// The first lines of the worked journal, so many of them.
fn first_lines(count: usize) -> &'static [u8] {
    let bytes = JOURNAL.as_bytes();
    let mut left = count;
    for (place, byte) in bytes.iter().enumerate() {
        if left == 0 {
            return bytes.get(..place).unwrap_or(b"");
        }
        if *byte == b'\n' {
            left = left.wrapping_sub(1);
        }
    }
    bytes
}

/// How many lines are written once so many lines of the input have come. The model and its `begin` are six.
fn written_behind(lines: usize) -> usize {
    match lines {
        0..=5 => 0,
        6 => 1,
        7 => 6,
        8 => 11,
        _ => 12,
    }
}

/// Runs over a source that breaks off behind so many bytes.
fn breaks_off<R: Abort + Threads + Wait + Sync>(rt: &R, alloc: Global, given: usize) {
    let came = INPUT.as_bytes().get(..given).unwrap_or(b"");
    let lines = count_newlines(came);
    let mut source = Breaking::new(came);
    let (status, sink) = does_within(rt, alloc, "run solo 8", &mut source, ROOM);
    let wanted = if lines < 9 { 4 } else { 0 };
    holds(rt, "the status behind each byte", status == wanted);
    let text = first_lines(written_behind(lines));
    holds(rt, "the text behind each byte", sink.bytes() == text);
}

#[test]
fn stops_at_each_read(rt: HostRuntime) {
    for given in 0..INPUT.len().wrapping_add(1) {
        breaks_off(&rt, rt.alloc(), given);
    }
}

/// Runs with a write that fails. The thirteenth write is never made.
fn fails_at<R: Abort + Threads + Wait + Sync>(rt: &R, alloc: Global, write: u64) {
    let status = if write < 13 { 5 } else { 0 };
    let text = first_lines(write.wrapping_sub(1) as usize);
    let input = INPUT.as_bytes();
    assert_does(
        rt,
        alloc,
        "run solo 8",
        (&[], &[write]),
        input,
        status,
        text,
    );
}

#[test]
fn stops_at_each_write(rt: HostRuntime) {
    for write in 1..14 {
        fails_at(&rt, rt.alloc(), write);
    }
}

/// Whether a run wrote as much of the text as there was room for, and then stopped.
fn is_full(ended: &Ended, room: usize, text: &[u8]) -> bool {
    let (status, sink) = ended;
    let written = sink.bytes();
    *status == 5 && written.len() == room && text.starts_with(written)
}

/// Whether a run wrote the whole text.
fn is_whole(ended: &Ended, text: &[u8]) -> bool {
    ended.0 != 5 && ended.1.bytes() == text
}

/// Runs with room for each number of bytes up to the whole text.
fn fills_up<R: Abort + Threads + Wait + Sync>(
    rt: &R,
    alloc: Global,
    words: &str,
    input: &[u8],
    text: &[u8],
) {
    for room in 0..text.len() {
        let ended = does_in(rt, alloc, words, input, room);
        holds(rt, words, is_full(&ended, room, text));
    }
    let ended = does_in(rt, alloc, words, input, text.len());
    holds(rt, words, is_whole(&ended, text));
}

/// Words over the worked run's model with its journal behind it, and what is due.
const LINES: &str = "check => model ok: timelines 0 kinds 1
replay => journal ok: entries 12 finished
demo 2 => demo 2 entries 20 activities 4 dispatched 0 conflicts 0
run solo 0 => usage: run solo N | run pair N SEED | check | replay | report | demo N | run crew N P SEED | flex ID | forecast | improve N";

const REPORT: &str = "report entries 12 now 10 committed 40 dispatched 1 conflicts 0
goal 1 obs 10 20 must served 1
activity 1 obs 10 15 root committed
command 1 obs 10
";

/// Fills up with the one line of a row.
fn fills_line<R: Abort + Threads + Wait + Sync>(rt: &R, alloc: Global, input: &[u8], row: &str) {
    let (words, line) = sides(row);
    let text = line_of(rt, alloc, line);
    fills_up(rt, alloc, words, input, text.as_bytes());
}

#[test]
fn runs_stop_where_no_room_is_left(rt: HostRuntime) {
    let (input, text) = (INPUT.as_bytes(), JOURNAL.as_bytes());
    fills_up(&rt, rt.alloc(), "run solo 8", input, text);
}

#[test]
fn commands_stop_where_no_room_is_left(rt: HostRuntime) {
    let alloc = rt.alloc();
    let input = joined(&rt, alloc, HEAD, JOURNAL.as_bytes());
    for row in LINES.lines() {
        fills_line(&rt, alloc, &input, row);
    }
    fills_up(&rt, alloc, "report", &input, REPORT.as_bytes());
}
