//! A run that fills its log.
use crate::asserting::holds;
use crate::running::{count_newlines, does_in};
use std::alloc::Global;
use std::process::Abort;
use std::sync::Wait;
use std::thread::Threads;

fn push_tick(rt: &impl Abort, alloc: Global, text: &mut String, moment: u32) {
    let line = format!(in alloc; "tick {moment}\n").expect(rt, "memory");
    text.push_str(line.as_str()).expect(rt, "memory");
}

/// A tick of four entries at each of 62,498 moments, two wrong lines of three, and a last text. Ahead of that text the log has
/// 249,999 entries with the open one.
fn input(rt: &impl Abort, alloc: Global, last: &str) -> String {
    let model = "horizon 100000 lead 30 kind obs { duration 5 }\nbegin\n";
    let mut text = String::from_str(alloc, model).expect(rt, "memory");
    for moment in 1..62_499 {
        push_tick(rt, alloc, &mut text, moment);
    }
    text.push_str("x\nx\n").expect(rt, "memory");
    text.push_str(last).expect(rt, "memory");
    text
}

/// Asserts that a run has as many entries as may be, and ends so. Behind all others the text `last` is given.
fn assert_fills<R: Abort + Threads + Wait + Sync>(
    rt: &R,
    alloc: Global,
    last: &str,
    status: u8,
    entry: &[u8],
) {
    let input = input(rt, alloc, last);
    let (found, sink) = does_in(rt, alloc, "run solo 1", input.as_bytes(), 8_000_000);
    holds(rt, "the status", found == status);
    holds(rt, "all entries", count_newlines(sink.bytes()) == 250_000);
    holds(rt, "the last entry", sink.bytes().ends_with(entry));
}

#[test]
fn fills_the_log(rt: HostRuntime) {
    let alloc = rt.alloc();
    let end = b"\n249999 in end : end\n";
    assert_fills(&rt, alloc, "end\nx\n", 0, end);
    let more = b"\n249999 in bad-line : x\n";
    assert_fills(&rt, alloc, "x\nend\n", 7, more);
}
