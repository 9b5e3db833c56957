//! The program that looks ahead.
use crate::asserting::holds;
use crate::running::{Failing, NONE, assert_does, assert_legal, count_newlines, joined, words_of};
use pl_io::{MemSink, MemSource};
use pl_main::{read_ahead, run_ahead};
use std::alloc::Global;
use std::process::Abort;

/// A survey of two shots; each shot wants the camera on. The second goal need not be served.
const MODEL: &str = "horizon 1000
lead 60
capacity power 10
state camera { off warm on } start off step off warm step warm on step on off
kind warm_up { duration 20 set camera warm at start set camera on at end }
kind shot {
  param frames 1 16 default 4
  duration frames
  use power 6
  must camera on
  link start warm_up end -60 0
}
kind survey {
  duration 40
  alternative { slot one shot slot two shot order one end two start 0 20 }
}
begin
";

const MESSAGES: &str = "goal 1 shot 100 150 must frames=8
goal 2 survey 200 300 may
tick 60
nonsense
tele camera on
goal 3 survey 400 420 must
tick 130
end
";

/// The status of a run with these words over this input, and what it writes.
fn ran(
    rt: &impl Abort,
    alloc: Global,
    words: &str,
    failing: Failing<'_>,
    input: &[u8],
) -> (u8, Vec<u8>) {
    let owned = words_of(rt, alloc, words);
    let mut source = MemSource::new(alloc, input, failing.0).expect(rt, "memory");
    let mut sink = MemSink::new(alloc, 1_000_000, failing.1).expect(rt, "memory");
    let status = run_ahead(alloc, &owned, &mut source, &mut sink);
    let text = Vec::from_slice(alloc, sink.bytes()).expect(rt, "memory");
    (status, text)
}

#[test]
fn two_runs_print_the_same(rt: HostRuntime) {
    let alloc = rt.alloc();
    let input = joined(&rt, alloc, MODEL, MESSAGES.as_bytes());
    let (status, first) = ran(&rt, alloc, "run 20 500", NONE, &input);
    holds(&rt, "the status", status == 0);
    let (_, second) = ran(&rt, alloc, "run 20 500", NONE, &input);
    holds(&rt, "the same", first.as_slice() == second.as_slice());
}

#[test]
fn its_journals_are_right(rt: HostRuntime) {
    let alloc = rt.alloc();
    let input = joined(&rt, alloc, MODEL, MESSAGES.as_bytes());
    for words in ["run 20 500", "run 3 50", "run 20 0"] {
        let (_, journal) = ran(&rt, alloc, words, NONE, &input);
        assert_legal(&rt, alloc, MODEL, &journal, "finished");
    }
}

#[test]
fn without_plans_to_look_at_it_is_the_least_chooser(rt: HostRuntime) {
    let alloc = rt.alloc();
    let input = joined(&rt, alloc, MODEL, MESSAGES.as_bytes());
    let (status, journal) = ran(&rt, alloc, "run 8 0", NONE, &input);
    assert_does(&rt, alloc, "run solo 8", NONE, &input, status, &journal);
}

/// Two cameras. An observation needs a warm-up that ends just when it begins.
const CAMERAS: &str = "horizon 200 lead 5
capacity one 5
capacity two 5
kind long_one { duration 10 use one 5 }
kind long_two { duration 10 use two 5 }
kind warm_one { duration 5 use one 5 }
kind warm_two { duration 5 use two 5 }
kind short_one { duration 5 use one 5 link start warm_one end 0 0 }
kind short_two { duration 5 use two 5 link start warm_two end 0 0 }
begin
";

/// Two ends are told at one moment. Each asks for two repairs: an observation and its warm-up have to move.
const ENDS: &str = "goal 1 long_one 10 10 must
goal 2 long_two 10 10 must
goal 3 short_one 25 60 must
goal 4 short_two 25 60 must
tick 6
tick 10
until 1 33
until 2 33
tick 11
end
";

#[test]
fn plans_anew_behind_each_measured_end(rt: HostRuntime) {
    let alloc = rt.alloc();
    let input = joined(&rt, alloc, CAMERAS, ENDS.as_bytes());
    let (status, journal) = ran(&rt, alloc, "run 3 300", NONE, &input);
    let count = count_newlines(&journal);
    assert!(rt; status == 0 && count == 45, "{status}, {count} entries");
}

/// Words, and the turns and the plans that they ask for, added up.
const WORDS: &str = "run 8 2000 = 2008
run 1 0 = 1
run 1000 1000000 = 1001000
run 0 5 = none
run 1001 5 = none
run 8 1000001 = none
run 8 = none
run solo 8 = none
run 8 5 5 = none
Run 8 5 = none
check = none";

/// Asserts a row of these.
fn assert_read(rt: &impl Abort, alloc: Global, row: &str) {
    let (text, wanted) = row.split_once(" = ").unwrap_or((row, ""));
    let words = words_of(rt, alloc, text);
    let found = read_ahead(&words).map(|ahead| ahead.turns.saturating_add(ahead.worlds));
    holds(rt, row, found == wanted.parse().ok());
}

#[test]
fn reads_words(rt: HostRuntime) {
    for row in WORDS.lines() {
        assert_read(&rt, rt.alloc(), row);
    }
}

/// Asserts that these words end with this status over this input and write this text.
fn assert_ran(
    rt: &impl Abort,
    alloc: Global,
    words: &str,
    failing: Failing<'_>,
    input: &[u8],
    status: u8,
    text: &[u8],
) {
    let (found, written) = ran(rt, alloc, words, failing, input);
    holds(rt, words, found == status && written.as_slice() == text);
}

#[test]
fn tells_faults(rt: HostRuntime) {
    let alloc = rt.alloc();
    let input = joined(&rt, alloc, MODEL, MESSAGES.as_bytes());
    let usage = b"usage: run N WORLDS\n";
    assert_ran(&rt, alloc, "run", NONE, &input, 2, usage);
    let fault = b"model: no begin\n";
    assert_ran(&rt, alloc, "run 8 50", NONE, b"horizon 9", 3, fault);
}

#[test]
fn stops_at_faults(rt: HostRuntime) {
    let alloc = rt.alloc();
    let input = joined(&rt, alloc, MODEL, MESSAGES.as_bytes());
    assert_ran(&rt, alloc, "run 8 50", (&[1], &[]), &input, 4, b"");
    assert_ran(&rt, alloc, "run 8 50", (&[], &[1]), &input, 5, b"");
}
