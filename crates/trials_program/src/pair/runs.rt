//! Whole runs of a pair.
use crate::asserting::holds;
use crate::pair::meeting::Meeting;
use crate::pair::missions::{GOAL, IMAGE, LARGE, SMALL};
use crate::running::{Failing, NONE, assert_does, assert_legal, assert_says, does, joined};
use pl_turn::NoGate;
use std::alloc::Global;
use std::process::Abort;
use std::sync::Wait;
use std::thread::Threads;

/// The planner and the executive stand at their first event at once.
#[test]
fn two_threads_meet(rt: HostRuntime) {
    let alloc = rt.alloc();
    let gate = Meeting::new();
    let input = joined(&rt, alloc, SMALL, GOAL.as_bytes());
    let (status, out) = does(&rt, alloc, "run pair 8 1", &input, NONE, &gate);
    holds(&rt, "both came", status == 0 && gate.was_held());
    assert_legal(&rt, alloc, SMALL, out.bytes(), "finished");
}

/// Whether a line of a journal is this one, behind its number.
fn has_entry(journal: &[u8], wanted: &str) -> bool {
    for line in std::str::from_utf8(journal).unwrap_or("").lines() {
        let (_number, entry) = line.split_once(' ').unwrap_or((line, ""));
        if entry == wanted {
            return true;
        }
    }
    false
}

/// Asserts that a pair with this seed makes this entry.
fn assert_makes<R: Abort + Threads + Wait + Sync>(rt: &R, alloc: Global, words: &str, entry: &str) {
    let input = joined(rt, alloc, SMALL, GOAL.as_bytes());
    let (status, out) = does(rt, alloc, words, &input, NONE, &NoGate);
    holds(rt, words, status == 0 && has_entry(out.bytes(), entry));
}

/// The first word that the seed 0 gives is divisible by 8, and the third is 2 modulo 11. The first word of the seed 1 is not.
#[test]
fn the_seed_tells(rt: HostRuntime) {
    let alloc = rt.alloc();
    let third = "fix 20 open-goal 1 0 10 20 by add obs 12 goal 1 : ok";
    assert_makes(&rt, alloc, "run pair 8 0", third);
    let first = "fix 20 open-goal 1 0 10 20 by add obs 10 goal 1 : ok";
    assert_makes(&rt, alloc, "run pair 8 1", first);
}

/// Asserts that a pair over a model and messages ends with this status, and leaves a journal that is finished or not.
fn assert_leaves<R: Abort + Threads + Wait + Sync>(
    rt: &R,
    alloc: Global,
    (model, messages): (&str, &str),
    failing: Failing<'_>,
    wanted: u8,
    end: &str,
) {
    let input = joined(rt, alloc, model, messages.as_bytes());
    let (status, out) = does(rt, alloc, "run pair 8 7", &input, failing, &NoGate);
    holds(rt, messages, status == wanted);
    assert_legal(rt, alloc, model, out.bytes(), end);
}

#[test]
fn journals_are_legal(rt: HostRuntime) {
    let alloc = rt.alloc();
    assert_leaves(&rt, alloc, (SMALL, GOAL), NONE, 0, "finished");
    assert_leaves(&rt, alloc, (LARGE, IMAGE), NONE, 0, "finished");
}

#[test]
fn stops_at_faults_of_the_input(rt: HostRuntime) {
    let alloc = rt.alloc();
    let input = joined(&rt, alloc, SMALL, GOAL.as_bytes());
    assert_does(&rt, alloc, "run pair 8 7", (&[1], &[]), &input, 4, b"");
    let started = (SMALL, "goal 1 obs 10 20 must\n");
    assert_leaves(&rt, alloc, started, (&[2], &[]), 4, "unfinished");
}

#[test]
fn refuses_texts(rt: HostRuntime) {
    let alloc = rt.alloc();
    let short = b"horizon 9 lead 3";
    assert_says(&rt, alloc, "run pair 8 7", short, 3, "model: no begin");
    let unknown = b"horizon 9 lead 3 kind a { duration b }\nbegin\nend\n";
    assert_says(
        &rt,
        alloc,
        "run pair 8 7",
        unknown,
        3,
        "model: unknown name: b",
    );
}
