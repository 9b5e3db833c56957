//! Whole runs of a crew.
use crate::asserting::holds;
use crate::crew::gathering::Gathering;
use crate::pair::missions::{IMAGE, LARGE};
use crate::running::{NONE, assert_does, assert_says, count_newlines, does, joined};
use crate::worked::{HEAD, INPUT, OPEN};
use pl_turn::NoGate;
use std::alloc::Global;
use std::process::Abort;
use std::sync::Wait;
use std::thread::Threads;

/// The line of a planner in a journal, without its first word: how many entries it made, and how many repairs of it were made.
fn told(journal: &[u8], planner: &str) -> Option<(u64, u64)> {
    for line in std::str::from_utf8(journal).unwrap_or("").lines() {
        if let Some(rest) = line.strip_prefix("# planner ") {
            let (number, rest) = rest.split_once(" entries ").unwrap_or((rest, ""));
            let (entries, repairs) = rest.split_once(" ok ").unwrap_or((rest, ""));
            if number == planner {
                return Some((entries.parse().ok()?, repairs.parse().ok()?));
            }
        }
    }
    None
}

/// Asserts that `replay` takes this journal, with the lines of so many planners behind its entries.
fn assert_finished<R: Abort + Threads + Wait + Sync>(
    rt: &R,
    alloc: Global,
    head: &str,
    journal: &[u8],
    planners: usize,
) {
    let input = joined(rt, alloc, head, journal);
    let entries = count_newlines(journal).saturating_sub(planners);
    let line = format!(in alloc; "journal ok: entries {entries} finished").expect(rt, "memory");
    assert_says(rt, alloc, "replay", &input, 0, line.as_str());
}

/// An input without messages: no planner makes an entry.
#[test]
fn planners_without_messages(rt: HostRuntime) {
    let alloc = rt.alloc();
    let text = format!(in alloc;
        "{OPEN}1 in eof\n# planner 1 entries 0 ok 0\n# planner 2 entries 0 ok 0\n"
    ).expect(&rt, "memory");
    assert_does(
        &rt,
        alloc,
        "run crew 8 2 7",
        NONE,
        HEAD.as_bytes(),
        0,
        text.as_bytes(),
    );
}

// What stands behind the journal before the line of the first planner, and before that of the second.
const FRONTS: [&str; 2] = ["", "# planner 1 entries 0 ok 0\n"];

/// The journal of an input without messages is written, and then the line of a planner is not: what stands before it is there.
#[test]
fn a_planner_is_not_told_of(rt: HostRuntime) {
    let alloc = rt.alloc();
    for (told, before) in FRONTS.iter().enumerate() {
        let before = *before;
        let write = told.wrapping_add(3) as u64;
        let (status, out) = does(
            &rt,
            alloc,
            "run crew 8 2 7",
            HEAD.as_bytes(),
            (&[], &[write]),
            &NoGate,
        );
        let text = format!(in alloc; "{OPEN}1 in eof\n{before}").expect(&rt, "memory");
        holds(
            &rt,
            "the lines before it",
            status == 5 && out.bytes() == text.as_bytes(),
        );
    }
}

/// The executive and both planners stand at their first act at once, and neither planner makes a second entry before the other has made one.
#[test]
fn two_planners_meet(rt: HostRuntime) {
    let alloc = rt.alloc();
    let gate = Gathering::new();
    let (status, out) = does(&rt, alloc, "run crew 8 2 7", INPUT.as_bytes(), NONE, &gate);
    holds(&rt, "all came", status == 0 && gate.was_held());
    let made = |planner| told(out.bytes(), planner).unwrap_or((0, 0)).0;
    holds(&rt, "both made entries", made("1") >= 1 && made("2") >= 1);
    assert_finished(&rt, alloc, HEAD, out.bytes(), 2);
}

/// Two missions, and crews of two to eight.
#[test]
fn journals_of_crews_are_legal(rt: HostRuntime) {
    let alloc = rt.alloc();
    let input = joined(&rt, alloc, LARGE, IMAGE.as_bytes());
    for (words, planners) in [
        ("run crew 16 2 1", 2),
        ("run crew 16 4 1", 4),
        ("run crew 16 8 1", 8),
    ] {
        let (status, out) = does(&rt, alloc, words, &input, NONE, &NoGate);
        holds(&rt, words, status == 0);
        assert_finished(&rt, alloc, LARGE, out.bytes(), planners);
    }
}
