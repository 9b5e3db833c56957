//! The demonstration: its input, its one line, and its statuses.
use crate::asserting::holds;
use crate::running::{NONE, assert_says, count_newlines};
use crate::tables::{Runs, assert_tables, failing};
use pl_report::demo_input;
use std::alloc::Global;
use std::process::Abort;
use std::sync::Wait;
use std::thread::Threads;

const INPUT: &str = "horizon 1000000
lead 100
capacity cam 10
level bat 0 1000 500
kind obs { duration 5 use cam 6 lower bat 3 at end }
kind shot { duration 4 use cam 4 }
kind charge { duration 10 raise bat 200 at end }
kind scan { duration 10 alternative { slot a shot slot b shot order a end b start 0 3 } }
begin
goal 1 obs 220 280 must
tick 20
goal 2 scan 240 300 must
tick 40
end
";

/// What is said of words that ask for nothing.
const USAGE: &str =
    "usage: run solo N | run pair N SEED | check | replay | report | demo N | run crew N P SEED | flex ID | forecast | improve N;";

/// Asserts that the input of two goals is the worked one.
fn assert_worked(rt: &impl Abort, alloc: Global) {
    let input = demo_input(alloc, 2).expect(rt, "memory");
    holds(rt, "the input", input.as_slice() == INPUT.as_bytes());
}

/// Asserts that the input of so many goals has its lines, and a model.
fn assert_made<R: Abort + Threads + Wait + Sync>(rt: &R, alloc: Global, goals: u32) {
    holds(rt, "some goals", 1 <= goals && goals <= 4000);
    let input = demo_input(alloc, goals).expect(rt, "memory");
    let lines = count_newlines(input.as_slice()) as u64;
    holds(rt, "its lines", lines == 2 * u64::from(goals) + 10);
    let said = "model ok: timelines 2 kinds 4";
    assert_says(rt, alloc, "check", input.as_slice(), 0, said);
}

#[test]
fn makes_inputs(rt: HostRuntime) {
    assert_worked(&rt, rt.alloc());
    for goals in [1, 2, 7, 64] {
        assert_made(&rt, rt.alloc(), goals);
    }
}

const WORDS: Runs<'static> = Runs {
    words: "",
    failing: NONE,
    input: ("", ""),
    text: ("", USAGE),
};

/// Words, no input, and what is said of them.
const SAID: &str = "demo 1 =>  => 0 => demo 1 entries 11 activities 1 dispatched 0 conflicts 0;
demo 2 =>  => 0 => demo 2 entries 20 activities 4 dispatched 0 conflicts 0;
demo 3 =>  => 0 => demo 3 entries 28 activities 5 dispatched 0 conflicts 0;
demo 10 =>  => 0 => demo 10 entries 88 activities 20 dispatched 0 conflicts 0;
demo 30 =>  => 0 => demo 30 entries 287 activities 60 dispatched 29 conflicts 0;
run solo 0 =>  => 2 => ^
demo 0 =>  => 2 => ^
demo 4001 =>  => 2 => ^
demo =>  => 2 => ^
 =>  => 2 => ^";

const UNWRITTEN: &str = "demo 1 =>  => 5 =>";

#[test]
fn shows_summaries(rt: HostRuntime) {
    let tables = [(WORDS, SAID), (failing(WORDS, (&[], &[1])), UNWRITTEN)];
    assert_tables(&rt, rt.alloc(), &tables);
}
