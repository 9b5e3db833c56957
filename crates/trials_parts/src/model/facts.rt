ghost use Rattle.std.specs.Prelude.{◌≡◌, ◌∷◌, [], Some, None, pos, negsuc, true};
ghost use Rattle.pl_facts.specs.Bases.{first_bases};

use crate::asserting::holds;
use crate::reading::{model, number, word};
use pl_facts::{Bases, Goal, Goals};
use pl_lists::{Copied, Items};
use pl_model::{Model, Timeline};
use std::alloc::Global;
use std::process::Abort;

/// The presets of each goal: a value, and none.
fn presets(rt: &impl Abort, alloc: Global) -> Items<Option<i64>> {
    let mut presets = Items::new(alloc);
    presets.push(Some(8)).expect(rt, "memory");
    presets.push(None).expect(rt, "memory");
    presets
}

fn goal(number: u32, presets: Items<Option<i64>>) -> Goal
    ensures { result.number ≡ number }
{
    Goal {
        number,
        kind: 3,
        earliest: 20,
        latest: 60,
        must: false,
        presets,
        dropped: false,
    }
}

/// Takes the goal of this number, unless there is one.
fn accept(rt: &impl Abort, alloc: Global, goals: &mut Goals, number: u32) -> bool {
    if goals.get(number).is_some() {
        return false;
    }
    goals
        .push(goal(number, presets(rt, alloc)))
        .expect(rt, "memory");
    true
}

/// Drops the goal of this number, where there is one.
fn withdraw(goals: &mut Goals, number: u32) -> bool {
    if goals.get(number).is_none() {
        return false;
    }
    goals.drop_goal(number);
    true
}

/// What a call answers as a number: 1 for yes and 0 for no.
fn answer(rt: &impl Abort, alloc: Global, goals: &mut Goals, call: &str) -> Option<u32> {
    let mut rest = call;
    let name = word(&mut rest);
    let number = number(&mut rest);
    match name {
        "accept" => Some(u32::from(accept(rt, alloc, goals, number))),
        "withdraw" => Some(u32::from(withdraw(goals, number))),
        "number-at" => Some(goals.nth(number)?.number),
        "is-dropped" => Some(u32::from(goals.get(number)?.dropped)),
        "is-empty" => Some(u32::from(goals.is_empty())),
        _ => Some(goals.len()),
    }
}

/// Makes the calls of a script one after the other. Each line has a call and its answer.
fn assert_answers(rt: &impl Abort, alloc: Global, goals: &mut Goals, script: &str) {
    for line in script.lines() {
        let (call, wanted) = line.split_once(" = ").unwrap_or((line, ""));
        let found = answer(rt, alloc, goals, call);
        holds(rt, line, found == wanted.parse().ok());
    }
}

const ACCEPTED: &str = "is-empty = 1
number-at 0 = none
accept 7 = 1
accept 2 = 1
accept 900 = 1
accept 2 = 0
len = 3
is-empty = 0
number-at 0 = 7
number-at 2 = 900
number-at 3 = none";

const WITHDRAWN: &str = "withdraw 2 = 1
withdraw 3 = 0
is-dropped 2 = 1
is-dropped 7 = 0";

#[test]
fn goals_by_number_and_place(rt: HostRuntime) {
    let alloc = rt.alloc();
    let mut goals = Goals::new(alloc);
    assert_answers(&rt, alloc, &mut goals, ACCEPTED);
    let mut before = goals.copy(alloc).expect(&rt, "memory");
    assert_answers(&rt, alloc, &mut goals, WITHDRAWN);
    assert_answers(&rt, alloc, &mut before, "is-dropped 2 = 0\nlen = 3");
}

/// A capacity, a level that starts at 500, and a state that starts as its third.
const MODEL: &str =
    "horizon 100 lead 10 capacity c 1 level l 0 1000 500 state s { a b d } start d any
kind k { duration 5 }";

/// Whether the timelines are a capacity, a level that starts at 500, and a state that starts as its third.
fn has_starts(model: &Model) -> bool
    ensures { result ≡ true → first_bases model.now ≡ None ∷ Some (negsuc 0, pos 500) ∷ Some (negsuc 0, pos 2) ∷ [] }
{
    match model.timelines.as_slice() {
        [
            Timeline::Capacity { .. },
            Timeline::Level { start, .. },
            Timeline::States { start: first, .. },
        ] => { *start == 500 && *first == 2 }
        _ => false,
    }
}

#[test]
fn bases_of_a_model(rt: HostRuntime) {
    let alloc = rt.alloc();
    let model = model(&rt, alloc, MODEL);
    holds(&rt, "the starts", has_starts(&model));
    let mut bases = Bases::new(alloc, &model).expect(&rt, "memory");
    holds(&rt, "the level", bases.get(1) == (-1, 500));
    holds(&rt, "the state", bases.get(2) == (-1, 2));
    bases.set(1, 40, 90);
    let after = bases.copy(alloc).expect(&rt, "memory");
    holds(&rt, "the level then", after.get(1) == (40, 90));
    holds(&rt, "the state then", after.get(2) == (-1, 2));
}
