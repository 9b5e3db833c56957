//! Scripts of calls of a state timeline, each with its answer.
ghost use Rattle.std.specs.Prelude.{◌≡◌, ◌<◌, ◌≤◌, OnOk};

use crate::asserting::holds;
use crate::reading::{number, word};
use crate::timelines::asking::{Asked, ask};
use pl_lists::Copied;
use pl_state::{Must, Setting, StateTimeline};
use std::alloc::{AllocError, Global};
use std::process::Abort;

const STEPS: [(u32, u32); 3] = [(0, 1), (1, 2), (2, 0)];

// States off, warm and on, with the horizon 100; off at first.
fn camera(rt: &impl Abort, alloc: Global) -> StateTimeline
    ensures horizon { result.horizon ≡ 100 }
    ensures moment { result.moment ≡ 0 }
{
    let timeline = StateTimeline::new(alloc, 100, 3, 0, false, STEPS.as_slice());
    timeline.expect(rt, "memory")
}

// A set: its moment, its id and its state.
fn set_of(rest: &mut &str) -> Setting {
    Setting {
        at: number(rest),
        id: number(rest),
        index: 0,
        state: number(rest),
    }
}

// A must of the activity 5: its moments and its state.
fn must_of(rest: &mut &str) -> Must {
    Must {
        from: number(rest),
        to: number(rest),
        id: 5,
        index: 1,
        state: number(rest),
    }
}

// What a call asks for.
fn asked(name: &str, rest: &mut &str) -> Asked {
    match name {
        "put" => Asked::Put(set_of(rest)),
        "take" => Asked::Take(set_of(rest)),
        "need" => Asked::Need(must_of(rest)),
        "free" => Asked::Free(must_of(rest)),
        _ => Asked::Rebase(number(rest)),
    }
}

fn at(rt: &impl Abort, timeline: &StateTimeline, moment: u32, t: u32) -> u32
    requires horizon { timeline.now.horizon ≡ 100 }
    requires moment { timeline.now.moment ≡ moment }
{
    holds(rt, "a moment ahead", moment <= t && t < 100);
    timeline.at(t)
}

// What a call answers: a state, the activity of the last set, what is wrong, how many musts need their states at a moment, or a change.
fn answer(
    rt: &impl Abort,
    alloc: Global,
    timeline: &mut StateTimeline,
    moment: u32,
    call: &str,
) -> Result<String, AllocError>
    requires horizon { timeline.old.horizon ≡ 100 }
    requires moment { timeline.old.moment ≡ moment }
    ensures horizon { OnOk result (timeline.new.horizon ≡ 100) }
    ensures moment { OnOk result (timeline.new.moment ≡ moment) }
{
    let mut rest = call;
    match word(&mut rest) {
        "at" => format!(in alloc; "{}", at(rt, timeline, moment, number(&mut rest))),
        "wrong" => format!(in alloc; "{:?} {:?}", timeline.broken_musts(), timeline.bad_steps()),
        "last" => format!(in alloc;
            "{:?}",
            timeline.last_set(number(&mut rest)).map(|set| set.id)
        ),
        "needed" => format!(in alloc; "{}", timeline.musts_at(alloc, number(&mut rest))?.len()),
        name => {
            let change = ask(rt, timeline, asked(name, &mut rest))?;
            format!(in alloc; "{:?}", change.copy(alloc)?)
        }
    }
}

// Makes the calls of a script one after the other. Each row has a call and how its answer begins, as it is printed.
fn play(rt: &impl Abort, alloc: Global, timeline: &mut StateTimeline, moment: u32, script: &str)
    requires horizon { timeline.old.horizon ≡ 100 }
    requires moment { timeline.old.moment ≡ moment }
    ensures horizon { timeline.new.horizon ≡ 100 }
    ensures moment { timeline.new.moment ≡ moment }
{
    for row in script.lines() {
        let (call, wanted) = row.split_once(" = ").unwrap_or((row, ""));
        let text = answer(rt, alloc, timeline, moment, call).expect(rt, "memory");
        holds(rt, row, text.starts_with(wanted));
    }
    holds(rt, "enough memory", !timeline.spoiled());
}

const LOW_ID_FIRST: &str = "put 10 7 2
put 10 3 1
at 9 = 0
at 10 = 2
last 9 = None
last 10 = Some(7)
last 99 = Some(7)
wrong = [] []";

const LOW_ID_LAST: &str = "put 10 3 2
put 10 7 1 = StateChange { musts_went: Items { items: [] }, musts_came: Items { items: [] }, steps_went: Items { items: [] }, steps_came: Items { items: [BadSet { at: 10, id: 7, index: 0 }] } }
at 10 = 1
wrong = [] [BadSet { at: 10, id: 3, index: 0 }, BadSet { at: 10, id: 7, index: 0 }]
take 10 3 2 = StateChange { musts_went: Items { items: [] }, musts_came: Items { items: [] }, steps_went: Items { items: [BadSet { at: 10, id: 3, index: 0 }, BadSet { at: 10, id: 7, index: 0 }] }, steps_came: Items { items: [] } }
wrong = [] []";

#[test]
fn two_sets_at_one_moment(rt: HostRuntime) {
    for script in [LOW_ID_FIRST, LOW_ID_LAST] {
        let mut timeline = camera(&rt, rt.alloc());
        play(&rt, rt.alloc(), &mut timeline, 0, script);
    }
}

// A must from 20 up to 40 whose state comes at 25.
const LATE: &str = "need 20 40 1
needed 19 = 0
needed 20 = 1
needed 39 = 1
needed 40 = 0
put 25 2 1
wrong = [BrokenMust { id: 5, index: 1, from: 20, to: 25 }] []";

const TAKEN: &str =
    "take 25 2 1 = StateChange { musts_went: Items { items: [BrokenMust { id: 5, index: 1, from: 20, to: 25 }] }, musts_came: Items { items: [BrokenMust { id: 5, index: 1, from: 20, to: 40 }] }, steps_went";

const BROKEN: &str = "wrong = [BrokenMust { id: 5, index: 1, from: 20, to: 40 }] []";

#[test]
fn a_must(rt: HostRuntime) {
    let alloc = rt.alloc();
    let mut timeline = camera(&rt, alloc);
    play(&rt, alloc, &mut timeline, 0, LATE);
    play(&rt, alloc, &mut timeline, 0, TAKEN);
    let mut copy = timeline.copy(alloc).expect(&rt, "memory");
    play(&rt, alloc, &mut timeline, 0, "free 20 40 1\nwrong = [] []");
    play(&rt, alloc, &mut copy, 0, BROKEN);
}

const AT_22: &str = "wrong = [BrokenMust { id: 5, index: 1, from: 22, to: 25 }] []
rebase 1
wrong = [] []
at 22 = 1";

#[test]
fn a_must_and_the_base(rt: HostRuntime) {
    let alloc = rt.alloc();
    let mut timeline = camera(&rt, alloc);
    play(&rt, alloc, &mut timeline, 0, LATE);
    timeline.advance(22).expect(&rt, "memory");
    play(&rt, alloc, &mut timeline, 22, AT_22);
}
