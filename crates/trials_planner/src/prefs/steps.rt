//! Scores of plans and the steps that better them, worked by hand.
use crate::asserting::{holds, is_printed};
use crate::board::codes::{PLAIN, VALUES};
use crate::prefs::plans::scored;
use crate::reading::sides;
use pl_points::{Quiet, Steps};
use pl_prefs::{ScoreFault, Scored};
use std::alloc::Global;
use std::process::Abort;

/// How many steps are made at most.
const MOST: u32 = 9;

const GOALS: &str = "horizon 100 lead 30 kind obs { duration 5 }";

/// Changes, what is preferred then, and the score with each step and the score behind it; `;` is a newline.
const SERVING: &str =
    "goal 1 10 20 must;add 0 10 goal 1 => prefer obs late 2 => 20;Shift { id: 1, start: 20 } 40
goal 1 10 20 must;add 0 10 goal 1 => prefer obs early 2 => 180
goal 1 10 20 must;add 0 15 goal 1 => prefer obs early 1 => 85;Shift { id: 1, start: 10 } 90
goal 1 10 20 must;add 0 10 goal 1 => prefer obs early 2;prefer obs late 3 => 210;Shift { id: 1, start: 20 } 220
goal 1 10 20 must;add 0 10 goal 1 => prefer obs early 2;prefer obs early 2 => 360
goal 1 10 20 must => prefer obs late 2 => conflicts 1
goal 1 10 20 must;goal 2 10 20 may => prefer obs late 2 => conflicts 2
goal 2 10 20 may;drop 2 => prefer obs late 2 => 0
add 0 96 => prefer obs late 2 => conflicts 1";

/// A greater gain goes first, and of equal gains that of the lesser id. What is committed counts, and stays.
const STARTS: &str =
    "add 0 10;add 0 30;add 1 50 => prefer plain late 1;prefer long late 3 => 190;Shift { id: 3, start: 78 } 274;Shift { id: 1, start: 92 } 356;Shift { id: 2, start: 92 } 418
add 0 10;add 0 30;add 1 50 => prefer long early 7 => 350;Shift { id: 3, start: 1 } 693
add 0 10;add 0 10 => prefer plain late 1 => 20;Shift { id: 1, start: 92 } 102;Shift { id: 2, start: 92 } 184
add 0 10;add 0 30;commit 20 => prefer plain late 1 => 40;Shift { id: 2, start: 92 } 102
add 0 10;add 0 30;commit 20 => prefer plain early 2 => 320;Shift { id: 2, start: 20 } 340
add 0 10;add 0 30;commit 31 => prefer plain early 2 => 320
add 0 30;tick 20 => prefer plain early 2 => 140;Shift { id: 1, start: 21 } 158
add 0 10 => prefer long early 1000 => 0
 => prefer plain early 1 => 0";

/// Bound and dependent values count, and one that is missing counts 0. A value that makes another bad is none to take.
const TAKEN: &str =
    "add 0 10;assign 1 0 5;assign 1 1 2 => prefer free value m 10 => 20;Assign { id: 1, param: 1, value: 9 } 90
add 1 20;assign 1 0 3 => prefer sum value n 1;prefer sum value m 1 => 7;Assign { id: 1, param: 0, value: 8 } 17
add 4 10;assign 1 0 5 => prefer back value n 2 => 10;Assign { id: 1, param: 0, value: 9 } 18
add 4 10;commit 11 => prefer back value n 2 => 8
add 0 10;commit 11 => prefer free value n 5;prefer free early 1 => 90
add 7 10;detail 1 0;assign 1 0 5 => prefer child value q 3;prefer whole early 1 => 105;Shift { id: 1, start: 1 } 114;Assign { id: 1, param: 0, value: 7 } 120
add 0 84;assign 1 0 5;assign 1 1 1 => prefer free late 1;prefer free value m 1 => 85;Shift { id: 1, start: 92 } 93;Assign { id: 1, param: 1, value: 9 } 101
add 0 84;assign 1 0 5;assign 1 1 1 => prefer free late 1;prefer free value m 2 => 86;Assign { id: 1, param: 1, value: 9 } 102;Shift { id: 1, start: 92 } 110";

const LEVELS: &str = "horizon 100 lead 30
level bat 0 200 90
level gas 0 200 50
kind down { param n 0 15 duration 8 lower bat n at end }
kind up { duration 5 raise bat 20 at start raise gas 10 at start }";

/// A level counts at the last moment before the horizon. What comes at the horizon or before it was told last counts no more.
const ENDS: &str = " => prefer level bat 2 => 180
add 0 40;assign 1 0 10 => prefer level bat 2 => 160;Shift { id: 1, start: 92 } 180
add 0 91;assign 1 0 10 => prefer level bat 2 => 160;Shift { id: 1, start: 92 } 180
add 0 92;assign 1 0 10 => prefer level bat 2 => 180
add 0 40;assign 1 0 10 => prefer level bat 2;prefer down early 1 => 220;Shift { id: 1, start: 1 } 259;Assign { id: 1, param: 0, value: 0 } 279
add 0 40;assign 1 0 10;add 1 20 => prefer level bat 2 => 200;Shift { id: 1, start: 92 } 220
add 1 20 => prefer level bat 1;prefer level gas 3 => 290
add 1 20;commit 21;tick 50;tele 0 100 => prefer level bat 2 => 200
add 1 50;commit 51;tick 50;tele 0 100 => prefer level bat 2 => 200
add 1 51;tick 50;tele 0 100 => prefer level bat 2 => 240
tick 99 => prefer level bat 2 => 180
tick 100 => prefer level bat 2 => 0";

const CAPACITY: &str = "horizon 100 lead 30 capacity cam 10
kind short { duration 10 use cam 6 }";

/// A move that would leave a conflict is none to make, however much it gains.
const USES: &str = "add 0 5;add 0 90 => prefer short late 1 => 95;Shift { id: 1, start: 78 } 168
add 0 5;add 0 10 => prefer short late 1 => conflicts 1";

const TWO_KINDS: &str = "horizon 100 lead 30 kind obs { duration 5 } kind pic { duration 5 }";

/// Moves are tried of the first 256 activities that are not committed, by id.
const FIRST_256: &str =
    "255 times add 0 20;add 1 20 => prefer pic late 1 => 20;Shift { id: 256, start: 92 } 92
256 times add 0 20;add 1 20 => prefer pic late 1 => 20
255 times add 0 20;add 0 10;commit 15;add 1 20 => prefer pic late 1 => 20;Shift { id: 257, start: 93 } 93";

/// Whether the score, and each step with the score behind it until no move betters the plan, are these; `;` parts them.
fn betters_so(alloc: Global, plan: &mut Scored, wanted: &str) -> Option<bool> {
    let first = format!(in alloc; "{}", plan.score());
    let mut told = first.ok()?;
    for _ in 0..MOST {
        match plan.step(alloc, &mut Steps::new(Quiet)).ok()? {
            Some(mv) => {
                let text = format!(in alloc; ";{mv:?} {}", plan.score()).ok()?;
                told.push_str(text.as_str()).ok()?;
            }
            None => break,
        }
    }
    Some(told.as_str() == wanted)
}

/// Whether this comes of bettering a plan, or is why it is not bettered.
fn is_outcome(alloc: Global, scored: Result<Scored, ScoreFault>, wanted: &str) -> Option<bool> {
    match scored {
        Ok(mut plan) => betters_so(alloc, &mut plan, wanted),
        Err(fault) => is_printed(fault.to_string(alloc), wanted),
    }
}

fn assert_row(rt: &impl Abort, alloc: Global, model: &str, row: &str) {
    let (changes, rest) = sides(row);
    let (prefers, wanted) = sides(rest);
    let prefers = prefers.replace(alloc, ";", "\n").expect(rt, "memory");
    let scored = scored(rt, alloc, model, changes, prefers.as_str());
    let is_outcome = is_outcome(alloc, scored, wanted);
    holds(rt, row, is_outcome == Some(true));
}

#[test]
fn betters_plans(rt: HostRuntime) {
    let tables = [
        (GOALS, SERVING),
        (PLAIN, STARTS),
        (VALUES, TAKEN),
        (LEVELS, ENDS),
        (CAPACITY, USES),
        (TWO_KINDS, FIRST_256),
    ];
    for (model, table) in tables {
        for row in table.lines() {
            assert_row(&rt, rt.alloc(), model, row);
        }
    }
}
