//! Changes, values of timelines behind them, and all that is wrong then.
use crate::board::questions::{Asked, Table, assert_tables};

const CAPACITY: &str = "horizon 100 lead 30 capacity cam 10
kind short { duration 10 use cam 6 }
kind long { duration 20 use cam 6 }";

/// Uses are summed; what ends where the next one begins is not.
const USES: &str =
    "add 0 5;add 0 10 => use 0 9 = 6;use 0 10 = 12;use 0 14 = 12;use 0 15 = 6 => 10 over 0 0 10 15
add 0 5;add 0 15 => use 0 14 = 6;use 0 15 = 6 =>
add 1 10;add 0 10;add 0 20 => use 0 19 = 12;use 0 20 = 12 => 10 over 0 0 10 30";

const LEVEL: &str = "horizon 100 lead 30 level bat 0 100 20
kind drain { duration 10 lower bat 30 at end }
kind draw { duration 5 lower bat 10 at start }";

/// A level falls at the horizon; one is told at the present. The first moment at which one leaves two values, or the last that is asked
/// for.
const FOLLOWED: &str = "add 0 90 => level 0 99 = 20;until 0 0 100 20 20 = 100 =>
add 1 50;add 0 70 => until 0 0 100 15 100 = 50;until 0 0 50 15 100 = 50;until 0 0 49 15 100 = 49;until 0 60 90 15 100 = 60;until 0 50 80 10 100 = 80;until 0 50 100 10 100 = 80;until 0 0 100 0 20 = 80;until 0 0 100 0 19 = 0;until 0 50 100 0 19 = 80 => 80 low 0 0 80 100
add 1 50;add 1 51;commit 60;tick 50;tele 0 40 => level 0 50 = 40;level 0 51 = 30;until 0 50 100 35 100 = 51 =>";

const LEAST: &str = "horizon 100 lead 30 level bat 5 100 20";

const AT_THE_LEAST: &str = "tele 0 5 => level 0 0 = 5 =>
tele 0 4 => level 0 0 = 4 => 0 low 0 0 0 100";

const STATES: &str = "horizon 100 lead 30
state camera { off warm on } start off step off warm step warm on step on off
kind idle { duration 5 }
kind heat { duration 5 set camera warm at start }
kind turn_on { duration 5 set camera on at start }";

/// States that are set at one moment are set in the order of their ids; one is told at the present.
const SET: &str =
    "add 0 1;add 0 1;add 1 10;add 0 1;add 0 1;add 0 1;add 2 10 => state 0 9 = 0;state 0 10 = 2 =>
add 0 1;add 0 1;add 2 10;add 0 1;add 0 1;add 0 1;add 1 10 => state 0 10 = 1 => 10 bad-step 3 0 10 0;10 bad-step 7 0 10 0
tele 0 2 => state 0 0 = 2;state 0 99 = 2 =>
add 2 10;tele 0 1 => state 0 9 = 1;state 0 10 = 2 =>
add 2 10;tele 0 0 => state 0 9 = 0;state 0 10 = 2 => 10 bad-step 1 0 10 0";

const TABLES: [Table; 4] = [
    (Asked::Values, CAPACITY, USES),
    (Asked::Values, LEVEL, FOLLOWED),
    (Asked::Values, LEAST, AT_THE_LEAST),
    (Asked::Values, STATES, SET),
];

#[test]
fn tells_values_and_conflicts(rt: HostRuntime) {
    assert_tables(&rt, rt.alloc(), &TABLES);
}
