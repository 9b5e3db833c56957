//! What is wrong behind a measured end, and behind a halt, worked by hand.
use crate::board::codes::{AMOUNTS, LINKS, PLAIN, STATES};
use crate::board::questions::{Asked, Table, assert_tables};

/// A use lasts up to the measured end, also if that is past, and the last one counts.
const CAPACITIES: &str = "add 4 10;add 4 20;add 4 20;commit 11;tick 10 =>
add 4 10;add 4 20;add 4 20;commit 11;tick 10;until 1 20 =>
add 4 10;add 4 20;add 4 20;commit 11;tick 10;until 1 21 => 20 over 2 0 20 21
add 4 10;add 4 20;add 4 20;commit 11;tick 10;until 1 22 => 20 over 2 0 20 22
add 4 10;add 4 20;add 4 20;commit 11;tick 10;until 1 22;until 1 18 =>
add 4 10;add 4 20;add 4 20;commit 11;tick 10;until 1 18;until 1 100 => 20 over 2 0 20 25
add 4 10;add 4 20;add 4 20;commit 11;tick 10;until 1 22;shift 3 22 =>
add 3 10;commit 11;tick 14 => 14 over 2 0 14 15
add 3 10;commit 11;tick 14;until 1 12 =>
add 3 10;commit 11;tick 14;until 1 14 =>
add 3 10;commit 11;tick 14;until 1 100 => 14 over 2 0 14 100
add 3 10;commit 11;tick 50;until 1 52 => 50 over 2 0 50 52";

/// What counts at the end counts at the measured one: after what telemetry told, or no more.
const LEVELS: &str = "add 1 40;commit 41;tick 42 => 45 low 1 0 45 100
add 1 40;commit 41;tick 42;until 1 60 => 60 low 1 0 60 100
add 1 40;commit 41;tick 42;until 1 100 =>
add 1 40;commit 41;tick 43;until 1 41 => 43 low 1 0 43 100
add 1 40;commit 41;tick 47;tele 1 50 =>
add 1 40;commit 41;tick 47;tele 1 50;until 1 60 => 60 low 1 0 60 100
add 1 40;commit 41;tick 47;tele 1 50;until 1 60;until 1 47 =>
add 0 30;commit 31;tick 30;until 1 40 => 30 high 1 0 30 100";

/// A need lasts up to the measured end, and a state that is set at the end is set then.
const NEEDS: &str = "add 4 40;add 0 50;commit 41;tick 42 =>
add 4 40;add 0 50;commit 41;tick 42;until 1 55 =>
add 4 40;add 0 50;commit 41;tick 42;until 1 60 => 40 must 1 0 55 60
add 0 10;add 4 20;commit 11;tick 12 => 20 must 2 0 20 30
add 0 10;add 4 20;commit 11;tick 12;until 1 25 => 20 must 2 0 25 30
add 0 10;add 4 20;commit 11;tick 12;until 1 30 =>
add 0 5;add 1 10;commit 6;tick 6;until 1 14 =>
add 0 5;add 1 10;commit 6;tick 6;until 1 20 => 5 bad-step 1 0 20 0;10 bad-step 2 1 15 0
add 0 5;add 1 10;commit 11;tick 11;until 1 13;until 2 12 => 5 bad-step 1 0 13 0;10 bad-step 2 1 12 0";

/// Orders and links go by the measured end, as long as something of them can still be moved.
const ORDERS: &str = "add 3 10;detail 1 0;shift 3 18;commit 11;tick 10 =>
add 3 10;detail 1 0;shift 3 18;commit 11;tick 10;until 2 18 =>
add 3 10;detail 1 0;shift 3 18;commit 11;tick 10;until 2 19 => 10 link 1 0 0 0
add 3 10;detail 1 0;shift 3 18;commit 11;tick 10;until 2 14 => 10 link 1 0 0 0
add 3 10;detail 1 0;shift 3 18;commit 11;tick 10;until 2 20;shift 3 23 =>
add 3 10;detail 1 0;shift 3 18;commit 19;tick 18;until 2 20 =>
add 0 25;add 1 45;add 2 30;commit 26;tick 25;until 1 30 =>
add 0 25;add 1 45;add 2 30;commit 26;tick 25;until 1 31 => 30 temporal 3 0 0 0
add 0 25;add 1 45;add 2 30;commit 31;tick 30;until 3 90 =>";

/// A parent ends from 0 to 10 moments behind its child.
const PARENT: &str = "horizon 100 lead 30
kind plain { duration 5 }
kind cover { duration 20 alternative { slot a plain order a end parent end 0 10 } }";

const PARENTS: &str = "add 1 10;detail 1 0;shift 2 20;commit 11;tick 11 =>
add 1 10;detail 1 0;shift 2 20;commit 11;tick 11;until 1 25 =>
add 1 10;detail 1 0;shift 2 20;commit 11;tick 11;until 1 24 => 10 link 1 0 0 0
add 1 10;detail 1 0;shift 2 20;commit 11;tick 11;until 1 35 =>
add 1 10;detail 1 0;shift 2 20;commit 11;tick 11;until 1 36 => 10 link 1 0 0 0
add 1 10;detail 1 0;shift 2 20;commit 11;tick 11;until 1 36;shift 2 21 =>
add 1 10;detail 1 0;shift 2 20;commit 21;tick 20;until 1 50 =>
add 1 10;detail 1 0;shift 2 20;commit 21;tick 20;until 2 31 =>";

/// What starts after the present is no longer committed, and the floor goes back.
const WITHDRAWN: &str = "goal 1 10 20 must;commit 21 =>
goal 1 10 20 must;commit 21;withdraw => 20 open-goal 1 0 10 20
goal 1 10 20 must;commit 21;tick 20;withdraw =>
add 0 50;commit 51;tick 10;withdraw =>
add 0 50;commit 51;tick 10;withdraw;shift 1 40 =>
add 0 50;commit 51;tick 10;withdraw;tick 50 => 50 late 1 0 0 0
add 0 10;commit 11;tick 20;withdraw =>
add 0 50;add 0 10;commit 51;tick 10;withdraw;tick 50 => 50 late 1 0 0 0
add 1 90;commit 91 =>
add 1 90;commit 91;withdraw => 90 overrun 1 0 110 0
add 1 90;commit 91;tick 90;withdraw =>";

const TABLES: [Table; 6] = [
    (Asked::Wrong, AMOUNTS, CAPACITIES),
    (Asked::Wrong, AMOUNTS, LEVELS),
    (Asked::Wrong, STATES, NEEDS),
    (Asked::Wrong, LINKS, ORDERS),
    (Asked::Wrong, PARENT, PARENTS),
    (Asked::Wrong, PLAIN, WITHDRAWN),
];

#[test]
fn tells_what_is_wrong_behind_the_two_messages(rt: HostRuntime) {
    assert_tables(&rt, rt.alloc(), &TABLES);
}
