//! Each code of a conflict: where it stands, and each of its numbers.
use crate::board::questions::{Asked, Table, assert_tables};

pub const PLAIN: &str = "horizon 100 lead 30
kind plain { duration 5 }
kind long { duration 20 }";

/// Changes, and all that is wrong then.
const GOALS: &str = "goal 1 10 20 must => 20 open-goal 1 0 10 20
goal 7 10 20 may => 20 open-goal 7 0 10 20
goal 7 10 20 may;drop 7 =>
goal 1 10 20 must;tick 19 => 20 open-goal 1 0 10 20
goal 1 10 20 must;tick 20 =>
goal 1 10 20 must;commit 20 => 20 open-goal 1 0 10 20
goal 1 10 20 must;commit 21 =>
goal 1 10 20 must;add 0 9 goal 1 => 9 off-goal 1 1 10 20
goal 1 10 20 must;add 0 10 goal 1 =>
goal 1 10 20 must;add 0 20 goal 1 =>
goal 1 10 20 must;add 0 21 goal 1 => 20 off-goal 1 1 10 20
add 0 50;goal 7 10 20 may;add 0 5 goal 7 => 5 off-goal 2 7 10 20
goal 1 10 20 must;add 0 5 goal 1;commit 6 =>
goal 1 10 20 must;add 0 5 goal 1;tick 5 => 5 off-goal 1 1 10 20;5 late 1 0 0 0
add 0 50;add 0 10;tick 10 => 10 late 2 0 0 0
add 0 10;tick 9 =>
add 0 10;commit 11;tick 20 =>
add 1 80 =>
add 1 81 => 81 overrun 1 0 101 0
add 0 50;add 1 99 => 99 overrun 2 0 119 0
add 1 90;commit 91 =>";

pub const VALUES: &str = "horizon 100 lead 30
capacity cam 2000000
kind free { param n 1 9 param m 1 9 duration n }
kind sum { param n 0 9 default 9 param m 0 9 = n + 1 duration 5 }
kind slow { param n 0 200 default 101 duration n }
kind much { duration 5 use cam 1 use cam 1000000 * 1001 }
kind back { param n 0 9 default 4 duration 5 use cam n - 5 }
kind far { param n 0 1000000000 default 1000000000 duration 5 use cam n * n * n }
kind child { param q 0 9 duration 5 }
kind whole { param p 0 99 default 10 duration 5 alternative { slot s child ( q = p ) } }
kind either { duration 5 alternative { slot s much } alternative { slot s slow } }";

const WRONG_VALUES: &str = "add 0 10 => 10 unset 1 0 0 0;10 unset 1 1 0 0
add 0 10;assign 1 0 5 => 10 unset 1 1 0 0
add 0 10;assign 1 1 5 => 10 unset 1 0 0 0
add 0 10;commit 11 =>
add 1 20 => 20 bad-value 1 1 0 0
add 1 20;assign 1 0 8 =>
add 1 20;commit 21 =>
add 2 10 => 10 bad-value 1 16 0 0
add 2 10;assign 1 0 0 => 10 bad-value 1 16 0 0
add 2 10;assign 1 0 100 => 10 overrun 1 0 110 0
add 2 10;assign 1 0 90 =>
add 3 10 => 10 bad-value 1 18 0 0
add 0 5;assign 1 0 1;assign 1 1 1;add 4 10 => 10 bad-value 2 17 0 0
add 4 10;assign 1 0 5 =>
add 5 10 => 10 bad-value 1 17 0 0
add 7 10;detail 1 0 => 10 bad-value 2 0 0 0
add 7 10;detail 1 0;assign 1 0 9 =>
add 8 10 => 10 undetailed 1 0 0 0
add 8 10;detail 1 0 => 10 bad-value 2 18 0 0
add 8 10;detail 1 1 => 10 bad-value 2 16 0 0
add 8 10;detail 1 0;abstract 1 => 10 undetailed 1 0 0 0
add 8 10;commit 11 =>";

/// An image wants the end of a plain activity from 60 before its start up to it, and the start of a long one from 5 to 20 behind
/// its end.
pub const LINKS: &str = "horizon 100 lead 30
kind plain { duration 5 }
kind long { duration 20 }
kind image { duration 10 link start plain end -60 0 link end long start 5 20 }
kind scan { duration 20 alternative { slot a plain slot b plain order a end b start 0 3 order parent start a start 0 2 } }";

const BROKEN: &str = "add 2 30 => 30 temporal 1 0 0 0;30 temporal 1 1 0 0
add 2 30;add 0 25 => 30 temporal 1 1 0 0
add 2 30;add 0 26 => 30 temporal 1 0 0 0;30 temporal 1 1 0 0
add 2 80;add 0 15 => 80 temporal 1 1 0 0
add 2 81;add 0 15 => 81 temporal 1 0 0 0;81 temporal 1 1 0 0
add 2 30;add 1 44 => 30 temporal 1 0 0 0;30 temporal 1 1 0 0
add 2 30;add 1 45 => 30 temporal 1 0 0 0
add 2 30;add 1 60 => 30 temporal 1 0 0 0
add 2 30;add 1 61 => 30 temporal 1 0 0 0;30 temporal 1 1 0 0
add 0 25;add 1 45;add 2 30 =>
add 2 30;commit 31;tick 29 => 30 temporal 1 0 0 0;30 temporal 1 1 0 0
add 2 30;commit 31;tick 30 =>
add 3 10;detail 1 0 =>
add 3 10;detail 1 0;shift 3 18 =>
add 3 10;detail 1 0;shift 3 19 => 10 link 1 0 0 0
add 3 10;detail 1 0;shift 3 14 => 10 link 1 0 0 0
add 3 10;detail 1 0;shift 3 19;shift 2 12 =>
add 3 10;detail 1 0;shift 3 19;shift 2 13 => 10 link 1 1 0 0
add 3 10;detail 1 0;shift 2 8 => 8 link 1 1 0 0
add 0 50;add 3 10;detail 2 0;shift 4 30 => 10 link 2 0 0 0
add 3 10;detail 1 0;shift 3 19;commit 20;tick 18 => 10 link 1 0 0 0
add 3 10;detail 1 0;shift 3 19;commit 20;tick 19 =>";

pub const AMOUNTS: &str = "horizon 100 lead 30
state mode { one } start one any
level bat 10 100 90
capacity cam 10
kind up { duration 5 raise bat 20 at start }
kind down { duration 5 lower bat 85 at end }
kind ten { duration 5 raise bat 10 at start }
kind heavy { duration 5 use cam 11 }
kind half { duration 5 use cam 5 }";

const SPANS: &str = "add 0 30 => 30 high 1 0 30 100
add 0 30;add 1 40 => 30 high 1 0 30 45
add 2 30 =>
add 1 40 => 45 low 1 0 45 100
add 1 40;add 0 60 => 45 low 1 0 45 60
add 1 40;commit 41;tick 50 => 50 low 1 0 50 100
add 1 95 =>
add 1 94 => 99 low 1 0 99 100
add 3 10 => 10 over 2 0 10 15
add 4 10;add 4 10 =>
add 4 10;add 4 12;add 4 13 => 13 over 2 0 13 15
add 3 10;add 3 20 => 10 over 2 0 10 15;20 over 2 0 20 25
add 3 10;commit 11;tick 12 => 12 over 2 0 12 15
add 3 10;commit 11;tick 15 =>
add 3 97 => 97 overrun 1 0 102 0;97 over 2 0 97 100
add 0 30;add 3 30 => 30 over 2 0 30 35;30 high 1 0 30 100";

pub const STATES: &str = "horizon 100 lead 30
capacity cam 10
state camera { off warm on } start off step off warm step warm on step on off
kind heat { duration 5 set camera warm at end }
kind turn_on { duration 5 use cam 1 set camera on at end }
kind turn_off { duration 5 set camera off at end }
kind image { duration 10 use cam 1 must camera off must camera warm }
kind idle { duration 10 must camera off }";

const STATED: &str = "add 3 40 => 40 must 1 2 40 50
add 0 35;add 3 40 => 40 must 2 1 40 50
add 3 40;add 0 40 => 40 must 1 1 45 50;40 must 1 2 40 45
add 4 95 => 95 overrun 1 0 105 0
add 0 30;add 4 95 => 95 overrun 2 0 105 0;95 must 2 0 95 100
add 0 30;add 4 40;commit 41;tick 45 => 40 must 2 0 45 50
add 0 30;add 4 40;commit 41;tick 50 =>
add 4 40;add 0 37;add 1 38;add 2 40 => 40 must 1 0 42 45
add 4 40;add 0 31;add 1 36;add 2 38;add 0 42 => 40 must 1 0 40 43;40 must 1 0 47 50
add 1 10 => 10 bad-step 1 1 15 0
add 0 5;add 1 10 =>
add 1 10;commit 11;tick 15 => 10 bad-step 1 1 15 0
add 1 10;commit 11;tick 16 =>
add 0 5;add 2 10 => 10 bad-step 2 0 15 0
add 1 10;tele 1 1 =>
add 2 10;tele 1 1 => 10 bad-step 1 0 15 0
add 0 5;add 0 20 =>";

const TABLES: [Table; 5] = [
    (Asked::Wrong, PLAIN, GOALS),
    (Asked::Wrong, VALUES, WRONG_VALUES),
    (Asked::Wrong, LINKS, BROKEN),
    (Asked::Wrong, AMOUNTS, SPANS),
    (Asked::Wrong, STATES, STATED),
];

#[test]
fn tells_each_conflict(rt: HostRuntime) {
    assert_tables(&rt, rt.alloc(), &TABLES);
}
