//! Repairs that choosers make, the starts that they are made of, and how many steps a change takes.
use crate::board::questions::{Asked, Table, assert_tables};

const SEEN: &str = "horizon 100 lead 30 kind obs { duration 5 }";

/// An open goal is served as early as it may be, by a seed anywhere in its window. Where nothing is wrong nothing is made.
const MENDED: &str = "goal 1 10 20 must => least => 20 open-goal 1 0 10 20 by add 0 10 goal 1 =>
goal 1 10 20 must => own => 20 open-goal 1 0 10 20 by add 0 10 goal 1 =>
goal 1 10 20 must => make => 20 open-goal 1 0 10 20 by add 0 10 goal 1 =>
goal 1 10 20 must => seed 0 => 20 open-goal 1 0 10 20 by any =>
goal 1 10 20 must => seed 1 => 20 open-goal 1 0 10 20 by any =>
goal 1 10 20 must => seed 2 => 20 open-goal 1 0 10 20 by any =>
goal 1 10 20 must => seed 3 => 20 open-goal 1 0 10 20 by any =>
goal 1 10 20 must => seed 4 => 20 open-goal 1 0 10 20 by any =>
goal 1 10 20 must => seed 5 => 20 open-goal 1 0 10 20 by any =>
goal 1 10 20 must => seed 6 => 20 open-goal 1 0 10 20 by any =>
goal 1 10 20 must => seed 7 => 20 open-goal 1 0 10 20 by any =>
goal 1 10 20 must => seed 8 => 20 open-goal 1 0 10 20 by any =>
goal 1 10 20 must => seed 9 => 20 open-goal 1 0 10 20 by any =>
goal 1 10 20 must => seed 10 => 20 open-goal 1 0 10 20 by any =>
goal 1 10 20 must => seed 11 => 20 open-goal 1 0 10 20 by any =>
goal 1 10 20 must => seed 12 => 20 open-goal 1 0 10 20 by any =>
goal 1 10 20 must => seed 13 => 20 open-goal 1 0 10 20 by any =>
goal 1 10 20 must => seed 14 => 20 open-goal 1 0 10 20 by any =>
goal 1 10 20 must => seed 15 => 20 open-goal 1 0 10 20 by any =>
 => least => none =>
 => own => none =>
 => seed 7 => none =>";

/// The floor first, then starts from there on.
const STARTS: &str =
    "add 0 40;commit 30 => 1 => [30, 30, 35, 40, 45, 50, 55, 60, 65, 70, 75, 80, 85, 90, 95]";

const SPREAD: &str =
    " => 10 40 => [10, 12, 14, 16, 18, 20, 22, 24, 26, 28, 30, 32, 34, 36, 38, 40]";

const MANY: &str = "horizon 30000 lead 30 capacity cam 10
kind one { duration 1 use cam 1 }";

/// Uses by 1 are 19,998 points of a timeline.
const COUNTED: &str = " => 9999 => 2 6023";

const TABLES: [Table; 4] = [
    (Asked::Mended, SEEN, MENDED),
    (Asked::Starts, SEEN, STARTS),
    (Asked::Spread, SEEN, SPREAD),
    (Asked::Steps, MANY, COUNTED),
];

#[test]
fn makes_repairs(rt: HostRuntime) {
    assert_tables(&rt, rt.alloc(), &TABLES);
}
