//! What stands in a plan: values, firmness and ends, parents and children, what is due.
use crate::board::questions::{Asked, Table, assert_tables};

const TWICE: &str = "horizon 100 lead 30 capacity cam 10
kind k { param n 1 10 param m 1 10 = n * 2 duration 5 use cam 6 }";

/// Nothing is used where a parameter is out of range by the value of another.
const USED: &str = "add 0 10;assign 1 0 8 => use 0 10 = 0 => 10 bad-value 1 1 0 0";

/// A parent 1 at 40 with its child 2 at 25, and 3. The value of the child is bound to that of its parent; the second value of 3 is
/// twice its first and so above its high.
const THREE: &str = "horizon 100 lead 30
kind scan { param n 1 10 duration 5 alternative { slot s shot ( m = n ) } }
kind shot { param m 1 10 duration m }
kind twice { param n 1 10 param m 1 10 = n * 2 duration 5 }";

/// An activity, its values, whether it is firm, and its end.
const VALUES: &str =
    "add 0 40;assign 1 0 7;detail 1 0;shift 2 25;add 2 10;assign 3 0 8 => 1 => [Some(7)] true Some(45)
add 0 40;assign 1 0 7;detail 1 0;shift 2 25;add 2 10;assign 3 0 8 => 2 => [Some(7)] true Some(32)
add 0 40;assign 1 0 7;detail 1 0;shift 2 25;add 2 10;assign 3 0 8 => 3 => [Some(8), Some(16)] false None";

/// An activity, its children, all below it and itself, and its root.
const TREES: &str = "add 0 40;assign 1 0 7;detail 1 0;shift 2 25;add 2 10 => 1 => [2] [1, 2] 1
add 0 40;assign 1 0 7;detail 1 0;shift 2 25;add 2 10 => 2 => [] [2] 1
add 0 40;assign 1 0 7;detail 1 0;shift 2 25;add 2 10 => 3 => [] [3] 3";

const CALLS: &str =
    "add 0 40;assign 1 0 7;detail 1 0;shift 2 25;add 2 10 => len = 3;id-at 0 = 1;id-at 1 = 2;id-at 2 = 3;id-at 3 = none;measured 2 = none;tell-end 2 31 = 31;tell-end 2 30 = 30;measured 2 = 30;measured 1 = none;put-again 1 = 3;start-of 1 = 40;take 2 = 25;take 2 = none;start-of 2 = none;measured 2 = none;tell-end 2 31 = none;len = 2;start-of 3 = 10";

const SENT: &str =
    "horizon 100 lead 30 kind a { duration 5 } kind b { duration 5 alternative { slot s a } }";

/// 2 is of a kind that has an alternative. Of equal starts the lesser id goes first.
const DUE: &str = "add 0 40;add 1 5;add 0 10;add 0 40 => 50 100 => [3, 1, 4]
add 0 40;add 1 5;add 0 10;add 0 40 => 40 41 => [3, 1, 4]
add 0 40;add 1 5;add 0 10;add 0 40 => 50 40 => [3]
add 0 40;add 1 5;add 0 10;add 0 40 => 39 100 => [3]
add 0 40;add 1 5;add 0 10;add 0 40 => 9 100 => []";

const TABLES: [Table; 5] = [
    (Asked::Values, TWICE, USED),
    (Asked::Evaluated, THREE, VALUES),
    (Asked::Tree, THREE, TREES),
    (Asked::Plan, THREE, CALLS),
    (Asked::Due, SENT, DUE),
];

#[test]
fn tells_of_plans(rt: HostRuntime) {
    assert_tables(&rt, rt.alloc(), &TABLES);
}
