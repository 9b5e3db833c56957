//! Why moves are refused, and of which activity.
use crate::board::questions::{Asked, Table, assert_tables};

const SCAN: &str = "horizon 100 lead 30 kind shot { duration 5 }
kind scan { duration 10 alternative { slot a shot slot b shot order a end b start 0 3 } }
kind wide { param n 1 9 default 5 duration n }";

/// Changes, a move, and why it is refused, as it is printed.
const REFUSED: &str = "add 1 40;detail 1 0;shift 2 25;commit 30 => shift 1 45 => Some(Locked(2))
add 1 40;detail 1 0;shift 2 25;commit 30 => shift 3 46 => None
add 1 40;detail 1 0;shift 2 25;commit 30 => delete 1 => Some(Locked(2))
add 1 40;detail 1 0;shift 2 25;commit 30 => abstract 1 => Some(Locked(2))
add 1 10;detail 1 0;commit 16 => shift 1 40 => Some(Locked(1))
add 1 10;commit 11 => detail 1 0 => Some(Locked(1))
add 2 10;commit 11 => assign 1 0 4 => Some(Locked(1))
add 2 10;commit 10 => assign 1 0 4 => None
add 0 10;commit 11 => shift 1 0 => Some(Locked(1))
add 0 10;commit 11 => shift 1 100 => Some(Locked(1))
commit 0 => add 0 0 => Some(Behind(1))
commit 0 => add 0 1 => None
commit 0 => add 0 99 => None
commit 0 => add 0 100 => Some(Beyond(1))
commit 30 => add 0 29 => Some(Behind(1))
commit 30 => add 0 30 => None
tick 30 => add 0 30 => Some(Behind(1))
tick 30 => add 0 31 => None
add 0 50;add 0 60;delete 1 => add 0 0 => Some(Behind(3))
add 0 50;add 0 60 => add 0 100 => Some(Beyond(3))
add 1 40;detail 1 0 => shift 1 0 => Some(Behind(1))
add 1 40;detail 1 0;shift 2 35 => shift 1 5 => Some(Behind(2))
add 1 40;detail 1 0;shift 2 35 => shift 1 6 => None
add 1 40;detail 1 0;shift 3 60 => shift 1 80 => Some(Beyond(3))
add 1 40;detail 1 0;shift 3 60 => shift 1 79 => None
add 1 40;detail 1 0;shift 2 5;shift 3 90;tick 20 => shift 1 50 => Some(Behind(2))
add 1 94 => detail 1 0 => None
add 1 95 => detail 1 0 => Some(Beyond(3))
add 0 50;add 1 10;tick 10 => detail 2 0 => Some(Behind(3))
add 0 10;tick 20 => delete 1 => None
goal 1 10 20 may;tick 20 => drop 1 => None";

/// A child that is committed too late for its parent.
const LATE: &str = "add 1 40;detail 1 0;shift 2 25;commit 30 => 25 link 1 0 0 0";

const TABLES: [Table; 3] = [
    (Asked::Refusal, SCAN, REFUSED),
    (Asked::Wrong, SCAN, LATE),
    (Asked::Copied, SCAN, LATE),
];

#[test]
fn refuses_moves(rt: HostRuntime) {
    assert_tables(&rt, rt.alloc(), &TABLES);
}
