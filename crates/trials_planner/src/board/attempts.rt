//! Moves that are tried, and stay made where they leave few enough conflicts.
use crate::board::questions::{Asked, Table, assert_tables};

const CAPACITY: &str = "horizon 100 lead 30 capacity cam 10
kind short { duration 10 use cam 6 }";

/// Two uses that overlap, and an open goal: two conflicts, and 3 is the next id. How many conflicts are enough, a move, what comes of
/// it with the next id, and what is wrong then.
const TRIED: &str =
    "add 0 5;add 0 10;goal 1 40 60 may => 1 add 0 80 => Undone { left: 2 } 3 => 10 over 0 0 10 15;60 open-goal 1 0 40 60
add 0 5;add 0 10;goal 1 40 60 may => 2 add 0 80 => Made 4 => 10 over 0 0 10 15;60 open-goal 1 0 40 60
add 0 5;add 0 10;goal 1 40 60 may => 0 delete 2 => Undone { left: 1 } 3 => 10 over 0 0 10 15;60 open-goal 1 0 40 60
add 0 5;add 0 10;goal 1 40 60 may => 1 delete 2 => Made 3 => 60 open-goal 1 0 40 60
add 0 5;add 0 10;goal 1 40 60 may => none drop 1 => Undone { left: 1 } 3 => 10 over 0 0 10 15;60 open-goal 1 0 40 60
add 0 5;add 0 10;goal 1 40 60 may => 1 drop 1 => Made 3 => 10 over 0 0 10 15";

/// The same plan where a move is made at once, and what is wrong then.
const MADE: &str = "add 0 5;add 0 10;goal 1 40 60 may => shift 2 15 => 60 open-goal 1 0 40 60
add 0 5;add 0 10;goal 1 40 60 may => drop 1 => 10 over 0 0 10 15";

const TABLES: [Table; 2] = [
    (Asked::Attempt, CAPACITY, TRIED),
    (Asked::Made, CAPACITY, MADE),
];

#[test]
fn tries_moves(rt: HostRuntime) {
    assert_tables(&rt, rt.alloc(), &TABLES);
}
