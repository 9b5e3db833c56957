//! Musts that moves leave unmet at least, told without making them.
use crate::board::questions::{Asked, Table, assert_tables};

const STATES: &str = "horizon 100 lead 30
state mode { off warm on } start off step off warm step warm on
kind look { duration 10 must mode on }
kind heat { duration 5 set mode warm at start }
kind jump { duration 5 set mode on at start }";

/// Each look needs `on` for ten moments. The mode is `off` throughout, or `warm` from 5 on and `on` from 50. A look that is moved needs its
/// state where it comes to stand. One that is not moved stays unmet, unless what comes may set its state: of the jump at 50 nothing is known
/// but of the look before it. What state there is without a set that goes is not known.
const UNMET: &str = "add 0 20 => shift 1 40;shift 1 60 => [1, 1]
add 1 5;add 2 50;add 0 20 => shift 3 45;shift 3 50;shift 3 60;shift 3 30 => [1, 0, 0, 1]
add 0 20;add 0 60 => shift 1 40 => [2]
add 0 20;add 0 60 => delete 1 => [1]
add 0 20;add 0 60 => add 2 50 => [1]
add 0 20;add 0 60 => add 2 70 => [2]
add 0 20 => add 0 60 => [2]
add 1 5;add 2 50 => add 0 60 => [0]
add 1 5;add 0 20 => delete 1 => [0]";

const TABLES: [Table; 1] = [(Asked::LeastWithStates, STATES, UNMET)];

#[test]
fn knows_what_stays_unmet(rt: HostRuntime) {
    assert_tables(&rt, rt.alloc(), &TABLES);
}
