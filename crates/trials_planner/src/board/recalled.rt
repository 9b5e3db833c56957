//! Choices that a board recalls, since its plan is the same again, or the same but for the ids of its newest roots.
use crate::board::questions::{Asked, Table, assert_tables};

/// The first alternative is too much for the camera at any time.
const TWO_WAYS: &str = "horizon 100 lead 30 capacity cam 10
kind plan { duration 20 alternative { slot a big } alternative { slot a small } }
kind big { duration 10 use cam 11 }
kind small { duration 10 use cam 6 }";

/// The best of these moves is the second. It is recalled at once, after another activity came and left, after the move was made and
/// undone, and of an activity that has come in the place of the first one under another id. It is not recalled if another activity stands
/// there, if the new one starts at another time, at another moment, or of the same moves in another order.
const RECALLED: &str = "add 0 5 => propose => detail 1 0;detail 1 1;delete 1 => Some(1)
add 0 5 => propose;add 0 50;delete 2 => detail 1 0;detail 1 1;delete 1 => Some(1)
add 0 5 => propose;delete 1;add 0 5 => detail 2 0;detail 2 1;delete 2 => Some(1)
add 0 5 => mend;abstract 1 => detail 1 0;detail 1 1;delete 1 => Some(1)
add 0 5 => mend;delete 1;add 0 5 => detail 3 0;detail 3 1;delete 3 => Some(1)
add 0 5 => propose;add 0 50 => detail 1 0;detail 1 1;delete 1 => None
add 0 5 => propose;delete 1;add 0 6 => detail 2 0;detail 2 1;delete 2 => None
add 0 5 => propose;tick 1 => detail 1 0;detail 1 1;delete 1 => None
add 0 5 => propose => detail 1 1;detail 1 0;delete 1 => None";

const TABLES: [Table; 1] = [(Asked::Recalled, TWO_WAYS, RECALLED)];

#[test]
fn recalls_choices(rt: HostRuntime) {
    assert_tables(&rt, rt.alloc(), &TABLES);
}
