//! What choices of alternatives leave at least, told without making them.
use crate::board::questions::{Asked, Table, assert_tables};

const CAPACITY: &str = "horizon 100 lead 30 capacity cam 10
kind shot { duration 10 use cam 6 }
kind rest { duration 10 }
kind scan { duration 10 alternative { slot a shot } alternative { slot a rest } }";

/// A scan at 20. Its first alternative uses 6 of 10 from 20 to 30, so another shot within this time makes 12; its second alternative uses
/// nothing. The open goal stays, whichever is chosen. Of a deletion nothing is known.
const USING: &str = "add 2 20 => detail 1 0;detail 1 1 => [0, 0]
add 0 10;add 2 20 => detail 2 0;detail 2 1 => [0, 0]
add 0 11;add 2 20 => detail 2 0;detail 2 1 => [1, 0]
add 0 29;add 2 20 => detail 2 0;detail 2 1 => [1, 0]
add 0 30;add 2 20 => detail 2 0;detail 2 1 => [0, 0]
add 0 11;goal 1 40 60 must;add 2 20 => detail 2 0;detail 2 1 => [2, 1]
add 0 11;goal 1 40 60 must;add 2 20 => detail 2 1;detail 2 0 => [1, 2]
goal 1 40 60 must;add 2 20 => detail 1 1;delete 1 => [1, 0]";

const LEVEL: &str = "horizon 100 lead 30 level bat 0 100 20
kind fill { duration 5 raise bat 15 at end }
kind drain { duration 5 lower bat 30 at end }
kind rest { duration 10 }
kind talk { duration 10 alternative { slot a drain } alternative { slot a rest } }";

/// A talk at 20. Its first alternative takes 30 of 20, which is too much from 25 on. With 15 more from 25 on it is not, and with 15 more
/// from 60 on it is too much up to then.
const DRAINING: &str = "add 3 20 => detail 1 0;detail 1 1 => [1, 0]
add 0 20;add 3 20 => detail 2 0;detail 2 1 => [0, 0]
add 0 55;add 3 20 => detail 2 0;detail 2 1 => [1, 0]";

const STATES: &str = "horizon 100 lead 30
state mode { off warm on } start off step off warm step warm on
kind look { duration 10 must mode on }
kind dark { duration 10 must mode off }
kind heat { duration 5 set mode warm at start }
kind jump { duration 5 set mode on at start }
kind either { duration 10 alternative { slot a look } alternative { slot a dark } }
kind turn { duration 10 alternative { slot a heat } alternative { slot a jump } }";

/// A choice at 20 between a look, which needs `on` from 20 to 30, and one that needs `off`. Where the mode is turned to `warm` at 5 and to
/// `on` later, the look needs that to be by 20, and the other finds no `off`.
const NEEDING: &str = "add 4 20 => detail 1 0;detail 1 1 => [1, 0]
add 2 5;add 3 20;add 4 20 => detail 3 0;detail 3 1 => [0, 1]
add 2 5;add 3 21;add 4 20 => detail 3 0;detail 3 1 => [1, 1]
add 2 5;add 3 29;add 4 20 => detail 3 0;detail 3 1 => [1, 1]
add 2 5;add 3 30;add 4 20 => detail 3 0;detail 3 1 => [1, 1]";

/// A turn at 20 to `warm`, which is allowed from `off`, or to `on`, which is not. Both break what needs `off` at 20 from its start up to
/// its end.
const TURNING: &str = "add 5 20 => detail 1 0;detail 1 1 => [0, 1]
add 2 5;add 5 20 => detail 2 0;detail 2 1 => [0, 0]
add 1 10;add 5 20 => detail 2 0;detail 2 1 => [0, 1]
add 1 11;add 5 20 => detail 2 0;detail 2 1 => [1, 2]
add 1 20;add 5 20 => detail 2 0;detail 2 1 => [1, 2]
add 1 11;add 1 12;add 5 20 => detail 3 0;detail 3 1 => [2, 3]";

const KINDS: &str = "horizon 100 lead 30
kind plain { duration 5 }
kind inner { duration 5 alternative { slot a plain } }
kind outer { duration 10 alternative { slot a inner slot b inner } alternative { slot a plain slot b inner } alternative { slot a plain } }";

/// Each child whose kind has alternatives lacks one.
const CONTAINED: &str = "add 2 20 => detail 1 0;detail 1 1;detail 1 2 => [2, 1, 0]
add 1 60;add 2 20 => detail 2 0;detail 2 1;detail 2 2 => [3, 2, 1]";

const LINKED: &str = "horizon 300 lead 30
kind warm_up { duration 20 }
kind image { duration 40 link start warm_up end -60 0 }
kind rest { duration 20 }
kind either { duration 20 alternative { slot a warm_up } alternative { slot a rest } }";

/// An image at 100 that lacks its warm-up, which the first alternative is, and the second is not.
const LACKING: &str = "add 1 100;add 3 50 => detail 2 0;detail 2 1 => [0, 1]";

const TABLES: [Table; 6] = [
    (Asked::LeastOfChoices, CAPACITY, USING),
    (Asked::LeastOfChoices, LEVEL, DRAINING),
    (Asked::LeastOfChoices, STATES, NEEDING),
    (Asked::LeastOfChoices, STATES, TURNING),
    (Asked::LeastOfChoices, KINDS, CONTAINED),
    (Asked::LeastOfChoices, LINKED, LACKING),
];

#[test]
fn knows_what_choices_leave(rt: HostRuntime) {
    assert_tables(&rt, rt.alloc(), &TABLES);
}
