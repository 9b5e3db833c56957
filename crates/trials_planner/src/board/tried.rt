//! The repairs that are tried for a conflict of each code, in their order.
use crate::board::questions::{Asked, Table, assert_tables};

const GOALS: &str = "horizon 6 lead 3
kind plain { duration 1 }
kind long { duration 3 }";

/// Changes, a conflict, and the moves that are tried for it.
const FOR_GOALS: &str = "goal 1 3 4 must => 4 open-goal 1 0 3 4 => add 0 3 goal 1;add 0 4 goal 1
goal 1 3 4 may => 4 open-goal 1 0 3 4 => add 0 3 goal 1;add 0 4 goal 1;drop 1
goal 1 1 4 may;tick 2 => 4 open-goal 1 0 1 4 => add 0 3 goal 1;add 0 4 goal 1;drop 1
goal 1 3 4 must;add 0 2 goal 1 => 2 off-goal 1 1 3 4 => shift 1 1;shift 1 3;shift 1 4;delete 1
add 0 2;tick 2 => 2 late 1 0 0 0 => shift 1 3;shift 1 4;shift 1 5;delete 1
add 1 5 => 5 overrun 1 0 8 0 => shift 1 3;shift 1 1;shift 1 2;shift 1 4;delete 1";

const VALUES: &str = "horizon 6 lead 3
kind free { param n 1 3 param m 1 2 default 1 duration 1 }
kind twice { param n 0 2 default 2 param m 0 1 = n duration 1 }
kind child { param q 0 1 param r 5 6 default 5 duration 1 }
kind whole { param p 0 2 default 2 duration 1 alternative { slot s child ( q = p ) } }
kind either { duration 1 alternative { slot s twice } alternative { slot s twice } }";

const FOR_VALUES: &str =
    "add 0 2 => 2 unset 1 0 0 0 => assign 1 0 1;assign 1 0 2;assign 1 0 3;delete 1
add 1 2 => 2 bad-value 1 1 0 0 => assign 1 0 0;assign 1 0 1;delete 1
add 3 2;detail 1 0 => 2 bad-value 2 0 0 0 => assign 2 1 6;assign 1 0 0;assign 1 0 1;delete 1
add 4 2 => 2 undetailed 1 0 0 0 => detail 1 0;detail 1 1;delete 1";

const LINKS: &str = "horizon 6 lead 3
kind plain { duration 1 }
kind two { duration 2 }
kind near { duration 1 link start plain start -1 1 }
kind behind { duration 1 link start two end 0 1 }
kind scan { duration 2 alternative { slot a plain slot b plain order a end b start 0 1 order parent start a start 0 1 } }";

const FOR_LINKS: &str =
    "add 2 3 => 3 temporal 1 0 0 0 => add 0 2;add 0 3;add 0 4;shift 1 1;shift 1 2;shift 1 4;shift 1 5;delete 1
add 3 3 => 3 temporal 1 0 0 0 => add 1 1;add 1 2;shift 1 1;shift 1 2;shift 1 4;shift 1 5;delete 1
add 4 2;detail 1 0;shift 3 5 => 2 link 1 0 0 0 => shift 3 3;shift 3 4;shift 2 4;shift 2 3;abstract 1;shift 1 1;shift 1 3;shift 1 4;shift 1 5;delete 1
add 4 2;detail 1 0;shift 3 5;shift 2 4 => 2 link 1 1 0 0 => shift 2 2;shift 2 3;abstract 1;shift 1 1;shift 1 3;shift 1 4;shift 1 5;delete 1";

const LINES: &str = "horizon 6 lead 3
capacity cam 1
level bat 2 9 5
kind user { duration 2 use cam 1 }
kind none { duration 2 use cam 0 }
kind up { duration 1 raise bat 5 at start }
kind down { duration 1 lower bat 4 at start }";

const FOR_LINES: &str =
    "add 0 2;add 1 3;add 0 3 => 3 over 0 0 3 4 => shift 1 4;shift 1 1;shift 3 4;shift 3 1;shift 1 3;shift 1 5;delete 1;shift 3 2;shift 3 5;delete 3
add 3 3 => 3 low 1 0 3 6 => add 2 1;add 2 2;add 2 3;shift 1 1;shift 1 2;shift 1 4;shift 1 5;delete 1
add 2 3;add 3 5 => 3 high 1 0 3 5 => add 3 1;add 3 2;add 3 3;shift 1 1;shift 1 2;shift 1 4;shift 1 5;delete 1";

const STATES: &str = "horizon 6 lead 3
state mode { a b c } start a step a b step b c step c b
kind to_b { duration 1 set mode b at start }
kind to_c { duration 1 set mode c at start }
kind in_b { duration 2 must mode b }";

const FOR_STATES: &str =
    "add 2 3 => 3 must 1 0 3 5 => add 0 1;add 0 2;add 0 3;shift 1 1;shift 1 2;shift 1 4;shift 1 5;delete 1
add 1 3 => 3 bad-step 1 0 3 0 => add 0 1;add 0 2;add 0 3;add 1 1;add 1 2;add 1 3;shift 1 1;shift 1 2;shift 1 4;shift 1 5;delete 1";

const TABLES: [Table; 5] = [
    (Asked::Repairs, GOALS, FOR_GOALS),
    (Asked::Repairs, VALUES, FOR_VALUES),
    (Asked::Repairs, LINKS, FOR_LINKS),
    (Asked::Repairs, LINES, FOR_LINES),
    (Asked::Repairs, STATES, FOR_STATES),
];

#[test]
fn tries_the_repairs_of_each_conflict(rt: HostRuntime) {
    assert_tables(&rt, rt.alloc(), &TABLES);
}
