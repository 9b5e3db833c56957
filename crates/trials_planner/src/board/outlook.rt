//! What moves leave at least, told without making them; the partners of links.
use crate::board::questions::{Asked, Table, assert_tables};

const LEVEL: &str = "horizon 100 lead 30 level bat 0 100 20
kind drain { duration 10 lower bat 30 at end }";

/// A level that stays below its least, beside an open goal; a deletion leaves the goal alone.
const BELOW: &str = "add 0 10;goal 1 40 60 must => shift 1 30 => [2]
add 0 10;goal 1 40 60 must => delete 1 => [1]";

const CAPACITY: &str = "horizon 100 lead 30 capacity cam 10
kind short { duration 10 use cam 6 }";

/// Uses that stay above the most, and that do not.
const ABOVE: &str = "add 0 5;add 0 10 => shift 2 8 => [1]
add 0 5;add 0 10 => shift 2 20 => [0]
add 0 5;add 0 10 => add 0 9 => [1]";

// The warm-up ends at most 60 moments before the image.
const LINKED: &str = "horizon 300 lead 30 kind warm_up { duration 20 }
kind image { duration 40 link start warm_up end -60 0 }";

const SHIFTED: &str = "add 0 50;add 1 100 => shift 2 69 => [1]
add 0 50;add 1 100 => shift 2 70 => [0]
add 0 50;add 1 100 => shift 2 130 => [0]
add 0 50;add 1 100 => shift 2 131 => [1]";

const ELSEWHERE: &str = "horizon 300 lead 30 kind warm_up { duration 20 }
kind image { duration 40 link start warm_up end -60 0 }
kind talk { duration 5 }";

/// Images at 100 and at 200 lack their warm-up, and lack it still where another activity comes, moves or goes. A warm-up that comes or
/// moves can mend the link.
const LACKING: &str = "add 1 100;add 2 10 => add 2 30 => [1]
add 1 100;add 2 10 => shift 2 50 => [1]
add 1 100;add 2 10 => delete 2 => [1]
add 1 100;add 1 200;add 2 10 => delete 3 => [2]
add 1 100;add 1 200 => delete 2 => [1]
add 1 100;add 1 200 => shift 2 210 => [2]
add 1 100 => add 1 200 => [2]
add 1 100 => delete 1 => [0]
add 1 100;add 2 10 => add 0 60 => [0]
add 0 10;add 1 100 => shift 1 60 => [0]
add 0 10;add 1 100 => shift 1 20 => [0]
add 0 10;add 1 100 => shift 2 40 => [0]";

const ORDERED: &str = "horizon 100 lead 30 kind shot { duration 5 }
kind scan { duration 20 alternative { slot a shot slot b shot order a end b start 0 3 order parent start a start 0 2 } }
kind talk { duration 5 }";

/// A scan 1 at 10 with its shots 2, from 10 to 15, and 3, from 15 on. The second begins at most 3 moments behind the end of the first,
/// which begins at most 2 behind the scan. A shot that moves alone breaks one order or both; talk elsewhere mends none.
const BROKEN: &str = "add 1 10;detail 1 0 => shift 3 18 => [0]
add 1 10;detail 1 0 => shift 3 19 => [1]
add 1 10;detail 1 0 => shift 3 14 => [1]
add 1 10;detail 1 0 => shift 2 8 => [1]
add 1 10;detail 1 0 => shift 2 13 => [2]
add 1 10;detail 1 0;shift 3 19 => shift 2 12 => [0]
add 1 10;detail 1 0;shift 3 19 => shift 2 13 => [1]
add 1 10;detail 1 0;shift 3 19 => add 2 60 => [1]
add 1 10;detail 1 0;shift 3 19 => delete 1 => [0]";

const DIPS: &str = "horizon 300 lead 30 level bat 0 110 50
kind drain { duration 10 lower bat 30 at end }
kind dip { duration 10 lower bat 25 at start raise bat 25 at end }
kind fill { duration 10 raise bat 40 at end }";

/// Limits that nothing passes yet. A level of 50 is 25 from 50 to 60 and from 100 to 110, so 30 less bring it below its least in as many
/// of these dips as come behind them. In the last two rows it is 90 from 110 on, but for a dip from 150 to 160.
const REACHED: &str = "add 1 50;add 1 100 => add 0 10 => [2]
add 1 50;add 1 100 => add 0 55 => [1]
add 1 50;add 1 100 => add 0 105 => [0]
add 1 50;add 1 100 => add 1 95 => [0]
add 2 100;add 1 150 => add 2 50 => [2]
add 2 100;add 1 150 => add 2 149 => [1]";

/// Uses that begin within another, and when it has ended.
const OVERLAPPED: &str = "add 0 5;add 0 40 => add 0 10 => [1]
add 0 5;add 0 40 => add 0 45 => [1]
add 0 5;add 0 40 => add 0 15 => [0]
add 0 5;add 0 40 => add 0 50 => [0]";

/// The warm-up ends 30 moments before the image.
const PARTNERS: &str = "add 0 50;add 1 100 => 2 30 => Some(140) true
add 0 50;add 1 100 => 2 29 => Some(140) false
add 0 50;add 1 100 => 3 30 => none";

const TABLES: [Table; 8] = [
    (Asked::Least, LEVEL, BELOW),
    (Asked::Least, CAPACITY, ABOVE),
    (Asked::Least, LINKED, SHIFTED),
    (Asked::Least, ELSEWHERE, LACKING),
    (Asked::Least, ORDERED, BROKEN),
    (Asked::Least, DIPS, REACHED),
    (Asked::Least, CAPACITY, OVERLAPPED),
    (Asked::Partner, LINKED, PARTNERS),
];

#[test]
fn knows_what_moves_leave(rt: HostRuntime) {
    assert_tables(&rt, rt.alloc(), &TABLES);
}
