//! Steps that better a plan by the preferences before a journal, and what is refused there.
use crate::running::NONE;
use crate::tables::{Runs, assert_tables, failing};

/// A battery that holds 20 and may hold 0 to 50, and a kind that charges it.
const MODEL: &str = "horizon 100
lead 30
level bat 0 50 20
kind obs {
param n 1 9 default 2
duration 5
raise bat n at end
}
begin
";

/// One activity, at 10. Its goal lets it start from 10 to 20.
const ENTRIES: &str = "0 open turns 8 live 10000 goals 20000 entries 250000
1 in ok : goal 1 obs 10 20 must
2 fix 20 open-goal 1 0 10 20 by add obs 10 goal 1 : ok
3 rest clear
";

/// The lines behind `begin`, the status, and what is written. A `;` stands for a newline, a `^` for the entries.
const ROWS: &str =
    "prefer obs late 2;journal;^ => 0 => improve score 20;step 1 shift 1 20 score 40;improve steps 1 score 40;
prefer obs early 2;journal;^ => 0 => improve score 180;improve steps 0 score 180;
prefer obs value n 3;journal;^ => 0 => improve score 6;step 1 assign 1 0 9 score 27;improve steps 1 score 27;
prefer level bat 10;journal;^ => 0 => improve score 220;step 1 assign 1 0 9 score 290;improve steps 1 score 290;
prefer obs late 2;prefer obs value n 3;journal;^ => 0 => improve score 26;step 1 assign 1 0 9 score 47;step 2 shift 1 20 score 67;improve steps 2 score 67;
prefer obs value n 10;prefer obs late 7;journal;^ => 0 => improve score 90;step 1 shift 1 20 score 160;step 2 assign 1 0 9 score 230;improve steps 2 score 230;
prefer obs late 1;prefer obs late 1;journal;^ => 0 => improve score 20;step 1 shift 1 20 score 40;improve steps 1 score 40;
;prefer obs late 2 # a comment;;journal # the journal;^ => 0 => improve score 20;step 1 shift 1 20 score 40;improve steps 1 score 40;
journal;^ => 0 => improve score 0;improve steps 0 score 0;
prefer obs early;journal;^ => 3 => prefer: line 10: bad line;
prefer obs early -1;journal;^ => 3 => prefer: line 10: bad line;
prefer obs often 1;journal;^ => 3 => prefer: line 10: bad line;
prefer kind early 1;journal;^ => 3 => prefer: line 10: bad line;
prefer level bat 1 1;journal;^ => 3 => prefer: line 10: bad line;
rate obs bat 1;journal;^ => 3 => prefer: line 10: bad line;
prefer cam early 0;journal;^ => 3 => prefer: line 10: unknown name;
prefer obs value m 1;journal;^ => 3 => prefer: line 10: unknown name;
prefer level early 5;journal;^ => 3 => prefer: line 10: unknown name;
prefer obs late 1000;;prefer obs early 1001;journal;^ => 3 => prefer: line 12: out of range;
prefer obs value n 0;journal;^ => 3 => prefer: line 10: out of range;
prefer obs late 2; => 3 => prefer: no journal;
 => 3 => prefer: no journal;
journal;journal;^ => 8 => journal: entry 0: not a line;
64*prefer obs late 1;~journal;^ => 0 => improve score 640;step 1 shift 1 20 score 1280;improve steps 1 score 1280;
65*prefer obs late 1;~journal;^ => 3 => prefer: line 74: too many;
64*prefer obs late 1;~prefer;journal;^ => 3 => prefer: line 74: bad line;";

/// A goal that nothing serves yet.
const OPEN: &str = "0 open turns 8 live 10000 goals 20000 entries 250000
1 in ok : goal 1 obs 10 20 must
";

/// The activity is committed.
const COMMITTED: &str = "0 open turns 8 live 10000 goals 20000 entries 250000
1 in ok : goal 1 obs 10 20 must
2 fix 20 open-goal 1 0 10 20 by add obs 10 goal 1 : ok
3 rest clear
4 commit 30 : ok
";

/// A camera for one activity at a time.
const CAMERA: &str = "horizon 100
lead 5
capacity cam 1
kind obs {
duration 5
use cam 1
}
begin
";

/// Two activities, from 10 and from 15. Their goals let both start from 10 to 20.
const TWO: &str = "0 open turns 8 live 10000 goals 20000 entries 250000
1 in ok : goal 1 obs 10 20 must
2 fix 20 open-goal 1 0 10 20 by add obs 10 goal 1 : ok
3 rest clear
4 commit 5 : ok
5 close
6 in ok : goal 2 obs 10 20 must
7 fix 20 open-goal 2 0 10 20 by add obs 15 goal 2 : ok
8 rest clear
";

const ONE_STEP: &str =
    "prefer obs late 2;prefer obs value n 3;journal;^ => 0 => improve score 26;step 1 assign 1 0 9 score 47;improve steps 1 score 47;";

const CONFLICT: &str = "prefer obs late 2;journal;^ => 0 => improve: conflicts 1;";

const KEPT: &str = "prefer obs late 2;journal;^ => 0 => improve score 20;improve steps 0 score 20;";

/// One of the two keeps the other from moving.
const ONE_MOVES: &str =
    "prefer obs late 1;journal;^ => 0 => improve score 25;step 1 shift 1 20 score 35;improve steps 1 score 35;";

const UNREAD: &str = "journal;^ => 4 =>";

const UNWRITTEN: &str = "journal;^ => 5 =>
prefer;journal;^ => 5 =>";

/// What `improve` says over a model and a journal.
fn improve(words: &'static str, model: &'static str, entries: &'static str) -> Runs<'static> {
    Runs {
        words,
        failing: NONE,
        input: (model, entries),
        text: ("", ""),
    }
}

#[test]
fn betters_plans(rt: HostRuntime) {
    let five = improve("improve 5", MODEL, ENTRIES);
    let tables = [
        (five, ROWS),
        (improve("improve 1", MODEL, ENTRIES), ONE_STEP),
        (improve("improve 5", MODEL, OPEN), CONFLICT),
        (improve("improve 5", MODEL, COMMITTED), KEPT),
        (improve("improve 5", CAMERA, TWO), ONE_MOVES),
        (failing(five, (&[1], &[])), UNREAD),
        (failing(five, (&[], &[1])), UNWRITTEN),
    ];
    assert_tables(&rt, rt.alloc(), &tables);
}
