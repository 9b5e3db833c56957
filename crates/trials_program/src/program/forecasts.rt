//! Forecasts: what the rates before a journal come to, and what is refused there.
use crate::running::NONE;
use crate::tables::{Runs, assert_tables, failing};

/// A battery that holds 20 and may hold 0 to 50, and a kind.
const MODEL: &str = "horizon 100
lead 30
level bat 0 50 20
kind obs {
duration 5
}
begin
";

/// One activity, from 10 to 15.
const ENTRIES: &str = "0 open turns 8 live 10000 goals 20000 entries 250000
1 in ok : goal 1 obs 10 20 must
2 fix 20 open-goal 1 0 10 20 by add obs 10 goal 1 : ok
3 rest clear
";

/// The lines behind `begin`, the status, and what is written. A `;` stands for a newline, a `^` for the entries.
const ROWS: &str = "rate obs bat -5;journal;^ => 0 => forecast spans 1;low bat 15 100;
rate obs bat -5;drift bat 1;journal;^ => 0 => forecast spans 1;high bat 56 100;
;drift bat 3; # a comment;;\tdrift bat - 3;journal # the journal;^ => 0 => forecast spans 0;
journal;^ => 0 => forecast spans 0;
rate obs cam 1;journal;^ => 3 => rate: line 8: unknown name;
drift bat 1;;rate obs bat;journal;^ => 3 => rate: line 10: bad line;
drift bat 1000001;journal;^ => 3 => rate: line 8: out of range;
journal 1;journal;^ => 3 => rate: line 8: bad line;
begin;journal;^ => 3 => rate: line 8: bad line;
drift bat 1; => 3 => rate: no journal;
 => 3 => rate: no journal;
journal;journal;^ => 8 => journal: entry 0: not a line;
64*drift bat 1;~journal;^ => 0 => forecast spans 1;high bat 1 100;
65*drift bat 1;~journal;^ => 3 => rate: line 72: too many;
64*drift bat 1;~drift;journal;^ => 3 => rate: line 72: bad line;";

const FORECAST: Runs<'static> = Runs {
    words: "forecast",
    failing: NONE,
    input: (MODEL, ENTRIES),
    text: ("", ""),
};

const UNREAD: &str = "journal;^ => 4 =>";

const UNWRITTEN: &str = "journal;^ => 5 =>
drift;journal;^ => 5 =>";

#[test]
fn foretells(rt: HostRuntime) {
    let tables = [
        (FORECAST, ROWS),
        (failing(FORECAST, (&[1], &[])), UNREAD),
        (failing(FORECAST, (&[], &[1])), UNWRITTEN),
    ];
    assert_tables(&rt, rt.alloc(), &tables);
}
