//! The worked run: its model, its messages, and the journal that it makes.

/// One kind, whose activities last five units.
pub const MODEL: &str = "horizon 100 lead 30 kind obs { duration 5 }";

/// A goal served, one tick, and the end, over that model.
pub const JOURNAL: &str = "0 open turns 8 live 10000 goals 20000 entries 250000
1 in ok : goal 1 obs 10 20 must
2 fix 20 open-goal 1 0 10 20 by add obs 10 goal 1 : ok
3 rest clear
4 commit 30 : ok
5 close
6 in ok : tick 10
7 rest clear
8 dispatch 1 obs 10
9 commit 40 : ok
10 close
11 in end : end
";

/// The model up to the messages.
pub const HEAD: &str = "horizon 100 lead 30 kind obs { duration 5 }\nbegin\n";

/// The same with a newline behind each statement.
pub const HEAD_LINES: &str = "horizon 100\nlead 30\nkind obs {\nduration 5\n}\nbegin\n";

/// The first line of a run of eight turns.
pub const OPEN: &str = "0 open turns 8 live 10000 goals 20000 entries 250000\n";

/// The input of that run.
pub const INPUT: &str = "horizon 100
lead 30
kind obs {
duration 5
}
begin
goal 1 obs 10 20 must
tick 10
end
";
