//! Messages, and the entries that a run makes of them.
use crate::running::{NONE, assert_does, joined};
use crate::tables::{Runs, assert_tables, failing};
use crate::worked::{HEAD_LINES, OPEN};

const PLAYS: Runs<'static> = Runs {
    words: "run solo 8",
    failing: NONE,
    input: (HEAD_LINES, ""),
    text: (OPEN, ""),
};

/// Messages, the status, and the lines behind the open entry's; `;` is a newline.
const PLAYED: &str = " => 0 => 1 in eof;
tick 3 => 0 => 1 in ok : tick 3;2 rest clear;3 commit 33 : ok;4 close;5 in eof;
end;rubbish; => 0 => 1 in end : end;
goal 1 obs 10 20 must => 0 => 1 in ok : goal 1 obs 10 20 must;2 fix 20 open-goal 1 0 10 20 by add obs 10 goal 1 : ok;3 rest clear;4 commit 30 : ok;5 close;6 in eof;
goal 1 obs 10 20 must;tick 10;end; => 0 => 1 in ok : goal 1 obs 10 20 must;2 fix 20 open-goal 1 0 10 20 by add obs 10 goal 1 : ok;3 rest clear;4 commit 30 : ok;5 close;6 in ok : tick 10;7 rest clear;8 dispatch 1 obs 10;9 commit 40 : ok;10 close;11 in end : end;
; \t# a comment;end => 0 => 1 in end : end;
tick 5;tick 5;goal 1 obs 40 50 must;goal 1 obs 40 50 must;goal 2 obs 10 20 must;fly home;end; => 0 => 1 in ok : tick 5;2 rest clear;3 commit 35 : ok;4 close;5 in tick-back : tick 5;6 rest clear;7 close;8 in ok : goal 1 obs 40 50 must;9 fix 50 open-goal 1 0 40 50 by add obs 40 goal 1 : ok;10 rest clear;11 close;12 in duplicate-goal : goal 1 obs 40 50 must;13 rest clear;14 close;15 in too-late : goal 2 obs 10 20 must;16 rest clear;17 close;18 in bad-line : fly home;19 rest clear;20 close;21 in end : end;
tick 3~4090* ~; => 0 => 1 in ok : $2 rest clear;3 commit 33 : ok;4 close;5 in eof;
tick 3~4091* ~;end => 6 =>
tick 3;~4097* ~ => 6 => 1 in ok : tick 3;2 rest clear;3 commit 33 : ok;4 close;";

const UNREAD: &str = "tick 3; => 4 => 1 in ok : tick 3;2 rest clear;3 commit 33 : ok;4 close;";

const UNWRITTEN: &str = "goal 1 obs 10 20 must;tick 10;end; => 5 =>";

/// Whole runs, each line of which ends in a carriage return and a newline, or of which nothing is read or written.
const RUN: Runs<'static> = Runs {
    words: "run solo 8",
    failing: NONE,
    input: ("", HEAD_LINES),
    text: ("", OPEN),
};

const RETURNS: &str =
    "horizon 100\r;lead 30\r;kind obs {\r;duration 5\r;}\r;begin\r;goal 1 obs 10 20 must\r;\r;end\r; => 0 => ^1 in ok : goal 1 obs 10 20 must\r;2 fix 20 open-goal 1 0 10 20 by add obs 10 goal 1 : ok;3 rest clear;4 commit 30 : ok;5 close;6 in end : end\r;";

const NOT_READ: &str = "^goal 1 obs 10 20 must;tick 10;end; => 4 =>";

const NOT_WRITTEN: &str = "^goal 1 obs 10 20 must;tick 10;end; => 5 =>";

#[test]
fn plays_messages(rt: HostRuntime) {
    let tables = [
        (PLAYS, PLAYED),
        (failing(PLAYS, (&[2], &[])), UNREAD),
        (failing(PLAYS, (&[], &[2])), UNWRITTEN),
        (RUN, RETURNS),
        (failing(RUN, (&[1], &[])), NOT_READ),
        (failing(RUN, (&[], &[1])), NOT_WRITTEN),
    ];
    assert_tables(&rt, rt.alloc(), &tables);
}

#[test]
fn plays_a_message_that_is_no_text(rt: HostRuntime) {
    let alloc = rt.alloc();
    let input = joined(&rt, alloc, HEAD_LINES, b"goal \xff\nend\n");
    let text =
        b"1 in bad-line : goal \xff\n2 rest clear\n3 commit 30 : ok\n4 close\n5 in end : end\n";
    let text = joined(&rt, alloc, OPEN, text);
    assert_does(&rt, alloc, "run solo 8", NONE, &input, 0, &text);
}
