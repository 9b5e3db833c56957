//! The commands over a journal: what they say of a legal one and of a wrong one, and their statuses.
use crate::running::{Failing, NONE, assert_does, joined, sides};
use std::alloc::Global;
use std::process::Abort;
use std::sync::Wait;
use std::thread::Threads;

/// A model, and a journal behind it.
pub type Journal<'a> = (&'a str, &'a str);

/// Asserts that a command over a model and a journal ends with this status and writes this text.
pub fn assert_tells<R: Abort + Threads + Wait + Sync>(
    rt: &R,
    alloc: Global,
    command: &str,
    (model, journal): Journal<'_>,
    status: u8,
    text: &str,
) {
    let input = format!(in alloc; "{model}\nbegin\n{journal}").expect(rt, "memory");
    let (input, text) = (input.as_bytes(), text.as_bytes());
    assert_does(rt, alloc, command, NONE, input, status, text);
}

/// A kind without parameters, one whose parameter is free, and one that is made of two others.
const KINDS: &str = "horizon 100 lead 30
kind obs { duration 5 }
kind pic { param n 1 3 duration n }
kind scan { duration 10 alternative { slot a obs slot b obs order a end b start 0 3 } }";

/// Five goals: one that was served and sent, one that is served by two others, one dropped, one whose activity is not firm, and one open.
const GOALS: &str = "0 open turns 2 live 10 goals 10 entries 100
1 in ok : goal 1 obs 10 20 must
2 fix 20 open-goal 1 0 10 20 by add obs 10 goal 1 : ok
3 rest clear
4 commit 30 : ok
5 close
6 in ok : tick 10
7 rest clear
8 dispatch 1 obs 10
9 commit 40 : ok
10 close
11 in ok : goal 2 scan 60 70 must
12 fix 70 open-goal 2 0 60 70 by add scan 60 goal 2 : ok
13 fix 60 undetailed 2 0 0 0 by detail 2 0 : ok
14 rest clear
15 close
16 in ok : goal 3 obs 45 50 may
17 fix 50 open-goal 3 0 45 50 by drop 3 : ok
18 rest clear
19 close
20 in ok : goal 4 pic 80 90 must
21 fix 90 open-goal 4 0 80 90 by add pic 80 goal 4 : ok
22 fix 80 unset 5 0 0 0 by shift 5 81 : not-for
23 rest spent
24 close
25 in ok : goal 5 obs 85 90 must
";

const REPORT: &str = "report entries 26 now 10 committed 40 dispatched 1 conflicts 2
goal 1 obs 10 20 must served 1
goal 2 scan 60 70 must served 2
goal 3 obs 45 50 may dropped
goal 4 pic 80 90 must served 5
goal 5 obs 85 90 must open
activity 1 obs 10 15 root committed
activity 2 scan 60 70 root planned
activity 3 obs 60 65 in 2 planned
activity 4 obs 65 70 in 2 planned
activity 5 pic 80 - root planned
conflict 80 unset 5 0 0 0
conflict 90 open-goal 5 0 85 90
command 1 obs 10
";

/// A kind with values, and a run of it up to its end.
const VALUES: &str = "horizon 100 lead 30
kind shot { param gain 1 9 default 2 param tilt 0 9 default 0 param sum 0 99 = gain + tilt duration 5 }";

const RUN: &str = "0 open turns 8 live 10 goals 10 entries 100
1 in ok : goal 1 shot 10 10 must tilt=3
2 fix 10 open-goal 1 0 10 10 by add shot 10 goal 1 : ok
3 rest clear
4 commit 30 : ok
5 close
6 in ok : tick 10
7 rest clear
8 dispatch 1 shot 10 gain=2 tilt=3 sum=5
9 commit 40 : ok
10 close
11 in end : end
";

const RUN_REPORT: &str = "report entries 12 now 10 committed 40 dispatched 1 conflicts 0
goal 1 shot 10 10 must served 1
activity 1 shot 10 15 root committed
command 1 shot 10 gain=2 tilt=3 sum=5
";

/// Commands, each with a journal and what it says of it.
const SAID: [(&str, Journal<'static>, &str); 4] = [
    (
        "replay",
        (KINDS, GOALS),
        "journal ok: entries 26 unfinished\n",
    ),
    ("report", (KINDS, GOALS), REPORT),
    ("replay", (VALUES, RUN), "journal ok: entries 12 finished\n"),
    ("report", (VALUES, RUN), RUN_REPORT),
];

#[test]
fn tells_of_legal_journals(rt: HostRuntime) {
    for (command, journal, text) in SAID {
        assert_tells(&rt, rt.alloc(), command, journal, 0, text);
    }
}

/// Asserts what both commands say of a journal.
pub fn assert_judged<R: Abort + Threads + Wait + Sync>(
    rt: &R,
    alloc: Global,
    journal: Journal<'_>,
    status: u8,
    text: &str,
) {
    assert_tells(rt, alloc, "replay", journal, status, text);
    assert_tells(rt, alloc, "report", journal, status, text);
}

/// A journal with another text in place of one.
fn changed(rt: &impl Abort, alloc: Global, journal: &str, from: &str, to: &str) -> String {
    let (front, rest) = journal.split_once(from).unwrap_or(("no such text", ""));
    format!(in alloc; "{front}{to}{rest}").expect(rt, "memory")
}

/// Asserts what both commands say of a journal with a change. A row has a text, what stands in its place, and what is said of
/// the first wrong entry.
pub fn assert_wrong<R: Abort + Threads + Wait + Sync>(
    rt: &R,
    alloc: Global,
    (model, journal): Journal<'_>,
    row: &str,
) {
    let (from, rest) = sides(row);
    let (to, said) = sides(rest);
    let journal = changed(rt, alloc, journal, from, to);
    let text = format!(in alloc; "journal: entry {said}\n").expect(rt, "memory");
    assert_judged(rt, alloc, (model, journal.as_str()), 8, text.as_str());
}

/// A text of the run, what stands in its place, and the wrong entry with its cause.
const CHANGES: &str = "in ok => in range => 1: reply is ok
add shot 10 goal 1 => drop 1 => 2: reply is not-for
rest clear => rest stuck => 3: reply is clear
fix 10 open-goal 1 0 10 10 by add shot 10 goal 1 : ok => commit 20 : ok => 2: reply is held 10 open-goal 1 0 10 10
 gain=2 tilt=3 sum=5 =>  tilt=3 => 8: reply is 1 shot 10 gain=2 tilt=3 sum=5
entries 100 => entries 5 => 5: log full
5 close => 5 rest clear => 5: not now
5 close => 5 clos => 5: not a line";

#[test]
fn tells_the_first_wrong_entry(rt: HostRuntime) {
    for row in CHANGES.lines() {
        assert_wrong(&rt, rt.alloc(), (VALUES, RUN), row);
    }
}

/// Asserts that `report` over a model and a journal stops with this status and writes nothing of it.
fn assert_stops<R: Abort + Threads + Wait + Sync>(
    rt: &R,
    alloc: Global,
    failing: Failing<'_>,
    input: &[u8],
    status: u8,
) {
    assert_does(rt, alloc, "report", failing, input, status, b"");
}

#[test]
fn stops_by_faults(rt: HostRuntime) {
    let alloc = rt.alloc();
    let input = joined(&rt, alloc, VALUES, b"\nbegin\n");
    assert_stops(&rt, alloc, (&[1], &[]), &input, 4);
    assert_stops(&rt, alloc, (&[2], &[]), &input, 4);
    assert_stops(&rt, alloc, (&[], &[1]), &input, 5);
}

#[test]
fn stops_at_a_long_line(rt: HostRuntime) {
    let alloc = rt.alloc();
    let longer = "x".repeat(alloc, 4161).expect(&rt, "memory");
    assert_tells(&rt, alloc, "report", (VALUES, longer.as_str()), 6, "");
}

#[test]
fn wants_a_begin(rt: HostRuntime) {
    let (model, said) = (VALUES.as_bytes(), b"model: no begin\n");
    assert_does(&rt, rt.alloc(), "replay", NONE, model, 3, said);
}
