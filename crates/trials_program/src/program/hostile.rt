//! Texts that are made to be refused, through the program: models, messages, journals.
use crate::program::journals::{assert_judged, assert_wrong};
use crate::running::NONE;
use crate::tables::{Runs, assert_tables};
use crate::worked::{HEAD, JOURNAL, MODEL, OPEN};
use std::alloc::Global;
use std::process::Abort;
use std::sync::Wait;
use std::thread::Threads;

const CHECK: Runs<'static> = Runs {
    words: "check",
    failing: NONE,
    input: ("", ""),
    text: ("", ""),
};

/// The texts of models, the status, and what `check` says of each. The last two have 1,048,576 bytes and one more.
const MODELS: &str =
    "horizon 100 lead 30 kind a { duration ~32*(~5~32*)~ }~;begin; => 0 => model ok: timelines 0 kinds 1;
horizon 100 lead 30 kind a { duration ~33*(~5~33*)~ }~;begin; => 3 => model: too deep at 70;
horizon 100 lead 30 kind a { duration 1~31*+1~ }~;begin; => 0 => model ok: timelines 0 kinds 1;
horizon 100 lead 30 kind a { duration 1~32*+1~ }~;begin; => 3 => model: too deep at 101;
horizon 100 lead 30 kind a { duration 101 }~;begin; => 3 => model: out of range: duration;
horizon 100 lead 30 kind ~33*x~;begin; => 3 => model: bad name at 25;
horizon 1000000000000000000 lead 1~;begin; => 3 => model: bad number at 8;
$~;begin; => 3 => model: bad byte at 0;
horizon 1 lead 1~;begin; => 3 => model: out of range: horizon;
horizon 100 lead 101~;begin; => 3 => model: out of range: lead;
horizon 100 lead 30 kind a { duration 5 use cam 1 }~;begin; => 3 => model: unknown name: cam;
horizon 100 lead 30 kind a { param x 1 9 = y param y 1 9 = x duration 5 }~;begin; => 3 => model: circular: kind a, parameter x;
horizon 100 lead 30 kind a { duration 5 alternative { slot s a } }~;begin; => 3 => model: recursive: kind a;
horizon 100 lead 30 kind a { ~16*param p# 1 9 ~duration 5 }~;begin; => 0 => model ok: timelines 0 kinds 1;
horizon 100 lead 30 kind a { ~17*param p# 1 9 ~duration 5 }~;begin; => 3 => model: too many: params;
horizon 100 lead 30~256*;kind k# { duration 5 }~;begin; => 0 => model ok: timelines 0 kinds 256;
horizon 100 lead 30~257*;kind k# { duration 5 }~;begin; => 3 => model: too many: kinds;
1048532*;~horizon 100;lead 30;kind obs {;duration 5;}~;begin; => 0 => model ok: timelines 0 kinds 1;
1048533*;~horizon 100;lead 30;kind obs {;duration 5;}~;begin; => 3 => model: too long;";

const RUN: Runs<'static> = Runs {
    words: "run solo 8",
    failing: NONE,
    input: (HEAD, ""),
    text: (OPEN, REFUSED),
};

/// The rest of the journal of a message that is refused.
const REFUSED: &str = "2 rest clear;3 commit 30 : ok;4 close;5 in eof;";

/// Messages at the present 0, and the entries that each leads to; `;` is a newline.
const MESSAGES: &str = "goal 0 obs 1 2 must; => 0 => 1 in range : $^
goal 1 obs 1 100 must; => 0 => 1 in range : $^
goal 1000000001 obs 1 99 must; => 0 => 1 in range : $^
tick 101; => 0 => 1 in tick-beyond : $^
tick 999999999999999999; => 0 => 1 in tick-beyond : $^
tick 0; => 0 => 1 in tick-back : $^
tick; => 0 => 1 in bad-line : $^
tick 3 3; => 0 => 1 in bad-line : $^
end now; => 0 => 1 in bad-line : $^
tick 1000000000000000000; => 0 => 1 in bad-line : $^
until 1 101; => 0 => 1 in range : $^
until 0 4294967297; => 0 => 1 in range : $^
until 999999999999999999 999999999999999999; => 0 => 1 in range : $^
until 999999999999999999 100; => 0 => 1 in not-begun : $^
until 4294967297 100; => 0 => 1 in not-begun : $^
until 1 0; => 0 => 1 in not-begun : $^
until; => 0 => 1 in bad-line : $^
until 1; => 0 => 1 in bad-line : $^
until 1 2 3; => 0 => 1 in bad-line : $^
until 1 -2; => 0 => 1 in bad-line : $^
until obs 10; => 0 => 1 in bad-line : $^
until 1000000000000000000 10; => 0 => 1 in bad-line : $^
halt 1; => 0 => 1 in bad-line : $^
halted; => 0 => 1 in bad-line : $^";

/// Messages that are taken.
const TAKEN: &str =
    "goal 1000000000 obs 1 99 must; => 0 => 1 in ok : $2 fix 99 open-goal 1000000000 0 1 99 by add obs 1 goal 1000000000 : ok;3 rest clear;4 commit 30 : ok;5 close;6 in eof;
tick 100; => 0 => 1 in ok : $2 rest clear;3 close;4 in eof;";

#[test]
fn answers_hostile_texts(rt: HostRuntime) {
    let tables = [(CHECK, MODELS), (RUN, MESSAGES), (RUN, TAKEN)];
    assert_tables(&rt, rt.alloc(), &tables);
}

/// A text of the worked journal, what stands in its place, and what is said of the first wrong entry.
const JOURNALS: &str = "turns 8 => turns 0 => 0: not a line
entries 250000 => entries 3 => 3: log full
2 fix => 3 fix => 2: not a line
open-goal 1 => open-goal 2 => 2: reply is stale
rest clear => rest spent => 3: reply is clear
commit 30 => commit 101 => 4: reply is beyond
commit 30 => commit 100 => 9: reply is behind";

#[test]
fn judges_hostile_journals(rt: HostRuntime) {
    for row in JOURNALS.lines() {
        assert_wrong(&rt, rt.alloc(), (MODEL, JOURNAL), row);
    }
}

/// Asserts what both commands say of a journal that is one line of so many bytes.
fn assert_line<R: Abort + Threads + Wait + Sync>(
    rt: &R,
    alloc: Global,
    (model, bytes): (&str, usize),
    status: u8,
    text: &str,
) {
    let journal = "x".repeat(alloc, bytes).expect(rt, "memory");
    assert_judged(rt, alloc, (model, journal.as_str()), status, text);
}

/// A line of an entry has 4,160 bytes at most.
#[test]
fn judges_long_lines(rt: HostRuntime) {
    let alloc = rt.alloc();
    let first = "journal: entry 0: not a line\n";
    assert_line(&rt, alloc, (MODEL, 0), 8, first);
    assert_line(&rt, alloc, (MODEL, 4160), 8, first);
    assert_line(&rt, alloc, (MODEL, 4161), 6, "");
}
