//! What `check` says of texts, and where it stops.
use crate::running::NONE;
use crate::tables::{Runs, assert_tables, failing};

const CHECK: Runs<'static> = Runs {
    words: "check",
    failing: NONE,
    input: ("", ""),
    text: ("", ""),
};

/// Inputs of `check`, the status, and the line that is written; `;` is a newline.
const CHECKED: &str =
    "horizon 100;lead 30;kind obs {;duration 5;};begin; => 0 => model ok: timelines 0 kinds 1;
horizon 9 lead 3 capacity c 5 level l 0 9 5 kind a { duration 5 use c 2 };begin; => 0 => model ok: timelines 2 kinds 1;
horizon 100;lead 30;kind obs {;duration 5;}; => 3 => model: no begin;
horizon 9 lead 3 kind a { duration b };begin; => 3 => model: unknown name: b;
4097*x => 6 =>";

const UNREAD: &str = "horizon 100;lead 30;kind obs {;duration 5;};begin; => 4 =>";

const UNWRITTEN: &str = "horizon 100;lead 30;kind obs {;duration 5;};begin; => 5 =>";

#[test]
fn checks_models(rt: HostRuntime) {
    let tables = [
        (CHECK, CHECKED),
        (failing(CHECK, (&[1], &[])), UNREAD),
        (failing(CHECK, (&[], &[1])), UNWRITTEN),
    ];
    assert_tables(&rt, rt.alloc(), &tables);
}
