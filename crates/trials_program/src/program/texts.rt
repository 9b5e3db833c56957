//! Texts of models in front of a run: faults, and lengths up to the limit.
use crate::running::NONE;
use crate::tables::{Runs, assert_tables};
use crate::worked::OPEN;

const RUN: Runs<'static> = Runs {
    words: "run solo 8",
    failing: NONE,
    input: ("", TEXT),
    text: ("", OPEN),
};

/// Inputs, the status, and what is written; `;` is a newline, and `^` stands for the text below. The longest text of a model has
/// 1,048,576 bytes: the 44 of this one, and 1,048,532 newlines.
const TEXTS: &str = " => 3 => model: no begin;
horizon 100;lead 30;end; => 3 => model: no begin;
begin;end; => 3 => model: unexpected at 0;
horizon 9;lead 3;kind a { duration 5 };kind a { duration 5 };begin; => 3 => model: name twice: a;
horizon 9;lead 3;kind a { duration 0 };begin; => 3 => model: out of range: duration;
^~1048532*;~begin;end; => 0 => ^1 in end : end;
^~1048532*;~;begin;end; => 3 => model: too long;
^~1048532*;~; => 3 => model: no begin;";

/// A model's text of 44 bytes.
const TEXT: &str = "horizon 100;lead 30;kind obs {;duration 5;};";

#[test]
fn takes_texts_up_to_the_limit(rt: HostRuntime) {
    let tables = [(RUN, TEXTS)];
    assert_tables(&rt, rt.alloc(), &tables);
}
