//! What the tests read of their tables' texts.
ghost use Rattle.pl_model.specs.Checked.{IsChecked};

use pl_check::{Accepted, accept};
use pl_model::Model;
use std::alloc::Global;
use std::process::Abort;

/// The model of a text.
pub fn model(rt: &impl Abort, alloc: Global, text: &str) -> Model
    ensures { IsChecked result }
{
    match accept(alloc, text.as_bytes()).expect(rt, "memory") {
        Accepted::Model(model) => model,
        Accepted::Refused(_) => panic!(rt; "no model: {text}"),
    }
}

/// The front of a row and the rest of it, which ` =>` parts; nothing is left where nothing parts them.
pub fn sides(row: &str) -> (&str, &str) {
    let (front, rest) = row.split_once(" =>").unwrap_or((row, ""));
    (front, rest.trim_start())
}

/// Takes the first word off; nothing is left where there is no space.
pub fn word<'a>(rest: &mut &'a str) -> &'a str {
    let (first, more) = rest.split_once(' ').unwrap_or((*rest, ""));
    *rest = more;
    first
}

/// Takes a number off, 0 where the first word is none.
pub fn number(rest: &mut &str) -> u32 {
    word(rest).parse().unwrap_or(0)
}
