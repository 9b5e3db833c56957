//! What stands in the rows of the tests' tables.
use std::alloc::Global;
use std::process::Abort;

/// The two sides of a row, which ` => ` parts; the second is empty where nothing parts them.
pub fn sides(row: &str) -> (&str, &str) {
    row.split_once(" => ").unwrap_or((row, ""))
}

/// Takes the first word off; nothing is left where there is no space.
pub fn word<'a>(rest: &mut &'a str) -> &'a str {
    let (first, more) = rest.split_once(' ').unwrap_or((*rest, ""));
    *rest = more;
    first
}

/// Takes a number off, 0 where the first word is none.
pub fn number(rest: &mut &str) -> u32 {
    word(rest).parse().unwrap_or(0)
}

/// The text with a newline for each `;`.
pub fn lines(rt: &impl Abort, alloc: Global, text: &str) -> String {
    text.replace(alloc, ";", "\n").expect(rt, "memory")
}
