//! Models with as many of each thing as there may be, and with one more.
use crate::model::texts::assert_judged;
use crate::reading::field;
use std::alloc::{AllocError, Global};
use std::process::Abort;

/// A piece so many times, in each its number in the place of its `#`, and a blank behind each.
fn pieces(alloc: Global, piece: &str, times: u32) -> Result<String, AllocError> {
    let mut text = String::new(alloc);
    for number in 0..times {
        let digits = format!(in alloc; "{number}")?;
        text.push_str(piece.replace(alloc, "#", digits.as_str())?.as_str())?;
        text.push(' ')?;
    }
    Ok(text)
}

/// A model's text with a piece so many times.
fn repeated(
    alloc: Global,
    (front, piece, back): (&str, &str, &str),
    times: u32,
) -> Result<String, AllocError> {
    let pieces = pieces(alloc, piece, times)?;
    format!(in alloc; "horizon 100 lead 30 {front} {pieces}{back}")
}

/// What stands before a piece, the piece, what stands behind it, how many of it there may be, and of what.
const COUNTS: &str = " | kind k# { duration 5 } |  | 256 | too many: kinds
 | capacity c# 5 |  | 256 | too many: timelines
state s { | a# | } start a0 any | 32 | too many: states
kind a { | param p# 1 9 | duration 5 } | 16 | too many: params
capacity c 9 kind k { duration 5 | use c 1 | } | 32 | too many: reservations
kind k { duration 5 | link start k end 0 9 | } | 16 | too many: links
kind x { duration 1 } kind k { duration 5 | alternative { slot a x } | } | 8 | too many: alternatives
kind x { duration 1 } kind k { duration 5 alternative { | slot a# x | } } | 16 | too many: slots
kind x { duration 1 } kind k { duration 5 alternative { slot a x | order parent start a start 0 9 | } } | 64 | too many: orders";

/// Asserts that a model's text with a piece so many times has this fault, or is accepted where the fault is empty.
fn assert_repeated(
    rt: &impl Abort,
    alloc: Global,
    parts: (&str, &str, &str),
    times: u32,
    fault: &str,
) {
    let text = repeated(alloc, parts, times).expect(rt, "memory");
    assert_judged(rt, alloc, text.as_str(), fault);
}

// so many are taken, and one more is one too many
#[test]
fn counts_at_their_limits(rt: HostRuntime) {
    let alloc = rt.alloc();
    for row in COUNTS.lines() {
        let mut rest = row;
        let parts = (field(&mut rest), field(&mut rest), field(&mut rest));
        let most: u32 = field(&mut rest).parse().unwrap_or(0);
        assert_repeated(&rt, alloc, parts, most, "");
        assert_repeated(&rt, alloc, parts, most.saturating_add(1), rest);
    }
}

/// What stands in front of an expression, and behind it.
const PLACES: &str = "kind k { duration | }
kind k { param p 0 99 = | duration 5 }
capacity c 9 kind k { duration 5 use c | }
kind x { param q 0 99 duration 1 } kind k { duration 5 alternative { slot a x ( q = | ) } }";

// an expression has an odd number of nodes: 63 are taken, and 65 are too many
#[test]
fn nodes_at_their_limit(rt: HostRuntime) {
    let alloc = rt.alloc();
    for row in PLACES.lines() {
        let (front, back) = row.split_once(" | ").unwrap_or((row, ""));
        let last = format!(in alloc; "1+1 {back}").expect(&rt, "memory");
        assert_repeated(&rt, alloc, (front, "1*1+", last.as_str()), 15, "");
        let last = format!(in alloc; "1 {back}").expect(&rt, "memory");
        let fault = "too many: nodes";
        assert_repeated(&rt, alloc, (front, "1*1+", last.as_str()), 16, fault);
    }
}
