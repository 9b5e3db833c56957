//! What the timelines of a board tell, and what is wrong with it.
ghost use Rattle.std.specs.Prelude.{◌≡◌, ◌≤◌, ◌<◌, false, true, slice_get};
ghost use Rattle.pl_model.specs.Checked.{IsCapacityLine, IsLevelLine};
ghost use Rattle.pl_detect.specs.Based.{IsStateLine};

use crate::board::reading::conflict;
use crate::reading::{number, sides, word};
use pl_board::Board;
use pl_conflict::Conflict;
use pl_model::{Model, Timeline};
use std::alloc::Global;

fn is_capacity(model: &Model, line: u32) -> bool
    ensures { result ≡ true → IsCapacityLine (slice_get model.now.timelines line) }
{
    match model.timelines.as_slice().get(line as usize) {
        Some(Timeline::Capacity { .. }) => true,
        _ => false,
    }
}

fn is_level(model: &Model, line: u32) -> bool
    ensures { result ≡ true → IsLevelLine (slice_get model.now.timelines line) }
{
    match model.timelines.as_slice().get(line as usize) {
        Some(Timeline::Level { .. }) => true,
        _ => false,
    }
}

fn is_state(model: &Model, line: u32) -> bool
    ensures { result ≡ true → IsStateLine (slice_get model.now.timelines line) }
{
    match model.timelines.as_slice().get(line as usize) {
        Some(Timeline::States { .. }) => true,
        _ => false,
    }
}

fn is_ahead(board: &Board, t: u32) -> bool
    ensures unspoiled { result ≡ true → board.now.spoiled ≡ false }
    ensures now { result ≡ true → board.now.state.moment ≤ t }
    ensures before { result ≡ true → t < board.now.state.model.horizon }
{
    !board.spoiled() && board.now() <= t && t < board.model().horizon
}

fn use_at(board: &Board, line: u32, t: u32) -> Option<i64> {
    if is_ahead(board, t) && is_capacity(board.model(), line) {
        Some(board.use_at(line, t))
    } else {
        None
    }
}

fn level_at(board: &Board, line: u32, t: u32) -> Option<i64> {
    if is_ahead(board, t) && is_level(board.model(), line) {
        Some(board.level_at(line, t))
    } else {
        None
    }
}

/// From a moment on, the first before another at which a level is outside of two values, or that other.
fn level_until(board: &Board, line: u32, from: u32, rest: &str) -> Option<i64> {
    let mut rest = rest;
    let to = number(&mut rest);
    let least = i64::from(number(&mut rest));
    let most = i64::from(number(&mut rest));
    let is_before = from <= to && to <= board.model().horizon;
    if is_ahead(board, from) && is_before && is_level(board.model(), line) {
        Some(i64::from(board.level_until(line, from, to, least, most)))
    } else {
        None
    }
}

fn state_at(board: &Board, line: u32, t: u32) -> Option<i64> {
    if is_ahead(board, t) && is_state(board.model(), line) {
        Some(i64::from(board.state_at(line, t)))
    } else {
        None
    }
}

/// The value of a line, as `level 0 50`, or how long a level stays within values, as `until 0 50 100 15 90`.
fn value(board: &Board, line: &str) -> Option<i64> {
    let mut rest = line;
    let name = word(&mut rest);
    let timeline = number(&mut rest);
    let t = number(&mut rest);
    match name {
        "use" => use_at(board, timeline, t),
        "level" => level_at(board, timeline, t),
        "until" => level_until(board, timeline, t, rest),
        _ => state_at(board, timeline, t),
    }
}

/// Whether the timelines have these values; `;` parts them.
fn are_values(board: &Board, values: &str) -> Option<bool> {
    for line in values.split(';') {
        let (asked, wanted) = line.split_once(" = ").unwrap_or((line, ""));
        let found = value(board, asked)?;
        if wanted.parse() != Ok(found) {
            return Some(false);
        }
    }
    Some(true)
}

/// The conflicts of a text; `;` parts them.
fn conflicts_in(alloc: Global, text: &str) -> Option<Vec<Conflict>> {
    let mut all = Vec::new(alloc);
    for line in text.split(';') {
        if !line.is_empty() {
            all.push(conflict(line)).ok()?;
        }
    }
    Some(all)
}

/// Whether these are the conflicts, in their order; `;` parts them.
pub fn are_conflicts(alloc: Global, board: &Board, conflicts: &str) -> Option<bool> {
    let wanted = conflicts_in(alloc, conflicts)?;
    let found = board.conflicts().list(alloc).ok()?;
    Some(found.as_slice() == wanted.as_slice())
}

/// Whether the timelines have these values, and the conflicts are these.
pub fn has_values(alloc: Global, board: &Board, row: &str) -> Option<bool> {
    let (values, conflicts) = sides(row);
    if are_values(board, values)? {
        are_conflicts(alloc, board, conflicts)
    } else {
        Some(false)
    }
}
