//! Changes of a board, each by its public call. None is made where it is not allowed, or where memory is wanting.
ghost use Rattle.std.specs.Prelude.{◌≡◌, ◌<◌, ◌≤◌, pos, false, true, length, slice_get, IfSome};
ghost use Rattle.pl_model.specs.Checked.{params_of};
ghost use Rattle.pl_update.specs.Changes.Changes.{CanTell, CanMeasure};
ghost use Rattle.pl_semantics.specs.Whole.{IsGoalOf};
ghost use Rattle.pl_semantics.specs.Moves.{is_proper};
ghost use Rattle.pl_moves.specs.Runs.{CanBeMade};

use crate::board::reading::repair;
use crate::reading::{number, word};
use pl_board::Board;
use pl_facts::Goal;
use pl_lists::Items;
use pl_model::{Model, Timeline};
use pl_moves::{apply, legal, proper};
use pl_plan::RepairMove;
use pl_points::{Ledger, Quiet, Steps};
use std::alloc::Global;

fn can_tell(model: &Model, line: u32, value: u32) -> bool
    ensures { result ≡ true → CanTell (pos value) (slice_get model.now.timelines line) }
{
    match model.timelines.as_slice().get(line as usize) {
        Some(Timeline::Level { .. }) => true,
        Some(Timeline::States { states, .. }) => (value as usize) < states.as_slice().len(),
        _ => false,
    }
}

fn tick(board: &mut Board, now: u32) -> Option<()> {
    if board.now() < now && now <= board.model().horizon {
        board.tick(now, &mut Steps::new(Quiet)).ok()
    } else {
        None
    }
}

fn commit(board: &mut Board, h: u32) -> Option<()> {
    if board.committed() <= h && h <= board.model().horizon {
        board.commit(h).ok()
    } else {
        None
    }
}

/// Whether an activity of this start has begun, is committed, and can end at a moment.
fn can_end(board: &Board, start: u32, moment: u32) -> bool
    ensures begun { result ≡ true → start ≤ board.now.state.moment }
    ensures committed { result ≡ true → start < board.now.state.committed }
    ensures after { result ≡ true → start < moment }
    ensures within { result ≡ true → moment ≤ board.now.state.model.horizon }
{
    let begun = start <= board.now() && start < board.committed();
    begun && start < moment && moment <= board.model().horizon
}

/// Whether an activity has begun, and can end at a moment.
fn can_measure(board: &Board, id: u32, moment: u32) -> bool
    ensures { result ≡ true → CanMeasure board.now.state id moment }
{
    match board.plan().get(id) {
        Some(activity) => can_end(board, activity.start, moment),
        None => false,
    }
}

fn until(board: &mut Board, id: u32, moment: u32) -> Option<()> {
    if can_measure(board, id, moment) {
        board.until(id, moment, &mut Steps::new(Quiet)).ok()
    } else {
        None
    }
}

fn tell(board: &mut Board, line: u32, value: u32) -> Option<()> {
    if can_tell(board.model(), line, value) {
        let value = i64::from(value);
        board.telemetry(line, value, &mut Steps::new(Quiet)).ok()
    } else {
        None
    }
}

/// Whether there is a first kind, and it has no parameters.
fn is_plain(model: &Model) -> bool
    ensures kind { result ≡ true → 0 < length model.now.kinds }
    ensures params { result ≡ true → length (params_of (slice_get model.now.kinds 0)) ≡ 0 }
{
    match model.kinds.as_slice() {
        [first, ..] => first.params.is_empty(),
        [] => false,
    }
}

/// A goal of the first kind.
fn goal(alloc: Global, model: &Model, number: u32, window: (u32, u32), must: bool) -> Option<Goal>
    ensures of_model { IfSome result (IsGoalOf model.now) }
    ensures stays { IfSome result (λ goal. goal.dropped ≡ false) }
    ensures number { IfSome result (λ goal. goal.number ≡ number) }
{
    let (earliest, latest) = window;
    if earliest <= latest && latest < model.horizon && is_plain(model) {
        Some(Goal {
            number,
            kind: 0,
            earliest,
            latest,
            must,
            presets: Items::new(alloc),
            dropped: false,
        })
    } else {
        None
    }
}

/// Asks for a goal of the first kind: its number, its window, and its word.
fn ask(alloc: Global, board: &mut Board, line: &str) -> Option<()> {
    let mut rest = line;
    let name = number(&mut rest);
    let window = (number(&mut rest), number(&mut rest));
    if board.goals().get(name).is_some() {
        return None;
    }
    let goal = goal(alloc, board.model(), name, window, rest == "must")?;
    board.add_goal(goal).ok()
}

/// Whether a move may be tried on a board: it is proper.
pub fn can_move(board: &Board, mv: &RepairMove) -> bool
    ensures unspoiled { result ≡ true → board.now.spoiled ≡ false }
    ensures next { result ≡ true → board.now.state.next_id ≤ 3999999000 }
    ensures proper { result ≡ true → is_proper board.now.state mv.now ≡ true }
{
    !board.spoiled() && board.next_id() <= 3_999_999_000 && proper(board, mv)
}

/// Whether a move is proper, and legal too.
pub fn can_make(board: &Board, mv: &RepairMove) -> bool
    ensures unspoiled { result ≡ true → board.now.spoiled ≡ false }
    ensures next { result ≡ true → board.now.state.next_id ≤ 3999999000 }
    ensures allowed { result ≡ true → CanBeMade board.now.state mv.now }
{
    can_move(board, mv) && legal(board, mv).is_ok()
}

/// Makes a move, which is legal.
pub fn make<L: Ledger>(
    alloc: Global,
    board: &mut Board,
    mv: &RepairMove,
    steps: &mut Steps<L>,
) -> Option<()> {
    if can_move(board, mv) {
        apply(alloc, board, mv, steps).ok()
    } else {
        None
    }
}

/// Makes the change of a line: `tick`, `commit`, `withdraw`, `until` with an id and a moment, `tele`, `goal` with its number,
/// its window and its word, or a move.
fn change(alloc: Global, board: &mut Board, line: &str) -> Option<()> {
    let mut rest = line;
    let name = word(&mut rest);
    let asked = rest;
    let first = number(&mut rest);
    let second = number(&mut rest);
    match name {
        "tick" => tick(board, first),
        "commit" => commit(board, first),
        "withdraw" => board.withdraw().ok(),
        "until" => until(board, first, second),
        "tele" => tell(board, first, second),
        "goal" => ask(alloc, board, asked),
        _ => make(alloc, board, &repair(line), &mut Steps::new(Quiet)),
    }
}

/// Makes a change once, or as often as is said before it, as `255 times add 0 20`.
fn change_often(alloc: Global, board: &mut Board, line: &str) -> Option<()> {
    let (times, line) = line.split_once(" times ").unwrap_or(("1", line));
    for _ in 0..times.parse().unwrap_or(0u32) {
        change(alloc, board, line)?;
    }
    Some(())
}

/// Makes the changes of a script; `;` parts them.
pub fn change_all(alloc: Global, board: &mut Board, script: &str) -> Option<()> {
    for line in script.split(';') {
        if !line.is_empty() {
            change_often(alloc, board, line)?;
        }
    }
    Some(())
}
