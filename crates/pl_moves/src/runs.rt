//! Moves that place the same activities at other starts, tried one after another.
ghost use Rattle.std.specs.Prelude.{◌≡◌, ◌+◌, ◌^◌, ◌<◌, ◌≤◌, ◌++◌, ◌∷◌, [], false, true, min, map, length, take, All, IfOk, OnOk, OnErr};
ghost use Rattle.pl_semantics.specs.Conflicts.{conflicts_of};
ghost use Rattle.pl_semantics.specs.Whole.{IsWhole};
ghost use Rattle.pl_semantics.specs.Moves.{moved};
ghost use Rattle.pl_update.specs.Changes.Replaced.{CanReplace, with_plan};
ghost use Rattle.pl_board.specs.Boards.{after};
ghost use Rattle.pl_moves.specs.Changes.{IsOfActivities};
ghost use Rattle.pl_moves.specs.Runs.{start_of, goes_on, counted, CanBeMade, IsCountOf, IsTrialOf};

use crate::application::make_change;
use crate::change::moved;
use crate::counting::count_after;
use crate::least::least_left;
use crate::trial::{Trial, trial_of};
use pl_board::Board;
use pl_plan::{Activity, RepairMove};
use pl_points::{Ledger, Steps};
use std::alloc::{AllocError, Global};

/// How many conflicts a first move leaves, and how many each of some others leaves that place the same activities at other starts.
#[derive(Drop)]
pub struct RunCounts {
    pub first: u32,
    pub others: Vec<u32>,
}

/// The start that a move gives to what it places; 0 for one that gives none.
pub fn start_of(mv: &RepairMove) -> u32
    ensures { result ≡ start_of mv.now }
{
    match *mv {
        RepairMove::Add { start, .. } => start,
        RepairMove::Shift { start, .. } => start,
        _ => 0,
    }
}

/// Whether a move places the same activities as the first one does, maybe at another start.
pub fn goes_on(first: &RepairMove, mv: &RepairMove) -> bool
    ensures { result ≡ goes_on first.now mv.now }
{
    match (*first, *mv) {
        (
            RepairMove::Add { kind, goal, .. },
            RepairMove::Add {
                kind: k,
                goal: g,
                ..
            },
        ) => kind == k && goal == g,
        (RepairMove::Shift { id, .. }, RepairMove::Shift { id: i, .. }) => id == i,
        _ => false,
    }
}

/// How many moves at the front of the list place the same activities as the first one does.
pub fn run_length(first: &RepairMove, moves: &[RepairMove]) -> usize
    ensures few { result ≤ length moves.now }
    ensures alike { All (λ m. goes_on first.now m ≡ true) (take result moves.now) }
{
    for (place, mv) in moves.iter().enumerate() {
        if !goes_on(first, mv) {
            return place;
        }
    }
    moves.len()
}

fn moved_all(
    alloc: Global,
    placed: &[Activity],
    from: u32,
    to: u32,
) -> Result<Vec<Activity>, AllocError>
    requires { All (λ a. a.start + to < 2 ^ 32) placed.now }
    ensures { IfOk result (λ all. all.items ≡ map (moved from to) placed.now) }
{
    let mut all = Vec::with_capacity(alloc, placed.len())?;
    for a in placed {
        all.push(moved(alloc, a, from, to)?)?;
    }
    Ok(all)
}

// Notes how many conflicts there are.
fn note(board: &mut Board, counts: &mut Vec<u32>) -> Result<u32, AllocError>
    requires { board.old.spoiled ≡ false }
    ensures count { IfOk result (λ n. n ≡ min (length (conflicts_of board.old.state)) 4294967295) }
    ensures noted { IfOk result (λ n. counts.new.items ≡ counts.old.items ++ n ∷ []) }
    ensures same { OnOk result (board.new ≡ board.old) }
    ensures err { OnErr result (board.new.spoiled ≡ true) }
{
    let count = board.conflicts().len();
    match counts.push(count) {
        Ok(()) => Ok(count),
        Err(_) => {
            board.spoil();
            Err(AllocError)
        }
    }
}

/// Moves what a move has placed from its start to another one, by one change of the board. Want of memory spoils the board.
pub fn go_on<L: Ledger>(
    alloc: Global,
    board: &mut Board,
    trial: &Trial,
    from: u32,
    to: u32,
    steps: &mut Steps<L>,
) -> Result<(), AllocError>
    requires unspoiled { board.old.spoiled ≡ false }
    requires near { All (λ a. a.start + to < 2 ^ 32) trial.now.change.placed.items }
    requires can { CanReplace board.old.state trial.now.undo.gone.items (map (moved from to) trial.now.change.placed.items) }
    ensures ok { OnOk result (board.new ≡ after (with_plan trial.now.undo.gone.items (map (moved from to) trial.now.change.placed.items) board.old.state)) }
    ensures err { OnErr result (board.new.spoiled ≡ true) }
{
    match moved_all(alloc, &trial.change.placed, from, to) {
        Ok(placed) => board.replace(&trial.undo.gone, &placed, steps),
        Err(fault) => {
            board.spoil();
            Err(fault)
        }
    }
}

// Makes the first move, and then each of the others in place of the one before, up to one that leaves no more conflicts than the
// first must leave, or no more than `enough`. The last one is undone.
fn count_along<L: Ledger>(
    alloc: Global,
    board: &mut Board,
    first: &RepairMove,
    rest: &[RepairMove],
    trial: &Trial,
    enough: u32,
    steps: &mut Steps<L>,
) -> Result<RunCounts, AllocError>
    requires unspoiled { board.old.spoiled ≡ false }
    requires whole { IsWhole board.old.state }
    requires next { board.old.state.next_id ≤ 3999999000 }
    requires activities { IsOfActivities first.now }
    requires allowed { All (CanBeMade board.old.state) (first.now ∷ rest.now) }
    requires alike { All (λ m. goes_on first.now m ≡ true) rest.now }
    requires trial { IsTrialOf board.old.state first.now trial.now.change.gone.items trial.now.change.placed.items trial.now.undo.gone.items trial.now.undo.placed.items }
    ensures counts { IfOk result (λ ns. IsCountOf board.old.state first.now rest.now ns.first ns.others.items) }
    ensures same { OnOk result (board.new ≡ board.old) }
    ensures err { OnErr result (board.new.spoiled ≡ true) }
{
    let next = board.next_id();
    let fewest = least_left(board.state(), first).max(enough);
    make_change(board, &trial.change, steps)?;
    let alone = board.conflicts().len();
    let mut others = Vec::new(alloc);
    let mut last = alone;
    let mut at = 0;
    'run: while at < rest.len() && last > fewest {
        let to = start_of(&rest[at]);
        go_on(alloc, board, trial, start_of(first), to, steps)?;
        last = note(board, &mut others)?;
        at += 1;
    }
    make_change(board, &trial.undo, steps)?;
    board.reset_next(next);
    Ok(RunCounts {
        first: alone,
        others,
    })
}

// The same for a first move that changes activities.
fn count_run<L: Ledger>(
    alloc: Global,
    board: &mut Board,
    first: &RepairMove,
    rest: &[RepairMove],
    enough: u32,
    steps: &mut Steps<L>,
) -> Result<RunCounts, AllocError>
    requires unspoiled { board.old.spoiled ≡ false }
    requires next { board.old.state.next_id ≤ 3999999000 }
    requires activities { IsOfActivities first.now }
    requires allowed { All (CanBeMade board.old.state) (first.now ∷ rest.now) }
    ensures counts { IfOk result (λ ns. IsCountOf board.old.state first.now rest.now ns.first ns.others.items) }
    ensures same { OnOk result (board.new ≡ board.old) }
    ensures err { OnErr result (board.new.spoiled ≡ true) }
{
    let run = &rest[..run_length(first, rest)];
    match trial_of(alloc, board.state(), first) {
        Ok(trial) => count_along(alloc, board, first, run, &trial, enough, steps),
        Err(fault) => {
            board.spoil();
            Err(fault)
        }
    }
}

// The same for the first move alone.
fn count_alone<L: Ledger>(
    alloc: Global,
    board: &mut Board,
    mv: &RepairMove,
    steps: &mut Steps<L>,
) -> Result<RunCounts, AllocError>
    requires unspoiled { board.old.spoiled ≡ false }
    requires next { board.old.state.next_id ≤ 3999999000 }
    requires allowed { CanBeMade board.old.state mv.now }
    ensures first { IfOk result (λ ns. ns.first ≡ counted board.old.state mv.now) }
    ensures others { IfOk result (λ ns. ns.others.items ≡ []) }
    ensures same { OnOk result (board.new ≡ board.old) }
    ensures err { OnErr result (board.new.spoiled ≡ true) }
{
    let first = count_after(alloc, board, mv, steps)?;
    Ok(RunCounts {
        first,
        others: Vec::new(alloc),
    })
}

/// How many conflicts the first move would leave, and how many each of those right after it that place the same activities at other
/// starts, up to one that leaves no more than the first must leave, or no more than `enough`. Each is made in place of the one
/// before, and the last is undone. Want of memory spoils the board.
pub fn left_after_run<L: Ledger>(
    alloc: Global,
    board: &mut Board,
    first: &RepairMove,
    rest: &[RepairMove],
    enough: u32,
    steps: &mut Steps<L>,
) -> Result<RunCounts, AllocError>
    requires unspoiled { board.old.spoiled ≡ false }
    requires next { board.old.state.next_id ≤ 3999999000 }
    requires allowed { All (CanBeMade board.old.state) (first.now ∷ rest.now) }
    ensures counts { IfOk result (λ ns. IsCountOf board.old.state first.now rest.now ns.first ns.others.items) }
    ensures same { OnOk result (board.new ≡ board.old) }
    ensures err { OnErr result (board.new.spoiled ≡ true) }
{
    match *first {
        RepairMove::Drop { .. } => count_alone(alloc, board, first, steps),
        _ => count_run(alloc, board, first, rest, enough, steps),
    }
}
