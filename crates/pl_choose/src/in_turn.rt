//! Moves that take out the same activities are tried in turn, each in place of the one before. So the board changes once for each.
ghost use Rattle.std.specs.Prelude.{◌≡◌, ◌⊎◌, ◌<◌, ◌+◌, ◌^◌, true, false, All, map, length, Some, None, is_some, IfOk, OnOk, OnErr};
ghost use Rattle.pl_semantics.specs.Conflicts.{conflicts_of};
ghost use Rattle.pl_semantics.specs.Whole.{IsWhole};
ghost use Rattle.pl_update.specs.Changes.Changes.{with_next};
ghost use Rattle.pl_board.specs.Boards.{after};
ghost use Rattle.pl_choose.specs.Picked.{IsPicked};
ghost use Rattle.pl_choose.specs.declared.purpose.Purpose.TheVariants.{Mend};
ghost use Rattle.pl_choose.specs.Picks.{fewest};
ghost use Rattle.pl_choose.specs.Stages.{CanStandInstead, IsStage, TakesOut, instead, move_of, next_behind};
ghost use Rattle.pl_choose.specs.Tried.{better_of};
ghost use Rattle.pl_choose.specs.InTurn.{AreTried, IsTurnIf, gone_in};
ghost use Rattle.pl_choose.specs.Choice.{IsFewestBelow, IsPickedIf, is_below};

use crate::best::Best;
use crate::picked::Picked;
use crate::purpose::Purpose;
use crate::stages::Stage;
use pl_board::Board;
use pl_moves::make_change;
use pl_plan::RepairMove;
use pl_points::{Quiet, Steps};
use pl_update::changes::next_after;
use std::alloc::{AllocError, Global};

/// How far the moves have been tried.
#[derive(Clone, Copy)]
pub(crate) struct Progress {
    /// The place of the move that is made at present.
    pub(crate) at: usize,
    /// The best move so far.
    pub(crate) best: Best,
    /// The place of the best move so far.
    pub(crate) place: usize,
}

/// The best of the moves that are tried in turn.
#[derive(Clone, Copy)]
pub(crate) enum Turn {
    /// The move at this place stays made.
    Made(usize),
    /// The move is not made.
    Found(RepairMove),
}

// How many conflicts stand.
fn count(alloc: Global, board: &Board) -> Result<usize, AllocError>
    requires { board.now.spoiled ≡ false }
    ensures { IfOk result (λ n. n ≡ length (conflicts_of board.now.state)) }
{
    let count = board.conflicts().len();
    if count < u32::MAX {
        return Ok(count as usize);
    }
    let listed = board.conflicts().list(alloc)?;
    Ok(listed.len())
}

// Undoes the move that is made and makes the other one, by one change of the board. `next` is the next number for an activity before
// both.
fn make_instead(board: &mut Board, made: &Stage, other: &Stage, next: u32) -> Result<(), AllocError>
    requires unspoiled { board.old.spoiled ≡ false }
    requires can { CanStandInstead board.old.state next made.now other.now }
    ensures { OnOk result (board.new ≡ after (with_next (next_behind next other.now) (instead board.old.state made.now other.now))) }
{
    let placed = &other.trial.change.placed;
    board.replace(&made.trial.undo.gone, placed, &mut Steps::new(Quiet))?;
    board.reset_next(next_after(next, placed));
    Ok(())
}

// The progress once the next move was made, and leaves so many conflicts.
fn tried_next(progress: Progress, mv: RepairMove, left: usize) -> Progress
    requires { progress.at < 2 ^ 63 }
    ensures at { result.at ≡ progress.at + 1 }
    ensures best { result.best ≡ better_of progress.best mv left }
    ensures place { ((result.place ≡ progress.at + 1) × (result.best.mv ≡ mv)) ⊎ ((result.place ≡ progress.place) × (result.best ≡ progress.best)) }
{
    let at = progress.at + 1;
    if left < progress.best.left {
        return Progress {
            at,
            best: Best { mv, left },
            place: at,
        };
    }
    Progress { at, ..progress }
}

// Makes each of the moves in place of the one before, up to one that leaves no conflict. The last one that was made stays made.
fn try_each(
    alloc: Global,
    board: &mut Board,
    stages: &[Stage],
    next: u32,
) -> Result<Progress, AllocError>
    requires unspoiled { board.old.spoiled ≡ false }
    requires whole { IsWhole board.old.state }
    requires next { next ≡ board.old.state.next_id }
    requires some { 0 < length stages.now }
    requires stages { All (IsStage board.old.state) stages.now }
    requires same { All (TakesOut (gone_in stages.now)) stages.now }
    ensures { IfOk result (λ t. AreTried board.old.state (map move_of stages.now) t board.new) }
{
    let first = &stages[0];
    make_change(board, &first.trial.change, &mut Steps::new(Quiet))?;
    let left = count(alloc, board)?;
    let mut progress = Progress {
        at: 0,
        best: Best { mv: first.mv, left },
        place: 0,
    };
    'trials: while progress.at + 1 < stages.len() {
        if progress.best.left == 0 {
            return Ok(progress);
        }
        let then = progress.at + 1;
        let other = &stages[then];
        make_instead(board, &stages[progress.at], other, next)?;
        let left = count(alloc, board)?;
        progress = tried_next(progress, other.mv, left);
    }
    Ok(progress)
}

// Whether so many conflicts are below this number. Any are, if no number is given.
fn is_below(left: usize, fewer: Option<usize>) -> bool
    ensures { result ≡ is_below fewer left }
{
    match fewer {
        Some(fewer) => left < fewer,
        None => true,
    }
}

// Whether the best of the moves stays made.
fn stays_made(purpose: Purpose, is_best: bool) -> bool
    ensures mends { result ≡ true → purpose ≡ Mend }
    ensures best { result ≡ true → is_best ≡ true }
{
    match purpose {
        Purpose::Propose => false,
        Purpose::Mend => is_best,
    }
}

// The best of the moves, if it leaves fewer conflicts than this, if a number is given. Otherwise the board is as it was.
fn best_if_below(
    alloc: Global,
    board: &mut Board,
    stages: &[Stage],
    fewer: Option<usize>,
    purpose: Purpose,
) -> Result<Option<Turn>, AllocError>
    requires unspoiled { board.old.spoiled ≡ false }
    requires some { 0 < length stages.now }
    requires stages { All (IsStage board.old.state) stages.now }
    requires same { All (TakesOut (gone_in stages.now)) stages.now }
    ensures turn { IfOk result (λ t. IsTurnIf purpose (IsFewestBelow board.old.state (map move_of stages.now) fewer) board.old stages.now t board.new) }
    ensures found { IfOk result (λ t. fewer ≡ None → is_some t ≡ true) }
{
    let next = board.state().next_id;
    let progress = try_each(alloc, board, stages, next)?;
    let made = &stages[progress.at];
    let is_best = is_below(progress.best.left, fewer);
    if stays_made(purpose, is_best) {
        if progress.place != progress.at {
            make_instead(board, made, &stages[progress.place], next)?;
        }
        return Ok(Some(Turn::Made(progress.place)));
    }
    make_change(board, &made.trial.undo, &mut Steps::new(Quiet))?;
    board.reset_next(next);
    if is_best {
        return Ok(Some(Turn::Found(progress.best.mv)));
    }
    Ok(None)
}

// The same. Where the best stays made, what it changed is told too.
fn pick_by_turns(
    alloc: Global,
    board: &mut Board,
    mut stages: Vec<Stage>,
    fewer: Option<usize>,
    purpose: Purpose,
) -> Result<Option<Picked>, AllocError>
    requires unspoiled { board.old.spoiled ≡ false }
    requires some { 0 < length stages.items }
    requires stages { All (IsStage board.old.state) stages.items }
    requires same { All (TakesOut (gone_in stages.items)) stages.items }
    ensures picked { IfOk result (λ p. IsPickedIf purpose (IsFewestBelow board.old.state (map move_of stages.items) fewer) board.old p board.new) }
    ensures found { IfOk result (λ p. fewer ≡ None → is_some p ≡ true) }
{
    match best_if_below(alloc, board, &stages, fewer, purpose)? {
        Some(Turn::Made(place)) => {
            let best = stages.swap_remove(place);
            let Stage { mv, trial } = best;
            Ok(Some(Picked::Made(mv, Some(trial))))
        }
        Some(Turn::Found(mv)) => Ok(Some(Picked::Found(mv))),
        None => Ok(None),
    }
}

/// The best of some moves that take out the same activities, if it leaves fewer conflicts than this, if a number is given. Want of
/// memory spoils the board.
pub(crate) fn pick_if_below(
    alloc: Global,
    board: &mut Board,
    stages: Vec<Stage>,
    fewer: Option<usize>,
    purpose: Purpose,
) -> Result<Option<Picked>, AllocError>
    requires unspoiled { board.old.spoiled ≡ false }
    requires some { 0 < length stages.items }
    requires stages { All (IsStage board.old.state) stages.items }
    requires same { All (TakesOut (gone_in stages.items)) stages.items }
    ensures picked { IfOk result (λ p. IsPickedIf purpose (IsFewestBelow board.old.state (map move_of stages.items) fewer) board.old p board.new) }
    ensures found { IfOk result (λ p. fewer ≡ None → is_some p ≡ true) }
    ensures err { OnErr result (board.new.spoiled ≡ true) }
{
    match pick_by_turns(alloc, board, stages, fewer, purpose) {
        Ok(picked) => Ok(picked),
        Err(fault) => {
            board.spoil();
            Err(fault)
        }
    }
}

/// The best of some moves that take out the same activities. Want of memory spoils the board.
pub(crate) fn pick_in_turn(
    alloc: Global,
    board: &mut Board,
    stages: Vec<Stage>,
    purpose: Purpose,
) -> Result<Picked, AllocError>
    requires unspoiled { board.old.spoiled ≡ false }
    requires some { 0 < length stages.items }
    requires stages { All (IsStage board.old.state) stages.items }
    requires same { All (TakesOut (gone_in stages.items)) stages.items }
    ensures picked { IfOk result (λ p. IsPicked purpose (λ m. fewest board.old.state (map move_of stages.items) ≡ Some m) board.old p board.new) }
    ensures err { OnErr result (board.new.spoiled ≡ true) }
{
    match pick_if_below(alloc, board, stages, None, purpose)? {
        Some(picked) => Ok(picked),
        None => unreachable!(),
    }
}
