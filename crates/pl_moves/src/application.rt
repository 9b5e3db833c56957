ghost use Rattle.std.specs.Prelude.{◌≡◌, ◌+◌, ◌≤◌, false, true, None, OnOk, OnErr, IfErr};
ghost use Rattle.pl_semantics.specs.Moves.{is_proper, refusal_of, applied};
ghost use Rattle.pl_update.specs.Changes.Replaced.{CanReplace, with_plan};
ghost use Rattle.pl_board.specs.Boards.{after};
ghost use Rattle.pl_moves.specs.Changes.{IsOfActivities};
ghost use Rattle.pl_moves.specs.Keeping.{KeepsCommitted};
ghost use Rattle.pl_moves.specs.Outcomes.{Fails, IsMade};

use crate::change::{Change, change_of};
use crate::legality::refusal;
use crate::move_fault::MoveFault;
use pl_board::Board;
use pl_plan::RepairMove;
use pl_points::{Ledger, Steps};
use std::alloc::{AllocError, Global};

/// Makes a change of a board: takes out the activities that go, and puts in those that come.
pub fn make_change<L: Ledger>(
    board: &mut Board,
    change: &Change,
    steps: &mut Steps<L>,
) -> Result<(), AllocError>
    requires unspoiled { board.old.spoiled ≡ false }
    requires can { CanReplace board.old.state change.now.gone.items change.now.placed.items }
    ensures ok { OnOk result (board.new ≡ after (with_plan change.now.gone.items change.now.placed.items board.old.state)) }
    ensures err { OnErr result (board.new.spoiled ≡ true) }
{
    board.replace(&change.gone, &change.placed, steps)
}

// Makes a move of activities.
fn replace_by<L: Ledger>(
    alloc: Global,
    board: &mut Board,
    mv: &RepairMove,
    steps: &mut Steps<L>,
) -> Result<(), AllocError>
    requires unspoiled { board.old.spoiled ≡ false }
    requires proper { is_proper board.old.state mv.now ≡ true }
    requires allowed { refusal_of board.old.state mv.now ≡ None }
    requires next { board.old.state.next_id ≤ 3999999000 }
    requires activities { IsOfActivities mv.now }
    ensures ok { OnOk result (board.new ≡ after (applied board.old.state mv.now)) }
    ensures err { OnErr result (board.new.spoiled ≡ true) }
{
    match change_of(alloc, board.state(), mv) {
        Ok(change) => make_change(board, &change, steps),
        Err(fault) => {
            board.spoil();
            Err(fault)
        }
    }
}

/// Makes a proper move that nothing refuses. Want of memory spoils the board.
pub fn make<L: Ledger>(
    alloc: Global,
    board: &mut Board,
    mv: &RepairMove,
    steps: &mut Steps<L>,
) -> Result<(), AllocError>
    requires unspoiled { board.old.spoiled ≡ false }
    requires proper { is_proper board.old.state mv.now ≡ true }
    requires allowed { refusal_of board.old.state mv.now ≡ None }
    requires next { board.old.state.next_id ≤ 3999999000 }
    ensures ok { OnOk result (board.new ≡ after (applied board.old.state mv.now)) }
    ensures err { OnErr result (board.new.spoiled ≡ true) }
{
    match *mv {
        RepairMove::Drop { goal } => board.drop_goal(goal),
        _ => replace_by(alloc, board, mv, steps),
    }
}

/// Makes a proper move, if it is not refused. Want of memory spoils the board.
pub fn apply<L: Ledger>(
    alloc: Global,
    board: &mut Board,
    mv: &RepairMove,
    steps: &mut Steps<L>,
) -> Result<(), MoveFault>
    requires unspoiled { board.old.spoiled ≡ false }
    requires proper { is_proper board.old.state mv.now ≡ true }
    requires next { board.old.state.next_id ≤ 3999999000 }
    ensures made { OnOk result (IsMade mv.now board.old board.new) }
    ensures committed { OnOk result (KeepsCommitted board.old.state board.new.state) }
    ensures ids { OnOk result (board.new.state.next_id ≤ board.old.state.next_id + 16) }
    ensures fault { IfErr result (λ fault. Fails mv.now fault board.old board.new) }
{
    match refusal(board.state(), mv) {
        Some(reason) => Err(MoveFault::Refused(reason)),
        None => {
            make(alloc, board, mv, steps)?;
            Ok(())
        }
    }
}
