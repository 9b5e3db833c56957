//! Musts that a move leaves unmet.
ghost use Rattle.std.specs.Prelude.{◌≡◌, false, All, IfOk, IsTrue, OnOk};
ghost use Rattle.pl_conflict.specs.declared.conflict.Code.TheVariants as code;
ghost use Rattle.pl_bounds.specs.Afterwards.{coming_at};
ghost use Rattle.pl_bounds.specs.Marks.{mark_of};
ghost use Rattle.pl_bounds.specs.Seen.{AreMarksAfter, StandsAfter};
ghost use Rattle.pl_bounds.specs.UnmetMusts.{IsUnmet, IsLeftBy};

use crate::asking::Asking;
use crate::broken_musts::are_of_others;
use crate::deciding::{are_idle, are_idle_moved};
use crate::marks::{Mark, add_mark};
use crate::stepwise::Way;
use crate::unmet_musts::UnmetMust;
use pl_board::Board;
use pl_semantics::Demand;
use std::alloc::{AllocError, Global};

// Whether the must stays and what goes does not decide the state.
fn is_left_by(board: &Board, going: &[Demand], unmet: &UnmetMust) -> bool
    requires unspoiled { board.now.spoiled ≡ false }
    requires unmet { IsUnmet board.now.state unmet.now }
    ensures { IsTrue result → IsLeftBy board.now.state going.now unmet.now }
{
    if !are_of_others(going, &unmet.must) {
        return false;
    }
    are_idle(board, unmet, going)
}

/// Those of some unmet musts that are unmet without what goes.
pub(crate) fn left_by(
    alloc: Global,
    board: &Board,
    going: &[Demand],
    all: &[UnmetMust],
) -> Result<Vec<UnmetMust>, AllocError>
    requires unspoiled { board.now.spoiled ≡ false }
    requires unmet { All (IsUnmet board.now.state) all.now }
    ensures { IfOk result (λ us. All (IsLeftBy board.now.state going.now) us.items) }
{
    let mut left = Vec::new(alloc);
    for unmet in all {
        if is_left_by(board, going, unmet) {
            left.push(*unmet)?;
        }
    }
    Ok(left)
}

// Whether the must is unmet once what goes is gone, and what comes stands at this start.
fn is_unmet_then(board: &Board, asking: &Asking, start: u32, unmet: &UnmetMust) -> bool
    requires unspoiled { board.now.spoiled ≡ false }
    requires left { IsLeftBy board.now.state asking.now.going.items unmet.now }
    ensures { IsTrue result → StandsAfter board.now.state asking.now.going.items (coming_at asking.now start) (mark_of code.Must unmet.now.must.id unmet.now.must.index) }
{
    let _state = board.state();
    let way = Way {
        from: asking.start,
        to: start,
    };
    are_idle_moved(board, unmet, way, asking.coming.as_slice())
}

fn mark_if_unmet(
    board: &Board,
    asking: &Asking,
    start: u32,
    unmet: &UnmetMust,
    marks: &mut Vec<Mark>,
) -> Result<(), AllocError>
    requires unspoiled { board.now.spoiled ≡ false }
    requires left { IsLeftBy board.now.state asking.now.going.items unmet.now }
    ensures { OnOk result (AreMarksAfter board.now.state asking.now.going.items (coming_at asking.now start) marks.old.items → AreMarksAfter board.now.state asking.now.going.items (coming_at asking.now start) marks.new.items) }
{
    if !is_unmet_then(board, asking, start, unmet) {
        return Ok(());
    }
    let mark = Mark {
        is_step: false,
        subject: unmet.must.id,
        detail: unmet.must.index,
    };
    add_mark(marks, mark)?;
    Ok(())
}

/// Marks of musts that are unmet once what goes is gone, and what comes stands at this start.
pub(crate) fn marks_left(
    alloc: Global,
    board: &Board,
    asking: &Asking,
    start: u32,
    left: &[UnmetMust],
) -> Result<Vec<Mark>, AllocError>
    requires unspoiled { board.now.spoiled ≡ false }
    requires left { All (IsLeftBy board.now.state asking.now.going.items) left.now }
    ensures { IfOk result (λ marks. AreMarksAfter board.now.state asking.now.going.items (coming_at asking.now start) marks.items) }
{
    let mut marks = Vec::new(alloc);
    for unmet in left {
        mark_if_unmet(board, asking, start, unmet, &mut marks)?;
    }
    Ok(marks)
}
