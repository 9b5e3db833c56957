//! Looks at capacities where uses that come end: another use may have begun since these began.
ghost use Rattle.std.specs.Prelude.{◌≡◌, ◌<◌, false, All, OnOk, length};
ghost use Rattle.pl_bounds.specs.Sides.{IsOutsideOf, AreDifferent};

use crate::further_looks::place_of;
use crate::looking::look_ahead;
use crate::merging::merged;
use crate::outside::{Outside, Side};
use pl_board::Board;
use pl_semantics::{Asked, Demand};
use std::alloc::{AllocError, Global};

impl Outside {
    // Looks at this moment as well.
    fn look_at(&mut self, alloc: Global, board: &Board, at: u32) -> Result<(), AllocError>
        requires unspoiled { board.now.spoiled ≡ false }
        requires of_plan { IsOutsideOf board.now.state self.old }
        ensures of_plan { OnOk result (IsOutsideOf board.now.state self.new) }
        ensures line { OnOk result (self.new.line ≡ self.old.line) }
        ensures side { OnOk result (self.new.side ≡ self.old.side) }
    {
        let more = look_ahead(alloc, board, self.side, self.line, at)?;
        let looks = merged(alloc, board, self, more.as_slice())?;
        self.looks = looks;
        Ok(())
    }
}

fn look_one(
    alloc: Global,
    board: &Board,
    place: usize,
    at: u32,
    all: &mut Vec<Outside>,
) -> Result<(), AllocError>
    requires unspoiled { board.now.spoiled ≡ false }
    requires there { place < length all.old.items }
    requires of_plan { All (IsOutsideOf board.now.state) all.old.items }
    requires different { AreDifferent all.old.items }
    ensures of_plan { OnOk result (All (IsOutsideOf board.now.state) all.new.items) }
    ensures different { OnOk result (AreDifferent all.new.items) }
{
    all[place].look_at(alloc, board, at)?;
    Ok(())
}

// Looks at the last moment of what is asked for, if it is the use of a capacity.
fn look_at_end(
    alloc: Global,
    board: &Board,
    demand: &Demand,
    all: &mut Vec<Outside>,
) -> Result<(), AllocError>
    requires unspoiled { board.now.spoiled ≡ false }
    requires of_plan { All (IsOutsideOf board.now.state) all.old.items }
    requires different { AreDifferent all.old.items }
    ensures of_plan { OnOk result (All (IsOutsideOf board.now.state) all.new.items) }
    ensures different { OnOk result (AreDifferent all.new.items) }
{
    let Asked::Use(taken) = demand.asked else {
        return Ok(());
    };
    match place_of(all.as_slice(), Side::Over, demand.line) {
        Some(place) => look_one(alloc, board, place, taken.to.saturating_sub(1), all),
        None => Ok(()),
    }
}

/// Looks at capacities at the last moments of all uses that are asked for.
pub(crate) fn look_at_ends(
    alloc: Global,
    board: &Board,
    demands: &[Demand],
    all: &mut Vec<Outside>,
) -> Result<(), AllocError>
    requires unspoiled { board.now.spoiled ≡ false }
    requires of_plan { All (IsOutsideOf board.now.state) all.old.items }
    requires different { AreDifferent all.old.items }
    ensures of_plan { OnOk result (All (IsOutsideOf board.now.state) all.new.items) }
    ensures different { OnOk result (AreDifferent all.new.items) }
{
    for demand in demands {
        look_at_end(alloc, board, demand, all)?;
    }
    Ok(())
}
