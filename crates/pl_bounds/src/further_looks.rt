//! Further looks at a timeline, for what changes it by some amount.
ghost use Rattle.std.specs.Prelude.{◌≡◌, ◌<◌, false, All, OnOk, IfSome, length, slice_get, Some};
ghost use Rattle.pl_bounds.specs.Sides.{IsOutsideOf, AreDifferent};

use crate::looking::looks_across;
use crate::merging::merged;
use crate::outside::{Outside, Side};
use pl_board::Board;
use std::alloc::{AllocError, Global};

impl Outside {
    // Whether no further looks are needed for this amount. Of a capacity none ever are: it is looked at where a use begins.
    fn has_looked_for(&self, amount: i64) -> bool {
        self.side == Side::Over || self.amounts.contains(&amount)
    }

    // Looks also where the level comes past its limit once so much is added to it, and where it comes back.
    fn look_for(&mut self, alloc: Global, board: &Board, amount: i64) -> Result<(), AllocError>
        requires unspoiled { board.now.spoiled ≡ false }
        requires of_plan { IsOutsideOf board.now.state self.old }
        ensures of_plan { OnOk result (IsOutsideOf board.now.state self.new) }
        ensures line { OnOk result (self.new.line ≡ self.old.line) }
        ensures side { OnOk result (self.new.side ≡ self.old.side) }
    {
        let bar = self.limit.saturating_sub(amount);
        let more = looks_across(alloc, board, self.side, self.line, bar)?;
        let looks = merged(alloc, board, self, more.as_slice())?;
        self.amounts.push(amount)?;
        self.looks = looks;
        Ok(())
    }

    // The same, once for each amount.
    fn look_once_for(&mut self, alloc: Global, board: &Board, amount: i64) -> Result<(), AllocError>
        requires unspoiled { board.now.spoiled ≡ false }
        requires of_plan { IsOutsideOf board.now.state self.old }
        ensures of_plan { OnOk result (IsOutsideOf board.now.state self.new) }
        ensures line { OnOk result (self.new.line ≡ self.old.line) }
        ensures side { OnOk result (self.new.side ≡ self.old.side) }
    {
        if self.has_looked_for(amount) {
            return Ok(());
        }
        self.look_for(alloc, board, amount)?;
        Ok(())
    }
}

/// The place at which this side of the timeline stands, if it is among these.
pub(crate) fn place_of(all: &[Outside], side: Side, line: u32) -> Option<usize>
    ensures { IfSome result (λ place. place < length all.now) }
{
    let mut place = 0;
    'places: while place < all.len() {
        if all[place].line == line && all[place].side == side {
            return Some(place);
        }
        place += 1;
    }
    None
}

fn look_at_one(
    alloc: Global,
    board: &Board,
    place: usize,
    amount: i64,
    all: &mut Vec<Outside>,
) -> Result<(), AllocError>
    requires unspoiled { board.now.spoiled ≡ false }
    requires there { place < length all.old.items }
    requires of_plan { All (IsOutsideOf board.now.state) all.old.items }
    requires different { AreDifferent all.old.items }
    ensures of_plan { OnOk result (All (IsOutsideOf board.now.state) all.new.items) }
    ensures different { OnOk result (AreDifferent all.new.items) }
{
    all[place].look_once_for(alloc, board, amount)?;
    Ok(())
}

/// Adds further looks for this amount, if this side of the timeline is among those that are looked at.
pub(crate) fn look_further(
    alloc: Global,
    board: &Board,
    side: Side,
    line: u32,
    amount: i64,
    all: &mut Vec<Outside>,
) -> Result<(), AllocError>
    requires unspoiled { board.now.spoiled ≡ false }
    requires of_plan { All (IsOutsideOf board.now.state) all.old.items }
    requires different { AreDifferent all.old.items }
    ensures of_plan { OnOk result (All (IsOutsideOf board.now.state) all.new.items) }
    ensures different { OnOk result (AreDifferent all.new.items) }
{
    match place_of(all.as_slice(), side, line) {
        Some(place) => look_at_one(alloc, board, place, amount, all),
        None => Ok(()),
    }
}
