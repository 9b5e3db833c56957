//! Limits that timelines may come past by what a move places, or stay past though something goes.
ghost use Rattle.std.specs.Prelude.{◌≡◌, false, All, OnOk};
ghost use Rattle.pl_bounds.specs.Sides.{IsOutsideOf, AreDifferent};

use crate::further_looks::look_further;
use crate::outside::{Outside, Side, add};
use pl_board::Board;
use pl_semantics::{Asked, Demand};
use std::alloc::{AllocError, Global};

// The limit that a level comes nearer to if this amount is added.
fn nearer(amount: i64) -> Side {
    if amount < 0 { Side::Low } else { Side::High }
}

// The other limit.
fn further(amount: i64) -> Side {
    if amount < 0 { Side::High } else { Side::Low }
}

// Looks at a level for this amount: at the limit that it comes nearer to, and at the other one if that is among those that are looked at.
fn add_level_limits(
    alloc: Global,
    board: &Board,
    line: u32,
    amount: i64,
    past: &mut Vec<Outside>,
) -> Result<(), AllocError>
    requires unspoiled { board.now.spoiled ≡ false }
    requires of_plan { All (IsOutsideOf board.now.state) past.old.items }
    requires different { AreDifferent past.old.items }
    ensures of_plan { OnOk result (All (IsOutsideOf board.now.state) past.new.items) }
    ensures different { OnOk result (AreDifferent past.new.items) }
{
    add(alloc, board, nearer(amount), line, past)?;
    look_further(alloc, board, nearer(amount), line, amount, past)?;
    look_further(alloc, board, further(amount), line, amount, past)?;
    Ok(())
}

// Adds the limits that a timeline may come past by a demand.
fn add_limits_of(
    alloc: Global,
    board: &Board,
    demand: &Demand,
    past: &mut Vec<Outside>,
) -> Result<(), AllocError>
    requires unspoiled { board.now.spoiled ≡ false }
    requires of_plan { All (IsOutsideOf board.now.state) past.old.items }
    requires different { AreDifferent past.old.items }
    ensures of_plan { OnOk result (All (IsOutsideOf board.now.state) past.new.items) }
    ensures different { OnOk result (AreDifferent past.new.items) }
{
    match &demand.asked {
        Asked::Use(_) => add(alloc, board, Side::Over, demand.line, past),
        Asked::Effect(e) => add_level_limits(alloc, board, demand.line, e.delta, past),
        _ => Ok(()),
    }
}

/// Adds the limits that some demands may pass.
pub(crate) fn add_limits(
    alloc: Global,
    board: &Board,
    demands: &[Demand],
    past: &mut Vec<Outside>,
) -> Result<(), AllocError>
    requires unspoiled { board.now.spoiled ≡ false }
    requires of_plan { All (IsOutsideOf board.now.state) past.old.items }
    requires different { AreDifferent past.old.items }
    ensures of_plan { OnOk result (All (IsOutsideOf board.now.state) past.new.items) }
    ensures different { OnOk result (AreDifferent past.new.items) }
{
    for demand in demands {
        add_limits_of(alloc, board, demand, past)?;
    }
    Ok(())
}

// Looks also where a level stays past its limit once a demand is gone: where it is past the limit by more than the demand's amount.
fn look_without(
    alloc: Global,
    board: &Board,
    demand: &Demand,
    past: &mut Vec<Outside>,
) -> Result<(), AllocError>
    requires unspoiled { board.now.spoiled ≡ false }
    requires of_plan { All (IsOutsideOf board.now.state) past.old.items }
    requires different { AreDifferent past.old.items }
    ensures of_plan { OnOk result (All (IsOutsideOf board.now.state) past.new.items) }
    ensures different { OnOk result (AreDifferent past.new.items) }
{
    match &demand.asked {
        Asked::Effect(e) => {
            let less = 0_i64.saturating_sub(e.delta);
            look_further(alloc, board, further(less), demand.line, less, past)
        }
        _ => Ok(()),
    }
}

/// Looks also where the levels that are looked at stay past their limits once some demands are gone.
pub(crate) fn look_where_past(
    alloc: Global,
    board: &Board,
    demands: &[Demand],
    past: &mut Vec<Outside>,
) -> Result<(), AllocError>
    requires unspoiled { board.now.spoiled ≡ false }
    requires of_plan { All (IsOutsideOf board.now.state) past.old.items }
    requires different { AreDifferent past.old.items }
    ensures of_plan { OnOk result (All (IsOutsideOf board.now.state) past.new.items) }
    ensures different { OnOk result (AreDifferent past.new.items) }
{
    for demand in demands {
        look_without(alloc, board, demand, past)?;
    }
    Ok(())
}
