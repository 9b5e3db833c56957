//! How many conflicts the choice of an alternative of a root leaves at least.
ghost use Rattle.std.specs.Prelude.{◌≡◌, ◌≤◌, ◌+◌, ◌∷◌, [], false, All, None, Some, IfOk, OnOk};
ghost use Rattle.pl_moves.specs.Runs.{CanBeMade};
ghost use Rattle.pl_plan.specs.Activities.{activity_of};
ghost use Rattle.pl_plan.specs.declared.repair.RepairMove.TheVariants.{Detail};
ghost use Rattle.pl_semantics.specs.Legal.{left_after};
ghost use Rattle.pl_semantics.specs.Moves.{applied};
ghost use Rattle.pl_bounds.specs.Bounds.{AreLeast};
ghost use Rattle.pl_bounds.specs.Choosing.{IsAskedByChoice};
ghost use Rattle.pl_bounds.specs.Plain.{count_of_plain};
ghost use Rattle.pl_bounds.specs.Sides.{IsOutsideOf, AreDifferent, times_past};
ghost use Rattle.pl_moves.specs.Changes.{placed_by};
ghost use Rattle.pl_update.specs.Changes.Replaced.{with_plan};
ghost use Rattle.pl_bounds.specs.Standing.{IsStandingOf};
ghost use Rattle.pl_bounds.specs.Ties.{count_of_links};

use crate::asking::Asking;
use crate::bounding::past_after;
use crate::broken_musts::add_broken_musts;
use crate::choosing::{asked_by_choice, chosen_alone};
use crate::ending::look_at_ends;
use crate::marks::count_of_marks;
use crate::newcomers::newcomers;
use crate::outside::{Outside, outsides};
use crate::passed_limits::add_limits;
use crate::remainder::{left_alone_by_choice, left_by_choice};
use crate::sorting::additions_of;
use crate::standing::{Standing, standing_of};
use pl_board::Board;
use pl_plan::{Activity, RepairMove};
use std::alloc::{AllocError, Global};

// How often timelines are past their limits at least. Limits that what comes may pass are put behind those that are looked at.
fn times_by_choice(
    alloc: Global,
    board: &Board,
    asking: &Asking,
    root: &Activity,
    alternative: u32,
    past: &mut Vec<Outside>,
) -> Result<u32, AllocError>
    requires unspoiled { board.now.spoiled ≡ false }
    requires of_plan { All (IsOutsideOf board.now.state) past.old.items }
    requires different { AreDifferent past.old.items }
    requires asked { IsAskedByChoice board.now.state root.now.id alternative asking.now }
    ensures of_plan { OnOk result (All (IsOutsideOf board.now.state) past.new.items) }
    ensures different { OnOk result (AreDifferent past.new.items) }
    ensures least { IfOk result (λ n. n ≤ times_past (with_plan (root.now.id ∷ []) (placed_by board.now.state (Detail root.now.id alternative)) board.now.state) past.new.items) }
{
    add_limits(alloc, board, asking.coming.as_slice(), past)?;
    look_at_ends(alloc, board, asking.coming.as_slice(), past)?;
    let additions = additions_of(alloc, past.as_slice(), asking)?;
    Ok(past_after(board, past.as_slice(), asking, additions.as_slice(), 0))
}

// Beside the conflicts of goals, of activities and of links that the choice leaves, so many at least: how often timelines are past their
// limits, and what is wrong with states by what comes. Once more than `most` are known, the rest is not worked out.
fn others_by_choice(
    alloc: Global,
    board: &Board,
    asking: &Asking,
    root: &Activity,
    alternative: u32,
    most: u32,
    past: &mut Vec<Outside>,
) -> Result<u32, AllocError>
    requires unspoiled { board.now.spoiled ≡ false }
    requires next { board.now.state.next_id ≤ 3999999000 }
    requires of_plan { All (IsOutsideOf board.now.state) past.old.items }
    requires different { AreDifferent past.old.items }
    requires allowed { CanBeMade board.now.state (Detail root.now.id alternative) }
    requires asked { IsAskedByChoice board.now.state root.now.id alternative asking.now }
    ensures of_plan { OnOk result (All (IsOutsideOf board.now.state) past.new.items) }
    ensures different { OnOk result (AreDifferent past.new.items) }
    ensures least { IfOk result (λ n. count_of_plain (applied board.now.state (Detail root.now.id alternative)) + count_of_links (applied board.now.state (Detail root.now.id alternative)) + n
        ≤ left_after board.now.state (Detail root.now.id alternative)) }
{
    let _state = board.state();
    let mut marks = newcomers(alloc, board, asking)?;
    let states = count_of_marks(marks.as_slice());
    if most < states {
        return Ok(states);
    }
    let times = times_by_choice(alloc, board, asking, root, alternative, past)?;
    let both = states.saturating_add(times);
    if most < both {
        return Ok(both);
    }
    add_broken_musts(board, asking, &mut marks)?;
    Ok(count_of_marks(marks.as_slice()).saturating_add(times))
}

/// A number of conflicts that the choice leaves at least. Limits that it may pass are put behind those that are looked at.
pub(crate) fn least_of_choice(
    alloc: Global,
    board: &Board,
    standing: &Standing,
    root: &Activity,
    alternative: u32,
    past: &mut Vec<Outside>,
) -> Result<u32, AllocError>
    requires unspoiled { board.now.spoiled ≡ false }
    requires next { board.now.state.next_id ≤ 3999999000 }
    requires standing { IsStandingOf board.now.state standing.now }
    requires of_plan { All (IsOutsideOf board.now.state) past.old.items }
    requires different { AreDifferent past.old.items }
    requires live { activity_of root.now.id board.now.state.plan.activities ≡ Some root.now }
    requires root { root.now.parent ≡ None }
    requires allowed { CanBeMade board.now.state (Detail root.now.id alternative) }
    ensures of_plan { OnOk result (All (IsOutsideOf board.now.state) past.new.items) }
    ensures different { OnOk result (AreDifferent past.new.items) }
    ensures least { IfOk result (λ n. n ≤ left_after board.now.state (Detail root.now.id alternative)) }
{
    let alone = chosen_alone(alloc, board.state(), root, alternative)?;
    let placed = alone.plan.activities();
    let plain = left_by_choice(alloc, board, root, alternative, placed)?;
    let links = left_alone_by_choice(alloc, board, standing, root, alternative, placed)?;
    let asking = asked_by_choice(alloc, board, root, alternative, &alone)?;
    let known = plain.saturating_add(links);
    let most = board.conflicts().len().saturating_sub(known);
    let others = others_by_choice(alloc, board, &asking, root, alternative, most, past)?;
    Ok(known.saturating_add(others))
}

// The same of the choice of an alternative of this activity, if it is a root.
fn bound_of_root(
    alloc: Global,
    board: &Board,
    standing: &Standing,
    root: &Activity,
    alternative: u32,
    past: &mut Vec<Outside>,
) -> Result<u32, AllocError>
    requires unspoiled { board.now.spoiled ≡ false }
    requires next { board.now.state.next_id ≤ 3999999000 }
    requires standing { IsStandingOf board.now.state standing.now }
    requires of_plan { All (IsOutsideOf board.now.state) past.old.items }
    requires different { AreDifferent past.old.items }
    requires live { activity_of root.now.id board.now.state.plan.activities ≡ Some root.now }
    requires allowed { CanBeMade board.now.state (Detail root.now.id alternative) }
    ensures of_plan { OnOk result (All (IsOutsideOf board.now.state) past.new.items) }
    ensures different { OnOk result (AreDifferent past.new.items) }
    ensures least { IfOk result (λ n. n ≤ left_after board.now.state (Detail root.now.id alternative)) }
{
    if root.parent.is_some() {
        return Ok(0);
    }
    least_of_choice(alloc, board, standing, root, alternative, past)
}

// The same of the choice of an alternative of the activity of this id.
fn bound_of_id(
    alloc: Global,
    board: &Board,
    standing: &Standing,
    id: u32,
    alternative: u32,
    past: &mut Vec<Outside>,
) -> Result<u32, AllocError>
    requires unspoiled { board.now.spoiled ≡ false }
    requires next { board.now.state.next_id ≤ 3999999000 }
    requires standing { IsStandingOf board.now.state standing.now }
    requires of_plan { All (IsOutsideOf board.now.state) past.old.items }
    requires different { AreDifferent past.old.items }
    requires allowed { CanBeMade board.now.state (Detail id alternative) }
    ensures of_plan { OnOk result (All (IsOutsideOf board.now.state) past.new.items) }
    ensures different { OnOk result (AreDifferent past.new.items) }
    ensures least { IfOk result (λ n. n ≤ left_after board.now.state (Detail id alternative)) }
{
    match board.state().live(id) {
        Some(root) => bound_of_root(alloc, board, standing, root, alternative, past),
        None => Ok(0),
    }
}

// The same of any move: nothing is known of one that does not choose an alternative.
fn bound_of(
    alloc: Global,
    board: &Board,
    standing: &Standing,
    mv: &RepairMove,
    past: &mut Vec<Outside>,
) -> Result<u32, AllocError>
    requires unspoiled { board.now.spoiled ≡ false }
    requires next { board.now.state.next_id ≤ 3999999000 }
    requires standing { IsStandingOf board.now.state standing.now }
    requires of_plan { All (IsOutsideOf board.now.state) past.old.items }
    requires different { AreDifferent past.old.items }
    requires allowed { CanBeMade board.now.state mv.now }
    ensures of_plan { OnOk result (All (IsOutsideOf board.now.state) past.new.items) }
    ensures different { OnOk result (AreDifferent past.new.items) }
    ensures least { IfOk result (λ n. n ≤ left_after board.now.state mv.now) }
{
    match *mv {
        RepairMove::Detail { id, alternative } => {
            bound_of_id(alloc, board, standing, id, alternative, past)
        }
        _ => Ok(0),
    }
}

/// For each of these moves a number of conflicts that it leaves at least, known without making it. It is worked out if the move chooses an
/// alternative of a root, and 0 if not. No clause says how near these come. An error is want of memory.
pub fn least_of_choices(
    alloc: Global,
    board: &Board,
    moves: &[RepairMove],
) -> Result<Vec<u32>, AllocError>
    requires unspoiled { board.now.spoiled ≡ false }
    requires next { board.now.state.next_id ≤ 3999999000 }
    requires allowed { All (CanBeMade board.now.state) moves.now }
    ensures { IfOk result (λ ns. AreLeast board.now.state moves.now ns.items) }
{
    let standing = standing_of(alloc, board)?;
    let mut past = outsides(alloc, board)?;
    let mut bounds = Vec::with_capacity(alloc, moves.len())?;
    'moves: for mv in moves {
        let bound = bound_of(alloc, board, &standing, mv, &mut past)?;
        bounds.push(bound)?;
    }
    Ok(bounds)
}
