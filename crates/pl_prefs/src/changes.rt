//! The moves that are tried.
ghost use Rattle.std.specs.Prelude.{◌≡◌, ◌++◌, pos, map, OnOk, IfOk, Some, false};
ghost use Rattle.std.specs.List.{flat_map};
ghost use Rattle.pl_plan.specs.Activities.{activity_of};
ghost use Rattle.pl_plan.specs.Trees.{id_of};
ghost use Rattle.pl_semantics.specs.PlanStates.{found, of_found};
ghost use Rattle.pl_semantics.specs.Starts.{starting, shift_to};
ghost use Rattle.pl_prefs.specs.Betters.{AreProperChanges, movable, changes_of, changes_in};

use pl_board::Board;
use pl_cand::{add_all_assigns, places};
use pl_plan::{Activity, RepairMove};
use pl_semantics::PlanState;
use std::alloc::{AllocError, Global};

/// Of how many activities the moves are tried.
const MOST: usize = 256;

// The ids of the first activities that are not committed.
fn movable(alloc: Global, state: &PlanState) -> Result<Vec<u32>, AllocError>
    ensures { IfOk result (λ ids. ids.items ≡ map id_of (movable state.now)) }
{
    let committed = state.committed;
    let all = state.plan.activities().iter();
    all.filter(|a| a.start >= committed)
        .take(MOST)
        .map(|a| a.id)
        .collect(alloc)
}

// Appends a shift; none to 0, and none to the horizon or later.
fn add_shift(
    state: &PlanState,
    id: u32,
    start: u32,
    out: &mut Vec<RepairMove>,
) -> Result<(), AllocError>
    ensures { OnOk result (out.new.items ≡ out.old.items ++ starting state.now (shift_to id) (pos start)) }
{
    if 1 <= start && start < state.model.get().horizon {
        out.push(RepairMove::Shift { id, start })?;
    }
    Ok(())
}

fn add_shifts(
    state: &PlanState,
    id: u32,
    starts: &[u32],
    out: &mut Vec<RepairMove>,
) -> Result<(), AllocError>
    ensures { OnOk result (out.new.items ≡ out.old.items ++ flat_map (λ start. starting state.now (shift_to id) (pos start)) starts.now) }
{
    for start in starts {
        add_shift(state, id, *start, out)?;
    }
    Ok(())
}

// Appends the shifts of an activity, and then its assignments.
fn add_changes(
    alloc: Global,
    board: &Board,
    a: &Activity,
    out: &mut Vec<RepairMove>,
) -> Result<(), AllocError>
    requires unspoiled { board.now.spoiled ≡ false }
    requires live { activity_of a.now.id board.now.state.plan.activities ≡ Some a.now }
    ensures { OnOk result (out.new.items ≡ out.old.items ++ changes_of board.now.state a.now) }
{
    let state = board.state();
    let starts = places(alloc, board, a.id)?;
    add_shifts(state, a.id, &starts, out)?;
    add_all_assigns(alloc, state, a, out)?;
    Ok(())
}

fn add_changes_at(
    alloc: Global,
    board: &Board,
    id: u32,
    out: &mut Vec<RepairMove>,
) -> Result<(), AllocError>
    requires { board.now.spoiled ≡ false }
    ensures { OnOk result (out.new.items ≡ out.old.items ++ of_found (changes_of board.now.state) (found board.now.state id)) }
{
    match board.state().live(id) {
        Some(a) => add_changes(alloc, board, a, out),
        None => Ok(()),
    }
}

fn add_changes_of_all(
    alloc: Global,
    board: &Board,
    ids: &[u32],
    out: &mut Vec<RepairMove>,
) -> Result<(), AllocError>
    requires { board.now.spoiled ≡ false }
    ensures { OnOk result (out.new.items ≡ out.old.items ++ flat_map (λ id. of_found (changes_of board.now.state) (found board.now.state id)) ids.now) }
{
    for id in ids {
        add_changes_at(alloc, board, *id, out)?;
    }
    Ok(())
}

/// The moves that are tried to better a plan.
pub(crate) fn changes(alloc: Global, board: &Board) -> Result<Vec<RepairMove>, AllocError>
    requires { board.now.spoiled ≡ false }
    ensures moves { IfOk result (λ all. all.items ≡ changes_in board.now.state) }
    ensures changes { IfOk result (λ all. AreProperChanges board.now.state all.items) }
{
    let ids = movable(alloc, board.state())?;
    let mut all = Vec::new(alloc);
    add_changes_of_all(alloc, board, &ids, &mut all)?;
    Ok(all)
}
