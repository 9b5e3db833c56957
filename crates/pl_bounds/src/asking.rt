//! What a move asks for of timelines in place of what it takes out.
ghost use Rattle.std.specs.Prelude.{◌≡◌, ◌≤◌, ◌++◌, [], ℕ, false, Some, IfOk, IfSome, OnOk};
ghost use Rattle.pl_update.specs.Timelines.Laws.{gone_from};
ghost use Rattle.pl_plan.specs.Activities.{IsLive, activity_of};
ghost use Rattle.pl_plan.specs.Trees.{subtree_of};
ghost use Rattle.pl_plan.specs.declared.repair.RepairMove.TheVariants.{Delete, Shift};
ghost use Rattle.pl_semantics.specs.Demands.{demands_at, demands_of};
ghost use Rattle.pl_semantics.specs.PlanStates.{found, of_found};
ghost use Rattle.pl_semantics.specs.Whole.{IsWhole};
ghost use Rattle.pl_bounds.specs.Askings.{IsAskingOf};

use pl_board::Board;
use pl_detect::{demands, demands_with};
use pl_plan::Activity;
use pl_semantics::{Demand, PlanState};
use std::alloc::{AllocError, Global};

/// What a move asks for: the demands that go, and those that come. The latter are given as they are at one start, and are shifted for another.
#[derive(Drop)]
pub(crate) struct Asking {
    pub(crate) going: Vec<Demand>,
    pub(crate) coming: Vec<Demand>,
    pub(crate) start: u32,
}

// What a live activity asks for, by what it comes to, which the board keeps.
fn add_asked(board: &Board, a: &Activity, all: &mut Vec<Demand>) -> Result<(), AllocError>
    requires unspoiled { board.now.spoiled ≡ false }
    requires live { activity_of a.now.id board.now.state.plan.activities ≡ Some a.now }
    ensures { OnOk result (all.new.items ≡ all.old.items ++ demands_at board.now.state a.now) }
{
    let s = board.state();
    match board.evaluated(a.id) {
        Some(evaluated) => demands_with(s, a, evaluated, all),
        None => unreachable!(),
    }
}

fn add_asked_by(board: &Board, id: u32, all: &mut Vec<Demand>) -> Result<(), AllocError>
    requires { board.now.spoiled ≡ false }
    ensures { OnOk result (all.new.items ≡ all.old.items ++ of_found (demands_at board.now.state) (found board.now.state id)) }
{
    match board.plan().get(id) {
        Some(a) => add_asked(board, a, all),
        None => Ok(()),
    }
}

/// What the activities of these ids ask for.
pub(crate) fn asked_by(alloc: Global, board: &Board, ids: &[u32]) -> Result<Vec<Demand>, AllocError>
    requires { board.now.spoiled ≡ false }
    ensures { IfOk result (λ all. all.items ≡ gone_from board.now.state ids.now) }
{
    let mut all = Vec::new(alloc);
    for id in ids {
        add_asked_by(board, *id, &mut all)?;
    }
    Ok(all)
}

/// What a deletion asks for, given the ids of the subtree that goes.
pub(crate) fn deleted(alloc: Global, board: &Board, subtree: &[u32]) -> Result<Asking, AllocError>
    requires { board.now.spoiled ≡ false }
    ensures { IfOk result (λ a. (id : ℕ) → subtree.now ≡ subtree_of id board.now.state.plan.activities → IsAskingOf board.now.state (Delete id) a) }
{
    let going = asked_by(alloc, board, subtree)?;
    Ok(Asking {
        going,
        coming: Vec::new(alloc),
        start: 0,
    })
}

/// What a deletion asks for, if that is wanted, given the ids of the subtree that goes.
pub(crate) fn deleted_if(
    alloc: Global,
    board: &Board,
    subtree: &[u32],
    is_wanted: bool,
) -> Result<Option<Asking>, AllocError>
    requires { board.now.spoiled ≡ false }
    ensures { IfOk result (λ o. (id : ℕ) → subtree.now ≡ subtree_of id board.now.state.plan.activities → IfSome o (λ a. IsAskingOf board.now.state (Delete id) a)) }
{
    if is_wanted {
        let asking = deleted(alloc, board, subtree)?;
        Ok(Some(asking))
    } else {
        Ok(None)
    }
}

// The start of the activity of this id, or 0 if there is none.
fn start_at(s: &PlanState, id: u32) -> u32
    ensures { IfSome (found s.now id) (λ a. result ≡ a.start) }
{
    match s.plan.get(id) {
        Some(a) => a.start,
        None => 0,
    }
}

/// What a shift to any start asks for, given the ids of the subtree that moves.
pub(crate) fn shifted(
    alloc: Global,
    board: &Board,
    id: u32,
    subtree: &[u32],
) -> Result<Asking, AllocError>
    requires unspoiled { board.now.spoiled ≡ false }
    requires next { board.now.state.next_id ≤ 3999999000 }
    requires live { IsLive id board.now.state.plan.activities }
    requires subtree { subtree.now ≡ subtree_of id board.now.state.plan.activities }
    ensures { IfOk result (λ a. (start : ℕ) → IsAskingOf board.now.state (Shift id start) a) }
{
    let s = board.state();
    let going = asked_by(alloc, board, subtree)?;
    let coming = going.to_vec(alloc)?;
    Ok(Asking {
        going,
        coming,
        start: start_at(s, id),
    })
}

/// What a shift to any start asks for, if that is wanted, given the ids of the subtree that moves.
pub(crate) fn shifted_if(
    alloc: Global,
    board: &Board,
    id: u32,
    subtree: &[u32],
    is_wanted: bool,
) -> Result<Option<Asking>, AllocError>
    requires unspoiled { board.now.spoiled ≡ false }
    requires next { board.now.state.next_id ≤ 3999999000 }
    requires live { IsLive id board.now.state.plan.activities }
    requires subtree { subtree.now ≡ subtree_of id board.now.state.plan.activities }
    ensures { IfOk result (λ o. (start : ℕ) → IfSome o (λ a. IsAskingOf board.now.state (Shift id start) a)) }
{
    if is_wanted {
        let asking = shifted(alloc, board, id, subtree)?;
        Ok(Some(asking))
    } else {
        Ok(None)
    }
}

/// What an addition asks for, given the new root alone in a plan of its own.
pub(crate) fn added(alloc: Global, alone: &PlanState, start: u32) -> Result<Asking, AllocError>
    requires { IsWhole alone.now }
    ensures going { IfOk result (λ a. a.going.items ≡ []) }
    ensures coming { IfOk result (λ a. a.coming.items ≡ demands_of alone.now) }
    ensures start { IfOk result (λ a. a.start ≡ start) }
{
    let coming = demands(alloc, alone)?;
    Ok(Asking {
        going: Vec::new(alloc),
        coming,
        start,
    })
}
