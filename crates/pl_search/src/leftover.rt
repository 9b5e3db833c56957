//! What is done with the turns of a round that are left once a plan is made, if conflicts still stand.
ghost use Rattle.std.specs.Prelude.{◌≡◌, false, OnOk};

use crate::branching::{GivingUp, hard_conflicts};
use crate::expanding::Branch;
use crate::inserting::is_addition;
use crate::look::{Look, is_open_goal, look_at};
use crate::marks::{mark_of_plan, mark_then};
use crate::node::Step;
use crate::price::price_of;
use crate::repeating::{place_of, repair_at};
use crate::tries::Tries;
use crate::undo::may_be_made;
use pl_board::Board;
use pl_cand::{Proposal, candidates};
use pl_conflict::Conflict;
use pl_plan::RepairMove;
use std::alloc::{AllocError, Global};

/// Of how many conflicts the repairs are tried.
const CONFLICTS: u32 = 4;

/// What it costs that a goal is not served.
const OPEN_GOAL: u64 = 10;

/// What a repair costs in addition if by it a goal is no longer served, in a turn in which other repairs are to come first.
const NOT_YET: u64 = 1000;

fn must_be_served(board: &Board, goal: u32) -> bool {
    match board.goals().get(goal) {
        Some(goal) => goal.must,
        None => true,
    }
}

// The drop of the first goal that need not be served.
fn first_drop(board: &Board, goals: &[Conflict]) -> Option<Proposal> {
    for conflict in goals {
        if !must_be_served(board, conflict.subject) {
            return Some(Proposal {
                conflict: *conflict,
                mv: RepairMove::Drop {
                    goal: conflict.subject,
                },
            });
        }
    }
    None
}

// How many of these goals must be served.
fn count_musts(board: &Board, goals: &[Conflict]) -> usize {
    let mut count: usize = 0;
    for conflict in goals {
        if must_be_served(board, conflict.subject) {
            count = count.saturating_add(1);
        }
    }
    count
}

// Whether the drop can wait. Where goals that must be served stay open, a root is added in one turn and deleted in the next, so the
// rest of the turns has to be even. The last drop is kept to make an odd rest even.
fn can_wait(board: &Board, goals: &[Conflict], left: u32) -> bool {
    let musts = count_musts(board, goals);
    let drops = goals.len().saturating_sub(musts);
    musts > 0 && drops == 1 && left % 2 == 0
}

// The last of some moves that adds a root and may be made.
fn last_addition(board: &Board, moves: &[RepairMove]) -> Option<RepairMove>
    requires { board.now.spoiled ≡ false }
{
    let mut last = None;
    for mv in moves {
        if is_addition(mv) && may_be_made(board, mv) {
            last = Some(*mv);
        }
    }
    last
}

// A root for the last of these goals that may have one, at its last start. It is deleted again in the next turn.
fn late_root(
    alloc: Global,
    board: &Board,
    goals: &[Conflict],
) -> Result<Option<Proposal>, AllocError>
    requires { board.now.spoiled ≡ false }
{
    let mut late = None;
    for conflict in goals {
        let moves = candidates(alloc, board, conflict)?;
        if let Some(mv) = last_addition(board, moves.as_slice()) {
            late = Some(Proposal {
                conflict: *conflict,
                mv,
            });
        }
    }
    Ok(late)
}

// The drop of a goal, if there is one that cannot wait.
fn drop_now(board: &Board, goals: &[Conflict], left: u32) -> Option<Proposal> {
    if can_wait(board, goals, left) {
        None
    } else {
        first_drop(board, goals)
    }
}

// Where all conflicts are open goals: drops one that need not be served, else adds a root, which is deleted again in the next turn.
fn pass_time(tries: &mut Tries, board: &Board, left: u32) -> Result<Option<Proposal>, AllocError>
    requires { board.now.spoiled ≡ false }
{
    let goals = board.conflicts().list(tries.alloc)?;
    match drop_now(board, goals.as_slice(), left) {
        Some(drop) => {
            // A plan without this goal has fewer conflicts than were counted of it before.
            tries.forget_looks();
            Ok(Some(drop))
        }
        None => late_root(tries.alloc, board, goals.as_slice()),
    }
}

// What a repair costs. While an even number of turns is left, other repairs come before one by which a goal is no longer served.
fn cost_of(step: &Step, before: &Look, left: u32) -> u64 {
    let open = u64::from(step.look.unserved) * OPEN_GOAL;
    let wait = if left % 2 == 0 && step.look.unserved > before.unserved {
        NOT_YET
    } else {
        0
    };
    price_of(&step.look, 0, false).saturating_add(open + wait)
}

// The repair that costs the least, the first among equals.
fn cheapest(steps: &[Step], before: &Look, left: u32) -> Option<Proposal> {
    let mut best = None;
    let mut least = u64::MAX;
    for step in steps {
        let cost = cost_of(step, before, left);
        if cost < least {
            best = Some(step.repair);
            least = cost;
        }
    }
    best
}

// The cheapest repair of one of the first of some conflicts, in the plan of a board that was looked at.
fn cheapest_repair(
    tries: &mut Tries,
    board: &mut Board,
    conflicts: &[Conflict],
    look: Look,
    left: u32,
) -> Result<Option<Proposal>, AllocError>
    requires { board.old.spoiled ≡ false }
    ensures { OnOk result (board.new ≡ board.old) }
{
    let branch = Branch {
        from: 0,
        look,
        conflicts: CONFLICTS,
        giving_up: GivingUp::Any,
    };
    tries.forget();
    tries.try_conflicts(board, &branch, conflicts)?;
    Ok(cheapest(tries.found.as_slice(), &look, left))
}

// Keeps where a repair stands that was chosen for a plan and turn of this mark.
fn keep_choice(
    tries: &mut Tries,
    board: &Board,
    conflicts: &[Conflict],
    mark: u64,
    repair: &Option<Proposal>,
) -> Result<(), AllocError>
    requires { board.now.spoiled ≡ false }
{
    match repair {
        Some(repair) => {
            let place = place_of(tries.alloc, board, conflicts, repair)?;
            tries.choose(mark, place)
        }
        None => Ok(()),
    }
}

// The repair that was chosen for a plan and turn of this mark before, if it may be made.
fn chosen_before(
    tries: &Tries,
    board: &Board,
    conflicts: &[Conflict],
    mark: u64,
) -> Result<Option<Proposal>, AllocError>
    requires { board.now.spoiled ≡ false }
{
    match tries.chosen(mark) {
        Some(place) => repair_at(tries.alloc, board, conflicts, &place),
        None => Ok(None),
    }
}

// The cheapest repair of one of the first of some conflicts, which is kept for when a plan and turn of this mark are met again.
fn choose_cheapest(
    tries: &mut Tries,
    board: &mut Board,
    conflicts: &[Conflict],
    look: Look,
    left: u32,
    mark: u64,
) -> Result<Option<Proposal>, AllocError>
    requires { board.old.spoiled ≡ false }
    ensures { OnOk result (board.new ≡ board.old) }
{
    let repair = cheapest_repair(tries, board, conflicts, look, left)?;
    keep_choice(tries, board, conflicts, mark, &repair)?;
    Ok(repair)
}

// A repair of a conflict that is no open goal: the one that was chosen before for such a plan and turn, or else the cheapest repair
// of one of the first such conflicts.
fn repair_of_hard(
    tries: &mut Tries,
    board: &mut Board,
    left: u32,
) -> Result<Option<Proposal>, AllocError>
    requires { board.old.spoiled ≡ false }
    ensures { OnOk result (board.new ≡ board.old) }
{
    let look = look_at(board, mark_of_plan(board.plan()));
    let mark = mark_then(look.mark, u64::from(left % 2));
    let hard = hard_conflicts(tries.alloc, board.conflicts())?;
    match chosen_before(tries, board, hard.as_slice(), mark)? {
        Some(repair) => Ok(Some(repair)),
        None => choose_cheapest(tries, board, hard.as_slice(), look, left, mark),
    }
}

/// A repair for the next of the turns that are left (`left`).
pub(crate) fn leftover_repair(
    tries: &mut Tries,
    board: &mut Board,
    left: u32,
) -> Result<Option<Proposal>, AllocError>
    requires { board.old.spoiled ≡ false }
    ensures { OnOk result (board.new ≡ board.old) }
{
    let has_hard = board
        .conflicts()
        .iter()
        .any(|conflict| !is_open_goal(conflict));
    if has_hard {
        repair_of_hard(tries, board, left)
    } else {
        pass_time(tries, board, left)
    }
}
