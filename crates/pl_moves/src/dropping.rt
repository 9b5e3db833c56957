ghost use Rattle.std.specs.Prelude.{◌≡◌, ◌-◌, false, true, length, IfOk, if◌then◌else◌};
ghost use Rattle.pl_conflict.specs.Order.{has};
ghost use Rattle.pl_plan.specs.declared.repair.RepairMove.TheVariants.{Drop};
ghost use Rattle.pl_semantics.specs.Legal.{left_after};
ghost use Rattle.pl_semantics.specs.Moves.{is_proper};
ghost use Rattle.pl_semantics.specs.Goals.{open_goal};

use pl_board::Board;
use pl_conflict::{Code, Conflict, ConflictSet};
use pl_facts::Goal;
use std::alloc::{AllocError, Global};

// The conflict that stands while the goal is open and may still be served.
fn open_goal(goal: &Goal) -> Conflict
    ensures { result ≡ open_goal goal.now }
{
    Conflict {
        from: goal.latest,
        code: Code::OpenGoal,
        subject: goal.number,
        detail: 0,
        a: goal.earliest,
        b: goal.latest,
    }
}

// How many conflicts there are, even if there are more than the set itself counts.
fn exact_count(alloc: Global, all: &ConflictSet) -> Result<usize, AllocError>
    ensures { IfOk result (λ n. n ≡ length all.now) }
{
    let count = all.len();
    if count < u32::MAX {
        return Ok(count as usize);
    }
    let listed = all.list(alloc)?;
    Ok(listed.len())
}

// How many conflicts there are besides this one.
fn count_besides(alloc: Global, all: &ConflictSet, one: &Conflict) -> Result<usize, AllocError>
    ensures { IfOk result (λ n. n ≡ (if has one.now all.now then length all.now - 1 else length all.now)) }
{
    let count = exact_count(alloc, all)?;
    if all.has(one) {
        Ok(count.saturating_sub(1))
    } else {
        Ok(count)
    }
}

/// How many conflicts would stand if an open goal were dropped: all but its own.
pub(crate) fn count_without(alloc: Global, board: &Board, number: u32) -> Result<usize, AllocError>
    requires unspoiled { board.now.spoiled ≡ false }
    requires proper { is_proper board.now.state (Drop number) ≡ true }
    ensures { IfOk result (λ n. n ≡ left_after board.now.state (Drop number)) }
{
    match board.state().goals.get(number) {
        Some(goal) => count_besides(alloc, board.conflicts(), &open_goal(goal)),
        None => unreachable!(),
    }
}
