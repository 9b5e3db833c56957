//! How many conflicts of goals, of activities and of links the choice of an alternative is known to leave, given what it places.
ghost use Rattle.std.specs.Prelude.{◌≡◌, ◌≤◌, false, None, Some, filter, length, map, IfOk};
ghost use Rattle.pl_moves.specs.Runs.{CanBeMade};
ghost use Rattle.pl_plan.specs.Activities.{activity_of};
ghost use Rattle.pl_plan.specs.Trees.{id_of};
ghost use Rattle.pl_plan.specs.declared.repair.RepairMove.TheVariants.{Detail};
ghost use Rattle.pl_semantics.specs.Moves.{applied};
ghost use Rattle.pl_bounds.specs.Choosing.{chosen_alone, kind_of_one, lacks};
ghost use Rattle.pl_bounds.specs.Plain.{count_of_plain};
ghost use Rattle.pl_bounds.specs.Standing.{IsStandingOf};
ghost use Rattle.pl_bounds.specs.Ties.{count_of_links};

use crate::elsewhere::count_elsewhere;
use crate::standing::{Standing, count_if};
use crate::untouched::count_left;
use pl_board::Board;
use pl_plan::Activity;
use pl_semantics::PlanState;
use std::alloc::{AllocError, Global};

fn lacks(s: &PlanState, a: &Activity) -> bool
    ensures { result ≡ lacks s.now a.now }
{
    !s.alternatives_of(a).is_empty()
}

// How many of them have a kind with alternatives.
fn count_lacking(s: &PlanState, all: &[Activity]) -> u32
    ensures { result ≤ length (filter (lacks s.now) all.now) }
{
    let mut count = 0;
    for a in all {
        count = count_if(lacks(s, a), count);
    }
    count
}

fn ids_of(alloc: Global, all: &[Activity]) -> Result<Vec<u32>, AllocError>
    ensures { IfOk result (λ ids. ids.items ≡ map id_of all.now) }
{
    let mut ids = Vec::with_capacity(alloc, all.len())?;
    for a in all {
        ids.push(a.id)?;
    }
    Ok(ids)
}

fn kinds_of(alloc: Global, all: &[Activity]) -> Result<Vec<u32>, AllocError>
    ensures { IfOk result (λ kinds. kinds.items ≡ map kind_of_one all.now) }
{
    let mut kinds = Vec::with_capacity(alloc, all.len())?;
    for a in all {
        kinds.push(a.kind)?;
    }
    Ok(kinds)
}

/// How much is wrong with goals and with other activities, and how many children lack an alternative of their own.
pub(crate) fn left_by_choice(
    alloc: Global,
    board: &Board,
    root: &Activity,
    alternative: u32,
    placed: &[Activity],
) -> Result<u32, AllocError>
    requires unspoiled { board.now.spoiled ≡ false }
    requires next { board.now.state.next_id ≤ 3999999000 }
    requires live { activity_of root.now.id board.now.state.plan.activities ≡ Some root.now }
    requires root { root.now.parent ≡ None }
    requires allowed { CanBeMade board.now.state (Detail root.now.id alternative) }
    requires placed { placed.now ≡ (chosen_alone board.now.state root.now alternative).plan.activities }
    ensures { IfOk result (λ n. n ≤ count_of_plain (applied board.now.state (Detail root.now.id alternative))) }
{
    let s = board.state();
    let ids = ids_of(alloc, placed)?;
    let others = count_elsewhere(board.conflicts(), ids.as_slice());
    // The root's kind has alternatives too, but one of them is chosen now.
    let lacking = count_lacking(s, placed).saturating_sub(1);
    Ok(others.saturating_add(lacking))
}

/// How many conflicts of links and orders stand that the choice does not touch.
pub(crate) fn left_alone_by_choice(
    alloc: Global,
    board: &Board,
    standing: &Standing,
    root: &Activity,
    alternative: u32,
    placed: &[Activity],
) -> Result<u32, AllocError>
    requires unspoiled { board.now.spoiled ≡ false }
    requires next { board.now.state.next_id ≤ 3999999000 }
    requires standing { IsStandingOf board.now.state standing.now }
    requires live { activity_of root.now.id board.now.state.plan.activities ≡ Some root.now }
    requires root { root.now.parent ≡ None }
    requires allowed { CanBeMade board.now.state (Detail root.now.id alternative) }
    requires placed { placed.now ≡ (chosen_alone board.now.state root.now alternative).plan.activities }
    ensures { IfOk result (λ n. n ≤ count_of_links (applied board.now.state (Detail root.now.id alternative))) }
{
    let _state = board.state();
    if standing.links.is_empty() {
        return Ok(0);
    }
    let kinds = kinds_of(alloc, placed)?;
    Ok(count_left(
        standing.links.as_slice(),
        &[root.id],
        kinds.as_slice(),
        None,
    ))
}
