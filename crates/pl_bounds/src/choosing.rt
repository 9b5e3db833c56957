//! The choice of an alternative of a root: what it places, and what that asks of timelines.
ghost use Rattle.std.specs.Prelude.{◌≡◌, ◌≤◌, ◌∷◌, [], false, None, Some, IfOk};
ghost use Rattle.pl_moves.specs.Runs.{CanBeMade};
ghost use Rattle.pl_plan.specs.Activities.{activity_of};
ghost use Rattle.pl_plan.specs.declared.repair.RepairMove.TheVariants.{Detail};
ghost use Rattle.pl_semantics.specs.Whole.{IsWhole};
ghost use Rattle.pl_bounds.specs.Choosing.{IsAskedByChoice, bare, chosen_alone};

use crate::asking::{Asking, asked_by};
use pl_board::Board;
use pl_detect::demands;
use pl_facts::Goals;
use pl_lists::Copied;
use pl_moves::trial_of;
use pl_plan::{Activity, Plan, RepairMove};
use pl_semantics::PlanState;
use pl_update::changes::{next_after, replace};
use std::alloc::{AllocError, Global};

// The root alone in a plan, where it serves no goal, and no goals.
fn bare(alloc: Global, s: &PlanState, root: &Activity) -> Result<PlanState, AllocError>
    ensures { IfOk result (λ t. t ≡ bare s.now root.now) }
{
    let mut copy = root.copy(alloc)?;
    copy.goal = None;
    let mut plan = Plan::new(alloc);
    plan.put(copy)?;
    Ok(PlanState {
        model: s.model.share()?,
        plan,
        goals: Goals::new(alloc),
        bases: s.bases.copy(alloc)?,
        moment: s.moment,
        committed: s.committed,
        next_id: s.next_id,
        live_limit: s.live_limit,
    })
}

/// This plan once an alternative of the root is chosen: it holds the root and a child for each slot.
pub(crate) fn chosen_alone(
    alloc: Global,
    s: &PlanState,
    root: &Activity,
    alternative: u32,
) -> Result<PlanState, AllocError>
    requires whole { IsWhole s.now }
    requires next { s.now.next_id ≤ 3999999000 }
    requires live { activity_of root.now.id s.now.plan.activities ≡ Some root.now }
    requires root { root.now.parent ≡ None }
    requires allowed { CanBeMade s.now (Detail root.now.id alternative) }
    ensures { IfOk result (λ t. t ≡ chosen_alone s.now root.now alternative) }
{
    let mut alone = bare(alloc, s, root)?;
    let mv = RepairMove::Detail {
        id: root.id,
        alternative,
    };
    let trial = trial_of(alloc, &alone, &mv)?;
    let placed = trial.change.placed.as_slice();
    let next = next_after(alone.next_id, placed);
    replace(alloc, &mut alone.plan, trial.change.gone.as_slice(), placed)?;
    alone.next_id = next;
    Ok(alone)
}

/// What the choice asks for, given the root alone in a plan once the alternative is chosen.
pub(crate) fn asked_by_choice(
    alloc: Global,
    board: &Board,
    root: &Activity,
    alternative: u32,
    alone: &PlanState,
) -> Result<Asking, AllocError>
    requires unspoiled { board.now.spoiled ≡ false }
    requires next { board.now.state.next_id ≤ 3999999000 }
    requires live { activity_of root.now.id board.now.state.plan.activities ≡ Some root.now }
    requires root { root.now.parent ≡ None }
    requires allowed { CanBeMade board.now.state (Detail root.now.id alternative) }
    requires alone { alone.now ≡ chosen_alone board.now.state root.now alternative }
    ensures { IfOk result (λ a. IsAskedByChoice board.now.state root.now.id alternative a) }
{
    let _state = board.state();
    let going = asked_by(alloc, board, &[root.id])?;
    let coming = demands(alloc, alone)?;
    Ok(Asking {
        going,
        coming,
        start: 0,
    })
}
