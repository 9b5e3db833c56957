//! A root that a move would add.
ghost use Rattle.std.specs.Prelude.{◌≡◌, ◌≤◌, IfOk};
ghost use Rattle.pl_bounds.specs.Askings.{root_alone};

use crate::alone::only;
use pl_moves::root_for;
use pl_semantics::PlanState;
use std::alloc::{AllocError, Global};

/// The root that a move adds, alone in a plan of its own, where it serves no goal.
pub(crate) fn root_alone(
    alloc: Global,
    s: &PlanState,
    kind: u32,
    start: u32,
    goal: Option<u32>,
) -> Result<PlanState, AllocError>
    requires { s.now.next_id ≤ 3999999000 }
    ensures { IfOk result (λ t. t ≡ root_alone s.now kind start goal) }
{
    let mut root = root_for(alloc, s, kind, start, goal)?;
    root.goal = None;
    only(alloc, s, root)
}
