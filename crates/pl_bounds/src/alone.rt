//! An activity that is alone in a plan.
ghost use Rattle.std.specs.Prelude.{◌≡◌, ◌≤◌, IfOk};
ghost use Rattle.pl_bounds.specs.Askings.{only};

use pl_facts::Goals;
use pl_lists::Copied;
use pl_plan::{Activity, Plan};
use pl_semantics::PlanState;
use std::alloc::{AllocError, Global};

/// The state with this activity alone in its plan, and no goals.
pub(crate) fn only(alloc: Global, s: &PlanState, a: Activity) -> Result<PlanState, AllocError>
    requires { s.now.next_id ≤ 3999999000 }
    ensures { IfOk result (λ t. t ≡ only s.now a) }
{
    let mut plan = Plan::new(alloc);
    plan.put(a)?;
    Ok(PlanState {
        model: s.model.share()?,
        plan,
        goals: Goals::new(alloc),
        bases: s.bases.copy(alloc)?,
        moment: s.moment,
        committed: s.committed,
        next_id: s.next_id + 1,
        live_limit: s.live_limit,
    })
}
