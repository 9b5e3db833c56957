//! All activities of a plan in a temporal store.
ghost use Rattle.std.specs.Prelude.{◌≡◌, IfOk, Some};
ghost use Rattle.pl_links.specs.Kept.{kept_of};
ghost use Rattle.pl_plan.specs.Activities.{activity_of};
ghost use Rattle.pl_semantics.specs.Whole.{IsWhole};
ghost use Rattle.pl_semantics.specs.Links.{placed_in, placed_of};

use pl_links::{Links, Placed};
use pl_plan::Activity;
use pl_semantics::PlanState;
use std::alloc::{AllocError, Global};

/// A live activity with its end.
pub fn placed_of(s: &PlanState, a: &Activity) -> Placed
    requires whole { IsWhole s.now }
    requires live { activity_of a.now.id s.now.plan.activities ≡ Some a.now }
    ensures { result ≡ placed_of s.now a.now }
{
    Placed {
        id: a.id,
        kind: a.kind,
        start: a.start,
        end: s.plan.end(s.model.get(), a.id),
        parent: a.parent,
        detail: a.detail,
    }
}

/// A store with all activities of the plan.
pub(crate) fn placed_in(alloc: Global, s: &PlanState) -> Result<Links, AllocError>
    requires { IsWhole s.now }
    ensures { IfOk result (λ links. links ≡ kept_of s.now.model (placed_in s.now)) }
{
    let mut links = Links::new(alloc);
    let activities = s.plan.activities();
    for activity in activities {
        links.place(s.model.get(), &placed_of(s, activity))?;
    }
    Ok(links)
}
