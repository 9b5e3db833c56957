ghost use Rattle.std.specs.Prelude.{◌≡◌};
ghost use Rattle.pl_plan.specs.Activities.{IsLive};
ghost use Rattle.pl_semantics.specs.Whole.{IsWhole};
ghost use Rattle.pl_moves.specs.Objections.{first_objecting, lesser, objects};

use crate::objection::Objection;
use crate::sides::{lies_on, moved_start};
use pl_plan::Activity;
use pl_semantics::PlanState;

fn objects(s: &PlanState, objection: Objection, a: &Activity) -> bool
    requires { IsWhole s.now }
    ensures { result ≡ objects s.now objection a.now }
{
    match objection {
        Objection::Committed => a.start < s.committed,
        Objection::Moved { from, to, side } => lies_on(s, side, moved_start(a, from, to)),
    }
}

fn lesser(found: Option<u32>, other: Option<u32>) -> Option<u32>
    ensures { result ≡ lesser found other }
{
    match (found, other) {
        (None, _) => other,
        (Some(_), None) => found,
        (Some(id), Some(next)) => Some(id.min(next)),
    }
}

/// The least id of an activity of the subtree that objects. No descendant of an activity has a lower id, so the descendants of one
/// that objects are not looked at. An activity with no alternative chosen has no children. No memory is taken.
pub(crate) fn first_objecting(s: &PlanState, objection: Objection, top: u32) -> Option<u32>
    requires whole { IsWhole s.now }
    requires live { IsLive top s.now.plan.activities }
    ensures { result ≡ first_objecting s.now objection top }
{
    let a = s.plan.get(top)?;
    if objects(s, objection, a) {
        return Some(top);
    }
    if a.detail.is_none() {
        return None;
    }
    let mut first = None;
    let mut last = top;
    while let Some(child) = s.plan.child_behind(top, last) {
        first = lesser(first, first_objecting(s, objection, child));
        last = child;
    }
    first
}
