ghost use Rattle.std.specs.Prelude.{◌≡◌, ◌+◌, ◌≤◌, IfSome, length, slice_get};
ghost use Rattle.std.specs.Option.{option_copied};
ghost use Rattle.pl_plan.specs.Activities.{IsLive};
ghost use Rattle.pl_semantics.specs.PlanStates.{found};
ghost use Rattle.pl_semantics.specs.Whole.{IsWhole};
ghost use Rattle.pl_semantics.specs.Moves.{alternatives_at, children_for, children_from, moved_with, started_by};
ghost use Rattle.pl_moves.specs.Sides.{ArePaired, lies_on, first_on, when_so};
ghost use Rattle.pl_moves.specs.Changes.{IsNamedLive};

use crate::lookups::alternatives_in;
use crate::objecting::first_objecting;
use crate::objection::Objection;
use crate::side::Side;
use crate::sides::lies_on;
use pl_model::{Alternative, Slot};
use pl_plan::{Activity, RepairMove};
use pl_semantics::PlanState;

// The first activity of the subtree that would start on this side.
fn first_shifted(s: &PlanState, id: u32, to: u32, side: Side) -> Option<u32>
    requires whole { IsWhole s.now }
    requires live { IsLive id s.now.plan.activities }
    ensures { result ≡ first_on s.now side (moved_with s.now to (found s.now id)) }
{
    let top = s.plan.get(id)?;
    let from = top.start;
    first_objecting(s, Objection::Moved { from, to, side }, id)
}

/// An alternative of the activity's kind.
pub(crate) fn alternative_at<'s>(
    s: &'s PlanState,
    a: &Activity,
    number: u32,
) -> Option<&'s Alternative>
    requires { IsWhole s.now }
    ensures value { option_copied result ≡ slice_get (alternatives_at s.now a.now) number }
    ensures paired { IfSome result (λ of. ArePaired of.now.slots of.now.offsets) }
{
    alternatives_in(s.model.get(), a).get(number as usize)
}

// The first of the new children that would start on this side.
fn first_child(
    s: &PlanState,
    parent: &Activity,
    slots: &[Slot],
    offsets: &[u32],
    side: Side,
) -> Option<u32>
    requires whole { IsWhole s.now }
    requires paired { ArePaired slots.now offsets.now }
    ensures { result ≡ first_on s.now side (children_from s.now parent.now 0 slots.now offsets.now) }
{
    for (number, offset) in offsets.iter().enumerate() {
        if lies_on(s, side, u64::from(parent.start) + u64::from(*offset)) {
            return Some(s.next_id + number as u32);
        }
    }
    None
}

fn first_detailed(s: &PlanState, id: u32, alternative: u32, side: Side) -> Option<u32>
    requires { IsWhole s.now }
    ensures { result ≡ first_on s.now side (children_for s.now alternative (found s.now id)) }
{
    let parent = s.plan.get(id)?;
    let of = alternative_at(s, parent, alternative)?;
    first_child(s, parent, of.slots.as_slice(), of.offsets.as_slice(), side)
}

fn first_added(s: &PlanState, start: u32, side: Side) -> Option<u32>
    requires { IsWhole s.now }
    ensures { result ≡ when_so (lies_on s.now side start) s.now.next_id }
{
    if lies_on(s, side, u64::from(start)) {
        Some(s.next_id)
    } else {
        None
    }
}

/// The first of the activities that the move adds or shifts that would start on this side.
pub(crate) fn first_started(s: &PlanState, mv: &RepairMove, side: Side) -> Option<u32>
    requires whole { IsWhole s.now }
    requires named { IsNamedLive s.now mv.now }
    ensures { result ≡ first_on s.now side (started_by s.now mv.now) }
{
    match *mv {
        RepairMove::Add { start, .. } => first_added(s, start, side),
        RepairMove::Shift { id, start } => first_shifted(s, id, start, side),
        RepairMove::Detail { id, alternative } => first_detailed(s, id, alternative, side),
        _ => None,
    }
}
