ghost use Rattle.std.specs.Prelude.{◌≡◌};
ghost use Rattle.pl_semantics.specs.Whole.{IsWhole};
ghost use Rattle.pl_semantics.specs.Moves.{moved};
ghost use Rattle.pl_moves.specs.Sides.{lies_on};

use crate::side::Side;
use pl_plan::Activity;
use pl_semantics::PlanState;

pub(crate) fn lies_on(s: &PlanState, side: Side, start: u64) -> bool
    requires { IsWhole s.now }
    ensures { result ≡ lies_on s.now side start }
{
    match side {
        Side::BelowFloor => start < u64::from(s.floor()),
        Side::PastHorizon => u64::from(s.model.get().horizon) <= start,
    }
}

/// The start of an activity once it is shifted by as much as one whose start goes from `from` to `to`.
pub(crate) fn moved_start(a: &Activity, from: u32, to: u32) -> u64
    ensures { result ≡ (moved from to a.now).start }
{
    (u64::from(a.start) + u64::from(to)).saturating_sub(u64::from(from))
}
