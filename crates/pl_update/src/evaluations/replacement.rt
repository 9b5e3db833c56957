//! A plan and what is kept of what its activities come to go on together.
ghost use Rattle.std.specs.Prelude.{◌≡◌, OnOk, OnErr};
ghost use Rattle.pl_semantics.specs.Whole.{IsWhole};
ghost use Rattle.pl_update.specs.Changes.Replaced.{CanReplace, with_plan};
ghost use Rattle.pl_update.specs.Evaluations.Kept.{AreOf};
ghost use Rattle.pl_update.specs.Evaluations.Shifted.{IsShift};

use crate::changes::next_after;
use crate::evaluations::evaluations::Evaluations;
use crate::evaluations::shifting::is_shift;
use pl_plan::Activity;
use pl_semantics::PlanState;
use std::alloc::{AllocError, Global};

// The activities of the plan alone.
fn replace_activities(
    alloc: Global,
    s: &mut PlanState,
    gone: &[u32],
    placed: &[Activity],
) -> Result<(), AllocError>
    requires whole { IsWhole s.old }
    requires can { CanReplace s.old gone.now placed.now }
    ensures ok { OnOk result (s.new ≡ with_plan gone.now placed.now s.old) }
    ensures err { OnErr result (s.new ≡ record s.old { plan = s.new.plan }) }
{
    crate::changes::replace(alloc, &mut s.plan, gone, placed)?;
    s.next_id = next_after(s.next_id, placed);
    Ok(())
}

// Works nothing out.
fn replace_by_shift(
    alloc: Global,
    s: &mut PlanState,
    values: &mut Evaluations,
    gone: &[u32],
    placed: &[Activity],
) -> Result<(), AllocError>
    requires whole { IsWhole s.old }
    requires can { CanReplace s.old gone.now placed.now }
    requires values { AreOf s.old values.old }
    requires shift { IsShift s.old.plan.activities gone.now placed.now }
    ensures ok { OnOk result (s.new ≡ with_plan gone.now placed.now s.old) }
    ensures values { OnOk result (AreOf s.new values.new) }
    ensures err { OnErr result (s.new ≡ record s.old { plan = s.new.plan }) }
{
    values.shift(s, placed);
    replace_activities(alloc, s, gone, placed)?;
    Ok(())
}

// Works out what those that come come to.
fn replace_anew(
    alloc: Global,
    s: &mut PlanState,
    values: &mut Evaluations,
    gone: &[u32],
    placed: &[Activity],
) -> Result<(), AllocError>
    requires whole { IsWhole s.old }
    requires can { CanReplace s.old gone.now placed.now }
    requires values { AreOf s.old values.old }
    ensures ok { OnOk result (s.new ≡ with_plan gone.now placed.now s.old) }
    ensures values { OnOk result (AreOf s.new values.new) }
    ensures err { OnErr result (s.new ≡ record s.old { plan = s.new.plan; next_id = s.new.next_id }) }
{
    replace_activities(alloc, s, gone, placed)?;
    values.replace(alloc, s, gone, placed)?;
    Ok(())
}

/// Takes the activities of `gone` out of a plan and puts those of `placed` in, and keeps what the activities come to then.
/// Where they come again at other starts at most, and without measured ends, nothing is worked out anew. After want of
/// memory both may be changed in part.
pub fn replace(
    alloc: Global,
    s: &mut PlanState,
    values: &mut Evaluations,
    gone: &[u32],
    placed: &[Activity],
) -> Result<(), AllocError>
    requires whole { IsWhole s.old }
    requires can { CanReplace s.old gone.now placed.now }
    requires values { AreOf s.old values.old }
    ensures ok { OnOk result (s.new ≡ with_plan gone.now placed.now s.old) }
    ensures values { OnOk result (AreOf s.new values.new) }
    ensures err { OnErr result (s.new ≡ record s.old { plan = s.new.plan; next_id = s.new.next_id }) }
{
    if is_shift(s, gone, placed) {
        replace_by_shift(alloc, s, values, gone, placed)
    } else {
        replace_anew(alloc, s, values, gone, placed)
    }
}
