//! What some activities ask of timelines.
ghost use Rattle.std.specs.Prelude.{◌≡◌, ◌++◌, OnOk, IfOk, Some, All};
ghost use Rattle.std.specs.List.{flat_map};
ghost use Rattle.pl_plan.specs.Activities.{activity_of};
ghost use Rattle.pl_semantics.specs.Whole.{IsWhole};
ghost use Rattle.pl_semantics.specs.PlanStates.{found, of_found};
ghost use Rattle.pl_semantics.specs.Demands.{demands_at};
ghost use Rattle.pl_update.specs.Evaluations.Kept.{AreOf};

use pl_detect::demands_with;
use pl_plan::Activity;
use pl_semantics::{Demand, PlanState};
use pl_update::evaluations::Evaluations;
use std::alloc::{AllocError, Global};

fn add_asked(
    s: &PlanState,
    values: &Evaluations,
    a: &Activity,
    out: &mut Vec<Demand>,
) -> Result<(), AllocError>
    requires whole { IsWhole s.now }
    requires values { AreOf s.now values.now }
    requires live { activity_of a.now.id s.now.plan.activities ≡ Some a.now }
    ensures { OnOk result (out.new.items ≡ out.old.items ++ demands_at s.now a.now) }
{
    match values.of(a.id) {
        Some(evaluated) => demands_with(s, a, evaluated, out),
        None => unreachable!(),
    }
}

fn add_asked_by(
    s: &PlanState,
    values: &Evaluations,
    id: u32,
    out: &mut Vec<Demand>,
) -> Result<(), AllocError>
    requires whole { IsWhole s.now }
    requires values { AreOf s.now values.now }
    ensures { OnOk result (out.new.items ≡ out.old.items ++ of_found (demands_at s.now) (found s.now id)) }
{
    match s.plan.get(id) {
        Some(a) => add_asked(s, values, a, out),
        None => Ok(()),
    }
}

/// What the activities of these ids ask for.
pub(crate) fn asked_by(
    alloc: Global,
    s: &PlanState,
    values: &Evaluations,
    ids: &[u32],
) -> Result<Vec<Demand>, AllocError>
    requires whole { IsWhole s.now }
    requires values { AreOf s.now values.now }
    ensures { IfOk result (λ all. all.items ≡ flat_map (λ id. of_found (demands_at s.now) (found s.now id)) ids.now) }
{
    let mut all = Vec::new(alloc);
    for id in ids {
        add_asked_by(s, values, *id, &mut all)?;
    }
    Ok(all)
}

/// What these live activities ask for.
pub(crate) fn asked_of(
    alloc: Global,
    s: &PlanState,
    values: &Evaluations,
    placed: &[Activity],
) -> Result<Vec<Demand>, AllocError>
    requires whole { IsWhole s.now }
    requires values { AreOf s.now values.now }
    requires live { All (λ a. activity_of a.id s.now.plan.activities ≡ Some a) placed.now }
    ensures { IfOk result (λ all. all.items ≡ flat_map (demands_at s.now) placed.now) }
{
    let mut all = Vec::new(alloc);
    for a in placed {
        add_asked(s, values, a, &mut all)?;
    }
    Ok(all)
}
