//! The forecast of all levels.
ghost use Rattle.std.specs.Prelude.{◌≡◌, ◌≤◌, ◌<◌, ◌++◌, map, length, All, IsSome, OnOk, IfOk};
ghost use Rattle.std.specs.List.{flat_map};
ghost use Rattle.pl_model.specs.Checked.{IsChecked};
ghost use Rattle.pl_facts.specs.Bases.{base_of};
ghost use Rattle.pl_plan.specs.Fitting.{Fits};
ghost use Rattle.pl_semantics.specs.PlanStates.{numbered};
ghost use Rattle.pl_semantics.specs.declared.plan_state.PlanState.{PlanState};
ghost use Rattle.pl_rate.specs.Fores.{AreBased, Has, forecast_of, outside};
ghost use Rattle.pl_rate.specs.Hinges.{IsBasedLine, lows_by, highs_by, outsides_by};
ghost use Rattle.pl_rate.specs.Orders.{AreOrdered};
ghost use Rattle.pl_rate.specs.Rates.{IsRateOf};

use crate::gathering::hinges_of;
use crate::hinge::Hinge;
use crate::ordering::{hinges_on, order};
use crate::outside::Outside;
use crate::rate::Rate;
use crate::walking::{course_at, outside_spans};
use pl_facts::Bases;
use pl_model::{Model, Timeline};
use pl_plan::Plan;
use pl_points::{Limit, Span};
use std::alloc::{AllocError, Global};

fn push_spans(
    all: &mut Vec<Outside>,
    level: u32,
    high: bool,
    spans: &[Span],
) -> Result<(), AllocError>
    ensures { OnOk result (all.new.items ≡ all.old.items ++ map (outside level high) spans.now) }
{
    for span in spans {
        all.push(Outside {
            level,
            high,
            from: span.from,
            to: span.to,
        })?;
    }
    Ok(())
}

// The spans in which a level is below its least, and then those in which it is above its most.
fn push_level(
    alloc: Global,
    all: &mut Vec<Outside>,
    hinges: &[Hinge],
    bases: &Bases,
    level: u32,
    limits: (i64, i64),
    window: Span,
) -> Result<(), AllocError>
    requires ordered { AreOrdered hinges.now }
    requires based { IsSome (base_of level bases.now) }
    requires window { (window.from ≤ window.to) × (window.to ≤ 10000000) }
    ensures { OnOk result (all.new.items ≡ all.old.items ++ (lows_by hinges.now bases.now window level limits.0 ++ highs_by hinges.now bases.now window level limits.1)) }
{
    let told = bases.get(level);
    let first = told.1;
    let own = hinges_on(hinges, level);
    let begin = course_at(first, own, window.from);
    let low = outside_spans(alloc, Limit::Below(limits.0), first, own, begin, window.to)?;
    push_spans(all, level, false, low.as_slice())?;
    let high = outside_spans(alloc, Limit::Above(limits.1), first, own, begin, window.to)?;
    push_spans(all, level, true, high.as_slice())?;
    Ok(())
}

// A timeline that is no level has no spans.
fn push_timeline(
    alloc: Global,
    all: &mut Vec<Outside>,
    hinges: &[Hinge],
    bases: &Bases,
    line: u32,
    timeline: &Timeline,
    window: Span,
) -> Result<(), AllocError>
    requires ordered { AreOrdered hinges.now }
    requires based { IsBasedLine bases.now line timeline.now }
    requires window { (window.from ≤ window.to) × (window.to ≤ 10000000) }
    ensures { OnOk result (all.new.items ≡ all.old.items ++ outsides_by hinges.now bases.now window (line, timeline.now)) }
{
    match timeline {
        Timeline::Level { least, most, .. } => {
            let limits = (*least, *most);
            push_level(alloc, all, hinges, bases, line, limits, window)?;
            Ok(())
        }
        Timeline::Capacity { .. } => Ok(()),
        Timeline::States { .. } => Ok(()),
    }
}

fn push_timelines(
    alloc: Global,
    model: &Model,
    hinges: &[Hinge],
    bases: &Bases,
    window: Span,
) -> Result<Vec<Outside>, AllocError>
    requires few { length model.now.timelines ≤ 256 }
    requires ordered { AreOrdered hinges.now }
    requires bases { AreBased model.now bases.now }
    requires window { (window.from ≤ window.to) × (window.to ≤ 10000000) }
    ensures { IfOk result (λ all. all.items ≡ flat_map (outsides_by hinges.now bases.now window) (numbered 0 model.now.timelines)) }
{
    let timelines = model.timelines.as_slice();
    let mut all = Vec::new(alloc);
    for (line, timeline) in timelines.iter().enumerate() {
        push_timeline(
            alloc,
            &mut all,
            hinges,
            bases,
            line as u32,
            timeline,
            window,
        )?;
    }
    Ok(all)
}

/// Where each level, by number, is outside its limits from the present up to the horizon: first below, then above.
pub fn forecast(
    alloc: Global,
    model: &Model,
    plan: &Plan,
    bases: &Bases,
    now: u32,
    rates: &[Rate],
) -> Result<Vec<Outside>, AllocError>
    requires checked { IsChecked model.now }
    requires fits { Fits model.now plan.now.activities }
    requires bases { AreBased model.now bases.now }
    requires rates { All (IsRateOf model.now) rates.now }
    // The forecast of each plan state with this model, this plan, these bases and this present.
    ensures { IfOk result (λ all. (s : PlanState) → Has s model.now plan.now bases.now now → all.items ≡ forecast_of s rates.now) }
{
    let mut hinges = hinges_of(alloc, model, plan, bases, rates)?;
    order(&mut hinges);
    let window = Span {
        from: now.min(model.horizon),
        to: model.horizon,
    };
    let all = push_timelines(alloc, model, hinges.as_slice(), bases, window)?;
    Ok(all)
}
