//! Where timelines are outside their limits, where a state is another than is needed, and steps that are not allowed.
ghost use Rattle.std.specs.Prelude.{◌≡◌, ◌++◌, ◌≤ℤ◌, pos, Some, slice_get, OnOk};
ghost use Rattle.pl_model.specs.Checked.{IsLevel};
ghost use Rattle.pl_semantics.specs.Whole.{IsWhole};
ghost use Rattle.pl_semantics.specs.Demands.{demands_of};
ghost use Rattle.pl_semantics.specs.Timelines.{overs, lows, highs, musts, bad_steps, line_conflicts, timeline_conflicts};
ghost use Rattle.pl_detect.specs.Based.{HasBase};
ghost use Rattle.pl_detect.specs.Fresh.{level_of, states_of};

use crate::capacities::capacity_of;
use crate::levels::level_of;
use crate::outside::{add_bad_steps, add_musts, add_outside};
use crate::states::states_of;
use pl_conflict::{Code, Conflict};
use pl_level::Level;
use pl_model::Timeline;
use pl_points::PlainPoints;
use pl_semantics::{Demand, PlanState};
use pl_state::StateTimeline;
use std::alloc::{AllocError, Global};

/// Appends the conflicts of all timelines, by their numbers, over what all activities ask for.
pub fn timeline_conflicts(
    alloc: Global,
    s: &PlanState,
    demands: &[Demand],
    out: &mut Vec<Conflict>,
) -> Result<(), AllocError>
    requires whole { IsWhole s.now }
    requires demands { demands.now ≡ demands_of s.now }
    ensures { OnOk result (out.new.items ≡ out.old.items ++ timeline_conflicts s.now) }
{
    let timelines = s.model.get().timelines.as_slice();
    for (line, timeline) in timelines.iter().enumerate() {
        line_conflicts(alloc, s, demands, line as u32, timeline, out)?;
    }
    Ok(())
}

#[tactic(auto, unfolding(pl_semantics::specs::Timelines::line_conflicts))]
/// Appends the conflicts of the timeline of this number, over what all activities ask for.
pub fn line_conflicts(
    alloc: Global,
    s: &PlanState,
    demands: &[Demand],
    line: u32,
    timeline: &Timeline,
    out: &mut Vec<Conflict>,
) -> Result<(), AllocError>
    requires whole { IsWhole s.now }
    requires demands { demands.now ≡ demands_of s.now }
    requires line { slice_get s.now.model.timelines line ≡ Some timeline.now }
    ensures { OnOk result (out.new.items ≡ out.old.items ++ line_conflicts s.now (line, timeline.now)) }
{
    match timeline {
        Timeline::Capacity { most, .. } => add_overs(alloc, s, demands, line, *most, out),
        Timeline::Level { least, most, .. } => {
            add_levels(alloc, s, demands, line, *least, *most, out)
        }
        Timeline::States {
            states,
            any,
            steps,
            ..
        } => {
            let count = states.len() as u32;
            let line_states = states_of(alloc, s, demands, line, count, *any, steps.as_slice())?;
            add_states(s, line, *any, steps.as_slice(), &line_states, out)
        }
    }
}

#[tactic(auto, unfolding(pl_semantics::specs::Demands::use_at))]
fn add_overs(
    alloc: Global,
    s: &PlanState,
    demands: &[Demand],
    line: u32,
    most: i64,
    out: &mut Vec<Conflict>,
) -> Result<(), AllocError>
    requires whole { IsWhole s.now }
    requires demands { demands.now ≡ demands_of s.now }
    requires most { pos 0 ≤ℤ most }
    ensures { OnOk result (out.new.items ≡ out.old.items ++ overs s.now line most) }
{
    let capacity = capacity_of(alloc, s, demands, line, most)?;
    add_outside(Code::Over, line, capacity.spans(), out)?;
    Ok(())
}

fn add_levels(
    alloc: Global,
    s: &PlanState,
    demands: &[Demand],
    line: u32,
    least: i64,
    most: i64,
    out: &mut Vec<Conflict>,
) -> Result<(), AllocError>
    requires whole { IsWhole s.now }
    requires demands { demands.now ≡ demands_of s.now }
    requires base { HasBase s.now line 1000000000000 }
    requires least { IsLevel least }
    requires most { IsLevel most }
    ensures { OnOk result (out.new.items ≡ out.old.items ++ (lows s.now line least ++ highs s.now line most)) }
{
    let level = level_of(alloc, s, demands, line, least, most)?;
    add_lows(s, line, least, most, &level, out)?;
    add_highs(s, line, least, most, &level, out)?;
    Ok(())
}

fn add_states(
    s: &PlanState,
    line: u32,
    any: bool,
    steps: &[(u32, u32)],
    states: &StateTimeline,
    out: &mut Vec<Conflict>,
) -> Result<(), AllocError>
    requires { states.now ≡ states_of s.now line any steps.now }
    ensures { OnOk result (out.new.items ≡ out.old.items ++ (musts s.now line ++ bad_steps s.now line any steps.now)) }
{
    add_unmet(s, line, any, steps, states, out)?;
    add_bad(s, line, any, steps, states, out)?;
    Ok(())
}

#[tactic(auto, unfolding(pl_semantics::specs::Demands::level_at))]
fn add_lows(
    s: &PlanState,
    line: u32,
    least: i64,
    most: i64,
    level: &Level<PlainPoints>,
    out: &mut Vec<Conflict>,
) -> Result<(), AllocError>
    requires { level.now ≡ level_of s.now line least most }
    ensures { OnOk result (out.new.items ≡ out.old.items ++ lows s.now line least) }
{
    add_outside(Code::Low, line, level.low_spans(), out)?;
    Ok(())
}

#[tactic(auto, unfolding(pl_semantics::specs::Demands::level_at))]
fn add_highs(
    s: &PlanState,
    line: u32,
    least: i64,
    most: i64,
    level: &Level<PlainPoints>,
    out: &mut Vec<Conflict>,
) -> Result<(), AllocError>
    requires { level.now ≡ level_of s.now line least most }
    ensures { OnOk result (out.new.items ≡ out.old.items ++ highs s.now line most) }
{
    add_outside(Code::High, line, level.high_spans(), out)?;
    Ok(())
}

#[tactic(auto, unfolding(pl_semantics::specs::Demands::state_at))]
fn add_unmet(
    s: &PlanState,
    line: u32,
    any: bool,
    steps: &[(u32, u32)],
    states: &StateTimeline,
    out: &mut Vec<Conflict>,
) -> Result<(), AllocError>
    requires { states.now ≡ states_of s.now line any steps.now }
    ensures { OnOk result (out.new.items ≡ out.old.items ++ musts s.now line) }
{
    add_musts(s, states.broken_musts(), out)?;
    Ok(())
}

#[tactic(auto, unfolding(pl_semantics::specs::Demands::state_at))]
fn add_bad(
    s: &PlanState,
    line: u32,
    any: bool,
    steps: &[(u32, u32)],
    states: &StateTimeline,
    out: &mut Vec<Conflict>,
) -> Result<(), AllocError>
    requires { states.now ≡ states_of s.now line any steps.now }
    ensures { OnOk result (out.new.items ≡ out.old.items ++ bad_steps s.now line any steps.now) }
{
    add_bad_steps(s, states.bad_steps(), out)?;
    Ok(())
}
