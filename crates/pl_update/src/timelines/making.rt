//! The timelines of a model, with nothing asked of them.
ghost use Rattle.std.specs.Prelude.{◌≡◌, ◌≤ℤ◌, pos, Some, false, [], map, slice_get, IfOk};
ghost use Rattle.pl_model.specs.Checked.{IsLevel};
ghost use Rattle.pl_semantics.specs.PlanStates.{natural};
ghost use Rattle.pl_semantics.specs.Demands.{since, told};
ghost use Rattle.pl_semantics.specs.Timelines.{lines_of};
ghost use Rattle.pl_semantics.specs.Whole.{IsWhole};
ghost use Rattle.pl_detect.specs.Based.{HasBase};
ghost use Rattle.pl_update.specs.Timelines.Framed.{idle};

use crate::timelines::line::Line;
use crate::timelines::lines::Lines;
use pl_blocks::BlockPoints;
use pl_capacity::Capacity;
use pl_level::Level;
use pl_model::Timeline;
use pl_semantics::PlanState;
use pl_state::StateTimeline;
use std::alloc::{AllocError, Global};

impl Lines {
    /// The timelines at the moment 0, each as it was told last.
    pub fn new(alloc: Global, s: &PlanState) -> Result<Lines, AllocError>
        requires whole { IsWhole s.now }
        requires first { s.now.moment ≡ 0 }
        ensures { IfOk result (λ l. l ≡ map (idle s.now) (lines_of s.now)) }
    {
        let mut all = Vec::new(alloc);
        let timelines = s.model.get().timelines.as_slice();
        for (line, timeline) in timelines.iter().enumerate() {
            all.push(idle(alloc, s, line as u32, timeline)?)?;
        }
        Ok(Lines { alloc, all })
    }
}

fn idle(alloc: Global, s: &PlanState, line: u32, timeline: &Timeline) -> Result<Line, AllocError>
    requires whole { IsWhole s.now }
    requires first { s.now.moment ≡ 0 }
    requires line { slice_get s.now.model.timelines line ≡ Some timeline.now }
    ensures { IfOk result (λ l. l ≡ idle s.now (line, timeline.now)) }
{
    match timeline {
        Timeline::Capacity { most, .. } => Ok(Line::Capacity(Capacity::new(
            alloc,
            s.model.get().horizon,
            *most,
            BlockPoints::new(alloc),
        ))),
        Timeline::Level { least, most, .. } => {
            Ok(Line::Level(idle_level(alloc, s, line, *least, *most)))
        }
        Timeline::States {
            states,
            any,
            steps,
            ..
        } => Ok(Line::States(idle_states(
            alloc,
            s,
            line,
            states.len() as u32,
            *any,
            steps.as_slice(),
        )?)),
    }
}

fn idle_level(alloc: Global, s: &PlanState, line: u32, least: i64, most: i64) -> Level<BlockPoints>
    requires whole { IsWhole s.now }
    requires first { s.now.moment ≡ 0 }
    requires base { HasBase s.now line 1000000000000 }
    requires least { IsLevel least }
    requires most { IsLevel most }
    ensures { result ≡ record { spoiled = false; horizon = s.now.model.horizon; least = least; most = most; moment = s.now.moment; base = since s.now line; value = told s.now line; effects = [] } }
{
    let horizon = s.model.get().horizon;
    let value = told(s, line);
    Level::new(alloc, horizon, least, most, value, BlockPoints::new(alloc))
}

fn idle_states(
    alloc: Global,
    s: &PlanState,
    line: u32,
    count: u32,
    any: bool,
    steps: &[(u32, u32)],
) -> Result<StateTimeline, AllocError>
    requires first { s.now.moment ≡ 0 }
    requires base { HasBase s.now line 32 }
    ensures { IfOk result (λ l. l ≡ record { spoiled = false; horizon = s.now.model.horizon; any = any; steps = steps.now; moment = s.now.moment; base = since s.now line; value = natural (told s.now line); sets = []; musts = [] }) }
{
    let horizon = s.model.get().horizon;
    let state = told_state(s, line);
    StateTimeline::new(alloc, horizon, count, state, any, steps)
}

fn told(s: &PlanState, line: u32) -> i64
    requires { HasBase s.now line 1000000000000 }
    ensures value { result ≡ told s.now line }
    ensures least { pos 0 ≤ℤ result }
    ensures most { result ≤ℤ pos 1000000000000 }
{
    let (_, value) = s.bases.get(line);
    value
}

fn told_state(s: &PlanState, line: u32) -> u32
    requires { HasBase s.now line 32 }
    ensures { result ≡ natural (told s.now line) }
{
    let (_, value) = s.bases.get(line);
    value as u32
}
