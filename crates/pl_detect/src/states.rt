//! State timelines made anew.
ghost use Rattle.std.specs.Prelude.{◌≡◌, All, OnOk, IfOk};
ghost use Rattle.std.specs.List.{flat_map, fold};
ghost use Rattle.pl_state.specs.Sets.{with_set};
ghost use Rattle.pl_state.specs.Musts.{with_must};
ghost use Rattle.pl_semantics.specs.Whole.{IsWhole};
ghost use Rattle.pl_semantics.specs.Demands.{asked_of, set_in, must_in, demands_of};
ghost use Rattle.pl_detect.specs.Bounds.{IsBounded};
ghost use Rattle.pl_detect.specs.Based.{HasBase};
ghost use Rattle.pl_detect.specs.Fresh.{states_of, with_sets, with_musts};

use crate::bases::{since, told_state};
use pl_semantics::{Asked, Demand, PlanState};
use pl_state::StateTimeline;
use std::alloc::{AllocError, Global};

/// The timeline of this number, which has so many states, with its base, its sets and its musts.
pub(crate) fn states_of(
    alloc: Global,
    s: &PlanState,
    demands: &[Demand],
    line: u32,
    count: u32,
    any: bool,
    steps: &[(u32, u32)],
) -> Result<StateTimeline, AllocError>
    requires whole { IsWhole s.now }
    requires demands { demands.now ≡ demands_of s.now }
    requires base { HasBase s.now line 32 }
    ensures { IfOk result (λ l. l ≡ states_of s.now line any steps.now) }
{
    let horizon = s.model.get().horizon;
    let state = told_state(s, line);
    let mut states = StateTimeline::new(alloc, horizon, count, state, any, steps)?;
    states.advance(since(s, line))?;
    states.rebase(state)?;
    add_all(&mut states, demands, line)?;
    states.advance(s.moment)?;
    Ok(states)
}

fn add_all(states: &mut StateTimeline, demands: &[Demand], line: u32) -> Result<(), AllocError>
    requires { All (λ d. IsBounded d.asked) demands.now }
    ensures { OnOk result (states.new ≡ record states.old { sets = with_sets states.old.sets (flat_map (asked_of set_in line) demands.now); musts = with_musts states.old.musts (flat_map (asked_of must_in line) demands.now) }) }
{
    for demand in demands {
        add_one(states, demand, line)?;
    }
    Ok(())
}

fn add_one(states: &mut StateTimeline, demand: &Demand, line: u32) -> Result<(), AllocError>
    requires { IsBounded demand.now.asked }
    ensures { OnOk result (states.new ≡ record states.old { sets = with_sets states.old.sets (asked_of set_in line demand.now); musts = with_musts states.old.musts (asked_of must_in line demand.now) }) }
{
    if demand.line != line {
        return Ok(());
    }
    match demand.asked {
        Asked::Set(asked) => {
            states.put(asked.at, asked.id, asked.index, asked.state)?;
            Ok(())
        }
        Asked::Must(asked) => {
            states.need(asked.from, asked.to, asked.id, asked.index, asked.state)?;
            Ok(())
        }
        _ => Ok(()),
    }
}
