//! Levels made anew.
ghost use Rattle.std.specs.Prelude.{◌≡◌, ◌+◌, ◌++◌, ◌≤◌, ◌≤ℤ◌, pos, Some, slice_get, length, All, OnOk, IfOk};
ghost use Rattle.pl_model.specs.Checked.{IsLevel};
ghost use Rattle.pl_semantics.specs.Whole.{IsWhole};
ghost use Rattle.pl_semantics.specs.Demands.{asked_of, effect_in, effects_of, demands_of};
ghost use Rattle.pl_detect.specs.Bounds.{IsBounded};
ghost use Rattle.pl_detect.specs.Based.{HasBase};
ghost use Rattle.pl_detect.specs.Fresh.{level_of};

use crate::bases::{since, told};
use pl_level::Level;
use pl_points::{PlainPoints, Quiet, Steps};
use pl_semantics::{Asked, Demand, PlanState};
use std::alloc::{AllocError, Global};

/// The level of this number, with its base and its effects.
pub(crate) fn level_of(
    alloc: Global,
    s: &PlanState,
    demands: &[Demand],
    line: u32,
    least: i64,
    most: i64,
) -> Result<Level<PlainPoints>, AllocError>
    requires whole { IsWhole s.now }
    requires demands { demands.now ≡ demands_of s.now }
    requires base { HasBase s.now line 1000000000000 }
    requires least { IsLevel least }
    requires most { IsLevel most }
    ensures { IfOk result (λ l. l ≡ level_of s.now line least most) }
{
    let mut steps = Steps::new(Quiet);
    let horizon = s.model.get().horizon;
    let value = told(s, line);
    let mut level = Level::new(alloc, horizon, least, most, value, PlainPoints::new(alloc));
    level.advance(since(s, line), &mut steps)?;
    level.rebase(value, &mut steps)?;
    add_effects(&mut level, demands, line, &mut steps)?;
    level.advance(s.moment, &mut steps)?;
    Ok(level)
}

fn add_effects(
    level: &mut Level<PlainPoints>,
    demands: &[Demand],
    line: u32,
    steps: &mut Steps<Quiet>,
) -> Result<(), AllocError>
    requires bounded { All (λ d. IsBounded d.asked) demands.now }
    requires few { length level.old.effects + length demands.now ≤ 320000 }
    ensures { OnOk result (level.new ≡ record level.old { effects = level.old.effects ++ effects_of line demands.now }) }
{
    for demand in demands {
        add_effect(level, demand, line, steps)?;
    }
    Ok(())
}

fn add_effect(
    level: &mut Level<PlainPoints>,
    demand: &Demand,
    line: u32,
    steps: &mut Steps<Quiet>,
) -> Result<(), AllocError>
    requires bounded { IsBounded demand.now.asked }
    requires few { length level.old.effects ≤ 319999 }
    ensures { OnOk result (level.new ≡ record level.old { effects = level.old.effects ++ asked_of effect_in line demand.now }) }
{
    if demand.line != line {
        return Ok(());
    }
    match demand.asked {
        Asked::Effect(asked) => {
            level.add(asked.at, asked.delta, steps)?;
            Ok(())
        }
        _ => Ok(()),
    }
}
