//! What a move adds to the timelines that are looked at, at each of their limits.
ghost use Rattle.std.specs.Prelude.{◌≡◌, ◌+ℤ◌, ℕ, All, IfOk, OnOk, IsTrue};
ghost use Rattle.pl_points.specs.Sums.{total};
ghost use Rattle.pl_semantics.specs.declared.demand.Asked.TheVariants as wanted;
ghost use Rattle.pl_bounds.specs.declared.outside.Outside as looked;
ghost use Rattle.pl_bounds.specs.declared.outside.Side.TheVariants as sides;
ghost use Rattle.pl_bounds.specs.declared.stepwise.Way as ways;
ghost use Rattle.pl_bounds.specs.Steps.{asked_toward, demand_toward, steps_on, IsAdditionOf};

use crate::asking::Asking;
use crate::outside::{Outside, Side};
use crate::stepwise::Step;
use pl_capacity::Use;
use pl_level::Effect;
use pl_semantics::{Asked, Demand};
use std::alloc::{AllocError, Global};

/// What a move adds to a timeline, as one of its limits sees it.
#[derive(Drop)]
pub(crate) struct Addition {
    pub(crate) line: u32,
    pub(crate) side: Side,
    pub(crate) steps: Vec<Step>,
}

impl Addition {
    /// Whether it is of this limit of this timeline.
    pub(crate) fn is_of(&self, outside: &Outside) -> bool
        ensures line { IsTrue result → outside.now.line ≡ self.now.line }
        ensures side { IsTrue result → outside.now.side ≡ self.now.side }
    {
        outside.line == self.line && outside.side == self.side
    }
}

// A use adds its amount where it begins and takes it back where it ends.
fn add_span(asked: Use, comes: bool, steps: &mut Vec<Step>) -> Result<(), AllocError>
    ensures { OnOk result ((o : looked.Outside) (w : ways.Way) (t : ℕ) → o.side ≡ sides.Over
        → steps_on o w t steps.new.items ≡ steps_on o w t steps.old.items +ℤ asked_toward o.side o.since w t comes (wanted.Use asked)) }
{
    if asked.from >= asked.to {
        return Ok(());
    }
    let begins = Step::new(asked.from, asked.amount, comes, comes);
    let ends = Step::new(asked.to, asked.amount, !comes, comes);
    steps.push(begins)?;
    steps.push(ends)?;
    Ok(())
}

// Uses count where a capacity is looked at.
fn add_use(side: Side, asked: Use, comes: bool, steps: &mut Vec<Step>) -> Result<(), AllocError>
    ensures { OnOk result ((o : looked.Outside) (w : ways.Way) (t : ℕ) → o.side ≡ side
        → steps_on o w t steps.new.items ≡ steps_on o w t steps.old.items +ℤ asked_toward o.side o.since w t comes (wanted.Use asked)) }
{
    match side {
        Side::Over => add_span(asked, comes, steps),
        Side::Low => Ok(()),
        Side::High => Ok(()),
    }
}

// An effect adds its amount from its moment on.
fn add_change(asked: Effect, comes: bool, steps: &mut Vec<Step>) -> Result<(), AllocError>
    ensures low { OnOk result ((o : looked.Outside) (w : ways.Way) (t : ℕ) → o.side ≡ sides.Low
        → steps_on o w t steps.new.items ≡ steps_on o w t steps.old.items +ℤ asked_toward o.side o.since w t comes (wanted.Effect asked)) }
    ensures high { OnOk result ((o : looked.Outside) (w : ways.Way) (t : ℕ) → o.side ≡ sides.High
        → steps_on o w t steps.new.items ≡ steps_on o w t steps.old.items +ℤ asked_toward o.side o.since w t comes (wanted.Effect asked)) }
{
    let begins = Step::new(asked.at, asked.delta, comes, comes);
    steps.push(begins)?;
    Ok(())
}

// Effects count where a level is looked at.
fn add_effect(
    side: Side,
    asked: Effect,
    comes: bool,
    steps: &mut Vec<Step>,
) -> Result<(), AllocError>
    ensures { OnOk result ((o : looked.Outside) (w : ways.Way) (t : ℕ) → o.side ≡ side
        → steps_on o w t steps.new.items ≡ steps_on o w t steps.old.items +ℤ asked_toward o.side o.since w t comes (wanted.Effect asked)) }
{
    match side {
        Side::Over => Ok(()),
        Side::Low => add_change(asked, comes, steps),
        Side::High => add_change(asked, comes, steps),
    }
}

// Adds the steps of what a demand asks for.
fn add_asked(
    side: Side,
    demand: &Demand,
    comes: bool,
    steps: &mut Vec<Step>,
) -> Result<(), AllocError>
    ensures { OnOk result ((o : looked.Outside) (w : ways.Way) (t : ℕ) → o.side ≡ side
        → steps_on o w t steps.new.items ≡ steps_on o w t steps.old.items +ℤ asked_toward o.side o.since w t comes demand.now.asked) }
{
    match demand.asked {
        Asked::Use(asked) => add_use(side, asked, comes, steps),
        Asked::Effect(asked) => add_effect(side, asked, comes, steps),
        Asked::Set(_) => Ok(()),
        Asked::Must(_) => Ok(()),
    }
}

// The same, if the demand is of this timeline.
fn add_demand(
    outside: &Outside,
    demand: &Demand,
    comes: bool,
    steps: &mut Vec<Step>,
) -> Result<(), AllocError>
    ensures { OnOk result ((o : looked.Outside) (w : ways.Way) (t : ℕ) → o.line ≡ outside.now.line → o.side ≡ outside.now.side
        → steps_on o w t steps.new.items ≡ steps_on o w t steps.old.items +ℤ demand_toward o w t comes demand.now) }
{
    if demand.line == outside.line {
        add_asked(outside.side, demand, comes, steps)
    } else {
        Ok(())
    }
}

// Adds the steps of those demands that are of this timeline.
fn add_demands(
    outside: &Outside,
    demands: &[Demand],
    comes: bool,
    steps: &mut Vec<Step>,
) -> Result<(), AllocError>
    ensures { OnOk result ((o : looked.Outside) (w : ways.Way) (t : ℕ) → o.line ≡ outside.now.line → o.side ≡ outside.now.side
        → steps_on o w t steps.new.items ≡ steps_on o w t steps.old.items +ℤ total (demand_toward o w t comes) demands.now) }
{
    for demand in demands {
        add_demand(outside, demand, comes, steps)?;
    }
    Ok(())
}

fn addition_of(alloc: Global, asking: &Asking, outside: &Outside) -> Result<Addition, AllocError>
    ensures { IfOk result (IsAdditionOf asking.now) }
{
    let going = asking.going.as_slice();
    let coming = asking.coming.as_slice();
    let mut steps = Vec::new(alloc);
    add_demands(outside, going, false, &mut steps)?;
    add_demands(outside, coming, true, &mut steps)?;
    Ok(Addition {
        line: outside.line,
        side: outside.side,
        steps,
    })
}

/// What a move adds at each of these limits.
pub(crate) fn additions_of(
    alloc: Global,
    outsides: &[Outside],
    asking: &Asking,
) -> Result<Vec<Addition>, AllocError>
    ensures { IfOk result (λ xs. All (IsAdditionOf asking.now) xs.items) }
{
    let mut additions = Vec::with_capacity(alloc, outsides.len())?;
    for outside in outsides {
        let addition = addition_of(alloc, asking, outside)?;
        additions.push(addition)?;
    }
    Ok(additions)
}
