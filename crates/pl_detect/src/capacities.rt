//! Capacities made anew.
ghost use Rattle.std.specs.Prelude.{◌≡◌, ◌+◌, ◌++◌, ◌≤◌, ◌≤ℤ◌, pos, length, All, OnOk, IfOk};
ghost use Rattle.pl_semantics.specs.Whole.{IsWhole};
ghost use Rattle.pl_semantics.specs.Demands.{asked_of, use_in, uses_of, demands_of};
ghost use Rattle.pl_detect.specs.Bounds.{IsBounded};
ghost use Rattle.pl_detect.specs.Fresh.{capacity_of};

use pl_capacity::Capacity;
use pl_points::{PlainPoints, Quiet, Steps};
use pl_semantics::{Asked, Demand, PlanState};
use std::alloc::{AllocError, Global};

/// The capacity of this number, with what is in use.
pub(crate) fn capacity_of(
    alloc: Global,
    s: &PlanState,
    demands: &[Demand],
    line: u32,
    most: i64,
) -> Result<Capacity<PlainPoints>, AllocError>
    requires whole { IsWhole s.now }
    requires demands { demands.now ≡ demands_of s.now }
    requires most { pos 0 ≤ℤ most }
    ensures { IfOk result (λ c. c ≡ capacity_of s.now line most) }
{
    let mut steps = Steps::new(Quiet);
    let horizon = s.model.get().horizon;
    let mut capacity = Capacity::new(alloc, horizon, most, PlainPoints::new(alloc));
    add_uses(&mut capacity, demands, line, &mut steps)?;
    capacity.advance(s.moment, &mut steps)?;
    Ok(capacity)
}

fn add_uses(
    capacity: &mut Capacity<PlainPoints>,
    demands: &[Demand],
    line: u32,
    steps: &mut Steps<Quiet>,
) -> Result<(), AllocError>
    requires bounded { All (λ d. IsBounded d.asked) demands.now }
    requires few { length capacity.old.uses + length demands.now ≤ 320000 }
    ensures { OnOk result (capacity.new ≡ record capacity.old { uses = capacity.old.uses ++ uses_of line demands.now }) }
{
    for demand in demands {
        add_use(capacity, demand, line, steps)?;
    }
    Ok(())
}

fn add_use(
    capacity: &mut Capacity<PlainPoints>,
    demand: &Demand,
    line: u32,
    steps: &mut Steps<Quiet>,
) -> Result<(), AllocError>
    requires bounded { IsBounded demand.now.asked }
    requires few { length capacity.old.uses ≤ 319999 }
    ensures { OnOk result (capacity.new ≡ record capacity.old { uses = capacity.old.uses ++ asked_of use_in line demand.now }) }
{
    if demand.line != line {
        return Ok(());
    }
    match demand.asked {
        Asked::Use(asked) => {
            capacity.add(asked.from, asked.to, asked.amount, steps)?;
            Ok(())
        }
        _ => Ok(()),
    }
}
