//! The hinges of all levels: those of drifts, and those of effects and rates of each firm activity.
ghost use Rattle.std.specs.Prelude.{◌≡◌, ◌≤◌, ◌+ℤ◌, ◌<◌, ℕ, max, Some, All, OnOk, IfOk};
ghost use Rattle.pl_model.specs.Checked.{IsChecked};
ghost use Rattle.pl_plan.specs.Activities.{activity_of};
ghost use Rattle.pl_plan.specs.Fitting.{Fits, kind_of};
ghost use Rattle.pl_plan.specs.Index.{is_number};
ghost use Rattle.pl_points.specs.Sums.{total};
ghost use Rattle.pl_semantics.specs.PlanStates.{reservations_in, amounts_at, end_at};
ghost use Rattle.pl_semantics.specs.Demands.{told};
ghost use Rattle.pl_rate.specs.Courses.{IsFlat};
ghost use Rattle.pl_rate.specs.Fores.{AreBased, fore};
ghost use Rattle.pl_rate.specs.Hinges.{Gains, IsUsable, activity_gain, drift_gain, rate_gain, seen, sum_on};

use crate::effects::{Lasting, push_effects};
use crate::hinge::Hinge;
use crate::pushes::{push_run, since};
use crate::rate::Rate;
use pl_facts::Bases;
use pl_model::{Model, Reservation};
use pl_plan::{Activity, Evaluated, Plan};
use std::alloc::{AllocError, Global};

fn is_of_kind(rate: Rate, kind: u32) -> bool
    ensures { result ≡ is_number kind rate.kind }
{
    match rate.kind {
        Some(of) => of == kind,
        None => false,
    }
}

fn later(since: u64, start: u32) -> u64
    ensures { result ≡ max since start }
{
    since.max(u64::from(start))
}

fn push_rate(
    hinges: &mut Vec<Hinge>,
    bases: &Bases,
    kind: u32,
    lasting: Lasting,
    rate: Rate,
) -> Result<(), AllocError>
    requires { IsUsable bases.now rate }
    ensures { OnOk result (Gains hinges.old.items hinges.new.items (rate_gain bases.now kind lasting.start lasting.end rate)) }
{
    if !is_of_kind(rate, kind) {
        return Ok(());
    }
    let from = later(since(bases, rate.level), lasting.start);
    push_run(hinges, rate.level, from, lasting.end, rate.change)?;
    Ok(())
}

// What the rates of its kind add while an activity lasts.
fn push_rates(
    hinges: &mut Vec<Hinge>,
    bases: &Bases,
    kind: u32,
    lasting: Lasting,
    rates: &[Rate],
) -> Result<(), AllocError>
    requires { All (IsUsable bases.now) rates.now }
    ensures { OnOk result (Gains hinges.old.items hinges.new.items (λ line t. total (λ r. rate_gain bases.now kind lasting.start lasting.end r line t) rates.now)) }
{
    for rate in rates {
        push_rate(hinges, bases, kind, lasting, *rate)?;
    }
    Ok(())
}

fn push_drift(
    hinges: &mut Vec<Hinge>,
    bases: &Bases,
    horizon: u32,
    rate: Rate,
) -> Result<(), AllocError>
    requires { IsUsable bases.now rate }
    ensures { OnOk result (Gains hinges.old.items hinges.new.items (drift_gain bases.now horizon rate)) }
{
    if rate.kind.is_some() {
        return Ok(());
    }
    let from = since(bases, rate.level);
    push_run(hinges, rate.level, from, horizon, rate.change)?;
    Ok(())
}

// What drifts add before the horizon.
fn push_drifts(
    hinges: &mut Vec<Hinge>,
    bases: &Bases,
    horizon: u32,
    rates: &[Rate],
) -> Result<(), AllocError>
    requires { All (IsUsable bases.now) rates.now }
    ensures { OnOk result (Gains hinges.old.items hinges.new.items (λ line t. total (λ r. drift_gain bases.now horizon r line t) rates.now)) }
{
    for rate in rates {
        push_drift(hinges, bases, horizon, *rate)?;
    }
    Ok(())
}

fn reservations_in<'m>(model: &'m Model, activity: &Activity) -> &'m [Reservation]
    ensures { result.now ≡ reservations_in (kind_of model.now activity.now) }
{
    match model.kinds.as_slice().get(activity.kind as usize) {
        Some(kind) => kind.reservations.as_slice(),
        None => &[],
    }
}

// What an activity of this end and these amounts adds.
fn push_firm(
    hinges: &mut Vec<Hinge>,
    model: &Model,
    plan: &Plan,
    bases: &Bases,
    rates: &[Rate],
    activity: &Activity,
    end: u32,
    amounts: &[Option<i64>],
) -> Result<(), AllocError>
    requires checked { IsChecked model.now }
    requires fits { Fits model.now plan.now.activities }
    requires bases { AreBased model.now bases.now }
    requires rates { All (IsUsable bases.now) rates.now }
    requires live { activity_of activity.now.id plan.now.activities ≡ Some activity.now }
    requires end { end_at (seen model.now plan.now bases.now 0) activity.now ≡ Some end }
    requires amounts { amounts.now ≡ amounts_at (seen model.now plan.now bases.now 0) activity.now }
    ensures { OnOk result (Gains hinges.old.items hinges.new.items (activity_gain (seen model.now plan.now bases.now 0) rates.now activity.now)) }
{
    let lasting = Lasting {
        start: activity.start,
        end,
    };
    push_effects(
        hinges,
        bases,
        lasting,
        amounts,
        reservations_in(model, activity),
    )?;
    push_rates(hinges, bases, activity.kind, lasting, rates)?;
    Ok(())
}

// What an activity adds by what it comes to: nothing where it is not firm.
fn push_evaluated(
    hinges: &mut Vec<Hinge>,
    model: &Model,
    plan: &Plan,
    bases: &Bases,
    rates: &[Rate],
    activity: &Activity,
    evaluated: &Evaluated,
) -> Result<(), AllocError>
    requires checked { IsChecked model.now }
    requires fits { Fits model.now plan.now.activities }
    requires bases { AreBased model.now bases.now }
    requires rates { All (IsUsable bases.now) rates.now }
    requires live { activity_of activity.now.id plan.now.activities ≡ Some activity.now }
    requires amounts { evaluated.now.amounts ≡ amounts_at (seen model.now plan.now bases.now 0) activity.now }
    requires end { evaluated.now.end ≡ end_at (seen model.now plan.now bases.now 0) activity.now }
    ensures { OnOk result (Gains hinges.old.items hinges.new.items (activity_gain (seen model.now plan.now bases.now 0) rates.now activity.now)) }
{
    match evaluated.end {
        Some(end) => {
            let amounts = evaluated.amounts.as_slice();
            push_firm(hinges, model, plan, bases, rates, activity, end, amounts)?;
            Ok(())
        }
        None => Ok(()),
    }
}

fn push_activity(
    alloc: Global,
    hinges: &mut Vec<Hinge>,
    model: &Model,
    plan: &Plan,
    bases: &Bases,
    rates: &[Rate],
    activity: &Activity,
) -> Result<(), AllocError>
    requires checked { IsChecked model.now }
    requires fits { Fits model.now plan.now.activities }
    requires bases { AreBased model.now bases.now }
    requires rates { All (IsUsable bases.now) rates.now }
    requires live { activity_of activity.now.id plan.now.activities ≡ Some activity.now }
    ensures { OnOk result (Gains hinges.old.items hinges.new.items (activity_gain (seen model.now plan.now bases.now 0) rates.now activity.now)) }
{
    let evaluated = plan.evaluate(alloc, model, activity.id)?;
    push_evaluated(hinges, model, plan, bases, rates, activity, &evaluated)?;
    Ok(())
}

fn push_activities(
    alloc: Global,
    hinges: &mut Vec<Hinge>,
    model: &Model,
    plan: &Plan,
    bases: &Bases,
    rates: &[Rate],
) -> Result<(), AllocError>
    requires checked { IsChecked model.now }
    requires fits { Fits model.now plan.now.activities }
    requires bases { AreBased model.now bases.now }
    requires rates { All (IsUsable bases.now) rates.now }
    ensures { OnOk result (Gains hinges.old.items hinges.new.items (λ line t. total (λ a. activity_gain (seen model.now plan.now bases.now 0) rates.now a line t) plan.now.activities)) }
{
    for activity in plan.activities() {
        push_activity(alloc, hinges, model, plan, bases, rates, activity)?;
    }
    Ok(())
}

/// The hinges of all levels, in no order: what they add before the horizon is what effects and rates add.
pub(crate) fn hinges_of(
    alloc: Global,
    model: &Model,
    plan: &Plan,
    bases: &Bases,
    rates: &[Rate],
) -> Result<Vec<Hinge>, AllocError>
    requires checked { IsChecked model.now }
    requires fits { Fits model.now plan.now.activities }
    requires bases { AreBased model.now bases.now }
    requires rates { All (IsUsable bases.now) rates.now }
    ensures sums { IfOk result (λ v. (line t : ℕ) → t < model.now.horizon → told (seen model.now plan.now bases.now 0) line +ℤ sum_on v.items line t ≡ fore (seen model.now plan.now bases.now 0) rates.now line t) }
    ensures flat { IfOk result (λ v. All IsFlat v.items) }
{
    let mut hinges = Vec::new(alloc);
    push_drifts(&mut hinges, bases, model.horizon, rates)?;
    push_activities(alloc, &mut hinges, model, plan, bases, rates)?;
    Ok(hinges)
}
