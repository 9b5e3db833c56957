//! What activities ask of timelines.
ghost use Rattle.std.specs.Prelude.{◌≡◌, ◌++◌, ◌≤◌, ◌≤ℤ◌, pos, true, length, map, unwrap_or, OnOk, IfOk, Some};
ghost use Rattle.pl_plan.specs.Activities.{activity_of};
ghost use Rattle.pl_plan.specs.Fitting.{kind_of};
ghost use Rattle.pl_plan.specs.Firm.{is_within};
ghost use Rattle.pl_level.specs.Effects.{effect_of};
ghost use Rattle.pl_links.specs.Broken.{point_of};
ghost use Rattle.pl_semantics.specs.PlanStates.{numbered, reservations_in, amounts_at, end_at};
ghost use Rattle.pl_semantics.specs.Whole.{IsWhole};
ghost use Rattle.pl_semantics.specs.Demands.{demand_of, asked_with, demands_until, demands_at, demands_of};
ghost use Rattle.pl_detect.specs.Amounts.{is_given, AreGiven, asked_by};

use pl_capacity::Use;
use pl_level::Effect;
use pl_model::{Model, Point, Reservation};
use pl_plan::{Activity, Evaluated};
use pl_semantics::{Asked, Demand, PlanState};
use pl_state::{Must, Setting};
use std::alloc::{AllocError, Global};

#[tactic(auto, unfolding(pl_semantics::specs::Demands::demands_at))]
/// Appends what an activity asks for by what it comes to, by reservation: nothing where it is not firm.
pub fn demands_with(
    s: &PlanState,
    a: &Activity,
    evaluated: &Evaluated,
    out: &mut Vec<Demand>,
) -> Result<(), AllocError>
    requires whole { IsWhole s.now }
    requires live { activity_of a.now.id s.now.plan.activities ≡ Some a.now }
    requires amounts { evaluated.now.amounts ≡ amounts_at s.now a.now }
    requires end { evaluated.now.end ≡ end_at s.now a.now }
    ensures { OnOk result (out.new.items ≡ out.old.items ++ demands_at s.now a.now) }
{
    match evaluated.end {
        Some(end) => add_until(s, a, end, evaluated.amounts.as_slice(), out),
        None => Ok(()),
    }
}

/// The same of an activity that is evaluated first.
pub fn demands_at(
    alloc: Global,
    s: &PlanState,
    a: &Activity,
    out: &mut Vec<Demand>,
) -> Result<(), AllocError>
    requires whole { IsWhole s.now }
    requires live { activity_of a.now.id s.now.plan.activities ≡ Some a.now }
    ensures { OnOk result (out.new.items ≡ out.old.items ++ demands_at s.now a.now) }
{
    let evaluated = s.plan.evaluate(alloc, s.model.get(), a.id)?;
    demands_with(s, a, &evaluated, out)?;
    Ok(())
}

/// What all activities ask for, by id and then by reservation.
pub fn demands(alloc: Global, s: &PlanState) -> Result<Vec<Demand>, AllocError>
    requires { IsWhole s.now }
    ensures { IfOk result (λ all. all.items ≡ demands_of s.now) }
{
    let mut all = Vec::new(alloc);
    for a in s.plan.activities() {
        demands_at(alloc, s, a, &mut all)?;
    }
    Ok(all)
}

// What a firm activity asks for.
fn add_until(
    s: &PlanState,
    a: &Activity,
    end: u32,
    amounts: &[Option<i64>],
    out: &mut Vec<Demand>,
) -> Result<(), AllocError>
    requires whole { IsWhole s.now }
    requires live { activity_of a.now.id s.now.plan.activities ≡ Some a.now }
    requires end { end_at s.now a.now ≡ Some end }
    requires amounts { amounts.now ≡ amounts_at s.now a.now }
    ensures { OnOk result (out.new.items ≡ out.old.items ++ demands_until s.now a.now end) }
{
    let reservations = reservations_in(s.model.get(), a);
    out.reserve(reservations.len())?;
    add_demands(a, end, amounts, reservations, out)?;
    Ok(())
}

fn reservations_in<'m>(model: &'m Model, a: &Activity) -> &'m [Reservation]
    ensures { result.now ≡ reservations_in (kind_of model.now a.now) }
{
    match model.kinds.as_slice().get(a.kind as usize) {
        Some(kind) => kind.reservations.as_slice(),
        None => &[],
    }
}

fn add_demands(
    a: &Activity,
    end: u32,
    amounts: &[Option<i64>],
    reservations: &[Reservation],
    out: &mut Vec<Demand>,
) -> Result<(), AllocError>
    requires few { length reservations.now ≤ 32 }
    requires amounts { AreGiven amounts.now reservations.now }
    ensures { OnOk result (out.new.items ≡ out.old.items ++ map (asked_by a.now.id a.now.start end amounts.now) (numbered 0 reservations.now)) }
{
    for (number, reservation) in reservations.iter().enumerate() {
        let amount = amounts[number];
        out.push(asked_with(a, end, amount, number as u32, reservation))?;
    }
    Ok(())
}

fn asked_with(
    a: &Activity,
    end: u32,
    amount: Option<i64>,
    number: u32,
    reservation: &Reservation,
) -> Demand
    requires { is_given amount reservation.now ≡ true }
    ensures { result ≡ asked_with a.now.id a.now.start end amount (number, reservation.now) }
{
    match reservation {
        Reservation::Take(line, _) => Demand {
            line: *line,
            asked: Asked::Use(Use {
                from: a.start,
                to: end,
                amount: given(amount),
            }),
        },
        Reservation::Raise(line, _, point) => {
            let at = moment(*point, a.start, end);
            effect_at(*line, at, given(amount))
        }
        Reservation::Lower(line, _, point) => {
            let at = moment(*point, a.start, end);
            effect_at(*line, at, -given(amount))
        }
        Reservation::Put(line, state, point) => Demand {
            line: *line,
            asked: Asked::Set(Setting {
                at: moment(*point, a.start, end),
                id: a.id,
                index: number,
                state: *state,
            }),
        },
        Reservation::Must(line, state) => Demand {
            line: *line,
            asked: Asked::Must(Must {
                from: a.start,
                to: end,
                id: a.id,
                index: number,
                state: *state,
            }),
        },
    }
}

fn effect_at(line: u32, at: u32, delta: i64) -> Demand
    ensures { result ≡ demand_of line (Asked.Effect (effect_of at delta)) }
{
    Demand {
        line,
        asked: Asked::Effect(Effect { at, delta }),
    }
}

fn moment(point: Point, start: u32, end: u32) -> u32
    ensures { result ≡ point_of point start end }
{
    match point {
        Point::Start => start,
        Point::End => end,
    }
}

// The amount that was asked for.
fn given(amount: Option<i64>) -> i64
    requires { is_within (pos 0) (pos 1000000000) amount ≡ true }
    ensures value { result ≡ unwrap_or amount (pos 0) }
    ensures least { pos 0 ≤ℤ result }
    ensures most { result ≤ℤ pos 1000000000 }
{
    match amount {
        Some(value) => value,
        None => unreachable!(),
    }
}
