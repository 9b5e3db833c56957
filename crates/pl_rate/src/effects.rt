//! The hinges of the effects of an activity.
ghost use Rattle.std.specs.Prelude.{◌≡◌, ◌≤◌, ◌≤ℤ◌, ℕ, pos, true, length, unwrap_or, All, OnOk};
ghost use Rattle.pl_plan.specs.Firm.{is_within};
ghost use Rattle.pl_links.specs.Broken.{point_of};
ghost use Rattle.pl_semantics.specs.Demands.{asked_with};
ghost use Rattle.pl_semantics.specs.PlanStates.{numbered};
ghost use Rattle.pl_points.specs.Sums.{total};
ghost use Rattle.pl_detect.specs.Amounts.{is_given, AreGiven};
ghost use Rattle.pl_rate.specs.Hinges.{Gains, IsBased, asked_gain, reserved_gain};

use crate::hinge::Hinge;
use crate::pushes::push_jump;
use pl_facts::Bases;
use pl_model::{Point, Reservation};
use std::alloc::AllocError;

/// From when up to when an activity lasts.
#[derive(Clone, Copy)]
pub(crate) struct Lasting {
    pub start: u32,
    pub end: u32,
}

impl Lasting {
    fn moment(self, point: Point) -> u32
        ensures { result ≡ point_of point self.start self.end }
    {
        match point {
            Point::Start => self.start,
            Point::End => self.end,
        }
    }
}

// The amount that was asked for.
fn given(amount: Option<i64>) -> i64
    requires { is_within (pos 0) (pos 1000000000) amount ≡ true }
    ensures value { result ≡ unwrap_or amount (pos 0) }
    ensures least { pos 0 ≤ℤ result }
    ensures most { result ≤ℤ pos 1000000000 }
{
    match amount {
        Some(value) => value,
        None => unreachable!(),
    }
}

// A reservation raises or lowers a level, or it has nothing to do with levels.
fn push_effect(
    hinges: &mut Vec<Hinge>,
    bases: &Bases,
    lasting: Lasting,
    amount: Option<i64>,
    reservation: &Reservation,
) -> Result<(), AllocError>
    requires given { is_given amount reservation.now ≡ true }
    requires based { IsBased bases.now reservation.now }
    ensures { OnOk result ((id n : ℕ) → Gains hinges.old.items hinges.new.items (asked_gain bases.now (asked_with id lasting.start lasting.end amount (n, reservation.now)))) }
{
    match reservation {
        Reservation::Raise(line, _, point) => {
            let at = lasting.moment(*point);
            push_jump(hinges, bases, *line, at, given(amount))?;
            Ok(())
        }
        Reservation::Lower(line, _, point) => {
            let at = lasting.moment(*point);
            push_jump(hinges, bases, *line, at, -given(amount))?;
            Ok(())
        }
        Reservation::Take(_, _) => Ok(()),
        Reservation::Put(_, _, _) => Ok(()),
        Reservation::Must(_, _) => Ok(()),
    }
}

/// The effects of all reservations of an activity, by the amounts of each.
pub(crate) fn push_effects(
    hinges: &mut Vec<Hinge>,
    bases: &Bases,
    lasting: Lasting,
    amounts: &[Option<i64>],
    reservations: &[Reservation],
) -> Result<(), AllocError>
    requires given { AreGiven amounts.now reservations.now }
    requires based { All (IsBased bases.now) reservations.now }
    ensures { OnOk result ((id : ℕ) → Gains hinges.old.items hinges.new.items (λ line t. total (λ x. reserved_gain bases.now id lasting.start lasting.end amounts.now x line t) (numbered 0 reservations.now))) }
{
    for (number, reservation) in reservations.iter().enumerate() {
        push_effect(hinges, bases, lasting, amounts[number], reservation)?;
    }
    Ok(())
}
