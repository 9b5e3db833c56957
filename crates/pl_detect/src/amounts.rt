//! Durations and amounts whose value is bad.
ghost use Rattle.std.specs.Prelude.{◌≡◌, ◌++◌, IfSome, OnOk, Some, length};
ghost use Rattle.std.specs.List.{flat_map};
ghost use Rattle.std.specs.Option.{option_copied};
ghost use Rattle.pl_model.specs.Checked.{IsCheckedKind};
ghost use Rattle.pl_model.specs.Values.{NamesBelow};
ghost use Rattle.pl_plan.specs.Firm.{amount_of};
ghost use Rattle.pl_plan.specs.Fitting.{kind_of};
ghost use Rattle.pl_plan.specs.Known.{is_bad_amount};
ghost use Rattle.pl_semantics.specs.Whole.{IsWhole};
ghost use Rattle.pl_semantics.specs.PlanStates.{reservations_of, row_of};
ghost use Rattle.pl_semantics.specs.Activities.{bad_amount, bad_duration};

use crate::filing::{add_when, at_start};
use pl_conflict::{Code, Conflict};
use pl_model::{Expr, Kind, Reservation};
use pl_plan::{Activity, is_bad};
use pl_semantics::PlanState;
use std::alloc::AllocError;

/// The greatest amount.
const MOST: i64 = 1_000_000_000;

/// The detail of a bad duration; those of amounts follow it.
const DURATION: u32 = 16;

/// Appends the conflict of a duration that is out of range, or has no value though all that it
/// names have one.
pub(crate) fn add_bad_duration(
    s: &PlanState,
    a: &Activity,
    kind: &Kind,
    own: &[Option<i64>],
    out: &mut Vec<Conflict>,
) -> Result<(), AllocError>
    requires checked { IsCheckedKind s.now.model kind.now }
    requires own { own.now ≡ row_of s.now a.now }
    requires len { length own.now ≡ length kind.now.params }
    ensures { OnOk result (out.new.items ≡ out.old.items ++ bad_duration s.now a.now kind.now) }
{
    let is_bad = is_bad(1, s.model.get().horizon as i64, &kind.duration, own);
    add_when(out, is_bad, at_start(a, Code::BadValue, DURATION, 0))?;
    Ok(())
}

fn amount_of(reservation: &Reservation) -> Option<&Expr>
    ensures { option_copied result ≡ amount_of reservation.now }
{
    match reservation {
        Reservation::Take(_, amount) => Some(amount),
        Reservation::Raise(_, amount, _) => Some(amount),
        Reservation::Lower(_, amount, _) => Some(amount),
        Reservation::Put(_, _, _) => None,
        Reservation::Must(_, _) => None,
    }
}

fn is_bad_amount(reservation: &Reservation, own: &[Option<i64>]) -> bool
    requires { IfSome (amount_of reservation.now) (NamesBelow (length own.now)) }
    ensures { result ≡ is_bad_amount own.now reservation.now }
{
    match amount_of(reservation) {
        Some(amount) => is_bad(0, MOST, amount, own),
        None => false,
    }
}

/// Appends the conflicts of the amounts that are out of range, or have no value though all that
/// they name have one.
pub(crate) fn add_bad_amounts(
    s: &PlanState,
    a: &Activity,
    kind: &Kind,
    own: &[Option<i64>],
    out: &mut Vec<Conflict>,
) -> Result<(), AllocError>
    requires kind { kind_of s.now.model a.now ≡ Some kind.now }
    requires checked { IsCheckedKind s.now.model kind.now }
    requires own { own.now ≡ row_of s.now a.now }
    requires len { length own.now ≡ length kind.now.params }
    ensures { OnOk result (out.new.items ≡ out.old.items ++ flat_map (bad_amount s.now a.now) (reservations_of s.now a.now)) }
{
    let reservations = kind.reservations.as_slice();
    for (number, reservation) in reservations.iter().enumerate() {
        let holds = is_bad_amount(reservation, own);
        add_when(
            out,
            holds,
            at_start(a, Code::BadValue, DURATION + 1 + number as u32, 0),
        )?;
    }
    Ok(())
}
