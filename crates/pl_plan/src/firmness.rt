ghost use Rattle.std.specs.Prelude.{◌≡◌, ◌↔◌, IsNone, false, ◌+◌, ◌<◌, ◌≤◌, ◌^◌, length, All, IfSome, option_and_then};
ghost use Rattle.std.specs.List.{list_all};
ghost use Rattle.std.specs.Option.{option_copied};
ghost use Rattle.pl_model.specs.Values.{NamesBelow};
ghost use Rattle.pl_model.specs.Checked.{IsChecked, params_of};
ghost use Rattle.pl_plan.specs.Activities.{IsLive, activity_of};
ghost use Rattle.pl_plan.specs.Fitting.{Fits, kind_of};
ghost use Rattle.pl_plan.specs.Values.{values_of};
ghost use Rattle.pl_plan.specs.Firm.{is_within, are_in_range, amount_of, has_amount, moments_in, duration_in, is_firm_with, end_with, is_firm, end_of};

use crate::activity::Activity;
use crate::plan::Plan;
use crate::values::kind_in;
use pl_model::{Expr, Kind, Model, Param, Reservation, eval};

/// The greatest amount.
const MOST: i64 = 1_000_000_000;

impl Plan {
    /// Whether the activity has its values, its duration and its amounts, all in range.
    pub fn firm(&self, model: &Model, id: u32) -> bool
        requires checked { IsChecked model.now }
        requires fits { Fits model.now self.now.activities }
        requires live { IsLive id self.now.activities }
        ensures { result ≡ is_firm model.now self.now.activities id }
    {
        let kind = kind_in(model, self.fitted(model, id));
        is_firm(model.horizon, kind, self.row(model, id).as_slice())
    }

    /// The moment at which the activity ends, if it is firm.
    pub fn end(&self, model: &Model, id: u32) -> Option<u32>
        requires checked { IsChecked model.now }
        requires fits { Fits model.now self.now.activities }
        requires live { IsLive id self.now.activities }
        ensures value { result ≡ end_of model.now self.now.activities id }
        ensures none { IsNone result ↔ (is_firm model.now self.now.activities id ≡ false) }
    {
        self.end_over(model, id, self.row(model, id).as_slice())
    }

    // The end over the activity's values.
    pub(crate) fn end_over(&self, model: &Model, id: u32, values: &[Option<i64>]) -> Option<u32>
        requires checked { IsChecked model.now }
        requires fits { Fits model.now self.now.activities }
        requires live { IsLive id self.now.activities }
        requires values { values.now ≡ values_of model.now self.now.activities id }
        requires len { length values.now ≡ length (params_of (option_and_then (kind_of model.now) (activity_of id self.now.activities))) }
        ensures value { result ≡ end_of model.now self.now.activities id }
        ensures none { IsNone result ↔ (is_firm model.now self.now.activities id ≡ false) }
    {
        let activity = self.fitted(model, id);
        let kind = kind_in(model, activity);
        end_from(model.horizon, kind, activity, values)
    }
}

fn is_within(low: i64, high: i64, value: Option<i64>) -> bool
    ensures { result ≡ is_within low high value }
{
    match value {
        Some(value) => low <= value && value <= high,
        None => false,
    }
}

fn are_in_range(params: &[Param], values: &[Option<i64>]) -> bool
    requires { length values.now ≡ length params.now }
    ensures { result ≡ are_in_range 0 params.now values.now }
{
    for (number, param) in params.iter().enumerate() {
        if !is_within(param.low, param.high, values[number]) {
            return false;
        }
    }
    true
}

pub(crate) fn amount_of(reservation: &Reservation) -> Option<&Expr>
    ensures { option_copied result ≡ amount_of reservation.now }
{
    match reservation {
        Reservation::Take(_, amount) => Some(amount),
        Reservation::Raise(_, amount, _) => Some(amount),
        Reservation::Lower(_, amount, _) => Some(amount),
        Reservation::Put(_, _, _) => None,
        Reservation::Must(_, _) => None,
    }
}

fn has_amount(reservation: &Reservation, values: &[Option<i64>]) -> bool
    requires { IfSome (amount_of reservation.now) (NamesBelow (length values.now)) }
    ensures { result ≡ has_amount values.now reservation.now }
{
    match amount_of(reservation) {
        Some(amount) => is_within(0, MOST, eval(amount, values)),
        None => true,
    }
}

fn have_amounts(reservations: &[Reservation], values: &[Option<i64>]) -> bool
    requires { All (λ r. IfSome (amount_of r) (NamesBelow (length values.now))) reservations.now }
    ensures { result ≡ list_all (has_amount values.now) reservations.now }
{
    reservations
        .iter()
        .all(|reservation| has_amount(reservation, values))
}

fn moments(horizon: u32, duration: Option<i64>) -> Option<u32>
    ensures value { result ≡ moments_in horizon duration }
    ensures within { IfSome result (λ n. n ≤ horizon) }
{
    match duration {
        Some(duration) if 1 <= duration && duration <= horizon as i64 => Some(duration as u32),
        _ => None,
    }
}

fn duration_in(horizon: u32, kind: &Kind, values: &[Option<i64>]) -> Option<u32>
    requires { NamesBelow (length values.now) kind.now.duration }
    ensures value { result ≡ duration_in horizon kind.now values.now }
    ensures within { IfSome result (λ n. n ≤ horizon) }
{
    moments(horizon, eval(&kind.duration, values))
}

fn is_firm(horizon: u32, kind: &Kind, values: &[Option<i64>]) -> bool
    requires kind { NamesBelow (length values.now) kind.now.duration }
    requires amounts { All (λ r. IfSome (amount_of r) (NamesBelow (length values.now))) kind.now.reservations }
    requires values { length values.now ≡ length kind.now.params }
    ensures { result ≡ is_firm_with horizon kind.now values.now }
{
    are_in_range(kind.params.as_slice(), values)
        && duration_in(horizon, kind, values).is_some()
        && have_amounts(kind.reservations.as_slice(), values)
}

fn end_from(horizon: u32, kind: &Kind, activity: &Activity, values: &[Option<i64>]) -> Option<u32>
    requires start { activity.now.start + horizon < 2 ^ 32 }
    requires kind { NamesBelow (length values.now) kind.now.duration }
    requires amounts { All (λ r. IfSome (amount_of r) (NamesBelow (length values.now))) kind.now.reservations }
    requires values { length values.now ≡ length kind.now.params }
    ensures value { result ≡ end_with horizon kind.now activity.now.start activity.now.measured values.now }
    ensures none { IsNone result ↔ (is_firm_with horizon kind.now values.now ≡ false) }
{
    if !is_firm(horizon, kind, values) {
        return None;
    }
    let duration = duration_in(horizon, kind, values)?;
    Some(activity.measured.unwrap_or(activity.start + duration))
}
