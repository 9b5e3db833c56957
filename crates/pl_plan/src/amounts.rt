ghost use Rattle.std.specs.Prelude.{◌≡◌, length, All, IfOk, IfSome, option_and_then};
ghost use Rattle.pl_model.specs.Values.{NamesBelow};
ghost use Rattle.pl_model.specs.Checked.{IsChecked, params_of};
ghost use Rattle.pl_plan.specs.Activities.{IsLive, activity_of};
ghost use Rattle.pl_plan.specs.Fitting.{Fits, kind_of};
ghost use Rattle.pl_plan.specs.Values.{values_of};
ghost use Rattle.pl_plan.specs.Firm.{amount_of, amount_with, amounts_with, amounts_of};

use crate::firmness::amount_of;
use crate::plan::Plan;
use crate::values::kind_in;
use pl_lists::Items;
use pl_model::{Model, Reservation, eval};
use std::alloc::{AllocError, Global};

impl Plan {
    // The amounts of the activity's reservations over its values.
    pub(crate) fn amounts_over(
        &self,
        alloc: Global,
        model: &Model,
        id: u32,
        values: &[Option<i64>],
    ) -> Result<Items<Option<i64>>, AllocError>
        requires checked { IsChecked model.now }
        requires fits { Fits model.now self.now.activities }
        requires live { IsLive id self.now.activities }
        requires values { values.now ≡ values_of model.now self.now.activities id }
        requires len { length values.now ≡ length (params_of (option_and_then (kind_of model.now) (activity_of id self.now.activities))) }
        ensures { IfOk result (λ row. row ≡ amounts_of model.now self.now.activities id) }
    {
        let kind = kind_in(model, self.fitted(model, id));
        amounts_with(alloc, kind.reservations.as_slice(), values)
    }
}

fn amounts_with(
    alloc: Global,
    reservations: &[Reservation],
    values: &[Option<i64>],
) -> Result<Items<Option<i64>>, AllocError>
    requires { All (λ r. IfSome (amount_of r) (NamesBelow (length values.now))) reservations.now }
    ensures { IfOk result (λ row. row ≡ amounts_with values.now reservations.now) }
{
    let mut amounts = Vec::with_capacity(alloc, reservations.len())?;
    for reservation in reservations {
        amounts.push(amount_with(reservation, values))?;
    }
    Ok(Items::from_vec(amounts))
}

fn amount_with(reservation: &Reservation, values: &[Option<i64>]) -> Option<i64>
    requires { IfSome (amount_of reservation.now) (NamesBelow (length values.now)) }
    ensures { result ≡ amount_with values.now reservation.now }
{
    match amount_of(reservation) {
        Some(amount) => eval(amount, values),
        None => None,
    }
}
