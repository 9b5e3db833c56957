ghost use Rattle.std.specs.Prelude.{◌≡◌, IfOk, is_some, length, option_and_then};
ghost use Rattle.pl_model.specs.Checked.{IsChecked, params_of};
ghost use Rattle.pl_plan.specs.Activities.{IsLive, activity_of};
ghost use Rattle.pl_plan.specs.Fitting.{Fits, kind_of};
ghost use Rattle.pl_plan.specs.Values.{values_of};
ghost use Rattle.pl_plan.specs.Firm.{amounts_of, is_firm, end_of};

use crate::plan::Plan;
use pl_lists::{Copied, Items};
use pl_model::Model;
use std::alloc::{AllocError, Global};

/// What an activity comes to: the value of each parameter by its number, the amount of each
/// reservation by its number (none where it has none, or its expression no value), and the moment
/// at which it ends, which is there exactly where it is firm.
#[derive(Drop)]
pub struct Evaluated {
    pub values: Items<Option<i64>>,
    pub amounts: Items<Option<i64>>,
    pub end: Option<u32>,
}

impl Copied for Evaluated {
    fn copy(&self, alloc: Global) -> Result<Evaluated, AllocError> {
        Ok(Evaluated {
            values: self.values.copy(alloc)?,
            amounts: self.amounts.copy(alloc)?,
            end: self.end,
        })
    }
}

impl Plan {
    /// The value of each parameter by its number.
    pub fn values(
        &self,
        alloc: Global,
        model: &Model,
        id: u32,
    ) -> Result<Items<Option<i64>>, AllocError>
        requires checked { IsChecked model.now }
        requires fits { Fits model.now self.now.activities }
        requires live { IsLive id self.now.activities }
        ensures values { IfOk result (λ row. row ≡ values_of model.now self.now.activities id) }
        ensures len { IfOk result (λ row. length row ≡ length (params_of (option_and_then (kind_of model.now) (activity_of id self.now.activities)))) }
    {
        let row = self.row(model, id);
        Ok(Items::from_vec(row.as_slice().to_vec(alloc)?))
    }

    /// Values, amounts, firmness and end at once.
    pub fn evaluate(&self, alloc: Global, model: &Model, id: u32) -> Result<Evaluated, AllocError>
        requires checked { IsChecked model.now }
        requires fits { Fits model.now self.now.activities }
        requires live { IsLive id self.now.activities }
        ensures values { IfOk result (λ e. e.values ≡ values_of model.now self.now.activities id) }
        ensures amounts { IfOk result (λ e. e.amounts ≡ amounts_of model.now self.now.activities id) }
        ensures end { IfOk result (λ e. e.end ≡ end_of model.now self.now.activities id) }
        ensures firm { IfOk result (λ e. is_some e.end ≡ is_firm model.now self.now.activities id) }
    {
        let values = self.values(alloc, model, id)?;
        let amounts = self.amounts_over(alloc, model, id, values.as_slice())?;
        let end = self.end_over(model, id, values.as_slice());
        Ok(Evaluated {
            values,
            amounts,
            end,
        })
    }
}
