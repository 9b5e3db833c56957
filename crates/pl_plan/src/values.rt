ghost use Rattle.std.specs.Prelude.{◌≡◌, ◌<◌, ◌≤◌, length, slice_get, All, Some, None, option_and_then};
ghost use Rattle.pl_model.specs.Checked.{IsChecked, IsCheckedParam, IsCheckedSlot, params_of};
ghost use Rattle.pl_plan.specs.Activities.{IsLive, activity_of};
ghost use Rattle.pl_plan.specs.Trees.{IsParented};
ghost use Rattle.pl_plan.specs.Fitting.{Fits, FitsAlone, IsInSlot, kind_of, chosen_slots, chosen_slots_of};
ghost use Rattle.pl_plan.specs.Values.{BindsBelow, bindings_in, bindings_at, values_of, param_value};

use crate::activity::Activity;
use crate::plan::Plan;
use crate::row::Row;
use crate::settling::settle;
use pl_model::{Expr, Kind, Model, Param, Slot};

impl Plan {
    /// The value of a parameter.
    pub fn value(&self, model: &Model, id: u32, param: u8) -> Option<i64>
        requires checked { IsChecked model.now }
        requires fits { Fits model.now self.now.activities }
        requires live { IsLive id self.now.activities }
        requires param { param < length (params_of (option_and_then (kind_of model.now) (activity_of id self.now.activities))) }
        ensures { result ≡ param_value model.now self.now.activities id param }
    {
        self.row(model, id).as_slice()[param as usize]
    }

    // The values of an activity's parameters.
    pub(crate) fn row(&self, model: &Model, id: u32) -> Row
        requires checked { IsChecked model.now }
        requires fits { Fits model.now self.now.activities }
        requires live { IsLive id self.now.activities }
        ensures value { result ≡ values_of model.now self.now.activities id }
        ensures len { length result ≡ length (params_of (option_and_then (kind_of model.now) (activity_of id self.now.activities))) }
    {
        let activity = self.fitted(model, id);
        let params = params_in(model, activity);
        let set = activity.set.as_slice();
        match activity.parent {
            Some((parent, slot)) => {
                let above = self.row(model, parent);
                let bindings = self.bindings(model, parent, slot);
                settle(params, set, bindings, above.as_slice())
            }
            None => settle(params, set, &[], &[]),
        }
    }

    // The activity of this id, and what it owes.
    pub(crate) fn fitted(&self, model: &Model, id: u32) -> &Activity
        requires fits { Fits model.now self.now.activities }
        requires live { IsLive id self.now.activities }
        ensures here { activity_of id self.now.activities ≡ Some result.now }
        ensures alone { FitsAlone model.now result.now }
        ensures parented { IsParented self.now.activities result.now }
        ensures in_slot { IsInSlot model.now self.now.activities result.now }
        ensures is { result.now.id ≡ id }
    {
        &self.activities()[self.place(id)]
    }

    // What a slot of an activity binds.
    fn bindings<'m>(&self, model: &'m Model, parent: u32, slot: u32) -> &'m [(u8, Expr)]
        requires checked { IsChecked model.now }
        requires fits { Fits model.now self.now.activities }
        requires live { IsLive parent self.now.activities }
        requires slot { slot < length (chosen_slots_of model.now (activity_of parent self.now.activities)) }
        ensures value { result.now ≡ bindings_at model.now self.now.activities (Some (parent, slot)) }
        ensures names { All (BindsBelow (length (params_of (option_and_then (kind_of model.now) (activity_of parent self.now.activities))))) result.now }
    {
        slot_bindings(model, self.fitted(model, parent), slot)
    }
}

pub(crate) fn kind_in<'m>(model: &'m Model, a: &Activity) -> &'m Kind
    requires { a.now.kind < length model.now.kinds }
    ensures { kind_of model.now a.now ≡ Some result.now }
{
    &model.kinds.as_slice()[a.kind as usize]
}

fn params_in<'m>(model: &'m Model, a: &Activity) -> &'m [Param]
    requires checked { IsChecked model.now }
    requires kind { a.now.kind < length model.now.kinds }
    ensures value { result.now ≡ params_of (kind_of model.now a.now) }
    ensures few { length result.now ≤ 16 }
    ensures params { All (IsCheckedParam (length result.now)) result.now }
{
    kind_in(model, a).params.as_slice()
}

// The slots of the chosen alternative.
fn slots_in<'m>(model: &'m Model, a: &Activity) -> &'m [Slot]
    requires checked { IsChecked model.now }
    requires fits { FitsAlone model.now a.now }
    ensures value { result.now ≡ chosen_slots model.now a.now }
    ensures slots { All (IsCheckedSlot model.now (length (params_of (kind_of model.now a.now)))) result.now }
{
    let alternatives = kind_in(model, a).alternatives.as_slice();
    match a.detail {
        Some(alternative) => alternatives[alternative as usize].slots.as_slice(),
        None => &[],
    }
}

fn slot_bindings<'m>(model: &'m Model, a: &Activity, slot: u32) -> &'m [(u8, Expr)]
    requires checked { IsChecked model.now }
    requires fits { FitsAlone model.now a.now }
    requires slot { slot < length (chosen_slots model.now a.now) }
    ensures value { result.now ≡ bindings_in (slice_get (chosen_slots model.now a.now) slot) }
    ensures names { All (BindsBelow (length (params_of (kind_of model.now a.now)))) result.now }
{
    slots_in(model, a)[slot as usize].bindings.as_slice()
}
