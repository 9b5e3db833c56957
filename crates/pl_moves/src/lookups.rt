ghost use Rattle.std.specs.Prelude.{◌≡◌, slice_get};
ghost use Rattle.pl_plan.specs.Fitting.{kind_of, alternatives_of};

use pl_model::{Alternative, Model};
use pl_plan::Activity;

pub(crate) fn alternatives_of_kind<'m>(model: &'m Model, kind: u32) -> &'m [Alternative]
    ensures { result.now ≡ alternatives_of (slice_get model.now.kinds kind) }
{
    match model.kinds.as_slice().get(kind as usize) {
        Some(kind) => kind.alternatives.as_slice(),
        None => &[],
    }
}

pub(crate) fn alternatives_in<'m>(model: &'m Model, a: &Activity) -> &'m [Alternative]
    ensures { result.now ≡ alternatives_of (kind_of model.now a.now) }
{
    alternatives_of_kind(model, a.kind)
}
