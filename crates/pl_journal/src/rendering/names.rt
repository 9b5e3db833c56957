ghost use Rattle.std.specs.Prelude.{◌≡◌};
ghost use Rattle.pl_journal.specs.Rendering.Lines.{kind_name, kind_params};

use pl_model::{Model, Param};

/// The name of a kind, and none where the model has no such kind.
pub fn kind_name(model: &Model, kind: u32) -> &[u8]
    ensures { result.now ≡ kind_name model.now kind }
{
    match model.kinds.as_slice().get(kind as usize) {
        Some(found) => found.name.as_slice(),
        None => &[],
    }
}

/// The parameters of a kind, and none where the model has no such kind.
pub fn kind_params(model: &Model, kind: u32) -> &[Param]
    ensures { result.now ≡ kind_params model.now kind }
{
    match model.kinds.as_slice().get(kind as usize) {
        Some(found) => found.params.as_slice(),
        None => &[],
    }
}
