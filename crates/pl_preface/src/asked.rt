ghost use Rattle.std.specs.Prelude.{◌≡◌, ◌<◌, ◌^◌, ℕ, List, length, Result, IfOk};
ghost use Rattle.pl_model.specs.declared.whole.Model.{Model};
ghost use Rattle.pl_model.specs.Checked.{IsChecked};
ghost use Rattle.pl_preface.specs.declared.problem.Problem.{Problem};

use crate::problem::Problem;
use pl_model::Model;
use std::alloc::{AllocError, Global};

/// What a line before a journal may be asked to say: a rate, for one.
pub trait Asked: Drop + Sized {
    // what a line says, by the model
    ghost meant: { Model → List ℕ → Result Self Problem };

    // what holds of an item that a line says
    ghost fits: { Model → Self → Type 0 };

    /// What a line says, or why it is refused.
    fn read(alloc: Global, model: &Model, line: &[u8]) -> Result<Result<Self, Problem>, AllocError>
        requires checked { IsChecked model.now }
        requires short { length line.now < 2 ^ 32 }
        ensures means { IfOk result (λ said. said ≡ meant model.now line.now) }
        ensures fits { IfOk result (λ said. IfOk said (fits model.now)) };
}
