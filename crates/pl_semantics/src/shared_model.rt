ghost use Rattle.std.specs.Prelude.{◌≡◌, IfOk};
ghost use Rattle.std.specs.Arc.{arc_value};

use pl_model::Model;
use std::alloc::AllocError;
use std::sync::Arc;

/// A model that several owners hold, which contracts see as the model.
#[derive(Drop)]
pub struct SharedModel {
    model: Arc<Model>,
}

impl std::marker::Model for SharedModel {
    ghost use Rattle.std.specs.Arc.{arc_value};
    ghost use Rattle.pl_model.specs.declared.whole.Model.{Model};
    ghost use Rattle.pl_model.specs.contracts.expressions.Expr as e;
    ghost use Rattle.std.specs.Coded.{codes};

    ghost Value = { Model };

    ghost coded = { Prim.hlevel (codes, e.the_row.coded) };

    ghost view = { λ m. arc_value m.model };
}

impl SharedModel {
    /// A first owner.
    pub fn new(model: Arc<Model>) -> SharedModel
        ensures { result ≡ arc_value model }
    {
        SharedModel { model }
    }

    /// The model, which all owners share.
    pub fn get(&self) -> &Model
        ensures { result.now ≡ self.now }
    {
        &self.model
    }

    /// A further owner of the same model.
    pub fn share(&self) -> Result<SharedModel, AllocError>
        ensures { IfOk result (λ m. m ≡ self.now) }
    {
        let model = self.model.clone()?;
        Ok(SharedModel { model })
    }
}
