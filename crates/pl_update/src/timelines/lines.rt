use crate::timelines::line::Line;
use std::alloc::Global;

/// The timelines of a model by their numbers.
#[derive(Drop)]
pub struct Lines {
    pub(crate) alloc: Global,
    pub(crate) all: Vec<Line>,
}

impl std::marker::Model for Lines {
    ghost use Rattle.std.specs.Prelude.{List};
    ghost use Rattle.pl_update.specs.declared.timelines.line.Line.{Line};

    ghost Value = { List Line };

    ghost view = { λ l. l.all.items };
}
