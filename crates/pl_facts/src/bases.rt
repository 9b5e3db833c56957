ghost use Rattle.std.specs.Prelude.{◌≡◌, Some, IfOk, IsSome, slice_set};
ghost use Rattle.pl_model.specs.declared.whole.Model.{Model};
ghost use Rattle.pl_facts.specs.Bases.{AreBasesOf, base_of, first_base, first_bases};

use pl_lists::Copied;
use pl_model::{Model, Timeline};
use std::alloc::{AllocError, Global};

/// The base of each level and state timeline by the timeline's number: a moment and the value at it. Effects count after
/// that moment. The value of a state timeline is the number of its state.
#[derive(Drop)]
pub struct Bases {
    bases: Vec<Option<(i64, i64)>>,
}

impl std::marker::Model for Bases {
    ghost use Rattle.std.specs.Prelude.{List, Option, ℤ};

    ghost Value = { List (Option (ℤ × ℤ)) };

    ghost view = { λ b. b.bases.items };
}

fn first_base(timeline: &Timeline) -> Option<(i64, i64)>
    ensures { result ≡ first_base timeline.now }
{
    match timeline {
        Timeline::Capacity { .. } => None,
        Timeline::Level { start, .. } => Some((-1, *start)),
        Timeline::States { start, .. } => Some((-1, i64::from(*start))),
    }
}

impl Bases {
    /// The bases before any telemetry.
    pub fn new(alloc: Global, model: &Model) -> Result<Bases, AllocError>
        ensures first { IfOk result (λ b. b ≡ first_bases model.now) }
        ensures of_model { IfOk result (AreBasesOf model.now) }
    {
        let bases = model
            .timelines
            .as_slice()
            .iter()
            .map(|timeline| first_base(timeline))
            .collect(alloc)?;
        Ok(Bases { bases })
    }

    /// The moment and the value of the timeline's base.
    pub fn get(&self, line: u32) -> (i64, i64)
        requires { IsSome (base_of line self.now) }
        ensures { base_of line self.now ≡ Some result }
    {
        self.bases[line as usize].unwrap()
    }

    /// Puts what telemetry told at the moment in place of the base; a state is told by its number.
    pub fn set(&mut self, line: u32, moment: i64, value: i64)
        requires { IsSome (base_of line self.old) }
        ensures base { self.new ≡ slice_set self.old line (Some (moment, value)) }
        ensures of_model { (model : Model) → AreBasesOf model self.old → AreBasesOf model self.new }
    {
        self.bases[line as usize] = Some((moment, value));
    }
}

impl Copied for Bases {
    fn copy(&self, alloc: Global) -> Result<Bases, AllocError> {
        Ok(Bases {
            bases: self.bases.as_slice().to_vec(alloc)?,
        })
    }
}
