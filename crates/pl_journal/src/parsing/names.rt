ghost use Rattle.std.specs.Prelude.{◌≡◌, ◌≤◌, ◌^◌, length};
ghost use Rattle.pl_journal.specs.Parsing.Reads.{Sees};
ghost use Rattle.pl_journal.specs.Parsing.Moves.{kind_named};

use crate::parsing::fault::EntryFault;
use pl_model::{Kind, Model};

/// The kind of this name, with its number.
#[tactic(auto, unfolding(crate::specs::Parsing::Moves::kind_named))]
pub fn kind_named<'a>(model: &'a Model, name: &[u8]) -> Result<(u32, &'a Kind), EntryFault>
    requires { length model.now.kinds ≤ 2 ^ 32 }
    ensures { Sees (λ p. (p.0, p.1.now)) result (kind_named model.now name.now) }
{
    let kinds = model.kinds.as_slice();
    for (place, kind) in kinds.iter().enumerate() {
        if kind.name.as_slice() == name {
            return Ok((place as u32, kind));
        }
    }
    Err(EntryFault::NotALine)
}
