ghost use Rattle.std.specs.Prelude.{◌≡◌, IfOk};
ghost use Rattle.pl_journal.specs.Rendering.Lines.{line_of};

use crate::rendering::events::push_event;
use pl_entry::Entry;
use pl_model::Model;
use pl_text::push_number;
use std::alloc::{AllocError, Global};

// Few lines are longer.
const USUAL: usize = 80;

/// The line of an entry with this number, with its newline. Names are those of the model; a kind that the model
/// has not is written without a name.
#[tactic(auto, unfolding(crate::specs::Rendering::Lines::line_of, crate::specs::Rendering::Lines::text_of))]
pub fn render(
    alloc: Global,
    model: &Model,
    number: u32,
    entry: &Entry,
) -> Result<Vec<u8>, AllocError>
    ensures line { IfOk result (λ line. line.items ≡ line_of model.now number entry.now) }
{
    let mut line = Vec::with_capacity(alloc, USUAL)?;
    push_number(&mut line, i64::from(number))?;
    push_event(&mut line, model, &entry.event, &entry.reply)?;
    line.push(b'\n')?;
    Ok(line)
}
