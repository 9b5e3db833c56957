ghost use Rattle.std.specs.Prelude.{◌≡◌, [], ◌∷◌, ◌++◌, OnOk};
ghost use Rattle.pl_journal.specs.Rendering.Words.{spaced};
ghost use Rattle.pl_journal.specs.Rendering.Lines.{value_word, value_words, values_words, command_words};

use crate::rendering::names::{kind_name, kind_params};
use crate::rendering::pushing::{push_count, push_word};
use pl_model::{Model, Param};
use pl_text::push_number;
use std::alloc::AllocError;

#[tactic(auto, using(crate::proofs::AboutRendering::Texts::value_joined))]
fn push_named(out: &mut Vec<u8>, name: &[u8], value: i64) -> Result<(), AllocError>
    ensures { OnOk result (out.new.items ≡ out.old.items ++ spaced (value_word name.now value ∷ [])) }
{
    push_word(out, name)?;
    out.extend_from_slice(b"=")?;
    push_number(out, value)?;
    Ok(())
}

#[tactic(auto, unfolding(crate::specs::Rendering::Words::spaced))]
fn push_if_there(out: &mut Vec<u8>, param: &Param, value: Option<i64>) -> Result<(), AllocError>
    ensures { OnOk result (out.new.items ≡ out.old.items ++ spaced (value_words param.now value)) }
{
    match value {
        Some(value) => push_named(out, param.name.as_slice(), value),
        None => Ok(()),
    }
}

#[tactic(auto, using(crate::proofs::AboutRendering::Texts::words_joined))]
fn push_values(
    out: &mut Vec<u8>,
    params: &[Param],
    values: &[Option<i64>],
) -> Result<(), AllocError>
    ensures { OnOk result (out.new.items ≡ out.old.items ++ spaced (values_words params.now values.now)) }
{
    for (param, value) in params.iter().zip(values) {
        push_if_there(out, param, *value)?;
    }
    Ok(())
}

/// Appends the command of an activity: its id, kind and start, and the values that are there.
#[tactic(auto, using(crate::proofs::AboutRendering::Texts::words_joined))]
pub fn push_command(
    out: &mut Vec<u8>,
    model: &Model,
    id: u32,
    kind: u32,
    start: u32,
    values: &[Option<i64>],
) -> Result<(), AllocError>
    ensures { OnOk result (out.new.items ≡ out.old.items ++ spaced (command_words model.now id kind start values.now)) }
{
    push_count(out, id)?;
    push_word(out, kind_name(model, kind))?;
    push_count(out, start)?;
    push_values(out, kind_params(model, kind), values)?;
    Ok(())
}
