ghost use Rattle.std.specs.Prelude.{◌≡◌, [], ◌∷◌, ◌++◌, OnOk, codes, decimal};
ghost use Rattle.std.specs.Fmt.{signed_decimal};
ghost use Rattle.pl_journal.specs.Rendering.Words.{spaced};
ghost use Rattle.pl_journal.specs.Rendering.Lines.{kind_name, goal_words, move_words};

use crate::rendering::names::kind_name;
use crate::rendering::pushing::{push_count, push_labelled, push_value, push_word};
use pl_model::Model;
use pl_plan::RepairMove;
use std::alloc::AllocError;

#[tactic(auto, unfolding(crate::specs::Rendering::Words::spaced))]
fn push_goal(out: &mut Vec<u8>, goal: Option<u32>) -> Result<(), AllocError>
    ensures { OnOk result (out.new.items ≡ out.old.items ++ spaced (goal_words goal)) }
{
    match goal {
        Some(number) => push_labelled(out, b"goal", number),
        None => Ok(()),
    }
}

#[tactic(auto, using(crate::proofs::AboutRendering::Texts::words_joined))]
fn push_addition(
    out: &mut Vec<u8>,
    model: &Model,
    kind: u32,
    start: u32,
    goal: Option<u32>,
) -> Result<(), AllocError>
    ensures { OnOk result (out.new.items ≡ out.old.items ++ spaced (codes "add" ∷ kind_name model.now kind ∷ decimal start ∷ goal_words goal)) }
{
    push_word(out, b"add")?;
    push_word(out, kind_name(model, kind))?;
    push_count(out, start)?;
    push_goal(out, goal)?;
    Ok(())
}

#[tactic(auto, using(crate::proofs::AboutRendering::Texts::words_joined))]
fn push_assignment(out: &mut Vec<u8>, id: u32, param: u8, value: i64) -> Result<(), AllocError>
    ensures { OnOk result (out.new.items ≡ out.old.items ++ spaced (codes "assign" ∷ decimal id ∷ decimal param ∷ signed_decimal value ∷ [])) }
{
    push_labelled(out, b"assign", id)?;
    push_count(out, u32::from(param))?;
    push_value(out, value)?;
    Ok(())
}

/// Appends a word and two numbers.
#[tactic(auto, using(crate::proofs::AboutRendering::Texts::words_joined))]
fn push_pair(out: &mut Vec<u8>, label: &[u8], first: u32, second: u32) -> Result<(), AllocError>
    ensures { OnOk result (out.new.items ≡ out.old.items ++ spaced (label.now ∷ decimal first ∷ decimal second ∷ [])) }
{
    push_labelled(out, label, first)?;
    push_count(out, second)?;
    Ok(())
}

/// Appends a repair move.
pub fn push_move(out: &mut Vec<u8>, model: &Model, repair: RepairMove) -> Result<(), AllocError>
    ensures { OnOk result (out.new.items ≡ out.old.items ++ spaced (move_words model.now repair)) }
{
    match repair {
        RepairMove::Add { kind, start, goal } => push_addition(out, model, kind, start, goal),
        RepairMove::Delete { id } => push_labelled(out, b"delete", id),
        RepairMove::Shift { id, start } => push_pair(out, b"shift", id, start),
        RepairMove::Detail { id, alternative } => push_pair(out, b"detail", id, alternative),
        RepairMove::Abstract { id } => push_labelled(out, b"abstract", id),
        RepairMove::Assign { id, param, value } => push_assignment(out, id, param, value),
        RepairMove::Drop { goal } => push_labelled(out, b"drop", goal),
    }
}
