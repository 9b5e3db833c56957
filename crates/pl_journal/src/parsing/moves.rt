ghost use Rattle.std.specs.Prelude.{◌≡◌, ◌≤◌, ◌^◌, length};
ghost use Rattle.pl_journal.specs.Parsing.Reads.{Sees};
ghost use Rattle.pl_journal.specs.Parsing.Moves.{goal_in, addition_in, assignment_in, deletion_in, shift_in, detailing_in, abstraction_in, drop_in, move_by, move_in};

use crate::parsing::counts::{amount, count};
use crate::parsing::fault::EntryFault;
use crate::parsing::names::kind_named;
use crate::parsing::words::{is, word};
use pl_model::Model;
use pl_plan::RepairMove;

/// `goal` and a number, or nothing.
#[tactic(auto, unfolding(crate::specs::Parsing::Moves::goal_in))]
fn goal(text: &[u8]) -> Result<(Option<u32>, &[u8]), EntryFault>
    ensures { Sees (λ p. (p.0, p.1.now)) result (goal_in text.now) }
{
    let (word, rest) = word(text)?;
    if is(word, b"goal") {
        let (number, rest) = count(rest)?;
        Ok((Some(number), rest))
    } else {
        Ok((None, text))
    }
}

#[tactic(auto, unfolding(crate::specs::Parsing::Moves::addition_in))]
fn addition<'a>(model: &Model, text: &'a [u8]) -> Result<(RepairMove, &'a [u8]), EntryFault>
    requires { length model.now.kinds ≤ 2 ^ 32 }
    ensures { Sees (λ p. (p.0, p.1.now)) result (addition_in model.now text.now) }
{
    let (name, text) = word(text)?;
    let (kind, _) = kind_named(model, name)?;
    let (start, text) = count(text)?;
    let (goal, text) = goal(text)?;
    Ok((RepairMove::Add { kind, start, goal }, text))
}

#[tactic(auto, unfolding(crate::specs::Parsing::Moves::assignment_in))]
fn assignment(text: &[u8]) -> Result<(RepairMove, &[u8]), EntryFault>
    ensures { Sees (λ p. (p.0, p.1.now)) result (assignment_in text.now) }
{
    let (id, text) = count(text)?;
    let (param, text) = count(text)?;
    let (value, text) = amount(text)?;
    if param < 256 {
        let param = param as u8;
        Ok((RepairMove::Assign { id, param, value }, text))
    } else {
        Err(EntryFault::NotALine)
    }
}

#[tactic(auto, unfolding(crate::specs::Parsing::Moves::deletion_in))]
fn deletion(text: &[u8]) -> Result<(RepairMove, &[u8]), EntryFault>
    ensures { Sees (λ p. (p.0, p.1.now)) result (deletion_in text.now) }
{
    let (id, text) = count(text)?;
    Ok((RepairMove::Delete { id }, text))
}

#[tactic(auto, unfolding(crate::specs::Parsing::Moves::shift_in))]
fn shift(text: &[u8]) -> Result<(RepairMove, &[u8]), EntryFault>
    ensures { Sees (λ p. (p.0, p.1.now)) result (shift_in text.now) }
{
    let (id, text) = count(text)?;
    let (start, text) = count(text)?;
    Ok((RepairMove::Shift { id, start }, text))
}

#[tactic(auto, unfolding(crate::specs::Parsing::Moves::detailing_in))]
fn detailing(text: &[u8]) -> Result<(RepairMove, &[u8]), EntryFault>
    ensures { Sees (λ p. (p.0, p.1.now)) result (detailing_in text.now) }
{
    let (id, text) = count(text)?;
    let (alternative, text) = count(text)?;
    Ok((RepairMove::Detail { id, alternative }, text))
}

#[tactic(auto, unfolding(crate::specs::Parsing::Moves::abstraction_in))]
fn abstraction(text: &[u8]) -> Result<(RepairMove, &[u8]), EntryFault>
    ensures { Sees (λ p. (p.0, p.1.now)) result (abstraction_in text.now) }
{
    let (id, text) = count(text)?;
    Ok((RepairMove::Abstract { id }, text))
}

#[tactic(auto, unfolding(crate::specs::Parsing::Moves::drop_in))]
fn drop_of_goal(text: &[u8]) -> Result<(RepairMove, &[u8]), EntryFault>
    ensures { Sees (λ p. (p.0, p.1.now)) result (drop_in text.now) }
{
    let (goal, text) = count(text)?;
    Ok((RepairMove::Drop { goal }, text))
}

#[tactic(auto, unfolding(crate::specs::Parsing::Moves::move_by))]
fn move_by<'a>(
    model: &Model,
    word: &[u8],
    text: &'a [u8],
) -> Result<(RepairMove, &'a [u8]), EntryFault>
    requires { length model.now.kinds ≤ 2 ^ 32 }
    ensures { Sees (λ p. (p.0, p.1.now)) result (move_by model.now word.now text.now) }
{
    if is(word, b"add") {
        addition(model, text)
    } else if is(word, b"delete") {
        deletion(text)
    } else if is(word, b"shift") {
        shift(text)
    } else if is(word, b"detail") {
        detailing(text)
    } else if is(word, b"abstract") {
        abstraction(text)
    } else if is(word, b"assign") {
        assignment(text)
    } else if is(word, b"drop") {
        drop_of_goal(text)
    } else {
        Err(EntryFault::NotALine)
    }
}

/// A repair move, and what follows it.
#[tactic(auto, unfolding(crate::specs::Parsing::Moves::move_in))]
pub fn repair<'a>(model: &Model, text: &'a [u8]) -> Result<(RepairMove, &'a [u8]), EntryFault>
    requires { length model.now.kinds ≤ 2 ^ 32 }
    ensures { Sees (λ p. (p.0, p.1.now)) result (move_in model.now text.now) }
{
    let (word, text) = word(text)?;
    move_by(model, word, text)
}
