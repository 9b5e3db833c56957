//! How a plan without conflicts is bettered, in lines.
ghost use Rattle.std.specs.Prelude.{◌≡◌, [], ◌∷◌, ◌++◌, OnOk, IfOk, false, All, length, ◌≤◌, codes, decimal};
ghost use Rattle.std.specs.Fmt.{signed_decimal};
ghost use Rattle.pl_model.specs.declared.whole.Model.{Model};
ghost use Rattle.pl_journal.specs.Rendering.Words.{spaced};
ghost use Rattle.pl_journal.specs.Rendering.Lines.{move_words};
ghost use Rattle.pl_prefs.specs.Prefers.{IsPreferOf};
ghost use Rattle.pl_report.specs.Improvements.{IsSomeBest, score_words, first_line, step_line, last_line, conflicts_line, IsTry, AreAllMade, IsBettered, IsImprovement};

use crate::heading::push_value;
use pl_journal::{push_count, push_labelled, push_word};
use pl_machine::Machine;
use pl_plan::RepairMove;
use pl_points::{Ledger, Quiet, Steps};
use pl_prefs::{Prefer, ScoreFault, Scored};
use std::alloc::{AllocError, Global};

#[tactic(auto, using(pl_journal::proofs::AboutRendering::Texts::words_joined))]
fn push_score(text: &mut Vec<u8>, score: i128) -> Result<(), AllocError>
    ensures { OnOk result (text.new.items ≡ text.old.items ++ spaced (score_words score)) }
{
    push_word(text, b"score")?;
    let alloc = *text.allocator();
    let digits = score.to_string(alloc)?;
    push_word(text, digits.as_bytes())?;
    Ok(())
}

#[tactic(auto, using(crate::proofs::Texts::line_joined))]
fn push_first_line(text: &mut Vec<u8>, score: i128) -> Result<(), AllocError>
    ensures { OnOk result (text.new.items ≡ text.old.items ++ first_line score) }
{
    text.extend_from_slice(b"improve")?;
    push_score(text, score)?;
    text.push(b'\n')?;
    Ok(())
}

#[tactic(auto, using(pl_journal::proofs::AboutRendering::Texts::words_joined))]
fn push_assignment(text: &mut Vec<u8>, id: u32, param: u8, value: i64) -> Result<(), AllocError>
    ensures { OnOk result (text.new.items ≡ text.old.items ++ spaced (codes "assign" ∷ decimal id ∷ decimal param ∷ signed_decimal value ∷ [])) }
{
    push_labelled(text, b"assign", id)?;
    push_count(text, u32::from(param))?;
    push_value(text, value)?;
    Ok(())
}

#[tactic(auto, using(pl_journal::proofs::AboutRendering::Texts::words_joined))]
fn push_shift(text: &mut Vec<u8>, id: u32, start: u32) -> Result<(), AllocError>
    ensures { OnOk result (text.new.items ≡ text.old.items ++ spaced (codes "shift" ∷ decimal id ∷ decimal start ∷ [])) }
{
    push_labelled(text, b"shift", id)?;
    push_count(text, start)?;
    Ok(())
}

/// Appends the words of a step's move: a shift or an assignment, which has the same words in every model.
fn push_change(text: &mut Vec<u8>, change: RepairMove) -> Result<(), AllocError>
    requires { IsSomeBest change }
    ensures { (model : Model) → OnOk result (text.new.items ≡ text.old.items ++ spaced (move_words model change)) }
{
    match change {
        RepairMove::Shift { id, start } => push_shift(text, id, start),
        RepairMove::Assign { id, param, value } => push_assignment(text, id, param, value),
        _ => Ok(()),
    }
}

#[tactic(auto, using(pl_journal::proofs::AboutRendering::Texts::words_joined))]
fn push_step_words(
    text: &mut Vec<u8>,
    number: u32,
    change: RepairMove,
    score: i128,
) -> Result<(), AllocError>
    requires { IsSomeBest change }
    ensures { (model : Model) → OnOk result (text.new.items ≡ text.old.items ++ spaced (decimal number ∷ (move_words model change ++ score_words score))) }
{
    push_count(text, number)?;
    push_change(text, change)?;
    push_score(text, score)?;
    Ok(())
}

#[tactic(auto, using(crate::proofs::Texts::line_joined))]
fn push_step_line(
    text: &mut Vec<u8>,
    number: u32,
    change: RepairMove,
    score: i128,
) -> Result<(), AllocError>
    requires { IsSomeBest change }
    ensures { (model : Model) → OnOk result (text.new.items ≡ text.old.items ++ step_line model number change score) }
{
    text.extend_from_slice(b"step")?;
    push_step_words(text, number, change, score)?;
    text.push(b'\n')?;
    Ok(())
}

#[tactic(auto, using(pl_journal::proofs::AboutRendering::Texts::words_joined))]
fn push_last_words(text: &mut Vec<u8>, count: u32, score: i128) -> Result<(), AllocError>
    ensures { OnOk result (text.new.items ≡ text.old.items ++ spaced (decimal count ∷ score_words score)) }
{
    push_count(text, count)?;
    push_score(text, score)?;
    Ok(())
}

#[tactic(auto, using(crate::proofs::Texts::line_joined))]
fn push_last_line(text: &mut Vec<u8>, count: u32, score: i128) -> Result<(), AllocError>
    ensures { OnOk result (text.new.items ≡ text.old.items ++ last_line count score) }
{
    text.extend_from_slice(b"improve steps")?;
    push_last_words(text, count, score)?;
    text.push(b'\n')?;
    Ok(())
}

/// Makes the step of this number, and appends its line. Answers whether there was one.
fn push_step<L: Ledger>(
    text: &mut Vec<u8>,
    scored: &mut Scored,
    number: u32,
    steps: &mut Steps<L>,
) -> Result<bool, AllocError>
    requires { scored.old.board.spoiled ≡ false }
    ensures { IfOk result (λ made. IsTry made number scored.old text.old.items scored.new text.new.items) }
{
    let alloc = *text.allocator();
    let _before = scored.score();
    match scored.step(alloc, steps)? {
        Some(change) => {
            push_step_line(text, number, change, scored.score())?;
            Ok(true)
        }
        None => Ok(false),
    }
}

/// Makes up to so many steps, and appends their lines. Answers how many there were.
fn push_steps(text: &mut Vec<u8>, scored: &mut Scored, most: u32) -> Result<u32, AllocError>
    requires { scored.old.board.spoiled ≡ false }
    ensures { IfOk result (λ count. AreAllMade most scored.old text.old.items count scored.new text.new.items) }
{
    let _before = scored.score();
    let mut steps = Steps::new(Quiet);
    let mut count = 0;
    'steps: while count < most {
        if !push_step(text, scored, count + 1, &mut steps)? {
            return Ok(count);
        }
        count += 1;
    }
    Ok(count)
}

#[tactic(auto, using(crate::proofs::Improving::bettered))]
fn steps_text(alloc: Global, scored: &mut Scored, most: u32) -> Result<Vec<u8>, AllocError>
    requires { scored.old.board.spoiled ≡ false }
    ensures { IfOk result (λ text. IsBettered scored.old.board.state scored.old.prefers most text.items) }
{
    let mut text = Vec::new(alloc);
    push_first_line(&mut text, scored.score())?;
    let count = push_steps(&mut text, scored, most)?;
    push_last_line(&mut text, count, scored.score())?;
    Ok(text)
}

#[tactic(auto, using(crate::proofs::Texts::line_begun))]
fn conflicts_text(alloc: Global, count: u32) -> Result<Vec<u8>, AllocError>
    ensures { IfOk result (λ text. text.items ≡ conflicts_line count) }
{
    let mut text = Vec::from_slice(alloc, b"improve: conflicts")?;
    push_count(&mut text, count)?;
    text.push(b'\n')?;
    Ok(text)
}

/// How a machine's plan is bettered by up to so many steps, by what is preferred; or how many conflicts stand.
pub fn improvement_text(
    alloc: Global,
    machine: &Machine,
    prefers: &[Prefer],
    most: u32,
) -> Result<Vec<u8>, AllocError>
    requires unspoiled { machine.now.spoiled ≡ false }
    requires fits { All (IsPreferOf machine.now.model) prefers.now }
    requires few { length prefers.now ≤ 64 }
    ensures { IfOk result (λ text. IsImprovement machine.now.world.state prefers.now most text.items) }
{
    let _log = machine.log();
    let _model = machine.model();
    let board = machine.board().copy(alloc)?;
    let prefers = Vec::from_slice(alloc, prefers)?;
    match Scored::new(alloc, board, prefers) {
        Ok(mut scored) => steps_text(alloc, &mut scored, most),
        Err(ScoreFault::Conflicts(count)) => conflicts_text(alloc, count),
        Err(ScoreFault::Memory) => Err(AllocError),
    }
}
