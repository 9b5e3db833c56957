//! Checks a whole tree: one check after the other, and the first fault that any of them finds is told.
ghost use Rattle.std.specs.Prelude.{◌≡◌, ℕ, List, map, length, All, IfOk};
ghost use Rattle.pl_syntax.specs.Answers.{ReadsText};
ghost use Rattle.pl_check.specs.Judgements.{Gives, pass};
ghost use Rattle.pl_check.specs.Names.{item_name, twice_in};
ghost use Rattle.pl_check.specs.Counts.{counts_in};
ghost use Rattle.pl_check.specs.Sizes.{IsScope};
ghost use Rattle.pl_check.specs.Numbering.{numbered_items};
ghost use Rattle.pl_check.specs.Sound.{IsSoundDraft};
ghost use Rattle.pl_check.specs.Ranges.{range_in, NamesOwnIn};
ghost use Rattle.pl_check.specs.Drafting.{lines_in, kinds_in};
ghost use Rattle.pl_model.specs.Checked as model;
ghost use Rattle.pl_check.specs.Checked.{drafted, AnswersDrafts, Answers, PassesEachRow, IsModelOrMemory, IsChecked};

use crate::counts::count_all;
use crate::dependencies::{judge_kinds, judge_params};
use crate::drafting::number_items;
use crate::drafts::{Draft, DraftKind};
use crate::fault::ModelFault;
use crate::names::Names;
use crate::ranges::judge_ranges;
use crate::repeats::item_names;
use crate::schedules::{finish_kinds, spans_of};
use pl_lists::{Copied, Items};
use pl_model::{Model, Timeline};
use pl_syntax::Ast;
use std::alloc::{AllocError, Global};

/// The tree with its names numbered.
fn number_tree(alloc: Global, names: &Names, ast: &Ast) -> Result<Items<Draft>, ModelFault>
    requires { IsScope names.now ast.now.items }
    ensures gives { Gives result (numbered_items ast.now.items) }
    ensures sound { IfOk result (λ drafts. All (IsSoundDraft (length (kinds_in drafts))) drafts) }
{
    number_items(alloc, names, ast.items.as_slice())
}

fn judge_tree_ranges(alloc: Global, ast: &Ast, drafts: &Items<Draft>) -> Result<(), ModelFault>
    requires { All NamesOwnIn drafts.now }
    ensures { Gives result (range_in ast.now.horizon ast.now.lead drafts.now) }
{
    judge_ranges(alloc, ast.horizon, ast.lead, drafts.as_slice())
}

/// Checks names and ranges, where the checks before them pass.
#[tactic(auto, using(crate::proofs::SizeLemmas::scope_of, crate::proofs::RangeLemmas::sound_names, crate::proofs::JudgementLemmas::drafted_numbered, crate::proofs::JudgementLemmas::drafted_ranges, crate::proofs::JudgementLemmas::drafted_passes))]
fn draft_named(alloc: Global, names: &Names, ast: &Ast) -> Result<Items<Draft>, ModelFault>
    requires names { names.now ≡ map item_name ast.now.items }
    requires twice { twice_in ast.now ≡ pass }
    requires counts { counts_in ast.now ≡ pass }
    ensures gives { Gives result (drafted ast.now) }
    ensures sound { IfOk result (λ drafts. All (IsSoundDraft (length (kinds_in drafts))) drafts) }
    ensures ranges { IfOk result (λ drafts. range_in ast.now.horizon ast.now.lead drafts ≡ pass) }
{
    let drafts = number_tree(alloc, names, ast)?;
    judge_tree_ranges(alloc, ast, &drafts)?;
    Ok(drafts)
}

/// Checks names, counts and ranges.
#[tactic(auto, using(crate::proofs::JudgementLemmas::drafted_twice, crate::proofs::JudgementLemmas::drafted_counts, crate::proofs::JudgementLemmas::fails_self))]
fn draft(alloc: Global, ast: &Ast) -> Result<Items<Draft>, ModelFault>
    ensures gives { Gives result (drafted ast.now) }
    ensures sound { IfOk result (λ drafts. All (IsSoundDraft (length (kinds_in drafts))) drafts) }
    ensures ranges { IfOk result (λ drafts. range_in ast.now.horizon ast.now.lead drafts ≡ pass) }
{
    let names = item_names(alloc, ast)?;
    count_all(ast)?;
    draft_named(alloc, &names, ast)
}

fn lines_in(alloc: Global, drafts: &[Draft]) -> Result<Items<Timeline>, AllocError>
    ensures { IfOk result (λ lines. lines ≡ lines_in drafts.now) }
{
    let mut lines = Items::new(alloc);
    for draft in drafts {
        if let Draft::Timeline(line) = draft {
            lines.push(line.copy(alloc)?)?;
        }
    }
    Ok(lines)
}

fn kinds_in(alloc: Global, drafts: &[Draft]) -> Result<Items<DraftKind>, AllocError>
    ensures { IfOk result (λ kinds. kinds ≡ kinds_in drafts.now) }
{
    let mut kinds = Items::new(alloc);
    for draft in drafts {
        if let Draft::Kind(kind) = draft {
            kinds.push(kind.copy(alloc)?)?;
        }
    }
    Ok(kinds)
}

/// Checks parameters, kinds and schedules, and makes the model.
#[tactic(auto, using(crate::proofs::AnswerLemmas::circular_answers, crate::proofs::AnswerLemmas::recursive_answers, crate::proofs::AnswerLemmas::unscheduled_answers, crate::proofs::RangeLemmas::sound_kinds, crate::proofs::RangeLemmas::kind_names, crate::proofs::RangeLemmas::horizon_passes, crate::proofs::RangeLemmas::lead_passes, crate::proofs::RangeLemmas::near_kinds))]
fn complete(alloc: Global, ast: &Ast, drafts: &[Draft]) -> Result<Model, ModelFault>
    requires sound { All (IsSoundDraft (length (kinds_in drafts.now))) drafts.now }
    requires ranges { range_in ast.now.horizon ast.now.lead drafts.now ≡ pass }
    ensures { AnswersDrafts ast.now drafts.now result }
{
    let kinds = kinds_in(alloc, drafts)?;
    let all = kinds.as_slice();
    judge_params(alloc, all)?;
    judge_kinds(alloc, all)?;
    let spans = spans_of(alloc, ast.horizon, all)?;
    let finished = finish_kinds(alloc, ast.horizon, spans.as_slice(), all)?;
    Ok(Model {
        horizon: ast.horizon as u32,
        lead: ast.lead as u32,
        timelines: lines_in(alloc, drafts)?,
        kinds: finished,
    })
}

/// The model of a tree, or its first fault.
#[tactic(auto, using(crate::proofs::AnswerLemmas::judged_answers, crate::proofs::AnswerLemmas::drafts_answer))]
fn check_tree(alloc: Global, ast: &Ast) -> Result<Model, ModelFault>
    ensures answers { Answers ast.now result }
    ensures checked { IfOk result IsChecked }
{
    let drafts = draft(alloc, ast)?;
    complete(alloc, ast, drafts.as_slice())
}

/// The model of a tree where every check passes, else the first fault. The model of a text's tree is a checked model.
#[tactic(auto, using(crate::proofs::AcceptanceLemmas::accepted, crate::proofs::StructureLemmas::answered_consistent))]
pub fn check(alloc: Global, ast: &Ast) -> Result<Model, ModelFault>
    ensures answers { Answers ast.now result }
    ensures accepted { PassesEachRow ast.now → IsModelOrMemory result }
    ensures checked { IfOk result IsChecked }
    ensures consistent { IfOk result model.IsConsistent }
    ensures sound { (text : List ℕ) → ReadsText text ast.now → IfOk result model.IsChecked }
{
    check_tree(alloc, ast)
}
