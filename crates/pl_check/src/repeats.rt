//! Checks that no name is given twice.
ghost use Rattle.std.specs.Prelude.{◌≡◌, List, ℕ, [], ◌∷◌, ◌++◌, map, OnOk, IfOk};
ghost use Rattle.pl_check.specs.Judgements.{Judgement, Gives, GivesSo, each};
ghost use Rattle.pl_check.specs.Names.{is_new, distinct, nothing_inside, own_name, param_name, slot_name, binding_name, line_name, item_name, twice_in_line, twice_in_slot, twice_in_alternative, twice_in_kind, twice_in_item, twice_in};

use crate::fault::ModelFault;
use crate::names::Names;
use pl_lists::Copied;
use pl_model::Name;
use pl_syntax::{Ast, AstAlternative, AstExpr, AstKind, AstParam, AstSlot, AstTimeline, Item};
use std::alloc::Global;

/// What has a name, which is to differ from those beside it, and may hold more names.
trait Named {
    ghost name: { Self → List ℕ };

    ghost inside: { Self → Judgement };

    fn name(&self) -> &[u8]
        ensures { result.now ≡ name self.now };

    /// Whether names inside stand twice.
    fn judge_inside(&self, alloc: Global) -> Result<(), ModelFault>
        ensures { Gives result (inside self.now) };
}

/// Takes a name that is to be new.
fn note(alloc: Global, names: &mut Names, name: &[u8]) -> Result<(), ModelFault>
    ensures gives { Gives result (is_new names.old name.now) }
    ensures ok { OnOk result (names.new ≡ names.old ++ name.now ∷ []) }
{
    if names.add(alloc, name)? {
        Ok(())
    } else {
        Err(ModelFault::Twice(Name::from_vec(Vec::from_slice(alloc, name)?)))
    }
}

/// The names of the items, where they differ and what the items hold is right.
fn distinct<T: Named>(alloc: Global, items: &[T]) -> Result<Names, ModelFault>
    ensures gives { GivesSo result (distinct T.name T.inside [] items.now) }
    ensures names { IfOk result (λ names. names ≡ map T.name items.now) }
{
    let mut names = Names::new(alloc);
    for item in items {
        note(alloc, &mut names, item.name())?;
        item.judge_inside(alloc)?;
    }
    Ok(names)
}

impl Named for Name {
    ghost name = { own_name };

    ghost inside = { nothing_inside };

    fn name(&self) -> &[u8] {
        self.as_slice()
    }

    fn judge_inside(&self, _alloc: Global) -> Result<(), ModelFault> {
        Ok(())
    }
}

impl Named for AstParam {
    ghost name = { param_name };

    ghost inside = { nothing_inside };

    fn name(&self) -> &[u8] {
        self.name.as_slice()
    }

    fn judge_inside(&self, _alloc: Global) -> Result<(), ModelFault> {
        Ok(())
    }
}

impl Named for (Name, AstExpr) {
    ghost name = { binding_name };

    ghost inside = { nothing_inside };

    fn name(&self) -> &[u8] {
        self.0.as_slice()
    }

    fn judge_inside(&self, _alloc: Global) -> Result<(), ModelFault> {
        Ok(())
    }
}

impl Named for AstSlot {
    ghost name = { slot_name };

    ghost inside = { twice_in_slot };

    fn name(&self) -> &[u8] {
        self.name.as_slice()
    }

    fn judge_inside(&self, alloc: Global) -> Result<(), ModelFault> {
        distinct(alloc, self.bindings.as_slice())?;
        Ok(())
    }
}

fn judge_alternative(alloc: Global, alternative: &AstAlternative) -> Result<(), ModelFault>
    ensures { Gives result (twice_in_alternative alternative.now) }
{
    distinct(alloc, alternative.slots.as_slice())?;
    Ok(())
}

fn judge_alternatives(alloc: Global, alternatives: &[AstAlternative]) -> Result<(), ModelFault>
    ensures { Gives result (each twice_in_alternative alternatives.now) }
{
    for alternative in alternatives {
        judge_alternative(alloc, alternative)?;
    }
    Ok(())
}

fn judge_kind(alloc: Global, kind: &AstKind) -> Result<(), ModelFault>
    ensures { Gives result (twice_in_kind kind.now) }
{
    distinct(alloc, kind.params.as_slice())?;
    judge_alternatives(alloc, kind.alternatives.as_slice())?;
    Ok(())
}

fn line_name(line: &AstTimeline) -> &[u8]
    ensures { result.now ≡ line_name line.now }
{
    match line {
        AstTimeline::Capacity { name, .. } => name.as_slice(),
        AstTimeline::Level { name, .. } => name.as_slice(),
        AstTimeline::States { name, .. } => name.as_slice(),
    }
}

fn judge_line(alloc: Global, line: &AstTimeline) -> Result<(), ModelFault>
    ensures { Gives result (twice_in_line line.now) }
{
    match line {
        AstTimeline::Capacity { .. } => Ok(()),
        AstTimeline::Level { .. } => Ok(()),
        AstTimeline::States { states, .. } => {
            distinct(alloc, states.as_slice())?;
            Ok(())
        }
    }
}

impl Named for Item {
    ghost name = { item_name };

    ghost inside = { twice_in_item };

    fn name(&self) -> &[u8] {
        match self {
            Item::Timeline(line) => line_name(line),
            Item::Kind(kind) => kind.name.as_slice(),
        }
    }

    fn judge_inside(&self, alloc: Global) -> Result<(), ModelFault> {
        match self {
            Item::Timeline(line) => judge_line(alloc, line),
            Item::Kind(kind) => judge_kind(alloc, kind),
        }
    }
}

/// The names of the timelines and kinds, in their order, where no name stands twice.
pub fn item_names(alloc: Global, ast: &Ast) -> Result<Names, ModelFault>
    ensures gives { GivesSo result (twice_in ast.now) }
    ensures names { IfOk result (λ names. names ≡ map item_name ast.now.items) }
{
    distinct(alloc, ast.items.as_slice())
}
