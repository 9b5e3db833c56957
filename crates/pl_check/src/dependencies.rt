//! Checks that no parameter depends on itself, and that no kind contains itself.
ghost use Rattle.std.specs.Prelude.{◌≡◌, ◌++◌, map, IfOk, OnOk, IfSome, IfNone, IfErr};
ghost use Rattle.pl_check.specs.Cycles.{IsFirstCyclic, IsAcyclic};
ghost use Rattle.pl_check.specs.Dependencies.{params_of, param_needs, param_graph, alternative_kinds, contained_kinds, kind_graph, AreWellFounded, AreUncontained, IsWellFounded, IsCircularIn, IsCircularFault, IsRecursiveFault};

use crate::cycles::first_cyclic;
use crate::drafts::{DraftAlternative, DraftKind};
use crate::fault::ModelFault;
use pl_lists::{Copied, Items};
use pl_model::{Expr, Origin, Param};
use std::alloc::{AllocError, Global};

/// Puts the parameters that the expression names at the end.
fn push_params(expr: &Expr, out: &mut Items<u32>) -> Result<(), AllocError>
    ensures { OnOk result (out.new ≡ out.old ++ params_of expr.now) }
{
    match expr {
        Expr::Num(_) => Ok(()),
        Expr::Param(param) => {
            out.push(*param as u32)?;
            Ok(())
        }
        Expr::Apply(_, left, right) => {
            push_params(left.get(), out)?;
            push_params(right.get(), out)?;
            Ok(())
        }
    }
}

/// The parameters on which a parameter depends.
fn param_needs(alloc: Global, param: &Param) -> Result<Items<u32>, AllocError>
    ensures { IfOk result (λ needs. needs ≡ param_needs param.now) }
{
    let mut needs = Items::new(alloc);
    match &param.origin {
        Origin::Free(_) => Ok(needs),
        Origin::Dependent(value) => {
            push_params(value, &mut needs)?;
            Ok(needs)
        }
    }
}

fn param_graph(alloc: Global, kind: &DraftKind) -> Result<Items<Items<u32>>, AllocError>
    ensures { IfOk result (λ graph. graph ≡ param_graph kind.now) }
{
    let mut graph = Items::new(alloc);
    for param in kind.params.as_slice() {
        graph.push(param_needs(alloc, param)?)?;
    }
    Ok(graph)
}

/// Puts the kinds of the slots at the end.
fn push_kinds(alternative: &DraftAlternative, out: &mut Items<u32>) -> Result<(), AllocError>
    ensures { OnOk result (out.new ≡ out.old ++ alternative_kinds alternative.now) }
{
    for slot in alternative.slots.as_slice() {
        out.push(slot.kind)?;
    }
    Ok(())
}

/// The kinds that a kind contains.
fn contained_kinds(alloc: Global, kind: &DraftKind) -> Result<Items<u32>, AllocError>
    ensures { IfOk result (λ kinds. kinds ≡ contained_kinds kind.now) }
{
    let mut kinds = Items::new(alloc);
    for alternative in kind.alternatives.as_slice() {
        push_kinds(alternative, &mut kinds)?;
    }
    Ok(kinds)
}

fn kind_graph(alloc: Global, kinds: &[DraftKind]) -> Result<Items<Items<u32>>, AllocError>
    ensures { IfOk result (λ graph. graph ≡ kind_graph kinds.now) }
{
    let mut graph = Items::new(alloc);
    for kind in kinds {
        graph.push(contained_kinds(alloc, kind)?)?;
    }
    Ok(graph)
}

/// The first parameter that depends on itself.
fn circular_param(alloc: Global, kind: &DraftKind) -> Result<Option<usize>, AllocError>
    ensures first { IfOk result (λ found. IfSome found (IsFirstCyclic (param_graph kind.now))) }
    ensures none { IfOk result (λ found. IfNone found (IsAcyclic (param_graph kind.now))) }
{
    let graph = param_graph(alloc, kind)?;
    first_cyclic(alloc, graph.as_slice())
}

/// Whether no parameter of the kind depends on itself.
#[tactic(auto, using(crate::proofs::DependencyLemmas::circular_at, crate::proofs::DependencyLemmas::well_founded))]
fn judge_kind_params(alloc: Global, kind: &DraftKind) -> Result<(), ModelFault>
    ensures ok { OnOk result (IsWellFounded kind.now) }
    ensures err { IfErr result (IsCircularIn kind.now) }
{
    match circular_param(alloc, kind)? {
        None => Ok(()),
        Some(number) => {
            let name = kind.name.copy(alloc)?;
            let param = kind.params.as_slice()[number].name.copy(alloc)?;
            Err(ModelFault::Circular(name, param))
        }
    }
}

/// Whether no parameter depends on itself.
#[tactic(auto, using(crate::proofs::DependencyLemmas::first_circular))]
pub fn judge_params(alloc: Global, kinds: &[DraftKind]) -> Result<(), ModelFault>
    ensures ok { OnOk result (AreWellFounded kinds.now) }
    ensures err { IfErr result (IsCircularFault kinds.now) }
{
    for kind in kinds {
        judge_kind_params(alloc, kind)?;
    }
    Ok(())
}

/// Whether no kind contains itself.
#[tactic(auto, using(crate::proofs::DependencyLemmas::recursive_at))]
pub fn judge_kinds(alloc: Global, kinds: &[DraftKind]) -> Result<(), ModelFault>
    ensures ok { OnOk result (AreUncontained kinds.now) }
    ensures err { IfErr result (IsRecursiveFault kinds.now) }
{
    let graph = kind_graph(alloc, kinds)?;
    match first_cyclic(alloc, graph.as_slice())? {
        None => Ok(()),
        Some(number) => {
            let name = kinds[number].name.copy(alloc)?;
            Err(ModelFault::Recursive(name))
        }
    }
}
