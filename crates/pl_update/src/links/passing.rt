//! Links and orders that are settled as time passes or as more of the plan is committed.
ghost use Rattle.std.specs.Prelude.{◌≡◌, IfOk, map};
ghost use Rattle.pl_conflict.specs.Sorting.{AreInOrder};
ghost use Rattle.pl_semantics.specs.Whole.{IsWhole};
ghost use Rattle.pl_semantics.specs.declared.plan_state.PlanState.{PlanState};
ghost use Rattle.pl_update.specs.Links.Mended.{MendsLinks};
ghost use Rattle.pl_update.specs.Links.Owned.{owner_of, is_of_order};
ghost use Rattle.pl_update.specs.Links.Passing.{IsBefore, ShowsLinks, is_settled, is_of_part, passed};

use crate::links::breaking::conflicts_of;
use crate::links::mended::Mended;
use pl_conflict::{Code, Conflict, ConflictSet};
use pl_links::Broken;
use pl_semantics::PlanState;
use std::alloc::{AllocError, Global};

fn is_of_part(k: &Conflict) -> bool
    ensures { result ≡ is_of_part k.now }
{
    matches!(k.code, Code::Temporal | Code::Linked)
}

fn is_of_order(code: Code) -> bool
    ensures { result ≡ is_of_order code }
{
    matches!(code, Code::Linked)
}

fn owner_of(k: &Conflict) -> Broken
    ensures { result ≡ owner_of k.now }
{
    Broken {
        id: k.subject,
        index: k.detail,
        slots: is_of_order(k.code),
    }
}

fn is_settled(s: &PlanState, moment: u32) -> bool
    ensures { result ≡ is_settled s.now moment }
{
    moment <= s.moment && moment < s.committed
}

#[tactic(auto, unfolding(crate::specs::Links::Passing::passed))]
fn passed(
    alloc: Global,
    s: &PlanState,
    conflicts: &ConflictSet,
) -> Result<Vec<Conflict>, AllocError>
    ensures items { IfOk result (λ all. all.items ≡ passed s.now conflicts.now) }
    ensures ordered { AreInOrder conflicts.now }
{
    conflicts
        .iter()
        .take_while(|k| is_settled(s, k.from))
        .filter(|k| is_of_part(k))
        .copied()
        .collect(alloc)
}

fn owners(alloc: Global, all: &[Conflict]) -> Result<Vec<Broken>, AllocError>
    ensures { IfOk result (λ owners. owners.items ≡ map owner_of all.now) }
{
    all.iter().map(|k| owner_of(k)).collect(alloc)
}

/// What time that passed, or a commitment, up to this state does to the conflicts of an earlier one, of which `conflicts`
/// shows those of links and orders.
pub fn pass(alloc: Global, t: &PlanState, conflicts: &ConflictSet) -> Result<Mended, AllocError>
    requires { IsWhole t.now }
    ensures { IfOk result (λ m. (s : PlanState) → IsBefore s t.now → ShowsLinks s conflicts.now → MendsLinks s t.now m.went.items m.came.items) }
{
    let went = passed(alloc, t, conflicts)?;
    let owners = owners(alloc, went.as_slice())?;
    let came = conflicts_of(alloc, t, owners.as_slice())?;
    Ok(Mended { went, came })
}
