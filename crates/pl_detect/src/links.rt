//! Temporal links without a partner, and orders of slots that are not met.
ghost use Rattle.std.specs.Prelude.{◌≡◌, ◌++◌, OnOk, Some};
ghost use Rattle.std.specs.List.{flat_map};
ghost use Rattle.std.specs.Option.{option_copied};
ghost use Rattle.pl_plan.specs.Activities.{activity_of};
ghost use Rattle.pl_semantics.specs.Whole.{IsWhole};
ghost use Rattle.pl_semantics.specs.PlanStates.{is_ahead, of_found};
ghost use Rattle.pl_semantics.specs.Links.{conflict_of, link_conflicts, lone, order_at, unmet_by, unmet_from, unmet_order};
ghost use Rattle.pl_detect.specs.Broken.{broken_conflict};

use crate::filing::add_when;
use crate::placing::placed_in;
use pl_conflict::{Code, Conflict};
use pl_links::Broken;
use pl_model::Order;
use pl_plan::Activity;
use pl_semantics::PlanState;
use std::alloc::{AllocError, Global};

fn is_ahead(s: &PlanState, a: &Activity) -> bool
    ensures { result ≡ is_ahead s.now a.now }
{
    !(a.start < s.committed && a.start <= s.moment)
}

fn lone(a: &Activity, index: u32) -> Conflict
    ensures { result ≡ lone a.now index }
{
    Conflict {
        from: a.start,
        code: Code::Temporal,
        subject: a.id,
        detail: index,
        a: 0,
        b: 0,
    }
}

fn add_unmet_by(
    s: &PlanState,
    parent: &Activity,
    index: u32,
    first: &Activity,
    second: &Activity,
    out: &mut Vec<Conflict>,
) -> Result<(), AllocError>
    ensures { OnOk result (out.new.items ≡ out.old.items ++ unmet_by s.now parent.now index first.now second.now) }
{
    let holds = is_ahead(s, parent) || (is_ahead(s, first) || is_ahead(s, second));
    let conflict = Conflict {
        from: parent.start.min(first.start.min(second.start)),
        code: Code::Linked,
        subject: parent.id,
        detail: index,
        a: 0,
        b: 0,
    };
    add_when(out, holds, conflict)?;
    Ok(())
}

fn add_unmet_from(
    s: &PlanState,
    parent: &Activity,
    index: u32,
    first: Option<&Activity>,
    second: Option<&Activity>,
    out: &mut Vec<Conflict>,
) -> Result<(), AllocError>
    ensures { OnOk result (out.new.items ≡ out.old.items ++ unmet_from s.now parent.now index (option_copied first.entry) (option_copied second.entry)) }
{
    match (first, second) {
        (Some(first), Some(second)) => add_unmet_by(s, parent, index, first, second, out),
        _ => Ok(()),
    }
}

fn add_unmet_order(
    alloc: Global,
    s: &PlanState,
    parent: &Activity,
    index: u32,
    order: &Order,
    out: &mut Vec<Conflict>,
) -> Result<(), AllocError>
    requires whole { IsWhole s.now }
    requires live { activity_of parent.now.id s.now.plan.activities ≡ Some parent.now }
    ensures { OnOk result (out.new.items ≡ out.old.items ++ unmet_order s.now parent.now index order.now) }
{
    let first = s.place_in(alloc, parent, order.first)?;
    let second = s.place_in(alloc, parent, order.second)?;
    add_unmet_from(s, parent, index, first, second, out)?;
    Ok(())
}

fn add_unmet(
    alloc: Global,
    s: &PlanState,
    parent: &Activity,
    index: u32,
    out: &mut Vec<Conflict>,
) -> Result<(), AllocError>
    requires whole { IsWhole s.now }
    requires live { activity_of parent.now.id s.now.plan.activities ≡ Some parent.now }
    ensures { OnOk result (out.new.items ≡ out.old.items ++ of_found (unmet_order s.now parent.now index) (order_at s.now parent.now index)) }
{
    match s.order_at(parent, index) {
        Some(order) => add_unmet_order(alloc, s, parent, index, order, out),
        None => Ok(()),
    }
}

/// Appends the conflict of what a live activity breaks: of a link, where it is not committed or
/// still to start; of an order, where it or one of the two is so.
pub fn add_conflict_of(
    alloc: Global,
    s: &PlanState,
    a: &Activity,
    broken: &Broken,
    out: &mut Vec<Conflict>,
) -> Result<(), AllocError>
    requires whole { IsWhole s.now }
    requires live { activity_of a.now.id s.now.plan.activities ≡ Some a.now }
    ensures { OnOk result (out.new.items ≡ out.old.items ++ conflict_of s.now a.now broken.now) }
{
    if broken.slots {
        add_unmet(alloc, s, a, broken.index, out)
    } else {
        add_when(out, is_ahead(s, a), lone(a, broken.index))
    }
}

/// Appends the conflict of what is broken, whose activity is found by its id.
pub fn add_broken(
    alloc: Global,
    s: &PlanState,
    broken: &Broken,
    out: &mut Vec<Conflict>,
) -> Result<(), AllocError>
    requires { IsWhole s.now }
    ensures { OnOk result (out.new.items ≡ out.old.items ++ broken_conflict s.now broken.now) }
{
    match s.plan.get(broken.id) {
        Some(a) => add_conflict_of(alloc, s, a, broken, out),
        None => Ok(()),
    }
}

/// Appends the conflicts of all that is broken, in its order.
pub fn add_all_broken(
    alloc: Global,
    s: &PlanState,
    broken: &[Broken],
    out: &mut Vec<Conflict>,
) -> Result<(), AllocError>
    requires { IsWhole s.now }
    ensures { OnOk result (out.new.items ≡ out.old.items ++ flat_map (broken_conflict s.now) broken.now) }
{
    for one in broken {
        add_broken(alloc, s, one, out)?;
    }
    Ok(())
}

/// Appends the conflicts of all links and orders, by the id of the activity and by index.
pub fn link_conflicts(
    alloc: Global,
    s: &PlanState,
    out: &mut Vec<Conflict>,
) -> Result<(), AllocError>
    requires { IsWhole s.now }
    ensures { OnOk result (out.new.items ≡ out.old.items ++ link_conflicts s.now) }
{
    let links = placed_in(alloc, s)?;
    let broken = links.broken(alloc, s.model.get())?;
    add_all_broken(alloc, s, broken.as_slice(), out)?;
    Ok(())
}
