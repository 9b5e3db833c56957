//! Alternatives, with their slots and orders, with their names numbered.
ghost use Rattle.std.specs.Prelude.{◌≡◌, ◌≤◌, length, All, IfOk, count_by};
ghost use Rattle.pl_check.specs.Judgements.{Gives, each_made};
ghost use Rattle.pl_check.specs.Sizes.{IsScope, IsSmallAlternative};
ghost use Rattle.pl_check.specs.Finding.{is_kind};
ghost use Rattle.pl_check.specs.Sound.{IsSlotOf, IsPlaceBelow, IsOrderOf, IsSoundAlternative};
ghost use Rattle.pl_check.specs.Numbering.{numbered_binding, numbered_slot, numbered_place, numbered_order, numbered_alternative, numbered_alternatives};

use crate::drafts::DraftAlternative;
use crate::fault::ModelFault;
use crate::finding::{bindable_named, kind_named, slot_named};
use crate::names::Names;
use crate::numbering::{known, number_expr};
use pl_lists::{Copied, Items};
use pl_model::{Expr, Name, Order, Slot};
use pl_syntax::{AstAlternative, AstExpr, AstOrder, AstParam, AstSlot, Item};
use std::alloc::Global;

/// On the left stands a parameter of the slot's kind, on the right an expression over the parent's.
fn number_binding(
    alloc: Global,
    params: &[AstParam],
    of_slot: &[AstParam],
    binding: &(Name, AstExpr),
) -> Result<(u8, Expr), ModelFault>
    requires params { length params.now ≤ 16 }
    requires of_slot { length of_slot.now ≤ 16 }
    ensures { Gives result (numbered_binding params.now of_slot.now binding.now) }
{
    let param = known(
        alloc,
        &binding.0,
        bindable_named(of_slot, binding.0.as_slice()),
    )?;
    let value = number_expr(alloc, params, &binding.1)?;
    Ok((param, value))
}

#[tactic(auto, using(crate::proofs::LoopLemmas::made_whole))]
fn number_bindings(
    alloc: Global,
    params: &[AstParam],
    of_slot: &[AstParam],
    bindings: &[(Name, AstExpr)],
) -> Result<Items<(u8, Expr)>, ModelFault>
    requires params { length params.now ≤ 16 }
    requires of_slot { length of_slot.now ≤ 16 }
    ensures { Gives result (each_made (numbered_binding params.now of_slot.now) bindings.now) }
{
    let mut all = Items::new(alloc);
    for binding in bindings {
        all.push(number_binding(alloc, params, of_slot, binding)?)?;
    }
    Ok(all)
}

fn number_slot(
    alloc: Global,
    names: &Names,
    items: &[Item],
    params: &[AstParam],
    slot: &AstSlot,
) -> Result<Slot, ModelFault>
    requires scope { IsScope names.now items.now }
    requires params { length params.now ≤ 16 }
    ensures gives { Gives result (numbered_slot items.now params.now slot.now) }
    ensures kind { IfOk result (IsSlotOf (count_by is_kind items.now)) }
{
    match kind_named(names, items, slot.kind.as_slice()) {
        None => Err(ModelFault::Unknown(slot.kind.copy(alloc)?)),
        Some((kind, of_slot)) => {
            let bindings = number_bindings(
                alloc,
                params,
                of_slot.params.as_slice(),
                slot.bindings.as_slice(),
            )?;
            Ok(Slot {
                name: slot.name.copy(alloc)?,
                kind,
                bindings,
            })
        }
    }
}

#[tactic(auto, using(crate::proofs::LoopLemmas::made_whole))]
fn number_slots(
    alloc: Global,
    names: &Names,
    items: &[Item],
    params: &[AstParam],
    slots: &[AstSlot],
) -> Result<Items<Slot>, ModelFault>
    requires scope { IsScope names.now items.now }
    requires params { length params.now ≤ 16 }
    ensures gives { Gives result (each_made (numbered_slot items.now params.now) slots.now) }
    ensures each_slot { IfOk result (λ made. length made ≡ length slots.now) }
    ensures kinds { IfOk result (All (IsSlotOf (count_by is_kind items.now))) }
{
    let mut all = Items::new(alloc);
    for slot in slots {
        all.push(number_slot(alloc, names, items, params, slot)?)?;
    }
    Ok(all)
}

/// The number of a slot, or none for the parent.
fn number_place(
    alloc: Global,
    slots: &[AstSlot],
    place: &Option<Name>,
) -> Result<Option<u32>, ModelFault>
    requires { length slots.now ≤ 16 }
    ensures gives { Gives result (numbered_place slots.now place.now) }
    ensures below { IfOk result (IsPlaceBelow (length slots.now)) }
{
    match place {
        None => Ok(None),
        Some(name) => {
            let slot = known(alloc, name, slot_named(slots, name.as_slice()))?;
            Ok(Some(slot))
        }
    }
}

fn number_order(alloc: Global, slots: &[AstSlot], order: &AstOrder) -> Result<Order, ModelFault>
    requires { length slots.now ≤ 16 }
    ensures gives { Gives result (numbered_order slots.now order.now) }
    ensures slots { IfOk result (IsOrderOf (length slots.now)) }
{
    let first = number_place(alloc, slots, &order.first)?;
    let second = number_place(alloc, slots, &order.second)?;
    Ok(Order {
        first,
        first_end: order.first_end,
        second,
        second_end: order.second_end,
        low: order.low,
        high: order.high,
    })
}

#[tactic(auto, using(crate::proofs::LoopLemmas::made_whole))]
fn number_orders(
    alloc: Global,
    slots: &[AstSlot],
    orders: &[AstOrder],
) -> Result<Items<Order>, ModelFault>
    requires { length slots.now ≤ 16 }
    ensures gives { Gives result (each_made (numbered_order slots.now) orders.now) }
    ensures each_order { IfOk result (λ made. length made ≡ length orders.now) }
    ensures slots { IfOk result (All (IsOrderOf (length slots.now))) }
{
    let mut all = Items::new(alloc);
    for order in orders {
        all.push(number_order(alloc, slots, order)?)?;
    }
    Ok(all)
}

fn number_alternative(
    alloc: Global,
    names: &Names,
    items: &[Item],
    params: &[AstParam],
    alternative: &AstAlternative,
) -> Result<DraftAlternative, ModelFault>
    requires scope { IsScope names.now items.now }
    requires params { length params.now ≤ 16 }
    requires small { IsSmallAlternative alternative.now }
    ensures gives { Gives result (numbered_alternative items.now params.now alternative.now) }
    ensures sound { IfOk result (IsSoundAlternative (count_by is_kind items.now)) }
{
    let slots = number_slots(alloc, names, items, params, alternative.slots.as_slice())?;
    let orders = number_orders(
        alloc,
        alternative.slots.as_slice(),
        alternative.orders.as_slice(),
    )?;
    Ok(DraftAlternative { slots, orders })
}

#[tactic(auto, using(crate::proofs::LoopLemmas::made_whole), unfolding(crate::specs::Numbering::numbered_alternatives))]
/// The alternatives of a kind with their names numbered.
pub fn number_alternatives(
    alloc: Global,
    names: &Names,
    items: &[Item],
    params: &[AstParam],
    alternatives: &[AstAlternative],
) -> Result<Items<DraftAlternative>, ModelFault>
    requires scope { IsScope names.now items.now }
    requires params { length params.now ≤ 16 }
    requires small { All IsSmallAlternative alternatives.now }
    ensures gives { Gives result (numbered_alternatives items.now params.now alternatives.now) }
    ensures each_alternative { IfOk result (λ made. length made ≡ length alternatives.now) }
    ensures sound { IfOk result (All (IsSoundAlternative (count_by is_kind items.now))) }
{
    let mut all = Items::new(alloc);
    for alternative in alternatives {
        all.push(number_alternative(alloc, names, items, params, alternative)?)?;
    }
    Ok(all)
}
