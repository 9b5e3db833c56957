//! How far apart the orders of slots let activities be.
ghost use Rattle.std.specs.Prelude.{◌≡◌, ◌≤◌, ◌<◌, ◌++◌, ◌==◌, length, position, OnOk, All, IfSome, ◌≤ℤ◌, negsuc};
ghost use Rattle.std.specs.List.{flat_map};
ghost use Rattle.pl_links.specs.Items.{fills};
ghost use Rattle.pl_links.specs.Broken.{orders_of};
ghost use Rattle.pl_semantics.specs.Whole.{IsWhole};
ghost use Rattle.pl_flex.specs.FlexNets.{place_in_slot, edges_of_order, edges_of_parent};

use crate::edges::push_between_places;
use pl_links::Placed;
use pl_model::{Model, Order};
use pl_semantics::PlanState;
use pl_stn::Edge;
use std::alloc::AllocError;

fn orders_of<'m>(model: &'m Model, p: &Placed) -> &'m [Order]
    ensures { result.now ≡ orders_of model.now p.now }
{
    match (model.kinds.as_slice().get(p.kind as usize), p.detail) {
        (Some(kind), Some(detail)) => {
            match kind.alternatives.as_slice().get(detail as usize) {
                Some(alternative) => alternative.orders.as_slice(),
                None => &[],
            }
        }
        _ => &[],
    }
}

/// The same, of a model whose distances are near 0.
#[tactic(auto, using(crate::proofs::Extents::near_orders))]
fn near_orders<'s>(s: &'s PlanState, p: &Placed) -> &'s [Order]
    requires { IsWhole s.now }
    ensures value { result.now ≡ orders_of s.now.model p.now }
    ensures near { All (λ o. negsuc 99999999 ≤ℤ o.low) result.now }
{
    orders_of(s.model.get(), p)
}

fn fills(parent: u32, slot: u32, p: &Placed) -> bool
    ensures { result ≡ fills parent slot p.now }
{
    match p.parent {
        Some(place) => place.0 == parent && place.1 == slot,
        None => false,
    }
}

fn place_of(firm: &[Placed], id: u32) -> Option<usize>
    ensures { result ≡ position (λ p. p.id == id) firm.now }
{
    firm.iter().position(|p| p.id == id)
}

fn place_of_child(firm: &[Placed], parent: u32, slot: u32) -> Option<usize>
    ensures { result ≡ position (fills parent slot) firm.now }
{
    firm.iter().position(|p| fills(parent, slot, p))
}

/// The place among the firm activities of the one in a slot of a parent, or of the parent.
#[tactic(auto, using(crate::proofs::Members::position_within))]
fn place_in_slot(firm: &[Placed], parent: u32, slot: Option<u32>) -> Option<usize>
    ensures value { result ≡ place_in_slot firm.now parent slot }
    ensures within { IfSome result (λ k. k < length firm.now) }
{
    match slot {
        None => place_of(firm, parent),
        Some(slot) => place_of_child(firm, parent, slot),
    }
}

fn push_order(
    edges: &mut Vec<Edge>,
    firm: &[Placed],
    parent: u32,
    order: &Order,
) -> Result<(), AllocError>
    requires few { length firm.now ≤ 10000 }
    requires low { negsuc 99999999 ≤ℤ order.now.low }
    ensures { OnOk result (edges.new.items ≡ edges.old.items ++ edges_of_order firm.now parent order.now) }
{
    push_between_places(
        edges,
        place_in_slot(firm, parent, order.first),
        order.first_end,
        place_in_slot(firm, parent, order.second),
        order.second_end,
        order.low,
        order.high,
    )
}

fn push_parent(
    s: &PlanState,
    edges: &mut Vec<Edge>,
    firm: &[Placed],
    parent: &Placed,
) -> Result<(), AllocError>
    requires whole { IsWhole s.now }
    requires few { length firm.now ≤ 10000 }
    ensures { OnOk result (edges.new.items ≡ edges.old.items ++ edges_of_parent s.now.model firm.now parent.now) }
{
    for order in near_orders(s, parent) {
        push_order(edges, firm, parent.id, order)?;
    }
    Ok(())
}

pub fn push_orders(
    s: &PlanState,
    edges: &mut Vec<Edge>,
    firm: &[Placed],
    placed: &[Placed],
) -> Result<(), AllocError>
    requires whole { IsWhole s.now }
    requires few { length firm.now ≤ 10000 }
    ensures { OnOk result (edges.new.items ≡ edges.old.items ++ flat_map (edges_of_parent s.now.model firm.now) placed.now) }
{
    for parent in placed {
        push_parent(s, edges, firm, parent)?;
    }
    Ok(())
}
