//! The network of an alternative.
ghost use Rattle.std.specs.Prelude.{◌≡◌, ◌<◌, ◌≤◌, ◌+◌, ◌*◌, ◌≤ℤ◌, ◌++◌, pos, negsuc, length, All, IfOk, OnOk};
ghost use Rattle.pl_stn.specs.Nets.{IsWellFormed};
ghost use Rattle.pl_check.specs.Sound.{IsPlaceBelow, IsOrderOf, IsSlotOf, IsSoundAlternative};
ghost use Rattle.pl_check.specs.Networks.{IsSpan, IsNear, IsNearOrder, point_of, distance_edges, slots_edges, order_edges, orders_edges, parent_edges, net_of};

use crate::drafts::DraftAlternative;
use pl_model::{Order, Point, Slot};
use pl_stn::{Edge, Net};
use std::alloc::{AllocError, Global};

fn point_of(slot: Option<u32>, end: Point) -> u32
    requires { IsPlaceBelow 16 slot }
    ensures { result ≡ point_of slot end }
{
    match slot {
        None => match end {
            Point::Start => 0,
            Point::End => 1,
        },
        Some(slot) => match end {
            Point::Start => 2 * slot + 2,
            Point::End => 2 * slot + 3,
        },
    }
}

/// The one point lies so far after the other, at least and at most.
fn add_distance(net: &mut Net, from: u32, to: u32, low: i64, high: i64) -> Result<(), AllocError>
    requires net { IsWellFormed net.old }
    requires room { length net.old.edges + 2 ≤ 1000000 }
    requires from { from < net.old.points }
    requires to { to < net.old.points }
    requires low { IsNear low }
    requires high { IsNear high }
    ensures edges { OnOk result (net.new.edges ≡ net.old.edges ++ distance_edges from to low high) }
    ensures points { OnOk result (net.new.points ≡ net.old.points) }
    ensures well_formed { OnOk result (IsWellFormed net.new) }
{
    net.add(Edge {
        from,
        to,
        most: high,
    })?;
    net.add(Edge {
        from: to,
        to: from,
        most: -low,
    })?;
    Ok(())
}

fn add_slots(net: &mut Net, spans: &[(i64, i64)], slots: &[Slot]) -> Result<(), AllocError>
    requires net { IsWellFormed net.old }
    requires room { length net.old.edges ≤ 1000 }
    requires few { length slots.now ≤ 16 }
    requires all_points { 2 * length slots.now + 2 ≤ net.old.points }
    requires spans { All IsSpan spans.now }
    requires kinds { All (IsSlotOf (length spans.now)) slots.now }
    ensures edges { OnOk result (net.new.edges ≡ net.old.edges ++ slots_edges spans.now 2 slots.now) }
    ensures room { OnOk result (length net.new.edges ≤ length net.old.edges + 2 * length slots.now) }
    ensures points { OnOk result (net.new.points ≡ net.old.points) }
    ensures well_formed { OnOk result (IsWellFormed net.new) }
{
    let mut start = 2;
    for slot in slots {
        let (least, most) = spans[slot.kind as usize];
        add_distance(net, start, start + 1, least, most)?;
        start += 2;
    }
    Ok(())
}

fn add_order(net: &mut Net, slots: usize, order: &Order) -> Result<(), AllocError>
    requires net { IsWellFormed net.old }
    requires room { length net.old.edges + 2 ≤ 1000000 }
    requires few { slots ≤ 16 }
    requires all_points { 2 * slots + 2 ≤ net.old.points }
    requires places { IsOrderOf slots order.now }
    requires near { IsNearOrder order.now }
    ensures edges { OnOk result (net.new.edges ≡ net.old.edges ++ order_edges order.now) }
    ensures points { OnOk result (net.new.points ≡ net.old.points) }
    ensures well_formed { OnOk result (IsWellFormed net.new) }
{
    let from = point_of(order.first, order.first_end);
    let to = point_of(order.second, order.second_end);
    add_distance(net, from, to, order.low, order.high)?;
    Ok(())
}

fn add_orders(net: &mut Net, slots: usize, orders: &[Order]) -> Result<(), AllocError>
    requires net { IsWellFormed net.old }
    requires room { length net.old.edges ≤ 2000 }
    requires few { slots ≤ 16 }
    requires few_orders { length orders.now ≤ 64 }
    requires all_points { 2 * slots + 2 ≤ net.old.points }
    requires places { All (IsOrderOf slots) orders.now }
    requires near { All IsNearOrder orders.now }
    ensures edges { OnOk result (net.new.edges ≡ net.old.edges ++ orders_edges orders.now) }
    ensures points { OnOk result (net.new.points ≡ net.old.points) }
    ensures well_formed { OnOk result (IsWellFormed net.new) }
{
    for order in orders {
        add_order(net, slots, order)?;
    }
    Ok(())
}

/// The network of a parent with this span and so many slots, before anything is said of the slots.
#[tactic(auto, using(crate::proofs::NetworkLemmas::origin_room, crate::proofs::NetworkLemmas::parent_room))]
fn parent_network(alloc: Global, slots: usize, own: (i64, i64)) -> Result<Net, AllocError>
    requires few { slots ≤ 16 }
    requires own { IsSpan own }
    ensures edges { IfOk result (λ net. net.edges ≡ parent_edges slots own) }
    ensures points { IfOk result (λ net. net.points ≡ 2 * slots + 2) }
    ensures room { IfOk result (λ net. length net.edges ≤ 100) }
    ensures well_formed { IfOk result IsWellFormed }
{
    let mut net = Net::new(alloc, 2 * slots as u32 + 2)?;
    add_distance(&mut net, 0, 1, own.0, own.1)?;
    Ok(net)
}

/// The network of an alternative of a kind with this span.
pub fn network(
    alloc: Global,
    spans: &[(i64, i64)],
    own: (i64, i64),
    alternative: &DraftAlternative,
) -> Result<Net, AllocError>
    requires spans { All IsSpan spans.now }
    requires own { IsSpan own }
    requires sound { IsSoundAlternative (length spans.now) alternative.now }
    requires near { All IsNearOrder alternative.now.orders }
    ensures net { IfOk result (λ net. net ≡ net_of spans.now own alternative.now) }
    ensures well_formed { IfOk result IsWellFormed }
{
    let slots = alternative.slots.len();
    let mut net = parent_network(alloc, slots, own)?;
    add_slots(&mut net, spans, alternative.slots.as_slice())?;
    add_orders(&mut net, slots, alternative.orders.as_slice())?;
    Ok(net)
}
