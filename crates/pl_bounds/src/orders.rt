//! How many orders of slots are not met once a child is moved alone, while its parent and the parent's other children stay.
ghost use Rattle.std.specs.Prelude.{◌≡◌, ◌≤◌, true, false, filter, length, IfSome, Some};
ghost use Rattle.pl_links.specs.Items.{fills, child_of};
ghost use Rattle.pl_links.specs.Broken.{moment_of, is_apart, are_misplaced, orders_of};
ghost use Rattle.pl_semantics.specs.Links.{placed_in};
ghost use Rattle.pl_bounds.specs.Orders.{is_moved, speaks_of, moment_with, is_missed, is_unmet_with, unmet_under, unmet_above, unmet_then};

use crate::ties::placed_at;
use pl_board::Board;
use pl_links::Placed;
use pl_model::{Model, Order, Point};

fn fills(parent: u32, slot: u32, child: &Placed) -> bool
    ensures { result ≡ fills parent slot child.now }
{
    match child.parent {
        Some((id, place)) => id == parent && place == slot,
        None => false,
    }
}

fn is_moved(parent: &Placed, child: &Placed, end: Option<u32>) -> bool
    ensures { result ≡ is_moved parent.now child.now end }
{
    match end {
        Some(slot) => fills(parent.id, slot, child),
        None => false,
    }
}

fn speaks_of(parent: &Placed, child: &Placed, order: &Order) -> bool
    ensures { result ≡ speaks_of parent.now child.now order.now }
{
    is_moved(parent, child, order.first) || is_moved(parent, child, order.second)
}

fn moment(point: Point, own: &Placed) -> Option<u32>
    ensures { result ≡ moment_of point own.now }
{
    let end = own.end?;
    match point {
        Point::Start => Some(own.start),
        Point::End => Some(end),
    }
}

// The child in a slot of a parent: the children are gone through by rising id.
fn child_in(board: &Board, parent: u32, slot: u32) -> Option<Placed>
    requires { board.now.spoiled ≡ false }
    ensures { IfSome result (λ c. child_of parent slot (placed_in board.now.state) ≡ Some c) }
{
    let _state = board.state();
    let mut last = parent;
    'children: while let Some(id) = board.plan().child_behind(parent, last) {
        let child = board.placed(id)?;
        if fills(parent, slot, &child) {
            return Some(child);
        }
        last = id;
    }
    None
}

fn moment_with(
    board: &Board,
    parent: &Placed,
    child: &Placed,
    end: Option<u32>,
    point: Point,
) -> Option<u32>
    requires { board.now.spoiled ≡ false }
    ensures { IfSome result (λ m. moment_with (placed_in board.now.state) parent.now child.now end point ≡ Some m) }
{
    match end {
        None => moment(point, parent),
        Some(slot) => {
            if fills(parent.id, slot, child) {
                moment(point, child)
            } else {
                moment(point, &child_in(board, parent.id, slot)?)
            }
        }
    }
}

fn is_apart(low: i64, high: i64, first: u32, second: u32) -> bool
    ensures { result ≡ is_apart low high first second }
{
    let distance = i64::from(second) - i64::from(first);
    low <= distance && distance <= high
}

fn are_misplaced(low: i64, high: i64, first: Option<u32>, second: Option<u32>) -> bool
    ensures { result ≡ are_misplaced low high first second }
{
    match (first, second) {
        (Some(first), Some(second)) => !is_apart(low, high, first, second),
        _ => false,
    }
}

fn is_missed(board: &Board, parent: &Placed, child: &Placed, order: &Order) -> bool
    requires { board.now.spoiled ≡ false }
    ensures { result ≡ true → is_missed (placed_in board.now.state) parent.now child.now order.now ≡ true }
{
    let first = moment_with(board, parent, child, order.first, order.first_end);
    let second = moment_with(board, parent, child, order.second, order.second_end);
    are_misplaced(order.low, order.high, first, second)
}

fn is_unmet_with(board: &Board, parent: &Placed, child: &Placed, order: &Order) -> bool
    requires { board.now.spoiled ≡ false }
    ensures { result ≡ true → is_unmet_with (placed_in board.now.state) parent.now child.now order.now ≡ true }
{
    speaks_of(parent, child, order) && is_missed(board, parent, child, order)
}

fn orders_of<'m>(model: &'m Model, own: &Placed) -> &'m [Order]
    ensures { result.now ≡ orders_of model.now own.now }
{
    match (model.kinds.as_slice().get(own.kind as usize), own.detail) {
        (Some(kind), Some(detail)) => match kind.alternatives.as_slice().get(detail as usize) {
            Some(alternative) => alternative.orders.as_slice(),
            None => &[],
        },
        _ => &[],
    }
}

fn unmet_of(board: &Board, parent: &Placed, child: &Placed) -> u32
    requires { board.now.spoiled ≡ false }
    ensures { result ≤ length (filter (is_unmet_with (placed_in board.now.state) parent.now child.now) (orders_of board.now.state.model parent.now)) }
{
    let orders = orders_of(board.model(), parent);
    let mut count: u32 = 0;
    for order in orders {
        if is_unmet_with(board, parent, child, order) {
            count = count.saturating_add(1);
        }
    }
    count
}

fn unmet_under(board: &Board, child: &Placed, parent: Option<Placed>) -> u32
    requires { board.now.spoiled ≡ false }
    ensures { result ≤ unmet_under board.now.state child.now parent }
{
    match parent {
        Some(parent) => unmet_of(board, &parent, child),
        None => 0,
    }
}

fn unmet_above(board: &Board, child: &Placed, place: Option<(u32, u32)>) -> u32
    requires { board.now.spoiled ≡ false }
    ensures { result ≤ unmet_above board.now.state child.now place }
{
    match place {
        Some((parent, _)) => unmet_under(board, child, board.placed(parent)),
        None => 0,
    }
}

fn unmet_at(board: &Board, own: &Placed, start: u32) -> u32
    requires { board.now.spoiled ≡ false }
    ensures { result ≤ unmet_then board.now.state start (Some own.now) }
{
    if own.parent.is_none() {
        return 0;
    }
    match placed_at(own, start) {
        Some(child) => unmet_above(board, &child, own.parent),
        None => 0,
    }
}

/// Of the orders of an activity's parent that have its slot at an end: how many are not met once the activity alone moves to this start. 0
/// if no activity is given.
pub(crate) fn unmet_then(board: &Board, alone: Option<Placed>, start: u32) -> u32
    requires { board.now.spoiled ≡ false }
    ensures { result ≤ unmet_then board.now.state start alone }
{
    match alone {
        Some(own) => unmet_at(board, &own, start),
        None => 0,
    }
}
