//! Searches of several shapes, one after the other: a narrow one first.
ghost use Rattle.std.specs.Prelude.{◌≡◌, false, OnOk};

use crate::beam::{Aim, Ended, Shape, search_by_layers};
use crate::node::Node;
use crate::tries::Tries;
use pl_board::Board;
use std::alloc::AllocError;

/// How many shapes are tried.
const SHAPES: u32 = 4;

// The shape that is tried after so many others.
fn shape_of(number: u32) -> Shape {
    match number {
        0 => Shape {
            width: 2,
            conflicts: 1,
            lengths: false,
        },
        1 => Shape {
            width: 8,
            conflicts: 1,
            lengths: false,
        },
        2 => Shape {
            width: 8,
            conflicts: 1,
            lengths: true,
        },
        _ => Shape {
            width: 8,
            conflicts: 3,
            lengths: true,
        },
    }
}

// What plans are compared by: how many conflicts stand that are no open goals, then how many goals are open, then their prices.
fn rank_of(node: &Node) -> (u32, u32, u64) {
    (node.look.hard, node.look.unserved, node.price(false))
}

// Whether there is another plan, and it is better than the best so far, if there is one.
fn is_better(other: &Option<Node>, best: &Option<Node>) -> bool {
    match other {
        None => false,
        Some(other) => match best {
            None => true,
            Some(best) => rank_of(other) < rank_of(best),
        },
    }
}

/// Keeps the better of two plans, the first among equals.
pub(crate) fn keep_better(best: &mut Option<Node>, other: Option<Node>) {
    if is_better(&other, best) {
        *best = other;
    }
}

/// Looks for a plan with few enough conflicts that one of these plans can be made into.
pub(crate) fn mend(
    tries: &mut Tries,
    board: &mut Board,
    from: &[Node],
    aim: &Aim,
) -> Result<Ended, AllocError>
    requires { board.old.spoiled ≡ false }
    ensures { OnOk result (board.new ≡ board.old) }
{
    let mut best = None;
    for number in 0..SHAPES {
        match search_by_layers(tries, board, from, aim, &shape_of(number))? {
            Ended::Found(node) => return Ok(Ended::Found(node)),
            Ended::Best(node) => keep_better(&mut best, node),
        }
    }
    Ok(Ended::Best(best))
}
