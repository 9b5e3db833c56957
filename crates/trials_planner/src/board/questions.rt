//! What the rows of the tables ask of a board behind some changes.
use crate::asserting::holds;
use crate::board::boards::empty;
use crate::board::changes::change_all;
use crate::board::counted::takes_so_many_steps;
use crate::board::lookups::{has_partner, is_spread, is_tried_at};
use crate::board::mending::is_mended;
use crate::board::moves::{
    are_known_to_leave, are_known_to_leave_with_states, comes_of, is_known_to_leave, is_made,
    is_refused, is_tried_for,
};
use crate::board::plans::{is_due, is_evaluated, is_in_tree, is_said_of_copy};
use crate::board::recalling::is_recalled;
use crate::board::values::{are_conflicts, has_values};
use crate::reading::sides;
use pl_board::Board;
use std::alloc::Global;
use std::process::Abort;

/// What stands in a row behind its changes, each part behind a ` =>`.
#[derive(Clone, Copy)]
pub enum Asked {
    /// All that is wrong.
    Wrong,
    /// All that is wrong with a copy.
    Copied,
    /// Values of the timelines, and all that is wrong.
    Values,
    /// A move, and why it is refused, as it is printed.
    Refusal,
    /// A conflict that stands, and the moves that are tried for it.
    Repairs,
    /// A legal move, and how many conflicts it is known to leave at least, alone in a list.
    Least,
    /// Legal moves, and how many conflicts each is known as a choice to leave at least, in a list.
    LeastOfChoices,
    /// Legal moves that place the same activities, and how many conflicts each is known to leave at least with those of states, in a list.
    LeastWithStates,
    /// How many conflicts are enough with a legal move, what comes of trying it with the next id then, and all that is wrong then.
    Attempt,
    /// A legal move, and all that is wrong once it is made.
    Made,
    /// A chooser, and the conflict that it mends by a move where one stands, all of which is right then.
    Mended,
    /// A choice of the least chooser, with changes that come after it, legal moves, and the place of the best of them as it is recalled
    /// then.
    Recalled,
    /// An activity, its values, whether it is firm, and its end, as they are printed.
    Evaluated,
    /// An activity, its children, all below it and itself, and its root, as they are printed.
    Tree,
    /// Calls of a copy of the plan, each with its answer.
    Plan,
    /// A moment and how much is committed, and what is due then, in a list.
    Due,
    /// An activity with how far a link reaches back, its end, and whether the link finds a partner.
    Partner,
    /// An activity, and the starts that are tried for it, in a list.
    Starts,
    /// Two numbers, and the numbers that are spread between them, in a list.
    Spread,
    /// How many activities there are, and how many steps one more takes at least and at most.
    Steps,
}

/// Tables with what their rows ask, and the model of each.
pub type Table = (Asked, &'static str, &'static str);

/// Whether these are the conflicts of a copy.
fn is_copied(alloc: Global, board: &Board, conflicts: &str) -> Option<bool> {
    if board.spoiled() {
        return None;
    }
    let copy = board.copy(alloc).ok()?;
    are_conflicts(alloc, &copy, conflicts)
}

/// Whether a board is as a row tells behind its changes. There is no answer where it cannot be asked.
fn is_so(alloc: Global, board: &mut Board, asked: Asked, rest: &str) -> Option<bool> {
    match asked {
        Asked::Wrong => are_conflicts(alloc, board, rest),
        Asked::Copied => is_copied(alloc, board, rest),
        Asked::Values => has_values(alloc, board, rest),
        Asked::Refusal => is_refused(alloc, board, rest),
        Asked::Repairs => is_tried_for(alloc, board, rest),
        Asked::Least => is_known_to_leave(alloc, board, rest),
        Asked::LeastOfChoices => are_known_to_leave(alloc, board, rest),
        Asked::LeastWithStates => are_known_to_leave_with_states(alloc, board, rest),
        Asked::Attempt => comes_of(alloc, board, rest),
        Asked::Made => is_made(alloc, board, rest),
        Asked::Mended => is_mended(alloc, board, rest),
        Asked::Recalled => is_recalled(alloc, board, rest),
        Asked::Evaluated => is_evaluated(alloc, board, rest),
        Asked::Tree => is_in_tree(alloc, board, rest),
        Asked::Plan => is_said_of_copy(alloc, board, rest),
        Asked::Due => is_due(alloc, board, rest),
        Asked::Partner => has_partner(alloc, board, rest),
        Asked::Starts => is_tried_at(alloc, board, rest),
        Asked::Spread => is_spread(alloc, rest),
        Asked::Steps => takes_so_many_steps(alloc, board, rest),
    }
}

/// Makes the changes of a row, and asks.
fn answer(alloc: Global, board: &mut Board, asked: Asked, row: &str) -> Option<bool> {
    let (changes, rest) = sides(row);
    change_all(alloc, board, changes)?;
    is_so(alloc, board, asked, rest)
}

/// Asserts that a row is so. Here alone its board is let go: wherever one is, a proof goes through all that it holds.
fn assert_row(rt: &impl Abort, alloc: Global, asked: Asked, model: &str, row: &str) {
    let mut board = empty(rt, alloc, model);
    let answer = answer(alloc, &mut board, asked, row);
    holds(rt, row, answer == Some(true));
}

/// Asserts that each row of some tables is so.
pub fn assert_tables(rt: &impl Abort, alloc: Global, tables: &[Table]) {
    for (asked, model, table) in tables {
        for row in table.lines() {
            assert_row(rt, alloc, *asked, model, row);
        }
    }
}
