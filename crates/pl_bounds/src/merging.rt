//! Merges two lists of looks at one timeline.
ghost use Rattle.std.specs.Prelude.{◌≡◌, ◌<◌, ◌⊎◌, true, false, IfOk, length};
ghost use Rattle.pl_bounds.specs.Looks.{AreLooksAt};
ghost use Rattle.pl_bounds.specs.Sides.{AreRight};

use crate::looking::Looking;
use crate::outside::{Look, Outside};
use pl_board::Board;
use std::alloc::{AllocError, Global};

// Whether the next look of the first list comes no later than the next of the other.
fn is_first(one: &[Look], i: usize, other: &[Look], j: usize) -> bool
    ensures here { result ≡ true → i < length one.now }
    ensures there { result ≡ false → (i < length one.now) ⊎ (j < length other.now) → j < length other.now }
{
    if i >= one.len() {
        false
    } else if j >= other.len() {
        true
    } else {
        one[i].at <= other[j].at
    }
}

/// The looks at a timeline, and further ones, by rising moments, each moment once.
pub(crate) fn merged(
    alloc: Global,
    board: &Board,
    outside: &Outside,
    more: &[Look],
) -> Result<Vec<Look>, AllocError>
    requires unspoiled { board.now.spoiled ≡ false }
    requires here { AreRight board.now.state outside.now.side outside.now.line outside.now.looks.items }
    requires more { AreRight board.now.state outside.now.side outside.now.line more.now }
    ensures { IfOk result (λ looks. AreLooksAt board.now.state outside.now.side outside.now.line board.now.state.model.horizon looks.items) }
{
    let mut looking = Looking {
        looks: Vec::new(alloc),
        next: board.state().moment,
    };
    let one = outside.looks.as_slice();
    let mut i = 0;
    let mut j = 0;
    'looks: while i < one.len() || j < more.len() {
        if is_first(one, i, more, j) {
            looking.keep(board, outside, one[i])?;
            i += 1;
        } else {
            looking.keep(board, outside, more[j])?;
            j += 1;
        }
    }
    Ok(looking.looks)
}
