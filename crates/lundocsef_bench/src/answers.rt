//! Answers: what was told of a move, beside what it leaves.
use crate::boards::can_try;
use anyhow::{Result, bail};
use pl_board::Board;
use pl_moves::left_after;
use pl_plan::RepairMove;
use pl_points::{Quiet, Steps};
use std::alloc::Global;
use std::cmp::Ordering;

/// How many conflicts a move leaves at least, as was told.
#[derive(Drop)]
pub struct Answer {
    pub mv: RepairMove,
    pub least: u32,
}

/// How many answers there are, how many of them are higher than what the move leaves, which none may be, and how many are exactly
/// what it leaves.
#[derive(Clone, Copy)]
pub struct Tally {
    pub asked: u32,
    pub too_high: u32,
    pub exact: u32,
}

impl Tally {
    // One answer more, which stands so to what the move leaves.
    fn with(self, order: Ordering) -> Tally {
        let asked = self.asked.saturating_add(1);
        let (too_high, exact) = match order {
            Ordering::Less => (self.too_high, self.exact),
            Ordering::Equal => (self.too_high, self.exact.saturating_add(1)),
            Ordering::Greater => (self.too_high.saturating_add(1), self.exact),
        };
        Tally {
            asked,
            too_high,
            exact,
        }
    }
}

// Makes the move, counts the conflicts, and takes it back: how the answer stands to their number.
fn compare(alloc: Global, board: &mut Board, answer: &Answer) -> Result<Ordering> {
    if !can_try(board, &answer.mv) {
        bail!("a move makes no sense");
    }
    let left = left_after(alloc, board, &answer.mv, &mut Steps::new(Quiet))?;
    Ok(answer.least.cmp(&left))
}

/// Compares each answer with what the move leaves. The board is then as it was.
pub fn tally_of(alloc: Global, board: &mut Board, answers: &[Answer]) -> Result<Tally> {
    let mut found = Tally {
        asked: 0,
        too_high: 0,
        exact: 0,
    };
    for answer in answers {
        found = found.with(compare(alloc, board, answer)?);
    }
    Ok(found)
}
