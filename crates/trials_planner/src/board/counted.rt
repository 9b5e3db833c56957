//! How many steps one change of a large board takes.
use crate::board::changes::make;
use crate::reading::{number, sides};
use pl_board::Board;
use pl_plan::RepairMove;
use pl_points::{Ledger, Quiet, Steps};
use std::alloc::Global;

/// Counts at run time.
#[derive(Drop)]
struct Counting {
    ticks: u64,
}

impl Ledger for Counting {
    ghost use Rattle.std.specs.Prelude.{◌-◌, ◌^◌, nat_eq, min};

    ghost told = { λ c count. nat_eq c.ticks (min count (2 ^ 64 - 1)) };

    fn tick(&mut self) {
        self.ticks = self.ticks.saturating_add(1);
    }
}

/// Places one activity more of the first kind.
fn place<L: Ledger>(
    alloc: Global,
    board: &mut Board,
    start: u32,
    steps: &mut Steps<L>,
) -> Option<()> {
    let one = RepairMove::Add {
        kind: 0,
        start,
        goal: None,
    };
    make(alloc, board, &one, steps)
}

/// Whether one activity more beside so many, two moments apart, takes so many steps at least and at most.
pub fn takes_so_many_steps(alloc: Global, board: &mut Board, row: &str) -> Option<bool> {
    let (many, wanted) = sides(row);
    let mut rest = wanted;
    let (least, most) = (number(&mut rest), number(&mut rest));
    let mut start = 1u32;
    for _ in 0..many.parse().unwrap_or(0u32) {
        place(alloc, board, start, &mut Steps::new(Quiet))?;
        start = start.wrapping_add(2);
    }
    let mut steps = Steps::new(Counting { ticks: 0 });
    place(alloc, board, 5, &mut steps)?;
    let ticks = steps.ledger().ticks;
    Some(u64::from(least) <= ticks && ticks <= u64::from(most))
}
