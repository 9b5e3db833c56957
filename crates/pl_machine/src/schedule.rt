//! Which commands of a plan are due, and from when on more of them may be.
ghost use Rattle.std.specs.Prelude.{◌≡◌, ◌≤◌, [], false, true, OnOk, OnErr};
ghost use Rattle.pl_machine.specs.World.{due_at, due_in};
ghost use Rattle.pl_machine.specs.Calm.{IsAheadAt, IsAhead};

use crate::ahead::Ahead;
use crate::found::Found;
use crate::id_range::IdRange;
use crate::period::Period;
use crate::sorting::{push_ids, sort};
use pl_board::Board;
use std::alloc::{AllocError, Global};
use std::mem;

/// The commands of a board's plan that are due, and what is known of the starts ahead.
#[derive(Drop)]
pub(crate) struct Schedule {
    /// The ids of the activities whose commands are due, in start order.
    pub(crate) due: Vec<u32>,
    pub(crate) ahead: Ahead,
    /// The ids of activities that were seen and may not be settled.
    pub(crate) ranges: Vec<IdRange>,
    /// What the last look found. It is kept so that the next look need not take its memory anew.
    pub(crate) found: Found,
}

impl Schedule {
    /// Nothing is due yet, and nothing is known of the starts ahead.
    pub(crate) fn new(alloc: Global) -> Schedule
        ensures due { result.due.items ≡ [] }
        ensures next_start { result.ahead.next_start ≡ 0 }
        ensures seen { result.ahead.seen ≡ 0 }
        ensures ranges { result.ranges.items ≡ [] }
    {
        Schedule {
            due: Vec::new(alloc),
            ahead: Ahead {
                next_start: 0,
                seen: 0,
            },
            ranges: Vec::new(alloc),
            found: Found::new(alloc),
        }
    }

    /// Looks at the activities that may not be settled: lists what has come to be due since an earlier moment, and finds the next
    /// start.
    fn look(&mut self, board: &Board, alloc: Global, before: u32) -> Result<(), AllocError>
        requires unspoiled { board.now.spoiled ≡ false }
        requires later { before ≤ board.now.state.moment }
        requires listed { self.old.due.items ≡ due_at before board.now.state }
        requires ahead { IsAheadAt before board.now.state self.old.ahead self.old.ranges.items }
        ensures due { OnOk result (self.new.due.items ≡ due_in board.now.state) }
        ensures ahead { OnOk result (IsAhead board.now.state self.new.ahead self.new.ranges.items) }
        ensures err { OnErr result (self.new.due.items ≡ self.old.due.items) }
    {
        let state = board.state();
        let seen = self.found.look(
            state.model.get(),
            Period {
                before,
                moment: state.moment,
                committed: state.committed,
            },
            state.plan.activities(),
            &self.ranges,
            self.ahead.seen,
            state.next_id,
        )?;
        sort(&mut self.found.starts, alloc)?;
        push_ids(&mut self.due, &self.found.starts)?;
        mem::swap(&mut self.ranges, &mut self.found.ranges);
        self.ahead = Ahead {
            next_start: self.found.next_start,
            seen,
        };
        Ok(())
    }

    /// Brings the schedule up to date once the board's present has moved on from an earlier moment. If nothing started in between,
    /// no activity is looked at. Want of memory spoils the board.
    pub(crate) fn keep_up(
        &mut self,
        board: &mut Board,
        alloc: Global,
        before: u32,
    ) -> Result<(), AllocError>
        requires unspoiled { board.old.spoiled ≡ false }
        requires later { before ≤ board.old.state.moment }
        requires listed { self.old.due.items ≡ due_at before board.old.state }
        requires ahead { IsAheadAt before board.old.state self.old.ahead self.old.ranges.items }
        ensures same { OnOk result (board.new ≡ board.old) }
        ensures due { OnOk result (self.new.due.items ≡ due_in board.old.state) }
        ensures ahead { OnOk result (IsAhead board.old.state self.new.ahead self.new.ranges.items) }
        ensures err { OnErr result (self.new.due.items ≡ self.old.due.items) }
        ensures spoils { OnErr result (board.new.spoiled ≡ true) }
    {
        if board.state().moment < self.ahead.next_start {
            return Ok(());
        }
        match self.look(board, alloc, before) {
            Ok(()) => Ok(()),
            Err(fault) => {
                board.spoil();
                Err(fault)
            }
        }
    }
}
