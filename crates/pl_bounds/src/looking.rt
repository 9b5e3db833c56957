//! Looks at a timeline where it is past its limit, and right before and after that.
ghost use Rattle.std.specs.Prelude.{◌≡◌, false, IfOk, OnOk};
ghost use Rattle.pl_bounds.specs.Looks.{IsLimited, AreLooksAt};
ghost use Rattle.pl_bounds.specs.Sides.{code_of, value_at};

use crate::crossing::{first_back, first_past};
use crate::outside::{Look, Outside, Side};
use crate::reading::value_at;
use pl_board::Board;
use pl_conflict::{Code, Conflict};
use std::alloc::{AllocError, Global};

// How often at most a level is followed past one bar and back.
const CROSSINGS: u32 = 8;

/// Looks by rising moments, and the first moment after them.
#[derive(Drop)]
pub(crate) struct Looking {
    pub(crate) looks: Vec<Look>,
    pub(crate) next: u32,
}

fn code_of(side: Side) -> Code
    ensures { result ≡ code_of side }
{
    match side {
        Side::Over => Code::Over,
        Side::Low => Code::Low,
        Side::High => Code::High,
    }
}

impl Looking {
    // Looks at a moment, if it lies after those that were looked at, and before the horizon.
    fn look(&mut self, board: &Board, side: Side, line: u32, at: u32) -> Result<(), AllocError>
        requires unspoiled { board.now.spoiled ≡ false }
        requires limited { IsLimited board.now.state side line }
        requires looks { AreLooksAt board.now.state side line self.old.next self.old.looks.items }
        ensures { OnOk result (AreLooksAt board.now.state side line self.new.next self.new.looks.items) }
    {
        if at < self.next || board.model().horizon <= at {
            return Ok(());
        }
        let value = value_at(board, side, line, at);
        self.looks.push(Look { at, value })?;
        self.next = at + 1;
        Ok(())
    }

    /// Appends a look that was made before, if it is later than those that are there.
    pub(crate) fn keep(
        &mut self,
        board: &Board,
        outside: &Outside,
        look: Look,
    ) -> Result<(), AllocError>
        requires right { look.value ≡ value_at board.now.state outside.now.side outside.now.line look.at }
        requires looks { AreLooksAt board.now.state outside.now.side outside.now.line self.old.next self.old.looks.items }
        ensures { OnOk result (AreLooksAt board.now.state outside.now.side outside.now.line self.new.next self.new.looks.items) }
    {
        if look.at < self.next || board.model().horizon <= look.at {
            return Ok(());
        }
        self.looks.push(look)?;
        self.next = look.at + 1;
        Ok(())
    }

    // Looks where a level comes past a bar (see `crossing.rt`), and where it comes back.
    fn look_at_crossings(
        &mut self,
        board: &Board,
        side: Side,
        line: u32,
        bar: i64,
    ) -> Result<(), AllocError>
        requires unspoiled { board.now.spoiled ≡ false }
        requires limited { IsLimited board.now.state side line }
        requires looks { AreLooksAt board.now.state side line self.old.next self.old.looks.items }
        ensures { OnOk result (AreLooksAt board.now.state side line self.new.next self.new.looks.items) }
    {
        let end = board.model().horizon;
        let mut at = self.next;
        let mut count = 0;
        'crossings: while count < CROSSINGS && at < end {
            let past = first_past(board, side, line, bar, at, end);
            self.look(board, side, line, past)?;
            let back = first_back(board, side, line, bar, past, end);
            self.look(board, side, line, back)?;
            at = back;
            count += 1;
        }
        Ok(())
    }

    // Looks where a span begins, and where it ends.
    fn look_round(
        &mut self,
        board: &Board,
        side: Side,
        line: u32,
        conflict: &Conflict,
    ) -> Result<(), AllocError>
        requires unspoiled { board.now.spoiled ≡ false }
        requires limited { IsLimited board.now.state side line }
        requires looks { AreLooksAt board.now.state side line self.old.next self.old.looks.items }
        ensures { OnOk result (AreLooksAt board.now.state side line self.new.next self.new.looks.items) }
    {
        self.look(board, side, line, conflict.a.saturating_sub(1))?;
        self.look(board, side, line, conflict.a)?;
        self.look(board, side, line, conflict.b.saturating_sub(1))?;
        self.look(board, side, line, conflict.b)?;
        Ok(())
    }
}

/// Looks at a timeline around the spans in which it is past its limit.
pub(crate) fn looks_at(
    alloc: Global,
    board: &Board,
    side: Side,
    line: u32,
) -> Result<Vec<Look>, AllocError>
    requires unspoiled { board.now.spoiled ≡ false }
    requires limited { IsLimited board.now.state side line }
    ensures { IfOk result (λ looks. AreLooksAt board.now.state side line board.now.state.model.horizon looks.items) }
{
    let s = board.state();
    let mut looking = Looking {
        looks: Vec::new(alloc),
        next: s.moment,
    };
    for conflict in board.conflicts().iter() {
        if conflict.subject == line && conflict.code == code_of(side) {
            looking.look_round(board, side, line, conflict)?;
        }
    }
    Ok(looking.looks)
}

/// Looks at a level where it comes past a bar, and where it comes back.
pub(crate) fn looks_across(
    alloc: Global,
    board: &Board,
    side: Side,
    line: u32,
    bar: i64,
) -> Result<Vec<Look>, AllocError>
    requires unspoiled { board.now.spoiled ≡ false }
    requires limited { IsLimited board.now.state side line }
    ensures { IfOk result (λ looks. AreLooksAt board.now.state side line board.now.state.model.horizon looks.items) }
{
    let mut looking = Looking {
        looks: Vec::new(alloc),
        next: board.state().moment,
    };
    looking.look_at_crossings(board, side, line, bar)?;
    Ok(looking.looks)
}

/// Looks at one moment, if it lies ahead.
pub(crate) fn look_ahead(
    alloc: Global,
    board: &Board,
    side: Side,
    line: u32,
    at: u32,
) -> Result<Vec<Look>, AllocError>
    requires unspoiled { board.now.spoiled ≡ false }
    requires limited { IsLimited board.now.state side line }
    ensures { IfOk result (λ looks. AreLooksAt board.now.state side line board.now.state.model.horizon looks.items) }
{
    let mut looking = Looking {
        looks: Vec::new(alloc),
        next: board.state().moment,
    };
    looking.look(board, side, line, at)?;
    Ok(looking.looks)
}
