//! Boards that moves fill, group by group.
ghost use Rattle.std.specs.Prelude.{◌≡◌, ◌≤◌, ◌<◌, true, false};
ghost use Rattle.pl_semantics.specs.Moves.{is_proper};

use crate::places::place_of;
use anyhow::{Result, bail};
use pl_board::Board;
use pl_check::{Accepted, accept};
use pl_moves::{apply, proper};
use pl_plan::RepairMove;
use pl_points::{Quiet, Steps};
use std::alloc::{AllocError, Global};
use std::sync::Arc;

const SPACING: u32 = 200;

// The kinds stand in the order of their numbers below.
const MODEL: &str = "lead 100
capacity power 20
capacity dish 1
level battery 0 1000000 500000
state camera { off warm on } start off any
kind warm_up { duration 5 use power 3 set camera warm at start set camera on at end }
kind aim { duration 3 use power 2 }
kind shot { duration 10 use power 4 lower battery 4 at end must camera on link start warm_up end -60 0 }
kind look { duration 20 alternative { slot a aim slot b shot order a end b start 0 5 } }
kind send { duration 10 use power 2 use dish 1 lower battery 4 at end }
kind survey { duration 60 alternative { slot a look slot b send order a end b start 0 10 order b end parent end 0 40 } }
kind charge { duration 20 use power 1 raise battery 9 at end }
kind test { duration 10 use power 2 use dish 1 lower battery 1 at end must camera on link start warm_up end -60 0 }
";

const WARM_UP: u32 = 0;

const SURVEY: u32 = 5;

const CHARGE: u32 = 6;

const TEST: u32 = 7;

/// What is shifted of a group of eight activities: its survey, which has four below it in two levels, and its test.
/// The test comes too late for its link, so each group has one conflict.
#[derive(Clone, Copy)]
pub struct Group {
    pub survey: u32,
    pub survey_start: u32,
    pub test: u32,
    pub test_start: u32,
}

fn empty(alloc: Global, groups: u32) -> Result<Board>
    requires { groups ≤ 1000 }
{
    let text = format!(in alloc; "horizon {} {MODEL}", (groups + 1) * SPACING)?;
    match accept(alloc, text.as_bytes())? {
        Accepted::Model(model) => Ok(Board::new(alloc, Arc::new(alloc, model)?, 10_000)?),
        Accepted::Refused(_) => bail!("the model is refused"),
    }
}

/// Whether a board may be asked about a move, and whether the move is proper.
pub fn can_try(board: &Board, mv: &RepairMove) -> bool
    ensures unspoiled { result ≡ true → board.now.spoiled ≡ false }
    ensures next { result ≡ true → board.now.state.next_id ≤ 3999999000 }
    ensures proper { result ≡ true → is_proper board.now.state mv.now ≡ true }
{
    !board.spoiled() && board.next_id() <= 3_999_999_000 && proper(board, mv)
}

fn make(alloc: Global, board: &mut Board, mv: &RepairMove) -> Result<()> {
    if !can_try(board, mv) {
        bail!("a move makes no sense");
    }
    apply(alloc, board, mv, &mut Steps::new(Quiet))?;
    Ok(())
}

// Adds an activity, and answers its id.
fn add(alloc: Global, board: &mut Board, kind: u32, start: u32) -> Result<u32> {
    let id = board.next_id();
    let goal = None;
    make(alloc, board, &RepairMove::Add { kind, start, goal })?;
    Ok(id)
}

// Details an activity by its only alternative, and answers the id of the first child.
fn detail(alloc: Global, board: &mut Board, id: u32) -> Result<u32> {
    let first = board.next_id();
    let alternative = 0;
    make(alloc, board, &RepairMove::Detail { id, alternative })?;
    Ok(first)
}

fn add_group(alloc: Global, board: &mut Board, place: u32) -> Result<Group>
    requires { place < 1000 }
{
    let begin = place * SPACING + 1;
    let (survey_start, test_start) = (begin + 10, begin + 110);
    add(alloc, board, WARM_UP, begin)?;
    let survey = add(alloc, board, SURVEY, survey_start)?;
    let look = detail(alloc, board, survey)?;
    detail(alloc, board, look)?;
    add(alloc, board, CHARGE, begin + 80)?;
    let test = add(alloc, board, TEST, test_start)?;
    Ok(Group {
        survey,
        survey_start,
        test,
        test_start,
    })
}

/// A board with so many groups, spread over the horizon, and the groups in the order in which they came.
pub fn filled(alloc: Global, count: u32) -> Result<(Board, Vec<Group>)>
    requires { count ≤ 1000 }
{
    let mut board = empty(alloc, count)?;
    let mut groups = Vec::new(alloc);
    for index in 0..count {
        groups.push(add_group(alloc, &mut board, place_of(index, count))?)?;
    }
    Ok((board, groups))
}

/// Shifts an activity, with all below it, one moment on and back: two replacements.
pub fn shift_and_back(alloc: Global, board: &mut Board, id: u32, start: u32) -> Result<()> {
    let there = start.saturating_add(1);
    make(alloc, board, &RepairMove::Shift { id, start: there })?;
    make(alloc, board, &RepairMove::Shift { id, start })
}
