//! What is left out of the moves that are tried.
ghost use Rattle.std.specs.Prelude.{◌≡◌, Bool, List, [], ◌∷◌, take, filter, length, IfOk, IfSome, OnOk};
ghost use Rattle.std.specs.List.{list_any};
ghost use Rattle.pl_plan.specs.declared.repair.RepairMove.{RepairMove};
ghost use Rattle.pl_plan.specs.declared.repair.RepairMove.TheVariants.{Shift};
ghost use Rattle.pl_semantics.specs.Whole.{IsWhole};
ghost use Rattle.pl_semantics.specs.Candidates.{is_worth, once_from, same_move};
ghost use Rattle.pl_cand.specs.Cuts.{are_alike, standing};
ghost use Rattle.pl_cand.specs.Marks.{AreMarked};

use crate::marks::{PLACES, is_marked, mark};
use crate::worth::is_worth;
use pl_plan::RepairMove;
use pl_semantics::PlanState;
use std::alloc::{AllocError, Global};

/// The most candidates.
pub(crate) const MOST: usize = 256;

/// Whether two moves are the same.
pub(crate) fn is_same(one: &RepairMove, other: &RepairMove) -> bool
    ensures { result ≡ same_move one.now other.now }
{
    match (*one, *other) {
        (
            RepairMove::Add { kind, start, goal },
            RepairMove::Add {
                kind: k,
                start: t,
                goal: g,
            },
        ) => kind == k && start == t && goal == g,
        (RepairMove::Delete { id }, RepairMove::Delete { id: i }) => id == i,
        (RepairMove::Shift { id, start }, RepairMove::Shift { id: i, start: t }) => {
            id == i && start == t
        }
        (
            RepairMove::Detail { id, alternative },
            RepairMove::Detail {
                id: i,
                alternative: a,
            },
        ) => id == i && alternative == a,
        (RepairMove::Abstract { id }, RepairMove::Abstract { id: i }) => id == i,
        (
            RepairMove::Assign { id, param, value },
            RepairMove::Assign {
                id: i,
                param: p,
                value: v,
            },
        ) => id == i && param == p && value == v,
        (RepairMove::Drop { goal }, RepairMove::Drop { goal: g }) => goal == g,
        _ => false,
    }
}

// Whether the move is a shift of this activity to this start.
fn is_shift(mv: &RepairMove, id: u32, start: u32) -> bool
    ensures { result ≡ same_move (Shift id start) mv.now }
{
    match *mv {
        RepairMove::Shift { id: i, start: t } => id == i && start == t,
        _ => false,
    }
}

fn contains_shift(kept: &[RepairMove], id: u32, start: u32) -> bool
    ensures { result ≡ list_any (same_move (Shift id start)) kept.now }
{
    for other in kept {
        if is_shift(other, id, start) {
            return true;
        }
    }
    false
}

fn contains_same(kept: &[RepairMove], mv: &RepairMove) -> bool
    ensures { result ≡ list_any (same_move mv.now) kept.now }
{
    for other in kept {
        if is_same(mv, other) {
            return true;
        }
    }
    false
}

fn contains(kept: &[RepairMove], mv: &RepairMove) -> bool
    ensures { result ≡ list_any (same_move mv.now) kept.now }
{
    match *mv {
        RepairMove::Shift { id, start } => contains_shift(kept, id, start),
        _ => contains_same(kept, mv),
    }
}

// Whether the move is among those that are kept. Each of these has a mark, so a move without one is known at once not to be among
// them.
#[tactic(auto, using(crate::proofs::Marking::unmarked))]
fn is_kept(kept: &[RepairMove], marks: &[bool], mv: &RepairMove) -> bool
    requires count { length marks.now ≡ 1024 }
    requires marked { AreMarked marks.now kept.now }
    ensures { result ≡ list_any (same_move mv.now) kept.now }
{
    if !is_marked(marks, mv) {
        return false;
    }
    contains(kept, mv)
}

// A move that was looked at, and whether it makes sense and changes something.
#[derive(Clone, Copy)]
struct Looked {
    mv: RepairMove,
    worth: bool,
}

// Whether both add an activity of a kind for a goal: then both make sense, or neither does.
fn are_alike(one: &RepairMove, other: &RepairMove) -> bool
    ensures { result ≡ are_alike one.now other.now }
{
    match (*one, *other) {
        (
            RepairMove::Add { kind, goal, .. },
            RepairMove::Add {
                kind: k,
                goal: g,
                ..
            },
        ) => kind == k && goal == g,
        _ => false,
    }
}

fn worth_behind(state: &PlanState, last: &Looked, mv: &RepairMove) -> bool
    requires whole { IsWhole state.now }
    requires last { last.now.worth ≡ is_worth state.now last.now.mv }
    ensures { result ≡ is_worth state.now mv.now }
{
    if are_alike(&last.mv, mv) {
        last.worth
    } else {
        is_worth(state, mv)
    }
}

// Whether a move makes sense and changes something, given the one that was looked at before it.
fn worth_after(state: &PlanState, last: &Option<Looked>, mv: &RepairMove) -> bool
    requires whole { IsWhole state.now }
    requires last { IfSome last.now (λ l. l.worth ≡ is_worth state.now l.mv) }
    ensures { result ≡ is_worth state.now mv.now }
{
    match last {
        Some(last) => worth_behind(state, last, mv),
        None => is_worth(state, mv),
    }
}

// Puts a move at the end if it makes sense, changes something and is not among those that are kept, as long as these are fewer than
// 256.
fn add_if_new(
    mv: &RepairMove,
    worth: bool,
    kept: &mut Vec<RepairMove>,
    marks: &mut [bool],
) -> Result<(), AllocError>
    requires count { length marks.old ≡ 1024 }
    requires marked { AreMarked marks.old kept.old.items }
    ensures stand { OnOk result ((P : RepairMove → Bool) (rest : List RepairMove) → worth ≡ P mv.now → standing P kept.old.items (mv.now ∷ rest) ≡ standing P kept.new.items rest) }
    ensures count { OnOk result (length marks.new ≡ 1024) }
    ensures marked { OnOk result (AreMarked marks.new kept.new.items) }
{
    if kept.len() >= MOST {
        return Ok(());
    }
    if !worth {
        return Ok(());
    }
    if is_kept(kept.as_slice(), marks, mv) {
        return Ok(());
    }
    kept.push(*mv)?;
    mark(marks, mv);
    Ok(())
}

/// The moves that make sense and change something, each where it first stands, and of these the first 256.
pub(crate) fn cut(
    alloc: Global,
    state: &PlanState,
    tried: &[RepairMove],
) -> Result<Vec<RepairMove>, AllocError>
    requires { IsWhole state.now }
    ensures { IfOk result (λ all. all.items ≡ take 256 (once_from [] (filter (is_worth state.now) tried.now))) }
{
    let mut kept = Vec::with_capacity(alloc, tried.len().min(MOST))?;
    let mut marks = [false; PLACES];
    let mut last = None;
    for mv in tried {
        let worth = worth_after(state, &last, mv);
        add_if_new(mv, worth, &mut kept, &mut marks)?;
        last = Some(Looked { mv: *mv, worth });
    }
    Ok(kept)
}
